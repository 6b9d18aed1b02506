//! A round made whole: begun, run by a crew, and ended (docs/MODEL.md, "A run on threads").

ghost use Rattle.std.specs.Prelude.{◌≡◌, ◌<◌, length, OnOk};
ghost use Rattle.thread_loop.specs.Plants.{logs_of, IsReady};
ghost use Rattle.thread_loop.specs.Mergers.{Plays};

use crate::crew::Crew;
use crate::plant::Plant;
use sched_base::Gate;
use std::alloc::{AllocError, Global};
use std::mem::swap;
use std::thread::Threads;
use step_tables::Script;
use task_machine::Log;

impl Plant {
    /// Makes the next round whole by a crew. The one error is want of memory.
    pub fn play<R: Threads + Sync, C: Crew, G: Gate + Sync>(
        &mut self,
        rt: &R,
        alloc: Global,
        script: &Script,
        crew: &mut C,
        round: u32,
        gate: &G,
    ) -> Result<(), AllocError>
        requires ready { IsReady script.now round self.old }
        requires more { round < script.now.rounds }
        ensures { OnOk result (Plays script.now round self.old self.new (C.told crew.old) (C.told crew.new)) }
    {
        let mut hand = self.begin_round(alloc, script, round)?;
        crew.round(rt, self, script, &mut hand, round, gate);
        self.end_round(script, hand);
        Ok(())
    }

    /// Gives the logs of the last round away for others, which the next one fills.
    pub(crate) fn swap_logs(&mut self, logs: &mut Vec<Log>)
        ensures given { logs.new.items ≡ logs_of self.old }
        ensures same { self.new ≡ record self.old { logs = logs.old } }
    {
        swap(&mut self.logs, logs);
    }
}
