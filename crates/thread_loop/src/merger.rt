//! A merger makes one history of the calls of a round, while the plant makes the next one (docs/MODEL.md, "A run on
//! threads").

ghost use Rattle.std.specs.Prelude.{◌≡◌, ◌<◌, ◌^◌, length, IfOk, OnOk};
ghost use Rattle.run_model.specs.Standing.{opening};
ghost use Rattle.history_weave.specs.Places.{entry_count};
ghost use Rattle.thread_loop.specs.Mergers.{logs_in, entries_of, IsMergerOf, CanMerge, IsMerged, TakesOver};

use crate::opening::{logs_of, machine_of};
use crate::plant::Plant;
use history_weave::Weaver;
use std::alloc::{AllocError, Global};
use step_tables::Script;
use task_machine::{Entry, Log, Machine};

/// The calls of a round that is over, caller by caller, and the machine on which their one history begins. Contracts see
/// the machine, the logs, and the entries of the history that was merged last.
#[derive(Drop)]
pub struct Merger {
    machine: Machine,
    weaver: Weaver,
    logs: Vec<Log>,
}

impl Merger {
    /// The merger before round 0 of a script, with no calls. The one error is want of memory.
    pub fn new(alloc: Global, script: &Script) -> Result<Merger, AllocError>
        ensures { IfOk result (λ w. IsMergerOf script.now (opening script.now).state w) }
    {
        let machine = machine_of(alloc, script)?;
        let weaver = Weaver::new(alloc, script.tasks().len() as u32, script.workers())?;
        let logs = logs_of(alloc, script)?;
        Ok(Merger {
            machine,
            weaver,
            logs,
        })
    }

    /// Takes over the logs of the plant's last round, and gives it its own for the next one.
    pub fn take_over(&mut self, plant: &mut Plant)
        ensures { TakesOver self.old self.new plant.old plant.new }
    {
        plant.swap_logs(&mut self.logs);
    }

    /// How many calls there are to merge.
    pub fn count(&self) -> usize
        requires { entry_count (logs_in self.now) < 2 ^ 64 }
        ensures { result ≡ entry_count (logs_in self.now) }
    {
        count(self.logs.as_slice())
    }

    /// Merges the calls into one history, and leads the machine to its end. The one error is want of memory; after it the
    /// merger is unchanged.
    pub fn merge(&mut self) -> Result<(), AllocError>
        requires { CanMerge self.old }
        ensures { OnOk result (IsMerged self.old self.new) }
    {
        let count = self.count();
        self.weaver.reserve(count)?;
        self.weaver.weave(&mut self.machine, &self.logs);
        Ok(())
    }

    /// The entries of the history that was merged last.
    pub fn entries(&self) -> &[Entry]
        ensures { result.now ≡ entries_of self.now }
    {
        self.weaver.entries()
    }
}

/// How many entries some logs have together.
fn count(logs: &[Log]) -> usize
    requires { entry_count logs.now < 2 ^ 64 }
    ensures { result ≡ entry_count logs.now }
{
    let mut count = 0;
    for log in logs {
        count += log.as_slice().len();
    }
    count
}
