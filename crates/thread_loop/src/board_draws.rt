//! The run of a shared task that was drawn: its body goes out, and comes back right after the take.

ghost use Rattle.std.specs.Prelude.{◌≡◌, ℕ, ◌<◌, [], length, None};
ghost use Rattle.step_tables.specs.Nexts.{nexts_of};
ghost use Rattle.task_machine.specs.declared.calls.Call.TheVariants as calls;
ghost use Rattle.task_machine.specs.declared.calls.Reply.TheVariants as replies;
ghost use Rattle.turn_steps.specs.Left.{asked, draws_now};
ghost use Rattle.turn_steps.specs.Has.{drawn_by};
ghost use Rattle.wake_board.specs.Seen.{Held};
ghost use Rattle.thread_loop.specs.Workers.{stage_of};
ghost use Rattle.thread_loop.specs.Workers.{calls_in};
ghost use Rattle.thread_loop.specs.BoardTurns.{OnBoard, HasCalled, IsDrawn, at_home};
ghost use Rattle.thread_loop.specs.Calls.{IsMade};

use crate::worker::Worker;
use sched_base::{Gate, TaskId};
use step_tables::Script;
use task_machine::{Call, Reply};
use wake_board::{Board, Pass};

impl Worker {
    /// Logs the draw of a task, and takes its body out.
    pub(crate) fn begin_drawn(
        &mut self,
        script: &Script,
        board: &Board,
        pass: &mut Pass,
        id: TaskId,
    )
        requires on { (p : Held) × OnBoard script.now board.now self.old p × IsMade board.now.start p (calls.Draw id) replies.Done pass.old }
        requires outs { pass.old.outs ≡ [] }
        requires over { asked script.now (stage_of script.now self.old) ≡ None }
        requires may_draw { 0 < draws_now script.now (stage_of script.now self.old) }
        requires exists { id.0 < length script.now.tasks }
        requires nexts { board.now.start.nexts ≡ nexts_of script.now }
        ensures on { OnBoard script.now board.now self.new (at_home pass.new) }
        ensures called { (p : Held) → OnBoard script.now board.now self.old p → IsMade board.now.start p (calls.Draw id) replies.Done pass.old → HasCalled script.now self.old p self.new (at_home pass.new) }
        ensures drawn { IsDrawn script.now self.new pass.new id.0 }
        ensures fewer { calls_in script.now self.new < calls_in script.now self.old }
    {
        let body = board.body_out(pass, id);
        self.note_call(&Call::Draw(id), &Reply::Done);
        self.drew(script, id, body);
    }

    /// Takes the task that was drawn, and gives its body back for the next run.
    pub(crate) fn take_drawn<G: Gate>(
        &mut self,
        script: &Script,
        board: &Board,
        pass: &mut Pass,
        id: TaskId,
        gate: &G,
    )
        requires on { OnBoard script.now board.now self.old (at_home pass.old) }
        requires drawn { IsDrawn script.now self.old pass.old id.0 }
        requires nexts { board.now.start.nexts ≡ nexts_of script.now }
        ensures on { OnBoard script.now board.now self.new pass.new }
        ensures called { HasCalled script.now self.old (at_home pass.old) self.new pass.new }
        ensures outs { pass.new.outs ≡ [] }
        ensures undrawn { (i : ℕ) → drawn_by i (stage_of script.now self.new).left ≡ 0 }
        ensures fewer { calls_in script.now self.new < calls_in script.now self.old }
    {
        self.pass_gate(gate);
        let reply = Reply::Task(board.take(pass, id));
        self.note_call(&Call::Take(id), &reply);
        self.heard(script, &reply);
        let body = self.body_of(script, id);
        board.body_in(pass, id, body);
    }
}
