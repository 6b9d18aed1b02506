//! The calls of a turn on a board, one after another: each passes the gate, is made and logged, and the worker goes on
//! with its reply.

ghost use Rattle.std.specs.Prelude.{◌≡◌, ℕ, ◌+◌, ◌-◌, ◌^◌, ◌<◌, ◌≤◌, [], ◌∷◌, ◌++◌, length, None, Some};
ghost use Rattle.turn_steps.specs.Left.{asked, begun};
ghost use Rattle.turn_steps.specs.Has.{caller, said, drawn_by};
ghost use Rattle.thread_loop.specs.Workers.{number_of, tick_of, turns_of, takes_of, book_at_tick, stage_of, Fits};
ghost use Rattle.thread_loop.specs.Workers.{calls_in};
ghost use Rattle.thread_loop.specs.Boards.{log_of, IsSame};
ghost use Rattle.thread_loop.specs.BoardTurns.{OnBoard, HasCalled};

use crate::calls::{make, note};
use crate::worker::Worker;
use sched_base::{CallerId, Gate};
use step_tables::Script;
use task_machine::{Call, Reply};
use wake_board::{Board, Pass};

impl Worker {
    /// Begins a turn with an empty log.
    pub(crate) fn begin_log(&mut self, script: &Script, now: u32)
        requires fits { Fits script.now self.old }
        requires over { asked script.now (stage_of script.now self.old) ≡ None }
        requires few { turns_of self.old < 10000000 }
        ensures stage { stage_of script.now self.new ≡ begun script.now now (book_at_tick now self.old) }
        ensures fits { Fits script.now self.new }
        ensures number { number_of self.new ≡ number_of self.old }
        ensures tick { tick_of self.new ≡ now }
        ensures turns { turns_of self.new ≡ turns_of self.old + 1 }
        ensures takes { (i : ℕ) → takes_of self.new i ≡ takes_of self.old i }
        ensures book { asked script.now (stage_of script.now self.new) ≡ None → book_at_tick (tick_of self.new) self.new ≡ (stage_of script.now self.new).book }
        ensures entries { (log_of self.new).entries ≡ [] }
        ensures room { (log_of self.new).room ≡ (log_of self.old).room }
    {
        self.clear_log();
        self.begin_turn(script, now);
    }

    /// Forgets the calls of the last turn, and keeps their room.
    #[tactic(auto, unfolding(crate::specs::Workers::number_of, crate::specs::Workers::tick_of, crate::specs::Workers::turns_of, crate::specs::Workers::takes_of, crate::specs::Workers::book_at_tick, crate::specs::Workers::stage_of, crate::specs::Workers::Fits, crate::specs::Boards::log_of))]
    fn clear_log(&mut self)
        ensures entries { (log_of self.new).entries ≡ [] }
        ensures room { (log_of self.new).room ≡ (log_of self.old).room }
        ensures same { IsSame self.old self.new }
    {
        self.log.clear();
    }

    /// Makes the calls for which the worker asks, until it asks for none.
    pub(crate) fn make_calls<G: Gate>(
        &mut self,
        script: &Script,
        board: &Board,
        pass: &mut Pass,
        gate: &G,
    )
        requires on { OnBoard script.now board.now self.old pass.old }
        requires outs { pass.old.outs ≡ [] }
        requires undrawn { (i : ℕ) → drawn_by i (stage_of script.now self.old).left ≡ 0 }
        ensures on { OnBoard script.now board.now self.new pass.new }
        ensures called { HasCalled script.now self.old pass.old self.new pass.new }
        ensures over { asked script.now (stage_of script.now self.new) ≡ None }
        ensures fewer { calls_in script.now self.new ≤ calls_in script.now self.old }
    {
        while let Some(call) = self.next_call(script) {
            self.make_call(script, board, pass, &call, gate);
        }
    }

    /// Makes one call for which the worker asks.
    fn make_call<G: Gate>(
        &mut self,
        script: &Script,
        board: &Board,
        pass: &mut Pass,
        call: &Call,
        gate: &G,
    )
        requires on { OnBoard script.now board.now self.old pass.old }
        requires outs { pass.old.outs ≡ [] }
        requires undrawn { (i : ℕ) → drawn_by i (stage_of script.now self.old).left ≡ 0 }
        requires asked { asked script.now (stage_of script.now self.old) ≡ Some call.now }
        ensures on { OnBoard script.now board.now self.new pass.new }
        ensures called { HasCalled script.now self.old pass.old self.new pass.new }
        ensures undrawn { (i : ℕ) → drawn_by i (stage_of script.now self.new).left ≡ 0 }
        ensures fewer { calls_in script.now self.new < calls_in script.now self.old }
    {
        self.pass_gate(gate);
        let reply = make(board, pass, call);
        self.note_call(call, &reply);
        self.heard(script, &reply);
    }

    /// Passes the gate before a call.
    pub(crate) fn pass_gate<G: Gate>(&self, gate: &G) {
        let nth = self.log.as_slice().len() as u64 + 1;
        gate.at(CallerId(self.number), nth);
    }

    /// Logs a call with its reply.
    #[tactic(auto, unfolding(crate::specs::Workers::number_of, crate::specs::Workers::tick_of, crate::specs::Workers::turns_of, crate::specs::Workers::takes_of, crate::specs::Workers::book_at_tick, crate::specs::Workers::stage_of, crate::specs::Workers::Fits, crate::specs::Boards::log_of))]
    pub(crate) fn note_call(&mut self, call: &Call, reply: &Reply)
        requires { length (log_of self.old).entries < (log_of self.old).room }
        ensures entries { (log_of self.new).entries ≡ (log_of self.old).entries ++ said (caller (number_of self.old)) call.now reply.now ∷ [] }
        ensures room { (log_of self.new).room ≡ (log_of self.old).room }
        ensures same { IsSame self.old self.new }
    {
        let who = CallerId(self.number);
        note(&mut self.log, who, call, reply);
    }
}
