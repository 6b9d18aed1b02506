//! A worker's turn on a board: it makes its calls through a pass, and logs each.

ghost use Rattle.std.specs.Prelude.{◌≡◌, ℕ, ◌+◌, ◌-◌, ◌*◌, ◌^◌, ◌<◌, ◌≤◌, ◌⊎◌, [], length, true, false, None, OnOk, OnErr};
ghost use Rattle.run_model.specs.Turn.{Turn};
ghost use Rattle.turn_steps.specs.Left.{asked, draws_now};
ghost use Rattle.turn_steps.specs.Has.{caller};
ghost use Rattle.step_tables.specs.Nexts.{nexts_of};
ghost use Rattle.wake_board.specs.Seen.{IsPassOf};
ghost use Rattle.thread_loop.specs.Workers.{number_of, tick_of, turns_of, book_at_tick, stage_of, Fits};
ghost use Rattle.thread_loop.specs.Workers.{calls_in};
ghost use Rattle.thread_loop.specs.Boards.{log_of, IsSame, turn_room, IsBoardOf, HasListed, KeepsTakes, FewKnown, IsOwn, IsMissed, HasServed, HasGrown};
ghost use Rattle.thread_loop.specs.BoardTurns.{OnBoard, HasCalled};

use crate::lookups::groups;
use crate::worker::Worker;
use sched_base::{Gate, KeyedLists};
use shared_queue::SharedQueue;
use std::alloc::AllocError;
use step_tables::Script;
use wake_board::{Board, Pass};

/// The most calls of a turn: a get for each group, a wake for each task's timer, 35 for each of at most
/// `depth + 3` runs, and 36 for each of at most `depth` draws. At the limits of scripts they are 75,265.
fn turn_room(script: &Script) -> usize
    ensures { result ≡ turn_room script.now }
{
    let depth = script.depth() as usize;
    groups(script) as usize + script.tasks().len() + ((depth + 3) * 35 + depth * 36)
}

impl Worker {
    /// Makes room in the log for the calls of a turn. The one error is want of memory.
    #[tactic(auto, unfolding(crate::specs::Workers::number_of, crate::specs::Workers::tick_of, crate::specs::Workers::turns_of, crate::specs::Workers::takes_of, crate::specs::Workers::book_at_tick, crate::specs::Workers::stage_of, crate::specs::Workers::Fits, crate::specs::Boards::log_of))]
    pub fn reserve_turn(&mut self, script: &Script) -> Result<(), AllocError>
        ensures same { IsSame self.old self.new }
        ensures entries { (log_of self.new).entries ≡ (log_of self.old).entries }
        ensures reserved { OnOk result (turn_room script.now ≤ (log_of self.new).room) }
        ensures refused { OnErr result (self.new ≡ self.old) }
    {
        let kept = self.log.as_slice().len();
        self.log.reserve(turn_room(script).saturating_sub(kept))
    }

    /// Makes a turn at a tick on a board, through the worker's pass, and logs each call. Before each call it passes the
    /// gate, with the call's number in the turn, from 1 on; looking for a shared task to draw is one call, whatever
    /// comes of it. The turn is over after `depth` draws, or where no shared task was found.
    pub fn turn<G: Gate, K: KeyedLists>(
        &mut self,
        script: &Script,
        board: &Board,
        pass: &mut Pass,
        queue: &SharedQueue<K>,
        now: u32,
        gate: &G,
    )
        requires fits { Fits script.now self.old }
        requires over { asked script.now (stage_of script.now self.old) ≡ None }
        requires few { turns_of self.old < 10000000 }
        requires reserved { turn_room script.now ≤ (log_of self.old).room }
        requires board { IsBoardOf script.now board.now }
        requires nexts { board.now.start.nexts ≡ nexts_of script.now }
        requires pass { IsPassOf board.now pass.old }
        requires number { pass.old.who ≡ number_of self.old }
        requires outs { pass.old.outs ≡ [] }
        requires listed { HasListed (book_at_tick now self.old) pass.old }
        requires takes { KeepsTakes script.now self.old pass.old }
        requires few_takes { FewKnown script.now (number_of self.old) pass.old }
        requires few_entries { length pass.old.entries < 2 ^ 39 }
        requires own { IsOwn script.now (number_of self.old) (book_at_tick now self.old) }
        requires queue { length queue.now.ranks ≡ length script.now.tasks }
        ensures fits { Fits script.now self.new }
        ensures over { asked script.now (stage_of script.now self.new) ≡ None }
        ensures number { number_of self.new ≡ number_of self.old }
        ensures tick { tick_of self.new ≡ now }
        ensures turns { turns_of self.new ≡ turns_of self.old + 1 }
        ensures turn { Turn script.now (caller (number_of self.old)) now (book_at_tick now self.old) (log_of self.new).entries (book_at_tick now self.new) }
        ensures grown { HasGrown pass.old (log_of self.new).entries pass.new }
        ensures served { HasServed script.now (log_of self.new).entries pass.new }
        ensures listed { HasListed (book_at_tick now self.new) pass.new }
        ensures takes { KeepsTakes script.now self.new pass.new }
        ensures own { IsOwn script.now (number_of self.new) (book_at_tick now self.new) }
        ensures room { (log_of self.new).room ≡ (log_of self.old).room }
    {
        self.begin_log(script, now);
        self.make_calls(script, board, pass, gate);
        self.make_draws(script, board, pass, queue, gate);
    }

    /// Makes draws, each with the run of its task, until the worker may make no more or no shared task is found.
    fn make_draws<G: Gate, K: KeyedLists>(
        &mut self,
        script: &Script,
        board: &Board,
        pass: &mut Pass,
        queue: &SharedQueue<K>,
        gate: &G,
    )
        requires on { OnBoard script.now board.now self.old pass.old }
        requires outs { pass.old.outs ≡ [] }
        requires over { asked script.now (stage_of script.now self.old) ≡ None }
        requires nexts { board.now.start.nexts ≡ nexts_of script.now }
        requires queue { length queue.now.ranks ≡ length script.now.tasks }
        ensures on { OnBoard script.now board.now self.new pass.new }
        ensures called { HasCalled script.now self.old pass.old self.new pass.new }
        ensures over { asked script.now (stage_of script.now self.new) ≡ None }
        ensures served { (draws_now script.now (stage_of script.now self.new) ≡ 0) ⊎ ((i : ℕ) → i < length script.now.tasks → IsMissed pass.new i) }
    {
        while self.may_draw(script) {
            if !self.draw_next(script, board, pass, queue, gate) {
                return;
            }
        }
    }

    /// Draws a shared task and makes its run; false where none was found.
    fn draw_next<G: Gate, K: KeyedLists>(
        &mut self,
        script: &Script,
        board: &Board,
        pass: &mut Pass,
        queue: &SharedQueue<K>,
        gate: &G,
    ) -> bool
        requires on { OnBoard script.now board.now self.old pass.old }
        requires outs { pass.old.outs ≡ [] }
        requires over { asked script.now (stage_of script.now self.old) ≡ None }
        requires may_draw { 0 < draws_now script.now (stage_of script.now self.old) }
        requires nexts { board.now.start.nexts ≡ nexts_of script.now }
        requires queue { length queue.now.ranks ≡ length script.now.tasks }
        ensures on { OnBoard script.now board.now self.new pass.new }
        ensures called { HasCalled script.now self.old pass.old self.new pass.new }
        ensures over { asked script.now (stage_of script.now self.new) ≡ None }
        ensures fewer { result ≡ true → calls_in script.now self.new < calls_in script.now self.old }
        ensures missed { result ≡ false → (i : ℕ) → i < length script.now.tasks → IsMissed pass.new i }
    {
        self.pass_gate(gate);
        match queue.draw_for(board, pass) {
            Some(id) => {
                self.begin_drawn(script, board, pass, id);
                self.take_drawn(script, board, pass, id, gate);
                self.make_calls(script, board, pass, gate);
                true
            }
            None => false,
        }
    }
}
