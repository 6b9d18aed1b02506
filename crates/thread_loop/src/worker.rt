//! A worker: its turn as a state that is asked for one call at a time.
#![tactic(auto, unfolding(crate::specs::Workers::number_of, crate::specs::Workers::tick_of, crate::specs::Workers::turns_of, crate::specs::Workers::takes_of, crate::specs::Workers::book_at_tick, crate::specs::Workers::stage_of, crate::specs::Workers::Fits, crate::specs::Boards::log_of))]

ghost use Rattle.std.specs.Prelude.{◌≡◌, ℕ, ◌+◌, ◌-◌, ◌^◌, ◌<◌, nat_lt, length, map, slice_index_or, if◌then◌else◌, IfOk, IfSome, None, Some, IsTrue};
ghost use Rattle.step_tables.specs.Sound.{is_sound};
ghost use Rattle.std.specs.Option.{option_map};
ghost use Rattle.sched_base.specs.KeyedList.{root_at};
ghost use Rattle.step_tables.specs.declared.tables.Script.{Script};
ghost use Rattle.task_machine.specs.declared.calls.Call.{Call};
ghost use Rattle.queue_model.specs.Clock.{Window, behind};
ghost use Rattle.queue_model.specs.Walk.{walked};
ghost use Rattle.eb32_core.specs.Forest.{seen_of};
ghost use Rattle.wait_queue.specs.Timers.{first_key, wait_item};
ghost use Rattle.run_queue.specs.Runners.{now_of, run_item};
ghost use Rattle.run_model.specs.Tables.{home_of, row_number};
ghost use Rattle.run_model.specs.Standing.{blank_book, turn_ended};
ghost use Rattle.turn_steps.specs.Left.{asked, begun, heard, drew, draws_now};
ghost use Rattle.turn_steps.specs.Has.{CanGive, caller};
ghost use Rattle.thread_loop.specs.Boards.{log_of, IsSame};
ghost use Rattle.thread_loop.specs.Turns.{drawn_run, ended};
ghost use Rattle.thread_loop.specs.Workers.{number_of, tick_of, turns_of, takes_of, book_at_tick, stage_of, Fits, RowsFit, is_taken, body_of, takes_after, TellsTakes};

use crate::lookups::row_at;
use crate::queues::Queues;
use crate::turn::Turn;
use eb32_core::Forest;
use sched_base::TaskId;
use std::alloc::{AllocError, Global};
use std::mem;
use step_tables::Script;
use task_machine::{Call, Log, Reply};
use wake_board::Body;

/// A worker of a script. Contracts see where it stands in its turn, with its book, and its log.
#[derive(Drop)]
pub struct Worker {
    pub(crate) number: u32,
    turns: u32,
    rows: Vec<u32>,
    takes: Vec<u64>,
    turn: Turn,
    /// The calls of its last turn on a board.
    pub(crate) log: Log,
}

impl Worker {
    /// A worker with empty queues, which has begun no turn.
    pub fn new(alloc: Global, number: u32, script: &Script) -> Result<Worker, AllocError>
        requires { number < script.now.workers }
        ensures fits { IfOk result (λ w. Fits script.now w) }
        ensures number { IfOk result (λ w. number_of w ≡ number) }
        ensures turns { IfOk result (λ w. turns_of w ≡ 0) }
        ensures takes { IfOk result (λ w. (i : ℕ) → takes_of w i ≡ 0) }
        ensures over { IfOk result (λ w. asked script.now (stage_of script.now w) ≡ None) }
        ensures book { IfOk result (λ w. (T : ℕ) → book_at_tick T w ≡ blank_book (length script.now.tasks)) }
        ensures stage { IfOk result (λ w. (stage_of script.now w).book ≡ blank_book (length script.now.tasks)) }
    {
        let tasks = script.tasks().len();
        let mut rows = Vec::new(alloc);
        rows.resize(tasks, 0)?;
        let mut takes = Vec::new(alloc);
        takes.resize(tasks, 0)?;
        Ok(Worker {
            number,
            turns: 0,
            rows,
            takes,
            turn: Turn::over(Queues::new(alloc, script)?),
            log: Log::new(alloc),
        })
    }

    /// While all timers lie in the window of both ticks, the book is the same from the tick of the last turn
    /// and from `now`. The call does nothing, and its contract is the law.
    pub fn keep_book(&self, script: &Script, now: u32)
        requires fits { Fits script.now self.now }
        requires before { Window behind (tick_of self.now) (book_at_tick (tick_of self.now) self.now).wait }
        requires after { Window behind now (book_at_tick (tick_of self.now) self.now).wait }
        ensures { book_at_tick now self.now ≡ book_at_tick (tick_of self.now) self.now }
    {
        self.turn.queues.keep_book(script, self.turn.tick, now);
    }

    /// Begins a turn at a tick. No turn is open, and fewer than 10,000,000 were begun.
    pub fn begin_turn(&mut self, script: &Script, now: u32)
        requires fits { Fits script.now self.old }
        requires over { asked script.now (stage_of script.now self.old) ≡ None }
        requires few { turns_of self.old < 10000000 }
        ensures stage { stage_of script.now self.new ≡ begun script.now now (book_at_tick now self.old) }
        ensures fits { Fits script.now self.new }
        ensures log { log_of self.new ≡ log_of self.old }
        ensures number { number_of self.new ≡ number_of self.old }
        ensures tick { tick_of self.new ≡ now }
        ensures turns { turns_of self.new ≡ turns_of self.old + 1 }
        ensures takes { (i : ℕ) → takes_of self.new i ≡ takes_of self.old i }
        ensures book { asked script.now (stage_of script.now self.new) ≡ None → book_at_tick (tick_of self.new) self.new ≡ (stage_of script.now self.new).book }
    {
        self.turn.queues.keep_few(script);
        self.turns += 1;
        self.turn.begin(script, now);
    }

    /// The next call; none exactly where the turn is over.
    pub fn next_call(&self, script: &Script) -> Option<Call>
        requires { Fits script.now self.now }
        ensures { result ≡ asked script.now (stage_of script.now self.now) }
    {
        self.turn.next_call(script)
    }

    /// Goes on with the reply to the next call.
    pub fn heard(&mut self, script: &Script, reply: &Reply)
        requires fits { Fits script.now self.old }
        requires can_give { (call : Call) × (asked script.now (stage_of script.now self.old) ≡ Some call) × CanGive script.now (stage_of script.now self.old) call reply.now }
        requires takes { (call : Call) → asked script.now (stage_of script.now self.old) ≡ Some call → TellsTakes self.old call reply.now }
        ensures stage { stage_of script.now self.new ≡ heard script.now (caller (number_of self.old)) (tick_of self.old) reply.now (stage_of script.now self.old) }
        ensures fits { Fits script.now self.new }
        ensures log { log_of self.new ≡ log_of self.old }
        ensures number { number_of self.new ≡ number_of self.old }
        ensures tick { tick_of self.new ≡ tick_of self.old }
        ensures turns { turns_of self.new ≡ turns_of self.old }
        ensures takes { (call : Call) → asked script.now (stage_of script.now self.old) ≡ Some call → (i : ℕ) → takes_of self.new i ≡ takes_after call i (takes_of self.old i) }
        ensures book { asked script.now (stage_of script.now self.new) ≡ None → book_at_tick (tick_of self.new) self.new ≡ (stage_of script.now self.new).book }
    {
        let taken = self.turn.to_take(script);
        let row = self.row_to_take(taken);
        self.turn.heard(script, self.number, row, reply);
        self.count(script, taken);
    }

    /// The row by which a task runs that is taken next.
    fn row_to_take(&self, taken: Option<TaskId>) -> u32
        requires { IfSome taken (λ id. id.0 < length self.now.rows.items) }
        ensures { IfSome taken (λ id. result ≡ slice_index_or self.now.rows.items id.0 0) }
    {
        match taken {
            Some(id) => self.rows[id.0 as usize],
            None => 0,
        }
    }

    /// Counts the take of a task, if there is one, and goes on to the task's next row.
    fn count(&mut self, script: &Script, taken: Option<TaskId>)
        requires sound { IsTrue (is_sound script.now) }
        requires rows { RowsFit script.now self.old.rows.items self.old.takes.items }
        requires exists { IfSome taken (λ id. id.0 < length script.now.tasks) }
        requires few { IfSome taken (λ id. takes_of self.old id.0 < 2 ^ 48 - 1) }
        ensures same { self.new ≡ record self.old { rows = self.new.rows; takes = self.new.takes } }
        ensures rows { RowsFit script.now self.new.rows.items self.new.takes.items }
        ensures takes { (i : ℕ) → takes_of self.new i ≡ (if is_taken i taken then takes_of self.old i + 1 else takes_of self.old i) }
    {
        if let Some(id) = taken {
            let task = id.0 as usize;
            self.rows[task] = row_at(script, id, self.rows[task]).next;
            self.takes[task] += 1;
        }
    }

    /// Ends the turn, of which no call is left: in version 2 of the script the timers are settled at its tick, and
    /// in version 1 nothing changes.
    pub fn end_turn(&mut self, script: &Script)
        requires fits { Fits script.now self.old }
        requires over { asked script.now (stage_of script.now self.old) ≡ None }
        ensures book { book_at_tick (tick_of self.old) self.new ≡ turn_ended script.now (tick_of self.old) (book_at_tick (tick_of self.old) self.old) }
        ensures stage { stage_of script.now self.new ≡ ended script.now (tick_of self.old) (stage_of script.now self.old) }
        ensures over { asked script.now (stage_of script.now self.new) ≡ None }
        ensures fits { Fits script.now self.new }
        ensures log { log_of self.new ≡ log_of self.old }
        ensures number { number_of self.new ≡ number_of self.old }
        ensures tick { tick_of self.new ≡ tick_of self.old }
        ensures turns { turns_of self.new ≡ turns_of self.old }
        ensures takes { (i : ℕ) → takes_of self.new i ≡ takes_of self.old i }
    {
        self.turn.end(script);
    }

    /// Whether a shared task may be drawn now.
    pub fn may_draw(&self, script: &Script) -> bool
        requires { Fits script.now self.now }
        ensures { result ≡ nat_lt 0 (draws_now script.now (stage_of script.now self.now)) }
    {
        self.turn.draws(script) > 0
    }

    /// Goes on with a shared task that was drawn, and with its body.
    pub fn drew(&mut self, script: &Script, id: TaskId, body: Body)
        requires fits { Fits script.now self.old }
        requires may_draw { 0 < draws_now script.now (stage_of script.now self.old) }
        requires exists { id.0 < length script.now.tasks }
        requires shared { home_of script.now id.0 ≡ script.now.workers }
        requires takes { body.takes < 2 ^ 48 - 1 }
        requires row { body.row ≡ row_number script.now id.0 body.takes }
        ensures stage { stage_of script.now self.new ≡ drew script.now id.0 (stage_of script.now self.old) }
        ensures fits { Fits script.now self.new }
        ensures log { log_of self.new ≡ log_of self.old }
        ensures number { number_of self.new ≡ number_of self.old }
        ensures tick { tick_of self.new ≡ tick_of self.old }
        ensures turns { turns_of self.new ≡ turns_of self.old }
        ensures told { takes_of self.new id.0 ≡ body.takes }
        ensures takes { (i : ℕ) → home_of script.now i ≡ number_of self.old → takes_of self.new i ≡ takes_of self.old i }
    {
        self.turn.drew(script, id);
        self.rows[id.0 as usize] = body.row;
        self.takes[id.0 as usize] = body.takes;
    }

    /// While a drawn task runs, its next row, and its takes after the take. None exactly where no drawn
    /// task runs.
    pub fn body(&self, script: &Script) -> Option<Body>
        requires { Fits script.now self.now }
        ensures { result ≡ option_map (λ id. body_of script.now self.now id.0) (drawn_run script.now (stage_of script.now self.now).left) }
    {
        match self.turn.drawn_run(script) {
            Some(id) => Some(Body {
                row: self.rows[id.0 as usize],
                takes: self.takes[id.0 as usize],
            }),
            None => None,
        }
    }

    /// The row of a task's next run, and its takes, as far as the worker knows them.
    pub(crate) fn body_of(&self, script: &Script, id: TaskId) -> Body
        requires fits { Fits script.now self.now }
        requires exists { id.0 < length script.now.tasks }
        ensures { result ≡ body_of script.now self.now id.0 }
    {
        Body {
            row: self.rows[id.0 as usize],
            takes: self.takes[id.0 as usize],
        }
    }

    /// The calls of its last turn on a board.
    pub fn log(&self) -> &Log
        ensures { result.now ≡ log_of self.now }
    {
        &self.log
    }

    /// Gives its log for another one.
    pub fn swap_log(&mut self, log: &mut Log)
        ensures taken { log_of self.new ≡ log.old }
        ensures given { log.new ≡ log_of self.old }
        ensures same { IsSame self.old self.new }
    {
        mem::swap(&mut self.log, log);
    }

    /// The forest of the worker's queues: root 0's list stands for the wait list of its book, root 1's for
    /// its run list.
    pub fn forest(&self) -> &Forest
        ensures timers { (s : Script) (T : ℕ) → Fits s self.now → (book_at_tick T self.now).wait.items ≡ map wait_item (walked T (root_at 0 (seen_of result.now)).items) }
        ensures runners { (s : Script) (T : ℕ) → Fits s self.now → let l = (book_at_tick T self.now).run in l.items ≡ map (run_item l.count) (walked (now_of l.count) (root_at 1 (seen_of result.now)).items) }
    {
        self.turn.queues.forest()
    }

    /// The key of the first timer, as seen from the tick of the turn that was begun last; none where there is
    /// none.
    pub fn first_key(&self, script: &Script) -> Option<u32>
        requires { Fits script.now self.now }
        ensures { result ≡ first_key (book_at_tick (tick_of self.now) self.now).wait.items }
    {
        self.turn.queues.first_key(script, self.turn.tick)
    }
}
