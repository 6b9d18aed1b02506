//! The plant: all workers and the injector of a script, whose rounds are made on boards, each caller's part on a thread
//! of its own (docs/MODEL.md, "A round on threads").

ghost use Rattle.std.specs.Prelude.{◌≡◌, ℕ, ◌<◌, ◌≤◌, ◌+◌, length, slice_index, slice_index_or, IfOk, OnOk};
ghost use Rattle.task_machine.specs.Logged.{Logged};
ghost use Rattle.task_machine.specs.Own.{Own, own_of};
ghost use Rattle.task_word.specs.Word.{seen_in};
ghost use Rattle.thread_loop.specs.Boards.{log_of, turn_room, IsSame};
ghost use Rattle.thread_loop.specs.Holders.{holder_by};
ghost use Rattle.run_model.specs.Standing.{opening, is_at_rest, is_still, no_later, no_timer, next_tick, earliest, first_keys, has_event};
ghost use Rattle.thread_loop.specs.Idle.{Opened};
ghost use Rattle.thread_loop.specs.Plants.{standing_of, tick_next, logs_of, next_round, is_still_seen, jump_of, earlier_in, Holds, IsReady, IsRoomy, CanRun, IsRun, MayEnd, EndsTurn, IsStopped, HasEnded};

use crate::holders::hold;
use crate::injector::{Injector, events_of};
use crate::opening::{holders_of, homes_of, keep_memory, logs_of, queue_of, words_of, workers_of};
use crate::round::{make_round, swap_logs};
use crate::worker::Worker;
use eb32_core::Forest;
use sched_base::{Gate, TaskId};
use shared_queue::SharedQueue;
use std::alloc::{AllocError, Global};
use std::thread::Threads;
use step_tables::{Nexts, Script};
use task_machine::{Log, Seen, Stand};
use task_word::seen_of;
use ticks::distance;
use wake_board::{Board, Pass, Passes, Words};

/// All that makes the rounds of a script. Contracts see what stands between rounds, and the logs of the last round.
#[derive(Drop)]
pub struct Plant {
    pub(crate) workers: Vec<Worker>,
    pub(crate) injector: Injector,
    pub(crate) queue: SharedQueue<Forest>,
    /// What stands between rounds, with the homes and holders of all tasks.
    pub(crate) words: Words,
    pub(crate) homes: Vec<u32>,
    pub(crate) holders: Vec<u32>,
    pub(crate) nexts: Nexts,
    /// The calls of the last round, caller by caller, the injector's last.
    pub(crate) logs: Vec<Log>,
    /// The tick of the next round.
    pub(crate) tick: u32,
    /// How many rounds are over.
    pub(crate) ended: u32,
    /// Whether a round was run that is not ended.
    pub(crate) ran: bool,
}

/// A round that was begun: its board, the passes of all callers, and the memory in which the passes lie while they are
/// out. Contracts see with what the board was opened, and each pass.
#[derive(Drop)]
pub struct RoundInHand {
    pub(crate) board: Board,
    pub(crate) passes: Passes,
    pub(crate) out: Vec<Pass>,
}

impl Plant {
    /// The plant before round 0 of a script. The one error is want of memory.
    pub fn new(alloc: Global, script: &Script) -> Result<Plant, AllocError>
        ensures opening { IfOk result (λ p. standing_of p ≡ opening script.now) }
        ensures tick { IfOk result (λ p. tick_next p ≡ script.now.start) }
        ensures ready { IfOk result (λ p. IsReady script.now 0 p) }
    {
        keep_memory(alloc);
        Ok(Plant {
            workers: workers_of(alloc, script)?,
            injector: Injector::new(alloc, script)?,
            queue: queue_of(alloc, script)?,
            words: words_of(alloc, script)?,
            homes: homes_of(alloc, script)?,
            holders: holders_of(alloc, script)?,
            nexts: Nexts::of(alloc, script)?,
            logs: logs_of(alloc, script)?,
            tick: script.start(),
            ended: 0,
            ran: false,
        })
    }

    /// Takes all memory of a round, the next one, and opens its board on a copy of the words. The one error is want of
    /// memory; after it what stands between rounds is unchanged.
    pub fn begin_round(
        &mut self,
        alloc: Global,
        script: &Script,
        round: u32,
    ) -> Result<RoundInHand, AllocError>
        requires ready { IsReady script.now round self.old }
        requires more { round < script.now.rounds }
        ensures can_run { IfOk result (λ hand. CanRun script.now round self.new hand) }
        ensures ready { IsReady script.now round self.new }
        ensures standing { standing_of self.new ≡ standing_of self.old }
        ensures tick { tick_next self.new ≡ tick_next self.old }
    {
        self.reserve(script, round)?;
        let words = self.words.try_clone()?;
        let (board, passes) = Board::from_words(
            alloc,
            words,
            &self.homes,
            &self.holders,
            &self.nexts,
        )?;
        let out = Vec::with_capacity(alloc, self.logs.len())?;
        Ok(RoundInHand { board, passes, out })
    }

    /// Makes room in all logs for the calls of a round.
    fn reserve(&mut self, script: &Script, round: u32) -> Result<(), AllocError>
        requires ready { IsReady script.now round self.old }
        ensures roomy { OnOk result (IsRoomy script.now round self.new) }
        ensures ready { IsReady script.now round self.new }
        ensures standing { standing_of self.new ≡ standing_of self.old }
        ensures tick { tick_next self.new ≡ tick_next self.old }
    {
        reserve_turns(&mut self.workers, script)?;
        self.injector.reserve_round(script, round)
    }

    /// Makes the turns of all workers and the injector's part of the round that was begun, each on a thread of its own
    /// or, where none can be started, on the caller's. It takes no memory of its own. Afterwards all passes are back in
    /// the hand, and each log is the own entries of its pass.
    pub fn run_round<R: Threads + Sync, G: Gate + Sync>(
        &mut self,
        rt: &R,
        script: &Script,
        hand: &mut RoundInHand,
        round: u32,
        gate: &G,
    )
        requires { CanRun script.now round self.old hand.old }
        ensures { IsRun script.now (next_round round self.old) self.new hand.new }
    {
        make_round(
            rt,
            script,
            &hand.board,
            &self.queue,
            self.tick,
            round,
            gate,
            &mut hand.passes,
            &mut hand.out,
            &mut self.injector,
            self.workers.as_mut_slice(),
        );
        swap_logs(
            self.workers.as_mut_slice(),
            &mut self.injector,
            self.logs.as_mut_slice(),
        );
        self.ran = true;
    }

    /// Ends the round that was run: its board is finished, and what stands on it stands between rounds from now on. The
    /// logs are as before.
    pub fn end_round(&mut self, script: &Script, hand: RoundInHand)
        requires { (g : Opened) × IsRun script.now g self.old hand }
        ensures ended { (g : Opened) → IsRun script.now g self.old hand → HasEnded script.now g self.new }
        ensures logs { logs_of self.new ≡ logs_of self.old }
    {
        let RoundInHand {
            board,
            passes,
            out: _,
        } = hand;
        self.words = board.finish(passes);
        hold_all(
            self.holders.as_mut_slice(),
            &self.homes,
            &self.logs,
            script.workers(),
        );
        end_turns(&mut self.workers, script);
        self.ended += 1;
        self.ran = false;
        self.tick = self.next_tick(script);
    }

    /// The tick of the next round, after one at the tick that is kept: one step later, or else that of the first timer.
    fn next_tick(&self, script: &Script) -> u32
        requires { IsStopped script.now self.now }
        ensures { (r : ℕ) → self.now.ended ≡ r + 1 → result ≡ next_tick script.now r self.now.tick (standing_of self.now) }
    {
        match self.jump(script) {
            Some(tick) => tick,
            None => self.tick.wrapping_add(script.step()),
        }
    }

    /// The tick of the first timer of all workers, where from version 2 on nothing else is left to wait for.
    fn jump(&self, script: &Script) -> Option<u32>
        requires { IsStopped script.now self.now }
        ensures { (r : ℕ) → self.now.ended ≡ r + 1 → result ≡ jump_of script.now r self.now.tick (standing_of self.now) }
    {
        if script.version() < 2 {
            return None;
        }
        if has_event(script, self.ended) {
            return None;
        }
        let Some(tick) = self.first_timer(script) else {
            return None;
        };
        if !self.is_still() {
            return None;
        }
        Some(tick)
    }

    /// The tick of the first timer of all workers; none where no timer is left.
    fn first_timer(&self, script: &Script) -> Option<u32>
        requires { IsStopped script.now self.now }
        ensures { result ≡ earliest self.now.tick (first_keys (standing_of self.now)) }
    {
        let mut first = None;
        for worker in self.workers.iter() {
            first = earlier_in(self.tick, first, worker.first_key(script));
        }
        first
    }

    /// The tick of the next round.
    pub fn tick(&self) -> u32
        ensures { result ≡ tick_next self.now }
    {
        self.tick
    }

    /// The calls of the last round that was run, caller by caller, the injector's last.
    pub fn logs(&self) -> &[Log]
        ensures { result.now ≡ logs_of self.now }
    {
        self.logs.as_slice()
    }

    /// Whether the run is over after this round, the last one that is over: all tasks rest or are gone, no event comes
    /// later, and no timer is left.
    pub fn is_at_rest(&self, script: &Script, round: u32) -> bool
        requires { IsReady script.now (round + 1) self.now }
        ensures { result ≡ is_at_rest script.now round (standing_of self.now) }
    {
        if !has_no_later(script, round) {
            return false;
        }
        if !self.has_no_timer(script) {
            return false;
        }
        self.is_still()
    }

    /// Whether all tasks rest or are gone.
    fn is_still(&self) -> bool
        requires { (s : Script) × Holds s (standing_of self.now) self.now }
        ensures { result ≡ is_still (standing_of self.now) }
    {
        for number in 0..self.words.tasks() {
            if !is_still_word(self.words.task(TaskId(number))) {
                return false;
            }
        }
        true
    }

    /// Whether no timer is left.
    fn has_no_timer(&self, script: &Script) -> bool
        requires { (r : ℕ) × IsReady script.now r self.now }
        ensures { result ≡ no_timer (standing_of self.now) }
    {
        for worker in self.workers.iter() {
            if worker.first_key(script).is_some() {
                return false;
            }
        }
        true
    }
}

/// Makes room in the log of each worker for the calls of a turn.
fn reserve_turns(workers: &mut Vec<Worker>, script: &Script) -> Result<(), AllocError>
    ensures count { length workers.new.items ≡ length workers.old.items }
    ensures same { (k : ℕ) (d : Worker) → k < length workers.old.items → IsSame (slice_index_or workers.old.items k d) (slice_index_or workers.new.items k d) }
    ensures reserved { OnOk result ((k : ℕ) (d : Worker) → k < length workers.old.items → turn_room script.now ≤ (log_of (slice_index_or workers.new.items k d)).room) }
{
    for worker in workers.iter_mut() {
        worker.reserve_turn(script)?;
    }
    Ok(())
}

/// Goes on with the calls of all workers: each task that a log leaves in its worker's hands has the worker as its
/// holder.
fn hold_all(holders: &mut [u32], homes: &[u32], logs: &[Log], workers: u32)
    requires sized { length homes.now ≡ length holders.old }
    requires logs { workers ≤ length logs.now }
    ensures own { (k i : ℕ) (o : Own) (d : Logged) → k < workers → i < length holders.old → slice_index homes.now i ≡ k → slice_index holders.old i ≡ holder_by k o → slice_index holders.new i ≡ holder_by k (own_of i o (slice_index_or logs.now k d).entries) }
    ensures others { (i : ℕ) → workers ≤ slice_index homes.now i → slice_index holders.new i ≡ slice_index holders.old i }
    ensures count { length holders.new ≡ length holders.old }
{
    for who in 0..workers {
        hold(holders, homes, who, logs[who as usize].as_slice());
    }
}

/// Ends the turns of all workers, of which none has a call left.
pub fn end_turns(workers: &mut Vec<Worker>, script: &Script)
    requires { (k : ℕ) (d : Worker) → k < length workers.old.items → MayEnd script.now (slice_index_or workers.old.items k d) }
    ensures count { length workers.new.items ≡ length workers.old.items }
    ensures ended { (k : ℕ) (d : Worker) → k < length workers.old.items → EndsTurn script.now (slice_index_or workers.old.items k d) (slice_index_or workers.new.items k d) }
{
    for worker in workers.iter_mut() {
        worker.end_turn(script);
    }
}

/// The earlier one of two ticks, as seen from now; where one is not there, the other one.
pub fn earlier_in(now: u32, first: Option<u32>, second: Option<u32>) -> Option<u32>
    ensures { result ≡ earlier_in now first second }
{
    let Some(early) = first else {
        return second;
    };
    let Some(late) = second else {
        return first;
    };
    if distance(early, now) <= distance(late, now) {
        return Some(early);
    }
    Some(late)
}

/// Whether a round has an event.
fn has_event(script: &Script, round: u32) -> bool
    ensures { result ≡ has_event script.now round }
{
    !events_of(script, round).is_empty()
}

/// Whether no event comes after a round.
fn has_no_later(script: &Script, round: u32) -> bool
    ensures { result ≡ no_later script.now round }
{
    let events = script.events();
    let count = events.len();
    if count == 0 {
        return true;
    }
    events[count - 1].round <= round
}

/// Whether the task of a word has nothing more to do.
fn is_still_word(word: u64) -> bool
    ensures { result ≡ is_still_seen (seen_in word) }
{
    match seen_of(word) {
        Seen::Gone => true,
        Seen::Live { stand, .. } => stand == Stand::Rest,
    }
}
