//! Follows the lines of a transcript: each may come after those before it, or not.

ghost use Rattle.std.specs.Prelude.{◌≡◌, ◌≢◌, ◌↔◌, ◌⊎◌, ◌<◌, ◌≤◌, ◌+◌, ◌-◌, ◌^◌, ◌%◌, ◌++◌, ◌∷◌, [], ℕ, true, false, None, Some, List, length, slice_index_or, nat_lt, IfOk, IsTrue, MatchBool};
ghost use Rattle.task_machine.specs.declared.calls.Entry.{Entry};
ghost use Rattle.run_model.specs.Standing.{is_draw, is_at_rest, no_timer, opening, next_tick, earliest, first_keys};
ghost use Rattle.turn_steps.specs.Left.{asked, draws_now};
ghost use Rattle.standing.specs.Going.{IsNext, IsDone};
ghost use Rattle.transcript.specs.declared.lines.Line.TheVariants as line;
ghost use Rattle.fronts.specs.Lines.{Track, begins, ended, IsWhole, May, MayEnter};
ghost use Rattle.run_replay.specs.Watching.{Begun, CanBegin};
ghost use Rattle.thread_loop.specs.Workers.{Fits, number_of, stage_of};
ghost use Rattle.thread_loop.specs.declared.worker.Worker.{Worker};
ghost use Rattle.run_replay.specs.Floors.{after_all, Made, Turning, Works};
ghost use Rattle.thread_loop.specs.Idle.{Opened};
ghost use Rattle.run_replay.specs.declared.floor.Floor.{Floor};
ghost use Rattle.thread_loop.specs.Plants.{jump_of};
ghost use Rattle.run_replay.specs.Watching.{AsksFor, AsksNext, CanOpen, Ends, EndsAfter, Follows, GoesOn, IsAt, IsOver, IsReady, IsWithin, Judges, left_after, opened, standing_of};

use crate::floor::Floor;
use crate::injection::Injection;
use crate::shared_box::SharedBox;
use std::alloc::{AllocError, Global};
use step_tables::Script;
use task_machine::{Call, Entry};
use thread_loop::{Worker, earlier_in, end_turns, workers_of};
use transcript::Line;

/// How far the lines have come.
#[derive(Clone, Copy, Debug)]
pub(crate) enum Position {
    Start,
    Round { number: u32, tick: u32 },
    End,
}

/// Follows the lines of a transcript of a script, from the line of round 0 on. Contracts see where it stands.
#[derive(Drop)]
pub struct Watcher {
    position: Position,
    floor: Floor,
    workers: Vec<Worker>,
    injection: Injection,
    shared: SharedBox,
}

impl Watcher {
    /// Before the first line. The one error is want of memory.
    pub fn new(alloc: Global, script: &Script) -> Result<Watcher, AllocError>
        ensures { IfOk result (λ w. IsAt script.now begins w) }
    {
        let floor = Floor::new(alloc, script)?;
        let inside = floor.shared(script);
        let workers = workers_of(alloc, script)?;
        let shared = SharedBox::new(alloc, script, inside)?;
        Ok(Watcher {
            position: Position::Start,
            floor,
            workers,
            injection: Injection::new(),
            shared,
        })
    }

    /// Whether a line may come now, after those that came before it. After a line that may not come nothing is
    /// promised of later ones.
    pub fn allows(&mut self, script: &Script, line: &Line) -> bool
        requires { (t : Track) × IsAt script.now t self.old }
        ensures { Judges script.now line.now self.old result self.new }
    {
        match *line {
            Line::Round { number, tick } => self.opens(script, number, tick),
            Line::Entry(entry) => self.enters(script, &entry),
            Line::End { rest, last } => self.ends(script, rest, last),
        }
    }

    /// Whether the line of a round may come now; then the round begins.
    fn opens(&mut self, script: &Script, number: u32, tick: u32) -> bool
        requires { (t : Track) × IsAt script.now t self.old }
        ensures { Judges script.now (line.Round number tick) self.old result self.new }
    {
        if !self.may_open(script, number, tick) {
            return false;
        }
        self.open(script, number, tick);
        true
    }

    /// Whether the line of a round may come now; then no turn is open.
    fn may_open(&mut self, script: &Script, number: u32, tick: u32) -> bool
        requires { (t : Track) × IsAt script.now t self.old }
        ensures { (t : Track) → IsAt script.now t self.old → MatchBool result (CanOpen script.now t number tick self.new) ((u : Track) → May script.now t (line.Round number tick) u → ⊥) }
    {
        match self.position {
            Position::Start => is_first(script, number, tick),
            Position::Round {
                number: last,
                tick: now,
            } => self.may_follow(script, last, now, number, tick),
            Position::End => false,
        }
    }

    /// Whether a round may come after another one; then that one is closed.
    fn may_follow(&mut self, script: &Script, last: u32, now: u32, number: u32, tick: u32) -> bool
        requires { (g : Opened) × (es : List Entry) × IsWithin script.now g es self.old × (g.round ≡ last) × (g.tick ≡ now) }
        ensures { (g : Opened) (es : List Entry) → IsWithin script.now g es self.old → g.round ≡ last → g.tick ≡ now → MatchBool result (Follows script.now g es number tick × IsOver script.now last self.new × (standing_of self.new ≡ left_after script.now g es)) (Follows script.now g es number tick → ⊥) }
    {
        if number != last + 1 {
            return false;
        }
        if !self.close(script, last) {
            return false;
        }
        self.goes_on(script, last, now, tick)
    }

    /// Whether a round is whole; then the turns of all workers are ended.
    fn close(&mut self, script: &Script, round: u32) -> bool
        requires { (g : Opened) × (es : List Entry) × IsWithin script.now g es self.old × (g.round ≡ round) }
        ensures { (g : Opened) (es : List Entry) → IsWithin script.now g es self.old → g.round ≡ round → MatchBool result (IsWhole script.now g.round g.tick g.old es × IsOver script.now round self.new × (standing_of self.new ≡ left_after script.now g es)) (IsWhole script.now g.round g.tick g.old es → ⊥) }
    {
        if !self.is_whole(script, round) {
            return false;
        }
        end_turns(&mut self.workers, script);
        true
    }

    /// Begins a round at a tick.
    fn open(&mut self, script: &Script, number: u32, tick: u32)
        requires { IsReady script.now number tick self.old }
        ensures within { IsWithin script.now (opened number tick (standing_of self.old)) [] self.new }
        ensures position { self.new.position ≡ Position.Round number tick }
    {
        begin_turns(&mut self.workers, script, tick);
        self.shared.open(number);
        self.position = Position::Round { number, tick };
    }

    /// Whether an entry may come now; then its caller goes on.
    fn enters(&mut self, script: &Script, entry: &Entry) -> bool
        requires { (t : Track) × IsAt script.now t self.old }
        ensures { Judges script.now (line.Entry entry.now) self.old result self.new }
    {
        match self.position {
            Position::Round { number, .. } => self.makes(script, number, entry),
            _ => false,
        }
    }

    /// Whether an entry may come in a round; then its caller goes on.
    fn makes(&mut self, script: &Script, round: u32, entry: &Entry) -> bool
        requires { (g : Opened) × (es : List Entry) × IsWithin script.now g es self.old × (g.round ≡ round) }
        ensures position { self.new.position ≡ self.old.position }
        ensures made { (g : Opened) (es : List Entry) → IsWithin script.now g es self.old → g.round ≡ round → MatchBool result (MayEnter script.now (after_all script.now g es) entry.now × IsWithin script.now g (es ++ entry.now ∷ []) self.new) (MayEnter script.now (after_all script.now g es) entry.now → ⊥) }
    {
        if !self.asks(script, round, entry) {
            return false;
        }
        if !self.floor.make(script, entry) {
            return false;
        }
        self.shared.note(script, round, entry);
        let number = entry.caller.0 as usize;
        if number < self.workers.len() {
            hear(&mut self.workers[number], script, &self.floor, entry);
        } else {
            self.injection.heard(script, round, &entry.reply);
        }
        true
    }

    /// Whether an entry has its caller's next call, or is a draw where its caller may draw.
    fn asks(&self, script: &Script, round: u32, entry: &Entry) -> bool
        requires { (g : Opened) × (es : List Entry) × IsWithin script.now g es self.now × (g.round ≡ round) }
        ensures { (g : Opened) (es : List Entry) → IsWithin script.now g es self.now → g.round ≡ round → IsTrue result ↔ AsksNext script.now (after_all script.now g es) entry.now }
    {
        let number = entry.caller.0 as usize;
        if number < self.workers.len() {
            return asks_for(&self.workers[number], script, &entry.call);
        }
        if entry.caller.0 != script.workers() {
            return false;
        }
        self.injection.asks_for(script, round, &entry.call)
    }

    /// Whether the end line may come now; then nothing comes any more.
    fn ends(&mut self, script: &Script, rest: bool, last: u32) -> bool
        requires { (t : Track) × IsAt script.now t self.old }
        ensures { Judges script.now (line.End rest last) self.old result self.new }
    {
        if !self.may_end(script, rest, last) {
            return false;
        }
        self.position = Position::End;
        true
    }

    /// Whether the end line may come now.
    fn may_end(&mut self, script: &Script, rest: bool, last: u32) -> bool
        requires { (t : Track) × IsAt script.now t self.old }
        ensures { (t : Track) → IsAt script.now t self.old → MatchBool result (May script.now t (line.End rest last) ended) ((u : Track) → May script.now t (line.End rest last) u → ⊥) }
    {
        match self.position {
            Position::Round { number, .. } => self.ends_after(script, number, rest, last),
            _ => false,
        }
    }

    /// Whether the end line may come in a round.
    fn ends_after(&mut self, script: &Script, round: u32, rest: bool, last: u32) -> bool
        requires { (g : Opened) × (es : List Entry) × IsWithin script.now g es self.old × (g.round ≡ round) }
        ensures { (g : Opened) (es : List Entry) → IsWithin script.now g es self.old → g.round ≡ round → IsTrue result ↔ EndsAfter script.now g es rest last }
    {
        if last != round {
            return false;
        }
        if !self.close(script, round) {
            return false;
        }
        self.ends_so(script, round, rest)
    }

    /// Whether a run ends after a round that is closed, at rest or else at its limit.
    fn ends_so(&self, script: &Script, round: u32, rest: bool) -> bool
        requires { IsOver script.now round self.now }
        ensures { IsTrue result ↔ Ends script.now round rest (standing_of self.now) }
    {
        if self.is_at_rest(script, round) {
            return rest;
        }
        if rest {
            return false;
        }
        round + 1 == script.rounds()
    }

    /// Whether a run goes on at a tick after a round that is closed: it is not at rest, and the round is not the last one.
    fn goes_on(&self, script: &Script, round: u32, now: u32, tick: u32) -> bool
        requires { IsOver script.now round self.now }
        ensures { IsTrue result ↔ GoesOn script.now round now tick (standing_of self.now) }
    {
        if round + 1 == script.rounds() {
            return false;
        }
        if self.is_at_rest(script, round) {
            return false;
        }
        tick == self.next_tick(script, round, now)
    }

    /// The tick of the next round, after one at a tick that is closed: one step later, or else that of the first timer.
    fn next_tick(&self, script: &Script, round: u32, now: u32) -> u32
        requires { IsOver script.now round self.now }
        ensures { result ≡ next_tick script.now round now (standing_of self.now) }
    {
        match self.jump(script, round, now) {
            Some(tick) => tick,
            None => now.wrapping_add(script.step()),
        }
    }

    /// The tick of the first timer of all workers, where from version 2 on nothing else is left to wait for.
    fn jump(&self, script: &Script, round: u32, now: u32) -> Option<u32>
        requires { IsOver script.now round self.now }
        ensures { result ≡ jump_of script.now round now (standing_of self.now) }
    {
        if script.version() < 2 {
            return None;
        }
        if self.injection.next_call(script, round + 1).is_some() {
            return None;
        }
        let Some(tick) = self.first_timer(script, now) else {
            return None;
        };
        if !self.floor.is_still(script) {
            return None;
        }
        Some(tick)
    }

    /// The tick of the first timer of all workers, as seen from now; none where no timer is left.
    fn first_timer(&self, script: &Script, now: u32) -> Option<u32>
        requires { (k : ℕ) (d : Worker) → k < length self.now.workers.items → Fits script.now (slice_index_or self.now.workers.items k d) }
        ensures { result ≡ earliest now (first_keys (standing_of self.now)) }
    {
        let mut first = None;
        for worker in self.workers.iter() {
            first = earlier_in(now, first, worker.first_key(script));
        }
        first
    }

    /// Whether a round is whole: no caller has a call left but draws, and the shared box was served.
    fn is_whole(&self, script: &Script, round: u32) -> bool
        requires { (g : Opened) × (es : List Entry) × IsWithin script.now g es self.now × (g.round ≡ round) }
        ensures { (g : Opened) (es : List Entry) → IsWithin script.now g es self.now → g.round ≡ round → IsTrue result ↔ IsWhole script.now g.round g.tick g.old es }
    {
        if !self.is_done(script, round) {
            return false;
        }
        if self.shared.is_empty() {
            return true;
        }
        !self.may_draw(script)
    }

    /// Whether no caller has a call left but draws.
    fn is_done(&self, script: &Script, round: u32) -> bool
        requires { (g : Opened) × (es : List Entry) × IsWithin script.now g es self.now × (g.round ≡ round) }
        ensures { (g : Opened) (es : List Entry) → IsWithin script.now g es self.now → g.round ≡ round → IsTrue result ↔ IsDone script.now (after_all script.now g es) }
    {
        for worker in self.workers.iter() {
            if worker.next_call(script).is_some() {
                return false;
            }
        }
        self.injection.next_call(script, round).is_none()
    }

    /// Whether some worker may draw.
    fn may_draw(&self, script: &Script) -> bool
        requires { (k : ℕ) (d : Worker) → k < length self.now.workers.items → Fits script.now (slice_index_or self.now.workers.items k d) }
        ensures { MatchBool result ((k : ℕ) × (k < length self.now.workers.items) × ((d : Worker) → 0 < draws_now script.now (stage_of script.now (slice_index_or self.now.workers.items k d)))) ((k : ℕ) (d : Worker) → k < length self.now.workers.items → nat_lt 0 (draws_now script.now (stage_of script.now (slice_index_or self.now.workers.items k d))) ≡ false) }
    {
        for worker in self.workers.iter() {
            if worker.may_draw(script) {
                return true;
            }
        }
        false
    }

    /// Whether after a round that is closed all tasks rest or are gone, no event comes later, and no timer is left.
    fn is_at_rest(&self, script: &Script, round: u32) -> bool
        requires { IsOver script.now round self.now }
        ensures { result ≡ is_at_rest script.now round (standing_of self.now) }
    {
        if !self.injection.is_last(script) {
            return false;
        }
        if !self.has_no_timer(script) {
            return false;
        }
        self.floor.is_still(script)
    }

    /// Whether no timer is left.
    fn has_no_timer(&self, script: &Script) -> bool
        requires { (k : ℕ) (d : Worker) → k < length self.now.workers.items → Fits script.now (slice_index_or self.now.workers.items k d) }
        ensures { result ≡ no_timer (standing_of self.now) }
    {
        for worker in self.workers.iter() {
            if worker.first_key(script).is_some() {
                return false;
            }
        }
        true
    }
}

/// Whether a round is the first one, at the tick at which a run starts.
fn is_first(script: &Script, number: u32, tick: u32) -> bool
    ensures { IsTrue result ↔ ((number ≡ 0) × (tick ≡ script.now.start)) }
{
    number == 0 && tick == script.start()
}

/// Whether a call is a worker's next one, or a draw where the worker may draw.
fn asks_for(worker: &Worker, script: &Script, call: &Call) -> bool
    requires { Fits script.now worker.now }
    ensures { IsTrue result ↔ AsksFor script.now (stage_of script.now worker.now) call.now }
{
    if worker.next_call(script) == Some(*call) {
        return true;
    }
    is_draw(call) && worker.may_draw(script)
}

/// Goes on with a worker whose entry was made.
fn hear(worker: &mut Worker, script: &Script, floor: &Floor, entry: &Entry)
    requires { (g : Opened) × (es : List Entry) × (old : Floor) × Works script.now g es old worker.old × IsNext script.now (after_all script.now g es) entry.now × Made script.now entry.now old floor.now × (number_of worker.old ≡ entry.now.caller.0) }
    ensures number { number_of worker.new ≡ number_of worker.old }
    ensures turned { (g : Opened) (es : List Entry) (old : Floor) → Works script.now g es old worker.old → IsNext script.now (after_all script.now g es) entry.now → Made script.now entry.now old floor.now → number_of worker.old ≡ entry.now.caller.0 → Turning script.now g (es ++ entry.now ∷ []) floor.now.machine worker.new }
{
    match entry.call {
        Call::Draw(id) => worker.drew(script, id, floor.body(id)),
        _ => worker.heard(script, &entry.reply),
    }
}

/// Begins the turns of all workers at a tick.
fn begin_turns(workers: &mut Vec<Worker>, script: &Script, tick: u32)
    requires { (k : ℕ) (d : Worker) → k < length workers.old.items → CanBegin script.now tick (slice_index_or workers.old.items k d) }
    ensures count { length workers.new.items ≡ length workers.old.items }
    ensures begun { (k : ℕ) (d : Worker) → k < length workers.old.items → Begun script.now tick (slice_index_or workers.old.items k d) (slice_index_or workers.new.items k d) }
{
    for number in 0..workers.len() {
        begin_turn(&mut workers[number], script, tick);
    }
}

/// Begins a worker's turn at a tick.
fn begin_turn(worker: &mut Worker, script: &Script, tick: u32)
    requires { CanBegin script.now tick worker.old }
    ensures { Begun script.now tick worker.old worker.new }
{
    worker.keep_book(script, tick);
    worker.begin_turn(script, tick);
}

/// Whether a call draws a task.
fn is_draw(call: &Call) -> bool
    ensures { result ≡ is_draw call.now }
{
    matches!(*call, Call::Draw(_))
}
