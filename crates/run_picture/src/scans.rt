//! The bars of a transcript: its lines are gone through from the first to the last.

ghost use Rattle.std.specs.Prelude.{◌≡◌, ℕ, ◌<◌, ◌+◌, ◌^◌, ◌++◌, ◌∷◌, [], if◌then◌else◌, nat_lt, option_to_list, take, List, length, vec_len, slice_index_or, IfOk, OnOk, None, ◌-◌};
ghost use Rattle.run_picture.specs.Bars.{spot_of, raise_shown, bars_at, bars_of};
ghost use Rattle.transcript.specs.declared.lines.Line.{Line};
ghost use Rattle.transcript.specs.declared.lines.Line.TheVariants as line;
ghost use Rattle.run_picture.specs.Scans.{Follows, noted};
ghost use Rattle.run_picture.specs.Stretches.{stretch_at};

use crate::bars::{Bar, Rounds, Spot};
use crate::steps::{Step, has_seen_killed, lane_of, reasons_in, step_of, takes_in};
use crate::stretches::{Stretch, stretches_of};
use sched_base::TaskId;
use std::alloc::{AllocError, Global};
use task_machine::Entry;
use transcript::Line;

/// The most bars that a picture shows.
pub const MOST_BARS: usize = 100_000;

/// The most tasks that a script has.
const MOST_TASKS: usize = 4096;

/// What is known of the lines that were passed.
#[derive(Debug, Drop)]
struct Scan {
    /// How many lines these are.
    passed: u64,
    /// The number of the open round.
    round: u32,
    /// How many entries each lane has in the open round.
    slots: [u64; 18],
    /// Where the entry stands that raised each task since its last take.
    raised: Vec<Option<Spot>>,
}

/// No entry raised any task.
#[tactic(auto, using(crate::proofs::Lines::nothing_more))]
fn nothing_raised(alloc: Global) -> Result<Vec<Option<Spot>>, AllocError>
    ensures length { IfOk result (λ raised. length raised.items ≡ 4096) }
    ensures none { IfOk result (λ raised. (i : ℕ) → slice_index_or raised.items i None ≡ None) }
{
    let mut raised = Vec::with_capacity(alloc, MOST_TASKS)?;
    while raised.len() < MOST_TASKS {
        raised.push(None)?;
    }
    Ok(raised)
}

impl Scan {
    /// Before the first line.
    fn new(alloc: Global) -> Result<Scan, AllocError>
        ensures { IfOk result (λ scan. Follows [] scan) }
    {
        Ok(Scan {
            passed: 0,
            round: 0,
            slots: [0; 18],
            raised: nothing_raised(alloc)?,
        })
    }

    /// Where an entry stands.
    fn spot_of(&self, entry: &Entry) -> Spot
        requires { self.now.passed < 2 ^ 63 }
        ensures { (past : List Line) → Follows past self.now → result ≡ spot_of past entry.now }
    {
        let lane = lane_of(entry.caller);
        Spot {
            lane,
            round: self.round,
            slot: self.slots[lane as usize],
            line: self.passed + 2,
        }
    }

    /// Where the entry stands that raised a task.
    fn raised(&self, task: TaskId) -> Option<Spot>
        ensures { (past : List Line) → Follows past self.now → result ≡ raise_shown task.0 past }
    {
        match self.raised.get(task.0 as usize) {
            Some(spot) => *spot,
            None => None,
        }
    }

    /// Notes which entry raised a task.
    fn set_raised(&mut self, task: TaskId, spot: Option<Spot>)
        ensures raised { self.new.raised.items ≡ noted self.old.raised.items task.0 spot }
        ensures passed { self.new.passed ≡ self.old.passed }
        ensures round { self.new.round ≡ self.old.round }
        ensures slots { self.new.slots ≡ self.old.slots }
    {
        if let Some(raised) = self.raised.get_mut(task.0 as usize) {
            *raised = spot;
        }
    }

    /// Passes an entry.
    fn pass_entry(&mut self, entry: &Entry)
        requires { (past : List Line) × Follows past self.old × (length past < 2 ^ 63) }
        ensures { (past : List Line) → Follows past self.old → Follows (line.Entry entry.now ∷ past) self.new }
    {
        match step_of(entry) {
            Step::Takes(task) => self.set_raised(task, None),
            Step::Raises(task) => self.set_raised(task, Some(self.spot_of(entry))),
            Step::Drops | Step::Retires | Step::Goes => {}
        }
        self.slots[lane_of(entry.caller) as usize] += 1;
        self.passed += 1;
    }

    /// Passes a line.
    fn pass(&mut self, line: &Line)
        requires { (past : List Line) × Follows past self.old × (length past < 2 ^ 63) }
        ensures { (past : List Line) → Follows past self.old → Follows (line.now ∷ past) self.new }
    {
        match line {
            Line::Entry(entry) => self.pass_entry(entry),
            Line::Round { number, .. } => {
                self.round = *number;
                self.slots = [0; 18];
                self.passed += 1;
            }
            Line::End { .. } => self.passed += 1,
        }
    }

    /// The bar of a line, where it is a take in a round that is shown.
    fn bar_at(&self, rounds: &Rounds, line: &Line, stretch: Stretch) -> Option<Bar>
        requires room { self.now.passed < 2 ^ 63 }
        requires few { stretch.entries < 2 ^ 63 }
        ensures { (past : List Line) (ls : List Line) → Follows past self.now → stretch ≡ stretch_at line.now ls → option_to_list result ≡ bars_at rounds.now past line.now ls }
    {
        let Line::Entry(entry) = line else {
            return None;
        };
        let Step::Takes(task) = step_of(entry) else {
            return None;
        };
        if !rounds.contains(self.round) {
            return None;
        }
        Some(Bar {
            spot: self.spot_of(entry),
            task,
            entries: stretch.entries + 1,
            is_retired: stretch.is_retired,
            reasons: reasons_in(&entry.reply),
            is_killed: has_seen_killed(&entry.reply),
            takes: takes_in(&entry.reply),
            raised: self.raised(task),
        })
    }
}

/// The bars of a transcript's lines in the rounds that are shown, in the order of the takes.
pub(crate) fn bars_of(
    alloc: Global,
    rounds: &Rounds,
    lines: &[Line],
) -> Result<Vec<Bar>, AllocError>
    requires { length lines.now < 2 ^ 63 }
    ensures { IfOk result (λ bars. bars.items ≡ bars_of rounds.now lines.now) }
{
    let stretches = stretches_of(alloc, lines)?;
    let mut scan = Scan::new(alloc)?;
    let mut bars = Vec::new(alloc);
    for (place, line) in lines.iter().enumerate() {
        let bar = scan.bar_at(rounds, line, stretches[place]);
        add_up_to(MOST_BARS, &mut bars, bar)?;
        scan.pass(line);
    }
    Ok(bars)
}

/// Adds a bar, if there is one and there are fewer than `most`.
fn add_up_to(most: usize, bars: &mut Vec<Bar>, bar: Option<Bar>) -> Result<(), AllocError>
    ensures { OnOk result (bars.new.items ≡ bars.old.items ++ take (most - length bars.old.items) (option_to_list bar)) }
{
    match bar {
        Some(bar) if bars.len() < most => {
            bars.push(bar)?;
            Ok(())
        }
        _ => Ok(()),
    }
}
