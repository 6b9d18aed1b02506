//! The course of a run: each round is made while the one before it is merged and noted (docs/MODEL.md, "The course of a
//! run").

ghost use Rattle.std.specs.Prelude.{◌≡◌, ◌≤◌, ◌<◌, ◌+◌, ◌==◌, ◌||◌, ℕ, List, Option, [], IfOk, OnOk, IsTrue};
ghost use Rattle.std.specs.Thread.{IsSync};
ghost use Rattle.step_tables.specs.Sound.{is_sound};
ghost use Rattle.run_model.specs.Run.{Round};
ghost use Rattle.run_model.specs.Standing.{is_at_rest};
ghost use Rattle.thread_loop.specs.declared.crew.Kept.{Kept};
ghost use Rattle.thread_loop.specs.Plants.{standing_of, IsReady};
ghost use Rattle.thread_loop.specs.Mergers.{entries_of, CanMerge, IsMerged, Plays};
ghost use Rattle.taskrun.specs.Courses.{Runs, Advances, CanNote, ComesNext, HasNoted, is_last};

use sched_base::Gate;
use std::alloc::{AllocError, Global};
use std::thread::{Threads, join_mut};
use step_tables::Script;
use task_machine::Entry;
use thread_loop::{Crew, Merger, Plant};

/// From how many calls on a round of several workers is merged on a thread of its own: to start one takes as long as some
/// hundred calls. A run of one worker starts no thread for this, since where a processor has to wake up first, it takes
/// longer than such a round.
const MANY: usize = 256;

/// Notes the rounds of a run, one after another.
pub(crate) trait Scribe {
    ghost can_note: { ℕ → Round → Self → Type 0 };

    ghost notes: { ℕ → Round → Self → Self → Type 0 };

    /// Notes a round with its number. The one error is want of memory.
    fn note(&mut self, round: u32, tick: u32, entries: &[Entry]) -> Result<(), AllocError>
        requires { can_note round (record { tick = tick; entries = entries.now }) self.old }
        ensures { OnOk result (notes round (record { tick = tick; entries = entries.now }) self.old self.new) };
}

/// What is to be known after a round.
#[derive(Clone, Copy, Debug)]
pub(crate) struct AfterRound {
    /// Whether all rests.
    pub rest: bool,
    /// Whether the run is over.
    pub over: bool,
}

/// A run on its way: the plant, and the calls of the round that it made last, which are still to be merged.
#[derive(Drop)]
pub(crate) struct Course {
    plant: Plant,
    merger: Merger,
    /// The tick of the round that was made last.
    tick: u32,
    after: AfterRound,
}

impl Course {
    /// Makes the first round of a script by a crew. The one error is want of memory.
    pub fn start<R: Threads + Sync, C: Crew, G: Gate + Sync>(
        rt: &R,
        alloc: Global,
        script: &Script,
        crew: &mut C,
        gate: &G,
    ) -> Result<Course, AllocError>
        requires { IsTrue (is_sound script.now) }
        ensures { IfOk result (λ course. Runs script.now [] 0 (C.told crew.old) (C.told crew.new) course) }
    {
        let mut plant = Plant::new(alloc, script)?;
        let mut merger = Merger::new(alloc, script)?;
        let tick = plant.tick();
        plant.play(rt, alloc, script, crew, 0, gate)?;
        merger.take_over(&mut plant);
        let after = after_round(&plant, script, 0);
        Ok(Course {
            plant,
            merger,
            tick,
            after,
        })
    }

    /// Notes the round that was made last, and makes the next one meanwhile, unless the run is over. Says what is to be
    /// known after the round that was noted. The one error is want of memory.
    pub fn advance<R: Threads + Sync, C: Crew, G: Gate + Sync, S: Scribe + Send>(
        &mut self,
        rt: &R,
        alloc: Global,
        script: &Script,
        crew: &mut C,
        scribe: &mut S,
        round: u32,
        gate: &G,
    ) -> Result<AfterRound, AllocError>
        requires runs { (rounds : List Round) × (told : Option (List Kept)) × Runs script.now rounds round told (C.told crew.old) self.old }
        requires can { (next : Round) → ComesNext script.now round (C.told crew.old) self.old next → S.can_note round next scribe.old }
        requires sound { IsTrue (is_sound script.now) }
        ensures advanced { IfOk result (λ after. (rounds : List Round) (told : Option (List Kept)) → Runs script.now rounds round told (C.told crew.old) self.old → Advances script.now rounds round told (C.told crew.new) (λ next. S.notes round next scribe.old scribe.new) self.new after) }
    {
        let after = self.after;
        if after.over {
            note_merged(&mut self.merger, scribe, round, self.tick)?;
            return Ok(after);
        }
        let tick = self.plant.tick();
        go_on(
            rt,
            alloc,
            script,
            &mut self.plant,
            crew,
            &mut self.merger,
            scribe,
            round,
            self.tick,
            gate,
        )?;
        self.merger.take_over(&mut self.plant);
        self.tick = tick;
        self.after = after_round(&self.plant, script, round + 1);
        Ok(after)
    }
}

/// Makes the next round, and merges and notes the last one, which was made at this tick: side by side, where that one has
/// many calls of several workers.
fn go_on<R: Threads + Sync, C: Crew, G: Gate + Sync, S: Scribe + Send>(
    rt: &R,
    alloc: Global,
    script: &Script,
    plant: &mut Plant,
    crew: &mut C,
    merger: &mut Merger,
    scribe: &mut S,
    round: u32,
    tick: u32,
    gate: &G,
) -> Result<(), AllocError>
    requires ready { IsReady script.now (round + 1) plant.old }
    requires more { round + 1 < script.now.rounds }
    requires short { round < 100000 }
    requires merge { CanMerge merger.old }
    requires can { CanNote (S.can_note round) tick merger.old scribe.old }
    ensures plays { OnOk result (Plays script.now (round + 1) plant.old plant.new (C.told crew.old) (C.told crew.new)) }
    ensures noted { OnOk result (HasNoted (S.notes round) tick merger.old merger.new scribe.old scribe.new) }
{
    if script.workers() == 1 || merger.count() < MANY {
        note_merged(merger, scribe, round, tick)?;
        return plant.play(rt, alloc, script, crew, round + 1, gate);
    }
    let (noted, played) = join_mut(
        rt,
        &mut ||
            requires { CanMerge merger.now × CanNote (S.can_note round) tick merger.now scribe.now }
            ensures { OnOk result (HasNoted (S.notes round) tick merger.entry.now merger.exit.now scribe.entry.now scribe.exit.now) }
        { note_merged(merger, scribe, round, tick) },
        &mut ||
            requires { IsSync R.row × IsSync G.row × IsReady script.now (round + 1) plant.now × (round + 1 < script.now.rounds) × (round < 100000) }
            ensures { OnOk result (Plays script.entry.now (round + 1) plant.entry.now plant.exit.now (C.told crew.entry.now) (C.told crew.exit.now)) }
        { plant.play(rt, alloc, script, crew, round + 1, gate) },
    );
    noted?;
    played
}

/// Merges the calls of a round, which was made at this tick, and notes it.
fn note_merged<S: Scribe>(
    merger: &mut Merger,
    scribe: &mut S,
    round: u32,
    tick: u32,
) -> Result<(), AllocError>
    requires merge { CanMerge merger.old }
    requires can { CanNote (S.can_note round) tick merger.old scribe.old }
    ensures { OnOk result (HasNoted (S.notes round) tick merger.old merger.new scribe.old scribe.new) }
{
    merger.merge()?;
    scribe.note(round, tick, merger.entries())
}

/// What is to be known of a plant after this round, the last one that it made.
fn after_round(plant: &Plant, script: &Script, round: u32) -> AfterRound
    requires ready { IsReady script.now (round + 1) plant.now }
    requires more { round < script.now.rounds }
    ensures rest { result.rest ≡ is_at_rest script.now round (standing_of plant.now) }
    ensures over { result.over ≡ is_last script.now round (standing_of plant.now) }
{
    let rest = plant.is_at_rest(script, round);
    let over = is_over(rest, round, script.rounds());
    AfterRound { rest, over }
}

/// Whether a run of at most this many rounds is over after a round, at rest or not.
fn is_over(rest: bool, round: u32, rounds: u32) -> bool
    requires { round < rounds }
    ensures { result ≡ rest || (round + 1 == rounds) }
{
    rest || round + 1 == rounds
}
