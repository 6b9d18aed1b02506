//! The rounds of a run, written out one after another.

ghost use Rattle.std.specs.Prelude.{◌≡◌, ℕ, ◌+◌, ◌++◌, ◌≤◌, true, false, List, Option, IsTrue, IfOk, IfErr, OnOk, OnErr};
ghost use Rattle.sched_base.specs.Streams.{Rose};
ghost use Rattle.step_tables.specs.Sound.{is_sound};
ghost use Rattle.run_model.specs.Run.{Round};
ghost use Rattle.thread_loop.specs.declared.crew.Kept.{Kept};
ghost use Rattle.taskrun.specs.Answers.{Wrote, WroteFront};
ghost use Rattle.taskrun.specs.Courses.{Runs};
ghost use Rattle.taskrun.specs.Rounds.{Adds, Underway};
ghost use Rattle.taskrun.specs.declared.rounds.PlayError.TheVariants.{Fault, Memory};

use crate::courses::{Course, Scribe};
use program_edges::write_all;
use sched_base::{Failed, Gate, Sink};
use std::alloc::{AllocError, Global};
use std::thread::Threads;
use step_tables::Script;
use task_machine::Entry;
use thread_loop::Crew;
use transcript::{write_end, write_head, write_round};

/// From how many bytes on the text of rounds is written out.
const FULL: usize = 65_536;

/// Why a run was not written whole.
#[derive(Clone, Copy, Debug, PartialEq, Eq)]
pub enum PlayError {
    /// A write failed.
    Fault,
    /// There is no memory.
    Memory,
}

impl From<Failed> for PlayError {
    ghost from_gives = { λ _ e. e ≡ Fault };

    fn from(_error: Failed) -> PlayError {
        PlayError::Fault
    }
}

impl From<AllocError> for PlayError {
    ghost from_gives = { λ _ e. e ≡ Memory };

    fn from(_error: AllocError) -> PlayError {
        PlayError::Memory
    }
}

/// A text notes a round by its lines.
impl Scribe for Vec<u8> {
    ghost use Rattle.std.specs.Prelude.{◌≡◌, ◌++◌};
    ghost use Rattle.std.specs.List.{All};
    ghost use Rattle.transcript.specs.HasText.{HasTextEntry};
    ghost use Rattle.transcript.specs.Spelling.{round_text};

    ghost can_note = { λ _ round _. All HasTextEntry round.entries };

    ghost notes = { λ q round old new. new.items ≡ old.items ++ round_text q round.tick round.entries };

    fn note(&mut self, round: u32, tick: u32, entries: &[Entry]) -> Result<(), AllocError> {
        write_round(self, round, tick, entries)
    }
}

/// Runs a script, its rounds made by a crew, and writes the text of its run round by round. After an error the sink has
/// a first part of the text of such a run.
pub fn play_out<R: Threads + Sync, O: Sink, C: Crew, G: Gate + Sync>(
    rt: &R,
    alloc: Global,
    script: &Script,
    out: &mut O,
    crew: &mut C,
    gate: &G,
) -> Result<(), PlayError>
    ensures ok { OnOk result (Wrote (O.held out.old) (O.held out.new) (C.told crew.old) (C.told crew.new) script.now) }
    ensures err { OnErr result (WroteFront (O.held out.old) (O.held out.new) script.now) }
    ensures fault { IfErr result (λ e. e ≡ PlayError.Fault → Rose (O.faults out.old) (O.faults out.new)) }
    ensures counted { O.faults out.old ≤ O.faults out.new }
{
    let rounds = script.rounds();
    let mut text = Vec::new(alloc);
    write_head(&mut text)?;
    let mut course = Course::start(rt, alloc, script, crew, gate)?;
    for round in 0..rounds {
        if play_round(
            rt,
            alloc,
            &mut course,
            script,
            &mut text,
            out,
            crew,
            round,
            gate,
        )? {
            return Ok(());
        }
    }
    unreachable!()
}

/// Puts the text of a round that is made behind what is in the buffer, with the end line where the run is over then, and
/// makes the next one otherwise. Writes the buffer out where it is full or the run is over. Says whether it is.
fn play_round<R: Threads + Sync, O: Sink, C: Crew, G: Gate + Sync>(
    rt: &R,
    alloc: Global,
    course: &mut Course,
    script: &Script,
    text: &mut Vec<u8>,
    out: &mut O,
    crew: &mut C,
    round: u32,
    gate: &G,
) -> Result<bool, PlayError>
    requires under { (before : Option (List ℕ)) × (told : Option (List Kept)) × Underway script.now before (O.held out.old) told (C.told crew.old) text.old.items round course.old }
    requires sound { IsTrue (is_sound script.now) }
    ensures over { IfOk result (λ over. (before : Option (List ℕ)) (told : Option (List Kept)) → Underway script.now before (O.held out.old) told (C.told crew.old) text.old.items round course.old → over ≡ true → Wrote before (O.held out.new) told (C.told crew.new) script.now) }
    ensures more { IfOk result (λ over. (before : Option (List ℕ)) (told : Option (List Kept)) → Underway script.now before (O.held out.old) told (C.told crew.old) text.old.items round course.old → over ≡ false → Underway script.now before (O.held out.new) told (C.told crew.new) text.new.items (round + 1) course.new) }
    ensures err { OnErr result ((before : Option (List ℕ)) (told : Option (List Kept)) → Underway script.now before (O.held out.old) told (C.told crew.old) text.old.items round course.old → WroteFront before (O.held out.new) script.now) }
    ensures fault { IfErr result (λ e. e ≡ PlayError.Fault → Rose (O.faults out.old) (O.faults out.new)) }
    ensures counted { O.faults out.old ≤ O.faults out.new }
{
    let over = add_round(rt, alloc, course, script, text, crew, round, gate)?;
    if over || FULL <= text.len() {
        write_all(out, text)?;
        text.clear();
    }
    Ok(over)
}

/// Appends the text of a round that is made, with the end line where the run is over then, and makes the next one
/// otherwise. Says whether the run is over.
fn add_round<R: Threads + Sync, C: Crew, G: Gate + Sync>(
    rt: &R,
    alloc: Global,
    course: &mut Course,
    script: &Script,
    text: &mut Vec<u8>,
    crew: &mut C,
    round: u32,
    gate: &G,
) -> Result<bool, AllocError>
    requires runs { (rounds : List Round) × (told : Option (List Kept)) × Runs script.now rounds round told (C.told crew.old) course.old }
    requires sound { IsTrue (is_sound script.now) }
    ensures { IfOk result (λ over. (rounds : List Round) (told : Option (List Kept)) → Runs script.now rounds round told (C.told crew.old) course.old → Adds script.now rounds round told (C.told crew.new) text.old.items text.new.items course.new over) }
{
    let after = course.advance(rt, alloc, script, crew, text, round, gate)?;
    if after.over {
        write_end(text, after.rest, round)?;
    }
    Ok(after.over)
}
