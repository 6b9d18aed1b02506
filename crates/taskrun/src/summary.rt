//! A run that is summed up and not written.

ghost use Rattle.std.specs.Prelude.{◌≡◌, ◌+◌, ◌∷◌, ◌++◌, ◌<◌, ◌^◌, IfOk, IfErr, OnOk, OnErr, ◌≤◌};
ghost use Rattle.std.specs.Prelude.{decimal, [], IsTrue};
ghost use Rattle.step_tables.specs.Sound.{is_sound};
ghost use Rattle.sched_base.specs.Streams.{Rose};
ghost use Rattle.taskrun.specs.Answers.{WroteSummary, WroteSummaryFront};
ghost use Rattle.taskrun.specs.Summary.{summary_text, IsSummary};

use crate::counting::Counts;
use crate::courses::Course;
use crate::rounds::PlayError;
use itoa::Buffer;
use program_edges::write_all;
use sched_base::{Gate, Sink};
use std::alloc::{AllocError, Global};
use std::thread::Threads;
use step_tables::Script;
use text_lines::put_bytes;
use thread_loop::Crew;
use transcript::write_end;

/// Runs a script, its rounds made by a crew, and writes the summary of the run. After an error the sink has a first part
/// of the summary of such a run.
pub(crate) fn sum_up<R: Threads + Sync, O: Sink, C: Crew, G: Gate + Sync>(
    rt: &R,
    alloc: Global,
    script: &Script,
    out: &mut O,
    crew: &mut C,
    gate: &G,
) -> Result<(), PlayError>
    ensures ok { OnOk result (WroteSummary (O.held out.old) (O.held out.new) (C.told crew.old) (C.told crew.new) script.now) }
    ensures err { OnErr result (WroteSummaryFront (O.held out.old) (O.held out.new) script.now) }
    ensures fault { IfErr result (λ e. e ≡ PlayError.Fault → Rose (O.faults out.old) (O.faults out.new)) }
    ensures counted { O.faults out.old ≤ O.faults out.new }
{
    let text = summary(rt, alloc, script, crew, gate)?;
    write_all(out, &text)?;
    Ok(())
}

/// Runs a script, its rounds made by a crew, and gives the summary of the run.
fn summary<R: Threads + Sync, C: Crew, G: Gate + Sync>(
    rt: &R,
    alloc: Global,
    script: &Script,
    crew: &mut C,
    gate: &G,
) -> Result<Vec<u8>, AllocError>
    ensures summary { IfOk result (λ text. IsSummary script.now (C.told crew.old) (C.told crew.new) text.items) }
    ensures sound { IsTrue (is_sound script.now) }
{
    let rounds = script.rounds();
    let mut counts = Counts::NONE;
    let mut course = Course::start(rt, alloc, script, crew, gate)?;
    for round in 0..rounds {
        let after = course.advance(rt, alloc, script, crew, &mut counts, round, gate)?;
        if after.over {
            return summary_text(alloc, script.tasks().len(), round, &counts, after.rest);
        }
    }
    unreachable!()
}

/// The summary of a run whose last round is `last`.
fn summary_text(
    alloc: Global,
    tasks: usize,
    last: u32,
    counts: &Counts,
    rest: bool,
) -> Result<Vec<u8>, AllocError>
    ensures { IfOk result (λ text. text.items ≡ summary_text tasks (last + 1) counts.now.takes counts.now.wakes rest) }
{
    let mut text = Vec::new(alloc);
    put_count(&mut text, "tasks", tasks as u128)?;
    put_count(&mut text, "rounds", u128::from(last) + 1)?;
    put_count(&mut text, "takes", counts.takes)?;
    put_count(&mut text, "wakes", counts.wakes)?;
    write_end(&mut text, rest, last)?;
    Ok(text)
}

/// Appends a line of a name and a number.
fn put_count(text: &mut Vec<u8>, name: &str, count: u128) -> Result<(), AllocError>
    ensures { OnOk result (text.new.items ≡ text.old.items ++ (name.now ++ (32 ∷ (decimal count ++ 10 ∷ [])))) }
{
    let mut buffer = Buffer::new();
    put_bytes(text, name.as_bytes())?;
    put_bytes(text, b" ")?;
    put_bytes(text, buffer.format(count).as_bytes())?;
    put_bytes(text, b"\n")
}
