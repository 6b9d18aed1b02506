//! What tasks, lanes and reasons are called in a picture. What comes from the input is a number or a task's
//! name, so no text needs escaping.

ghost use Rattle.std.specs.Prelude.{◌≡◌, ◌++◌, OnOk};
ghost use Rattle.text_lines.specs.Added.{Kept};
ghost use Rattle.run_picture.specs.Drawing.{bare_cause, cause_text};

use crate::bars::{Bar, OWN_LANES};
use crate::parts::{Part, put};
use sched_base::{Reasons, TaskId};
use std::alloc::AllocError;
use step_tables::{Name, Script};
use text_lines::{put_bytes, put_number, put_reasons};

/// What a task is called.
#[derive(Clone, Copy)]
pub(crate) enum Label<'a> {
    /// By its name in the script.
    Named(&'a Name),
    /// By its number.
    Numbered(TaskId),
}

impl<'a> Label<'a> {
    /// What a task is called, where there may be a script.
    pub fn of(script: Option<&'a Script>, task: TaskId) -> Label<'a> {
        let Some(script) = script else {
            return Label::Numbered(task);
        };
        match script.tasks().get(task.0 as usize) {
            Some(definition) => Label::Named(&definition.name),
            None => Label::Numbered(task),
        }
    }

    /// How many letters it has.
    pub fn length(self) -> usize {
        match self {
            Label::Named(name) => name.as_slice().len(),
            Label::Numbered(task) => digits(task.0) as usize,
        }
    }

    /// Appends it.
    pub fn put(self, out: &mut Vec<u8>) -> Result<(), AllocError>
        ensures { Kept out.old.items out.new.items }
    {
        match self {
            Label::Named(name) => put_bytes(out, name.as_slice()),
            Label::Numbered(task) => put_number(out, u64::from(task.0)),
        }
    }
}

/// How many digits a number has.
pub(crate) fn digits(number: u32) -> u32 {
    match number {
        0..=9 => 1,
        10..=99 => 2,
        100..=999 => 3,
        1000..=9999 => 4,
        10_000..=99_999 => 5,
        100_000..=999_999 => 6,
        1_000_000..=9_999_999 => 7,
        10_000_000..=99_999_999 => 8,
        100_000_000..=999_999_999 => 9,
        _ => 10,
    }
}

/// Appends what a lane is called, where there are so many workers.
pub(crate) fn put_lane(out: &mut Vec<u8>, lane: u32, workers: u32) -> Result<(), AllocError> {
    if lane >= OWN_LANES {
        return put_bytes(out, b"others");
    }
    if lane == workers {
        return put_bytes(out, b"injector");
    }
    let kind: &[u8] = if lane < workers {
        b"worker "
    } else {
        b"caller "
    };
    put(out, &[Part::Text(kind), Part::Number(u64::from(lane))])
}

/// Appends why a run was made.
pub(crate) fn put_cause(out: &mut Vec<u8>, bar: &Bar) -> Result<(), AllocError>
    ensures kept { Kept out.old.items out.new.items }
    ensures written { OnOk result (out.new.items ≡ out.old.items ++ cause_text bar.now.reasons bar.now.is_killed) }
{
    if bar.reasons.is_empty() {
        return put_bytes(out, bare_cause(bar.is_killed));
    }
    put_reasons(out, bar.reasons)?;
    if bar.is_killed {
        put_bytes(out, b",killed")?;
    }
    Ok(())
}

/// Why a run was made that has no reason.
fn bare_cause(is_killed: bool) -> &'static [u8]
    ensures { result.now ≡ bare_cause is_killed }
{
    if is_killed { b"killed" } else { b"none" }
}

/// How many letters the cause of a run has.
pub(crate) fn cause_length(bar: &Bar) -> usize {
    let names: [usize; 7] = [4, 5, 2, 6, 3, 3, 5];
    let mut length: usize = if bar.is_killed { 7 } else { 0 };
    for (name, reason) in names.into_iter().zip(Reasons::each()) {
        if bar.reasons.contains(reason) {
            length = length.saturating_add(name + 1);
        }
    }
    length.saturating_sub(1)
}

/// The place of a bar's first reason, from 0 to 6 in the order of the reasons, and 7 for none.
pub(crate) fn first_reason(bar: &Bar) -> usize {
    let reasons = Reasons::each();
    match reasons
        .iter()
        .position(|reason| bar.reasons.contains(*reason))
    {
        Some(place) => place,
        None => 7,
    }
}
