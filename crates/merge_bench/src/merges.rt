//! A history that is cut into the logs of its callers and merged again.

ghost use Rattle.std.specs.Prelude.{◌≡◌, ◌-◌, ◌^◌, ◌<◌, ◌≤◌, ℕ, length, IfOk, vec_len};
ghost use Rattle.std.specs.Bool.{OnTrue};
ghost use Rattle.task_machine.specs.History.{History, calls_of};
ghost use Rattle.history_weave.specs.Places.{log_at};
ghost use Rattle.merge_bench.specs.Histories.{TakenAtMost, IsShape, AreCut};

#[cfg(test)]
use crate::histories::Shape;
#[cfg(test)]
use history_weave::Weaver;
#[cfg(test)]
use sched_base::TaskId;
use std::alloc::{AllocError, Global};
#[cfg(test)]
use task_machine::Place;
use task_machine::{Entry, Log, Machine};

/// Applies the entries to a machine whose tasks were never taken. Whether it allowed all of them.
pub(crate) fn lead(machine: &mut Machine, entries: &[Entry]) -> bool
    requires untaken { TakenAtMost 0 machine.old }
    requires few { length entries.now < 2 ^ 48 - 1 }
    ensures { OnTrue result (History machine.old entries.now machine.new) }
{
    for entry in entries {
        if let Err(_) = machine.apply(entry) {
            return false;
        }
    }
    true
}

/// A merge, and whether all tasks rest in a copy of the machine that was made before it.
#[cfg(test)]
#[derive(Drop)]
pub(crate) struct Woven {
    pub weaver: Weaver,
    pub copy_rests: bool,
}

/// Whether all tasks rest.
#[cfg(test)]
fn all_rest(machine: &Machine, tasks: u32) -> bool
    requires { length machine.now.tasks ≡ tasks }
{
    for task in 0..tasks {
        if machine.place(TaskId(task)) != Place::Rest {
            return false;
        }
    }
    true
}

/// Cuts a history of a new machine into the logs of its callers, and merges these again. There is no
/// merge where the machine does not allow the history.
#[cfg(test)]
pub(crate) fn woven_again(
    alloc: Global,
    shape: Shape,
    entries: &[Entry],
) -> Result<Option<Woven>, AllocError>
    requires { IsShape shape }
{
    let mut led = Machine::new(alloc, shape.tasks, shape.workers)?;
    if entries.len() > u32::MAX as usize || !lead(&mut led, entries) {
        return Ok(None);
    }
    let logs = cut(alloc, entries, shape.workers as usize + 1)?;
    let mut weaver = Weaver::new(alloc, shape.tasks, shape.workers)?;
    weaver.reserve(entries.len())?;
    let mut machine = Machine::new(alloc, shape.tasks, shape.workers)?;
    let copy = machine.try_clone()?;
    weaver.weave(&mut machine, &logs);
    Ok(Some(Woven {
        weaver,
        copy_rests: all_rest(&copy, shape.tasks),
    }))
}

/// The entries of caller k.
fn own_log(alloc: Global, entries: &[Entry], k: usize) -> Result<Log, AllocError>
    ensures { IfOk result (λ log. log.entries ≡ calls_of k entries.now) }
{
    let mut log = Log::new(alloc);
    for entry in entries {
        if entry.caller.0 as usize == k {
            log.reserve(1)?;
            log.push(*entry);
        }
    }
    Ok(log)
}

/// The logs of so many callers.
pub(crate) fn cut(alloc: Global, entries: &[Entry], callers: usize) -> Result<Vec<Log>, AllocError>
    ensures { IfOk result (λ logs. AreCut logs.items callers entries.now) }
{
    let mut logs = Vec::new(alloc);
    for k in 0..callers {
        logs.push(own_log(alloc, entries, k)?)?;
    }
    Ok(logs)
}
