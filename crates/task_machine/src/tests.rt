//! Worked histories through the machine.

ghost use Rattle.std.specs.Prelude.{◌≡◌, ◌+◌, ◌<◌, length, vec_len, IfOk};

use crate::calls::{Call, Entry, NotLegal, Reply};
use crate::entry_log::Log;
use crate::machine::Machine;
use crate::task::{Place, Seen, Stand};
use sched_base::{CallerId, Reasons, TaskId};
use std::alloc::{AllocError, Global};
use std::test::Fail;

const TASK: TaskId = TaskId(0);

fn by(caller: u32, call: Call, reply: Reply) -> Entry {
    Entry {
        caller: CallerId(caller),
        call,
        reply,
    }
}

fn saw(stand: Stand, pending: Reasons, killed: bool, takes: u64) -> Reply {
    Reply::Task(Seen::Live {
        stand,
        pending,
        killed,
        takes,
    })
}

/// What one worker's machine with one task answers to these entries, up to the first refusal.
fn played(alloc: Global, init: bool, entries: &[Entry]) -> Result<Option<NotLegal>, AllocError>
    requires { length entries.now < 100 }
{
    let mut machine = Machine::new(alloc, 1, 1)?;
    if init {
        machine.seat_init(TASK, 0);
    }
    for entry in entries {
        if let Err(cause) = machine.apply(entry) {
            return Ok(Some(cause));
        }
    }
    Ok(None)
}

/// The entries of a task that caller 1 wakes and caller 0 runs, and then these.
fn woken_and_taken(alloc: Global, rest: &[Entry]) -> Result<Vec<Entry>, AllocError>
    ensures { IfOk result (λ v. vec_len v ≡ length rest.now + 4) }
{
    let mut entries = Vec::new(alloc);
    entries.extend_from_slice(&[
        by(
            1,
            Call::Wake(TASK, Reasons::SIGNAL),
            saw(Stand::Rest, Reasons::EMPTY, false, 0),
        ),
        by(1, Call::Post(TASK, 0), Reply::Done),
        by(0, Call::Get(0), Reply::Group(1)),
        by(
            0,
            Call::Take(TASK),
            saw(Stand::Queued, Reasons::SIGNAL, false, 0),
        ),
    ])?;
    entries.extend_from_slice(rest)?;
    Ok(entries)
}

#[test]
fn a_wake_in_a_run_leaves_the_duty_with_the_runner(rt: HostRuntime) -> Result<(), Fail> {
    let rest = [
        by(
            1,
            Call::Wake(TASK, Reasons::IO),
            saw(Stand::Runs, Reasons::EMPTY, false, 1),
        ),
        by(
            0,
            Call::DropRun(TASK),
            saw(Stand::Runs, Reasons::IO, false, 1),
        ),
        by(
            0,
            Call::Take(TASK),
            saw(Stand::Queued, Reasons::IO, false, 1),
        ),
        by(
            0,
            Call::DropRun(TASK),
            saw(Stand::Runs, Reasons::EMPTY, false, 2),
        ),
    ];
    let entries = woken_and_taken(rt.alloc(), &rest)?;
    assert_eq!(rt; played(rt.alloc(), false, &entries)?, None);
    Ok(())
}

#[test]
fn a_drawn_task_is_taken_by_its_drawer(rt: HostRuntime) -> Result<(), Fail> {
    let shared = [
        by(
            0,
            Call::Wake(TASK, Reasons::MSG),
            saw(Stand::Rest, Reasons::EMPTY, false, 0),
        ),
        by(0, Call::Post(TASK, 1), Reply::Done),
        by(0, Call::Get(0), Reply::Group(0)),
        by(0, Call::Draw(TASK), Reply::Done),
        by(0, Call::Get(0), Reply::Group(0)),
        by(
            0,
            Call::Take(TASK),
            saw(Stand::Queued, Reasons::MSG, false, 0),
        ),
    ];
    assert_eq!(rt; played(rt.alloc(), false, &shared)?, None);
    let foreign = [by(1, Call::Take(TASK), Reply::Done)];
    let mut drawn = Vec::new(rt.alloc());
    drawn.extend_from_slice(&shared[..4])?;
    drawn.extend_from_slice(&foreign)?;
    assert_eq!(rt;
        played(rt.alloc(), false, &drawn)?,
        Some(NotLegal::Place(Place::Drawn(CallerId(0))))
    );
    Ok(())
}

#[test]
fn a_killed_task_is_retired_by_its_runner(rt: HostRuntime) -> Result<(), Fail> {
    let rest = [
        by(
            1,
            Call::Kill(TASK),
            saw(Stand::Runs, Reasons::EMPTY, false, 1),
        ),
        by(
            1,
            Call::Wake(TASK, Reasons::IO),
            saw(Stand::Runs, Reasons::EMPTY, true, 1),
        ),
        by(
            0,
            Call::DropRun(TASK),
            saw(Stand::Runs, Reasons::IO, true, 1),
        ),
        by(
            0,
            Call::Retire(TASK),
            saw(Stand::Queued, Reasons::IO, true, 1),
        ),
        by(1, Call::Wake(TASK, Reasons::IO), Reply::Task(Seen::Gone)),
    ];
    let entries = woken_and_taken(rt.alloc(), &rest)?;
    assert_eq!(rt; played(rt.alloc(), false, &entries)?, None);
    Ok(())
}

#[test]
fn each_refusal_names_its_first_cause(rt: HostRuntime) -> Result<(), Fail> {
    let alloc = rt.alloc();
    let rests = saw(Stand::Rest, Reasons::EMPTY, false, 0);
    let queued = saw(Stand::Queued, Reasons::IO, false, 0);
    let wake = Call::Wake(TASK, Reasons::IO);
    let twice = [by(0, wake, rests), by(1, wake, rests)];
    assert_eq!(rt;
        played(alloc, false, &twice)?,
        Some(NotLegal::Reply(queued))
    );
    let early = [by(0, Call::Take(TASK), rests)];
    assert_eq!(rt;
        played(alloc, false, &early)?,
        Some(NotLegal::Place(Place::Rest))
    );
    let unasked = [by(1, Call::Get(0), Reply::Group(0))];
    assert_eq!(rt; played(alloc, false, &unasked)?, Some(NotLegal::Name));
    let seated = [by(0, Call::Get(0), Reply::Group(1))];
    assert_eq!(rt; played(alloc, true, &seated)?, None);
    Ok(())
}

#[test]
fn a_log_holds_its_entries_in_order(rt: HostRuntime) -> Result<(), Fail> {
    let mut log = Log::new(rt.alloc());
    log.reserve(2)?;
    log.push(by(1, Call::Post(TASK, 0), Reply::Done));
    log.push(by(0, Call::Get(0), Reply::Group(1)));
    let pushed = [
        by(1, Call::Post(TASK, 0), Reply::Done),
        by(0, Call::Get(0), Reply::Group(1)),
    ];
    assert_eq!(rt; log.as_slice(), pushed.as_slice());
    log.clear();
    assert!(rt; log.as_slice().is_empty());
    Ok(())
}

#[test]
fn a_clone_stays_as_it_was(rt: HostRuntime) -> Result<(), Fail> {
    let mut machine = Machine::new(rt.alloc(), 1, 1)?;
    let before = machine.try_clone()?;
    machine.seat_init(TASK, 1);
    let seated = machine.try_clone()?;
    machine.deal(TASK, 0);
    assert_eq!(rt; before.place(TASK), Place::Rest);
    assert_eq!(rt; seated.place(TASK), Place::Boxed(1));
    assert_eq!(rt; machine.place(TASK), Place::Boxed(0));
    assert_eq!(rt; machine.box_group(0, 0), 1);
    Ok(())
}

fn goes_to_threads<T: Send>(_value: &T) {}

#[test]
fn a_log_goes_from_thread_to_thread(rt: HostRuntime) {
    goes_to_threads(&Log::new(rt.alloc()));
}
