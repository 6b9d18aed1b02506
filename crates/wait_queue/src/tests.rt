//! Timers that move, wait and fire, also round the wrap.

ghost use Rattle.std.specs.Prelude.{◌≡◌, ◌+◌, ◌^◌, ◌<◌, ◌≤◌, length};
ghost use Rattle.wait_queue.specs.Timers.{Fits, IsSameQueue, insertions_of};

use crate::wait_queue::WaitQueue;
use sched_base::{PlainLists, TaskId};
use std::alloc::{AllocError, Global};
use std::test::Fail;

/// One call, by the numbers of its task and tick. What it answers is a number or nothing.
#[derive(Clone, Copy)]
enum Call {
    Set(u32, u32),
    Arm(u32, u32),
    Unlink(u32),
    Sweep(u32),
    Settle(u32),
    Key(u32),
    Next(u32),
    IsEmpty,
}

/// Makes one call of a queue whose items are in root 0. A task that is not there is left alone.
fn answer(queue: &mut WaitQueue, lists: &mut PlainLists, call: Call) -> Option<u32>
    requires fits { Fits queue.old lists.old }
    requires tasks { length queue.old.expiries ≡ 4 }
    requires room { insertions_of queue.old lists.old < 2 ^ 62 }
    ensures fits { Fits queue.new lists.new }
    ensures same { IsSameQueue queue.old queue.new }
    ensures insertions { insertions_of queue.new lists.new ≤ insertions_of queue.old lists.old + 4 }
{
    match call {
        Call::Set(task, tick) if task < 4 => queue.set_expiry(TaskId(task), tick),
        Call::Arm(task, now) if task < 4 => queue.arm(lists, TaskId(task), now),
        Call::Unlink(task) if task < 4 => queue.unlink(lists, TaskId(task)),
        Call::Sweep(now) => return queue.sweep_next(lists, now).map(|id| id.0),
        Call::Settle(now) => queue.settle(lists, now),
        Call::Key(task) if task < 4 => return queue.key(lists, TaskId(task)),
        Call::Next(now) => return queue.next_expiry(lists, now),
        Call::IsEmpty => return Some(u32::from(queue.is_empty(lists))),
        _ => {}
    }
    None
}

/// Whether these calls of a fresh queue of four tasks give these answers.
fn answers(alloc: Global, steps: &[(Call, Option<u32>)]) -> Result<bool, AllocError>
    requires { length steps.now ≤ 100 }
{
    let mut lists = PlainLists::new(alloc, 2, 8)?;
    let mut queue = WaitQueue::new(alloc, 0, 4)?;
    let mut all = true;
    for (call, wanted) in steps {
        all = all && answer(&mut queue, &mut lists, *call) == *wanted;
    }
    Ok(all)
}

#[test]
fn an_expiry_that_moves_later_leaves_its_item(rt: HostRuntime) -> Result<(), Fail> {
    let alloc = rt.alloc();
    let later = [
        (Call::Set(0, 20), None),
        (Call::Arm(0, 1), None),
        (Call::Set(0, 35), None),
        (Call::Arm(0, 5), None),
        (Call::Key(0), Some(20)),
        (Call::Next(5), Some(20)),
        (Call::Sweep(22), None),
        (Call::Key(0), Some(35)),
        (Call::Sweep(36), Some(0)),
        (Call::Sweep(36), None),
        (Call::IsEmpty, Some(1)),
    ];
    assert!(rt; answers(alloc, later.as_slice())?);
    let never = [
        (Call::Set(0, 20), None),
        (Call::Arm(0, 1), None),
        (Call::Set(0, 0), None),
        (Call::Arm(0, 5), None),
        (Call::IsEmpty, Some(0)),
        (Call::Sweep(22), None),
        (Call::IsEmpty, Some(1)),
    ];
    assert!(rt; answers(alloc, never.as_slice())?);
    let earlier = [
        (Call::Set(0, 20), None),
        (Call::Arm(0, 1), None),
        (Call::Set(0, 10), None),
        (Call::Arm(0, 5), None),
        (Call::Key(0), Some(10)),
    ];
    assert!(rt; answers(alloc, earlier.as_slice())?);
    Ok(())
}

#[test]
fn a_list_settles_at_its_earliest_expiry(rt: HostRuntime) -> Result<(), Fail> {
    let alloc = rt.alloc();
    let later = [
        (Call::Set(0, 20), None),
        (Call::Arm(0, 1), None),
        (Call::Set(0, 35), None),
        (Call::Arm(0, 5), None),
        (Call::Settle(6), None),
        (Call::Key(0), Some(35)),
        (Call::Next(6), Some(35)),
    ];
    assert!(rt; answers(alloc, later.as_slice())?);
    let never = [
        (Call::Set(0, 20), None),
        (Call::Arm(0, 1), None),
        (Call::Set(0, 0), None),
        (Call::Arm(0, 5), None),
        (Call::Settle(6), None),
        (Call::IsEmpty, Some(1)),
    ];
    assert!(rt; answers(alloc, never.as_slice())?);
    let several = [
        (Call::Set(0, 4_294_967_295), None),
        (Call::Set(1, 3), None),
        (Call::Set(2, 5), None),
        (Call::Arm(0, 4_294_967_290), None),
        (Call::Arm(1, 4_294_967_290), None),
        (Call::Arm(2, 4_294_967_290), None),
        (Call::Set(0, 9), None),
        (Call::Set(1, 0), None),
        (Call::Settle(4_294_967_291), None),
        (Call::Next(4_294_967_291), Some(5)),
        (Call::Key(0), Some(9)),
        (Call::Key(1), None),
    ];
    assert!(rt; answers(alloc, several.as_slice())?);
    Ok(())
}

#[test]
fn timers_fire_by_distance_round_the_wrap(rt: HostRuntime) -> Result<(), Fail> {
    let steps = [
        (Call::Set(1, 3), None),
        (Call::Set(3, 10), None),
        (Call::Set(0, 4_294_967_294), None),
        (Call::Set(2, 4_294_967_294), None),
        (Call::Arm(1, 4_294_967_290), None),
        (Call::Arm(3, 4_294_967_290), None),
        (Call::Arm(0, 4_294_967_290), None),
        (Call::Arm(2, 4_294_967_290), None),
        (Call::Next(4_294_967_290), Some(4_294_967_294)),
        (Call::Sweep(4_294_967_290), None),
        (Call::Sweep(5), Some(0)),
        (Call::Sweep(5), Some(2)),
        (Call::Sweep(5), Some(1)),
        (Call::Sweep(5), None),
        (Call::Next(5), Some(10)),
        (Call::Key(1), None),
        (Call::Unlink(3), None),
        (Call::IsEmpty, Some(1)),
    ];
    assert!(rt; answers(rt.alloc(), steps.as_slice())?);
    Ok(())
}
