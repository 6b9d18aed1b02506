//! Histories that are merged again.

use crate::histories::{Shape, random_history, wake, woken_by_three};
use crate::merges::{Woven, woven_again};
use sched_base::Reasons;
use std::test::Fail;
use task_machine::Stand;

const TWO_TASKS: Shape = Shape {
    tasks: 2,
    workers: 2,
    one_in: 1,
    shared: false,
};

const FEW_TASKS: Shape = Shape {
    tasks: 3,
    workers: 3,
    one_in: 20,
    shared: false,
};

const SHARED_TASK: Shape = Shape {
    tasks: 1,
    workers: 3,
    one_in: 1 << 30,
    shared: true,
};

/// The callers of a merge, one digit each.
fn callers(woven: &Woven) -> u64 {
    let mut digits = 0u64;
    for entry in woven.weaver.entries() {
        digits = digits
            .wrapping_mul(10)
            .wrapping_add(u64::from(entry.caller.0));
    }
    digits
}

#[test]
fn a_merge_waits_for_who_saw_less(rt: HostRuntime) -> Result<(), Fail> {
    let (none, io, msg) = (Reasons::EMPTY, Reasons::IO, Reasons::MSG);
    let history = [
        wake(0, 0, io, Stand::Rest, none),
        wake(2, 1, msg, Stand::Rest, none),
        wake(1, 1, io, Stand::Queued, msg),
        wake(1, 0, io, Stand::Queued, io),
        wake(0, 0, msg, Stand::Queued, io),
    ];
    let woven = woven_again(rt.alloc(), TWO_TASKS, &history)?.expect(&rt, "it is legal");
    let callers = callers(&woven);
    assert!(rt; callers == 2110 || callers == 20110);
    assert!(rt; woven.copy_rests);
    Ok(())
}

#[test]
fn no_entries_merge_to_none(rt: HostRuntime) -> Result<(), Fail> {
    let woven = woven_again(rt.alloc(), TWO_TASKS, &[])?.expect(&rt, "it is legal");
    assert!(rt; woven.weaver.entries().is_empty());
    Ok(())
}

#[test]
fn the_last_of_three_wakes_comes_last(rt: HostRuntime) -> Result<(), Fail> {
    let history = woken_by_three(rt.alloc(), 199_999)?;
    let woven = woven_again(rt.alloc(), TWO_TASKS, history.as_slice())?.expect(&rt, "it is legal");
    let entries = woven.weaver.entries();
    let first = wake(0, 0, Reasons::IO, Stand::Rest, Reasons::EMPTY);
    let last = wake(2, 0, Reasons::MSG, Stand::Queued, Reasons::IO);
    assert_eq!(rt; entries.len(), 200_001);
    assert_eq!(rt; entries.first(), Some(&first));
    assert_eq!(rt; entries.last(), Some(&last));
    Ok(())
}

#[test]
fn random_histories_are_merged_again(rt: HostRuntime) -> Result<(), Fail> {
    for seed in 0..20u64 {
        let shape = if seed < 5 { SHARED_TASK } else { FEW_TASKS };
        let history = random_history(rt.alloc(), shape, seed, 300)?;
        let woven = woven_again(rt.alloc(), shape, history.as_slice())?.expect(&rt, "it is legal");
        assert_eq!(rt; woven.weaver.entries().len(), 300);
    }
    Ok(())
}
