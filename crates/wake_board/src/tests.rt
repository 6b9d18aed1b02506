//! What crosses threads, and words after a task was seated.

use crate::{Board, NO_HOLDER, Pass, Passes, Words};
use sched_base::TaskId;
use std::test::Fail;

/// Compiles where threads may share the type.
fn shared<T: Send + Sync>() {}

/// Compiles where the type may go from thread to thread.
fn handed<T: Send>() {}

#[test]
fn boards_are_shared_and_passes_handed_on() {
    shared::<Board>();
    handed::<Pass>();
    handed::<Passes>();
}

#[test]
fn words_hold_what_was_seated(rt: HostRuntime) -> Result<(), Fail> {
    let id = TaskId(65);
    let mut words = Words::new(rt.alloc(), 70, 2)?;
    assert!(rt; words.task(id) == 0);
    words.seat_init(id, 2);
    let copy = words.try_clone()?;
    assert!(rt; copy.task(id) == 258 && copy.box_word(2, 1) == 2 && copy.box_word(1, 1) == 0);
    assert!(rt; copy.body(id).takes == 0);
    assert_eq!(rt; NO_HOLDER, 4_294_967_295);
    Ok(())
}
