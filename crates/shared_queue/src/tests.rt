//! Tasks that are gathered and dealt, over both kinds of lists, and what crosses threads.

ghost use Rattle.std.specs.Prelude.{◌≡◌, [], ◌∷◌, IfOk};
ghost use Rattle.sched_base.specs.KeyedList.{blank};

use crate::SharedQueue;
use eb32_core::Forest;
use sched_base::{KeyedLists, PlainLists, TaskId};
use std::alloc::{AllocError, Global};
use std::test::Fail;
use wake_board::Words;

/// Compiles where threads may share the type.
fn shared<T: Send + Sync>() {}

/// A queue is shared where its lists are.
fn shared_where_lists_are<K: KeyedLists + Send + Sync>() {
    shared::<SharedQueue<K>>();
}

#[test]
fn queues_are_shared_where_their_lists_are() {
    shared_where_lists_are::<PlainLists>();
    shared_where_lists_are::<Forest>();
}

/// Words of two workers and three tasks, which are all in the shared box.
fn three(alloc: Global) -> Result<Words, AllocError>
    ensures { IfOk result (λ w. w.tasks ≡ 3) }
{
    let mut words = Words::new(alloc, 3, 2)?;
    for i in 0..3 {
        if words.task(TaskId(i)) == 0 {
            words.seat_init(TaskId(i), 2);
        }
    }
    Ok(words)
}

/// How many tasks were dealt, the homes, and the words of the two workers' boxes.
type Dealt = (u32, [u32; 3], [u64; 2]);

/// Gathers three tasks of nices 0, 1 and -1, and deals at most so many.
fn dealt<K: KeyedLists + Drop>(alloc: Global, lists: K, most: u32) -> Result<Dealt, AllocError>
    requires { K.seen lists ≡ record { roots = blank ∷ []; entries = 6 } }
{
    let mut words = three(alloc)?;
    let mut queue = SharedQueue::new(alloc, lists, 200, 3)?;
    let nices = [0, 1, -1];
    queue.rank(&nices);
    queue.gather(&words, &nices);
    let mut homes = [2; 3];
    let count = queue.deal(&mut words, &mut homes, most);
    let boxes = [words.box_word(0, 0), words.box_word(1, 0)];
    Ok((count, homes, boxes))
}

#[test]
fn deals_go_by_nice_from_worker_to_worker(rt: HostRuntime) -> Result<(), Fail> {
    let alloc = rt.alloc();
    for (most, expected) in [
        (400, (3, [1, 0, 0], [6, 1])),
        (1, (1, [2, 2, 0], [4, 0])),
        (0, (0, [2, 2, 2], [0, 0])),
    ] {
        assert!(rt; dealt(alloc, PlainLists::new(alloc, 1, 6)?, most)? == expected);
        assert!(rt; dealt(alloc, Forest::new(alloc, 1, 6)?, most)? == expected);
    }
    Ok(())
}
