//! The queues over a forest.

ghost use Rattle.std.specs.Prelude.{◌≡◌, ◌+◌, ◌^◌, ◌<◌, ◌≤◌, length};
ghost use Rattle.sched_base.specs.KeyedList.{root_at};
ghost use Rattle.run_queue.specs.Runners.{Fits as RunsFit};
ghost use Rattle.wait_queue.specs.Timers.{Fits as TimersFit, insertions_of};

use crate::work::{Draws, fill};
use eb32_core::Forest;
use eb32_walk::{lookup_le, next_dup, next_unique, prev};
use run_queue::RunQueue;
use sched_base::{KeyedLists, Steps, TaskId};
use std::alloc::{AllocError, Global};
use std::marker::Brand;
use std::sync::ledger::{Blank, Ledger};
use std::test::Fail;
use wait_queue::WaitQueue;

/// Two timers, one past the wrap of the ticks: which fire at tick 5, and when the queue is next due
/// before and after.
fn timers<K: KeyedLists>(lists: &mut K, queue: &mut WaitQueue) -> [Option<u32>; 5]
    requires fits { TimersFit queue.old (K.seen lists.old) }
    requires tasks { length queue.old.expiries ≡ 4 }
    requires room { insertions_of queue.old (K.seen lists.old) ≤ 0 }
{
    let now = 4_294_967_290;
    queue.set_expiry(TaskId(1), 3);
    queue.set_expiry(TaskId(0), 4_294_967_294);
    queue.arm(lists, TaskId(1), now);
    queue.arm(lists, TaskId(0), now);
    let due = queue.next_expiry(lists, now);
    let first = queue.sweep_next(lists, 5).map(|id| id.0);
    let second = queue.sweep_next(lists, 5).map(|id| id.0);
    let third = queue.sweep_next(lists, 5).map(|id| id.0);
    [due, first, second, third, queue.next_expiry(lists, 5)]
}

/// Puts a task in, where it is not in yet.
fn put<K: KeyedLists>(queue: &mut RunQueue, lists: &mut K, task: u32)
    requires fits { RunsFit queue.old (K.seen lists.old) }
    requires entries { (K.seen lists.old).entries ≡ 8 }
    requires task { task < 4 }
    requires count { queue.old.count < 2 ^ 62 }
    requires room { (root_at queue.old.root (K.seen lists.old)).insertions < 2 ^ 62 }
    ensures fits { RunsFit queue.new (K.seen lists.new) }
    ensures entries { (K.seen lists.new).entries ≡ 8 }
    ensures root { queue.new.root ≡ queue.old.root }
    ensures count { queue.new.count ≤ queue.old.count + 1 }
    ensures insertions { (root_at queue.old.root (K.seen lists.new)).insertions ≤ (root_at queue.old.root (K.seen lists.old)).insertions + 1 }
{
    if lists.root_of(2 * task + 1).is_some() {
        return;
    }
    queue.insert(lists, TaskId(task), 0);
}

/// Two tasks, of which the second comes first: in which order they are picked.
fn runs<K: KeyedLists>(lists: &mut K, queue: &mut RunQueue) -> [Option<u32>; 3]
    requires fits { RunsFit queue.old (K.seen lists.old) }
    requires entries { (K.seen lists.old).entries ≡ 8 }
    requires count { queue.old.count ≤ 0 }
    requires room { (root_at queue.old.root (K.seen lists.old)).insertions ≤ 0 }
{
    put(queue, lists, 3);
    put(queue, lists, 1);
    let first = queue.pick(lists).map(|id| id.0);
    let second = queue.pick(lists).map(|id| id.0);
    [first, second, queue.pick(lists).map(|id| id.0)]
}

#[test]
fn timers_fire_from_a_forest(rt: HostRuntime) -> Result<(), Fail> {
    let mut forest = Forest::new(rt.alloc(), 2, 8)?;
    let mut queue = WaitQueue::new(rt.alloc(), 0, 4)?;
    let seen = timers(&mut forest, &mut queue);
    let due = [Some(4_294_967_294), Some(0), Some(1), None, None];
    assert_eq!(rt; seen, due);
    Ok(())
}

#[test]
fn tasks_are_picked_from_a_forest(rt: HostRuntime) -> Result<(), Fail> {
    let mut forest = Forest::new(rt.alloc(), 2, 8)?;
    let mut queue = RunQueue::new(1, 200);
    assert_eq!(rt; runs(&mut forest, &mut queue), [Some(3), Some(1), None]);
    Ok(())
}

/// What stands before an entry, behind it under the same key, and behind it under another key, where
/// the entry stands in a root.
fn beside(forest: &Forest, entry: u32) -> Option<[Option<u32>; 3]> {
    let Some(_root) = forest.is_in(entry) else {
        return None;
    };
    let arena = forest.arena();
    Some([
        prev(arena, entry),
        next_dup(arena, entry),
        next_unique(arena, entry),
    ])
}

/// The link of the first root, and its last entry of at most this key, where there is a root.
fn below(forest: &Forest, key: u32) -> Option<(u32, Option<u32>)> {
    let arena = forest.arena();
    if arena.roots() == 0 {
        return None;
    }
    Some((arena.root(0).number(), lookup_le(arena, 0, key)))
}

/// A forest of one root with four equal keys.
fn four_equal<L: Ledger>(alloc: Global, blank: Blank) -> Result<Forest, AllocError>
    requires name { blank.name ≡ L.name }
    requires parts { blank.parts ≡ L.parts }
    requires some { 0 < L.parts }
{
    let mut steps = Steps::<L>::new(blank);
    let mut forest = Forest::new(alloc, 1, 4)?;
    fill(&mut forest, 0, &mut Draws::new(), &mut steps);
    Ok(forest)
}

#[test]
fn walks_go_over_the_arena_of_a_forest(rt: HostRuntime) -> Result<(), Fail> {
    let forest = four_equal::<Brand>(rt.alloc(), Blank::new(1))?;
    assert_eq!(rt; below(&forest, 0), Some((5, Some(3))));
    assert_eq!(rt; beside(&forest, 0), Some([None, Some(1), None]));
    assert_eq!(rt; beside(&forest, 2), Some([Some(1), Some(3), None]));
    assert_eq!(rt; beside(&forest, 3), Some([Some(2), None, None]));
    assert_eq!(rt; beside(&forest, 4), None);
    Ok(())
}
