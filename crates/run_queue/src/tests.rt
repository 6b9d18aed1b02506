//! Picks by arrival and nice, also where keys wrap.

ghost use Rattle.std.specs.Prelude.{◌≡◌, ◌+◌, ◌^◌, ◌<◌, ◌≤◌, pos, negsuc, ◌≤ℤ◌, IfOk};
ghost use Rattle.sched_base.specs.KeyedList.{root_at};
ghost use Rattle.run_queue.specs.Runners.{Fits};

use crate::run_queue::RunQueue;
use sched_base::{KeyedLists, PlainLists, TaskId};
use std::alloc::{AllocError, Global};
use std::test::Fail;

/// The nice of a task: 0, then `spread` above and below.
fn nice_of(task: u32, spread: i32) -> i32
    requires least { pos 0 ≤ℤ spread }
    requires most { spread ≤ℤ pos 1024 }
    ensures low { negsuc 1023 ≤ℤ result }
    ensures high { result ≤ℤ pos 1024 }
{
    match task {
        0 => 0,
        1 => spread,
        _ => -spread,
    }
}

/// Puts a task in, where it is not in yet. The lists have entries for three tasks.
fn put(queue: &mut RunQueue, lists: &mut PlainLists, task: u32, spread: i32)
    requires fits { Fits queue.old lists.old }
    requires entries { lists.old.entries ≡ 6 }
    requires root { queue.old.root ≡ 0 }
    requires task { task < 3 }
    requires least { pos 0 ≤ℤ spread }
    requires most { spread ≤ℤ pos 1024 }
    requires count { queue.old.count < 2 ^ 62 }
    requires room { (root_at 0 lists.old).insertions < 2 ^ 62 }
    ensures fits { Fits queue.new lists.new }
    ensures entries { lists.new.entries ≡ 6 }
    ensures root { queue.new.root ≡ 0 }
    ensures count { queue.new.count ≤ queue.old.count + 1 }
    ensures insertions { (root_at 0 lists.new).insertions ≤ (root_at 0 lists.old).insertions + 1 }
{
    if lists.root_of(2 * task + 1).is_some() {
        return;
    }
    queue.insert(lists, TaskId(task), nice_of(task, spread));
}

/// Picks a task.
fn pick(queue: &mut RunQueue, lists: &mut PlainLists) -> Option<u32>
    requires { Fits queue.old lists.old }
    ensures fits { Fits queue.new lists.new }
    ensures entries { lists.new.entries ≡ lists.old.entries }
    ensures root { queue.new.root ≡ queue.old.root }
    ensures count { queue.new.count ≡ queue.old.count }
    ensures insertions { (root_at queue.old.root lists.new).insertions ≡ (root_at queue.old.root lists.old).insertions }
{
    queue.pick(lists).map(|id| id.0)
}

/// The key under which a task is stored.
fn stored(lists: &PlainLists, task: u32) -> Option<u32>
    requires { task < 3 }
{
    if lists.root_of(2 * task + 1).is_none() {
        return None;
    }
    Some(lists.key_of(2 * task + 1))
}

/// Three tasks that arrive after this many others: their stored keys, and four picks.
fn three(
    alloc: Global,
    count: u64,
    spread: i32,
) -> Result<([Option<u32>; 3], [Option<u32>; 4]), AllocError>
    requires count { count < 2 ^ 40 }
    requires least { pos 0 ≤ℤ spread }
    requires most { spread ≤ℤ pos 1024 }
{
    let mut lists = PlainLists::new(alloc, 1, 6)?;
    let mut queue = RunQueue::with_count(0, 200, count);
    put(&mut queue, &mut lists, 0, spread);
    put(&mut queue, &mut lists, 1, spread);
    put(&mut queue, &mut lists, 2, spread);
    let keys = [stored(&lists, 0), stored(&lists, 1), stored(&lists, 2)];
    let first = pick(&mut queue, &mut lists);
    let second = pick(&mut queue, &mut lists);
    let third = pick(&mut queue, &mut lists);
    let fourth = pick(&mut queue, &mut lists);
    Ok((keys, [first, second, third, fourth]))
}

/// The task with the least whole-number key, and among equals the one that came first.
fn least(keys: &[u64; 3], turns: &[u64; 3]) -> u32
    ensures { result < 3 }
{
    let before = |a: usize, b: usize| (keys[a % 3], turns[a % 3]) < (keys[b % 3], turns[b % 3]);
    if before(0, 1) && before(0, 2) {
        0
    } else if before(1, 2) {
        1
    } else {
        2
    }
}

/// Whether as many picks as told agree with a plain list of whole-number keys. Each task is put
/// back as soon as it is picked.
fn agrees(alloc: Global, count: u64, picks: u32) -> Result<bool, AllocError>
    requires count { count < 2 ^ 40 }
    requires picks { picks ≤ 10000 }
{
    let mut lists = PlainLists::new(alloc, 1, 6)?;
    let mut queue = RunQueue::with_count(0, 1000, count);
    let shifts = [1_024_000, 2_048_000, 0];
    let mut keys = [0; 3];
    let mut turns = [0; 3];
    let mut all = true;
    for turn in 0..picks + 3 {
        let task = if turn < 3 {
            turn
        } else {
            let task = least(&keys, &turns);
            all = all && pick(&mut queue, &mut lists) == Some(task);
            task
        };
        put(&mut queue, &mut lists, task, 1024);
        let came = queue.count();
        keys[task as usize] = came.wrapping_add(shifts[task as usize]);
        turns[task as usize] = came;
    }
    Ok(all)
}

#[test]
fn picks_go_by_arrival_and_nice(rt: HostRuntime) -> Result<(), Fail> {
    let (keys, picks) = three(rt.alloc(), 0, 1)?;
    assert_eq!(rt; keys, [Some(1), Some(202), Some(4_294_967_099)]);
    assert_eq!(rt; picks, [Some(2), Some(0), Some(1), None]);
    let (keys, picks) = three(rt.alloc(), 4_294_967_294, 0)?;
    assert_eq!(rt; keys, [Some(4_294_967_295), Some(0), Some(1)]);
    assert_eq!(rt; picks, [Some(0), Some(1), Some(2), None]);
    Ok(())
}

#[test]
fn picks_agree_with_plain_keys_over_two_wraps(rt: HostRuntime) -> Result<(), Fail> {
    for wrap in [4_294_967_296, 8_589_934_592] {
        for ahead in [1_025_000, 1_000] {
            assert!(rt; agrees(rt.alloc(), wrap - ahead, 5_000)?);
        }
        assert!(rt; agrees(rt.alloc(), wrap + 1_023_000, 5_000)?);
    }
    Ok(())
}
