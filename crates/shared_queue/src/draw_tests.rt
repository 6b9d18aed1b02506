//! Draws in the order of nice and number, over many groups, and by two threads.

ghost use Rattle.std.specs.Prelude.{◌≡◌, ◌≤◌, length};
ghost use Rattle.wake_board.specs.Seen.{IsPassOf};

use crate::SharedQueue;
use crate::boards::{crowd, nices, queue};
use sched_base::{CallerId, PlainLists};
use std::alloc::{AllocError, Global};
use std::test::Fail;
use std::thread::{Threads, join_mut};
use wake_board::{Board, Pass};

/// Four draws of a caller.
fn four(queue: &SharedQueue<PlainLists>, board: &Board, pass: &mut Pass) -> [Option<u32>; 4]
    requires board { IsPassOf board.now pass.old }
    requires tasks { length board.now.start.state.tasks ≡ length queue.now.ranks }
{
    let first = queue.draw_for(board, pass).map(|id| id.0);
    let second = queue.draw_for(board, pass).map(|id| id.0);
    let third = queue.draw_for(board, pass).map(|id| id.0);
    let fourth = queue.draw_for(board, pass).map(|id| id.0);
    [first, second, third, fourth]
}

#[test]
fn draws_go_by_nice_then_number(rt: HostRuntime) -> Result<(), Fail> {
    let alloc = rt.alloc();
    let (board, mut passes) = crowd(alloc, 3, &[0, 1, 2])?;
    let Some(mut pass) = passes.take(CallerId(0)) else {
        panic!(rt; "no pass");
    };
    let mut ranked = queue(alloc, 3)?;
    ranked.rank(&[0, 1, -1]);
    assert!(rt; four(&ranked, &board, &mut pass) == [Some(2), Some(0), Some(1), None]);
    let (board, mut passes) = crowd(alloc, 4096, &[3, 4090])?;
    let Some(mut pass) = passes.take(CallerId(1)) else {
        panic!(rt; "no pass");
    };
    let plain = queue(alloc, 4096)?;
    assert!(rt; four(&plain, &board, &mut pass) == [Some(3), Some(4090), None, None]);
    Ok(())
}

/// Ten draws from so many tasks, of which these, in ascending number, are in the shared box and have these nices.
fn ten(
    alloc: Global,
    tasks: u32,
    boxed: &[u32],
    theirs: &[i32],
) -> Result<[Option<u32>; 10], AllocError>
    requires { tasks ≤ 65536 }
{
    let mut drawn = [None; 10];
    let (board, mut passes) = crowd(alloc, tasks, boxed)?;
    let mut ranked = queue(alloc, tasks)?;
    let nices = nices(alloc, tasks, boxed, theirs)?;
    ranked.rank(&nices);
    if let Some(mut pass) = passes.take(CallerId(0)) {
        'draws: for slot in drawn.iter_mut() {
            *slot = ranked.draw_for(&board, &mut pass).map(|id| id.0);
        }
    }
    Ok(drawn)
}

#[test]
fn draws_go_by_nice_over_many_groups(rt: HostRuntime) -> Result<(), Fail> {
    for (tasks, boxed, theirs, expected) in [
        (
            200,
            [1, 5, 63, 64, 65, 127, 128, 140, 199],
            [3, -2, 0, -2, 3, -7, 0, -2, 3],
            [127, 5, 64, 140, 63, 128, 1, 65, 199],
        ),
        (
            5000,
            [0, 63, 64, 1000, 2047, 4096, 4097, 4990, 4999],
            [1024, 1, -1, 1, -1, -1, -1, 0, -1024],
            [4999, 64, 2047, 4096, 4097, 4990, 63, 1000, 0],
        ),
    ] {
        let drawn = ten(rt.alloc(), tasks, &boxed, &theirs)?;
        for (draw, task) in drawn.iter().zip(expected.iter()) {
            assert!(rt; *draw == Some(*task));
        }
        assert!(rt; drawn[9].is_none());
    }
    Ok(())
}

/// Draws until no task is found, and counts how often each was drawn.
fn drain(queue: &SharedQueue<PlainLists>, board: &Board, pass: &mut Pass, times: &mut [u32])
    requires board { IsPassOf board.now pass.old }
    requires tasks { length board.now.start.state.tasks ≡ length queue.now.ranks }
    requires times { length times.old ≡ length queue.now.ranks }
    ensures { IsPassOf board.now pass.new }
{
    for _ in 0..u32::MAX {
        let Some(id) = queue.draw_for(board, pass) else {
            return;
        };
        let index = id.0 as usize;
        times[index] = times[index].wrapping_add(1);
    }
}

/// Two callers draw until no task is found, each on a thread.
fn both_drain(
    threads: &impl Threads,
    queue: &SharedQueue<PlainLists>,
    board: &Board,
    first: &mut Pass,
    second: &mut Pass,
    once: &mut [u32],
    twice: &mut [u32],
)
    requires first { IsPassOf board.now first.old }
    requires second { IsPassOf board.now second.old }
    requires tasks { length board.now.start.state.tasks ≡ length queue.now.ranks }
    requires once { length once.old ≡ length queue.now.ranks }
    requires twice { length twice.old ≡ length queue.now.ranks }
{
    join_mut(
        threads,
        &mut || drain(queue, board, first, once),
        &mut || drain(queue, board, second, twice),
    );
}

#[test]
fn two_threads_draw_each_task_once(rt: HostRuntime) -> Result<(), Fail> {
    let alloc = rt.alloc();
    let mut all = Vec::with_capacity(alloc, 1000)?;
    for id in 0..1000u32 {
        all.push(id)?;
    }
    let (board, mut passes) = crowd(alloc, 1000, &all)?;
    let Some(mut first) = passes.take(CallerId(0)) else {
        panic!(rt; "no first pass");
    };
    let Some(mut second) = passes.take(CallerId(1)) else {
        panic!(rt; "no second pass");
    };
    let queue = queue(alloc, 1000)?;
    let mut once = vec![in alloc; 0u32; 1000]?;
    let mut twice = vec![in alloc; 0u32; 1000]?;
    both_drain(
        &rt,
        &queue,
        &board,
        &mut first,
        &mut second,
        &mut once,
        &mut twice,
    );
    for (a, b) in once.iter().zip(twice.iter()) {
        assert!(rt; a.wrapping_add(*b) == 1);
    }
    Ok(())
}
