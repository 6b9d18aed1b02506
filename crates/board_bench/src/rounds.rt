//! What the calls cost, in tenths of nanoseconds.

ghost use Rattle.std.specs.Prelude.{◌≡◌, [], ◌∷◌, OnOk, IfOk};
ghost use Rattle.step_tables.specs.Nexts.{nexts_of};
ghost use Rattle.board_bench.specs.Callers.{IsDriven, IsNew};
ghost use Rattle.board_bench.specs.Drawn.{IsSharedTask};
ghost use Rattle.board_bench.specs.Pairs.{IsNewPair};

use crate::drawn::{bodies, draws, peep_and_draw, tries};
use crate::drive::driven;
use crate::driven::Driven;
use crate::laid::shared;
use crate::pair::{Pair, paired};
use crate::scripts::round_script;
use crate::work::{cycles, wakes};
use sched_base::TaskId;
use std::io;
use std::thread::{Threads, join_mut};
use std::time::Instant;
use step_tables::{Nexts, Script};

/// Tenths of nanoseconds since then, for each of so many calls.
fn since(rt: &HostRuntime, start: &Instant, calls: u32) -> io::Result<u64> {
    let spent = u64::try_from(start.elapsed(rt)?.as_nanos()).unwrap_or(u64::MAX);
    Ok(spent.saturating_mul(10) / u64::from(calls.max(1)))
}

/// Two workers, each with a task of its own at rest.
fn fresh_board(rt: &HostRuntime) -> io::Result<Driven>
    ensures { IfOk result (λ d. IsDriven d (0 ∷ 1 ∷ []) 2 × IsNew d) }
{
    match driven(rt.alloc(), 2, &[0, 1]) {
        Ok(Some(driven)) => Ok(driven),
        _ => Err(io::ErrorKind::OutOfMemory.into()),
    }
}

/// A wake, by one thread.
pub(crate) fn wake_alone(rt: &HostRuntime, times: u32) -> io::Result<u64> {
    let mut driven = fresh_board(rt)?;
    let start = Instant::now(rt)?;
    wakes(&driven.board, &mut driven.first.pass, TaskId(0), times);
    since(rt, &start, times)
}

/// A wake, a take and the end of a run, by one thread.
pub(crate) fn cycle_alone(rt: &HostRuntime, times: u32) -> io::Result<u64> {
    let mut driven = fresh_board(rt)?;
    let start = Instant::now(rt)?;
    cycles(&driven.board, &mut driven.first.pass, TaskId(0), times);
    since(rt, &start, times)
}

/// The same by two threads, each on the word of its own task.
pub(crate) fn cycle_apart(rt: &HostRuntime, threads: &impl Threads, times: u32) -> io::Result<u64> {
    let Driven {
        board,
        passes: _,
        mut first,
        mut second,
    } = fresh_board(rt)?;
    let start = Instant::now(rt)?;
    join_mut(
        threads,
        &mut || cycles(&board, &mut first.pass, TaskId(0), times),
        &mut || cycles(&board, &mut second.pass, TaskId(1), times),
    );
    since(rt, &start, times)
}

/// A wake, by two threads on the word of one task.
pub(crate) fn wake_together(
    rt: &HostRuntime,
    threads: &impl Threads,
    times: u32,
) -> io::Result<u64> {
    let Driven {
        board,
        passes: _,
        mut first,
        mut second,
    } = fresh_board(rt)?;
    let start = Instant::now(rt)?;
    join_mut(
        threads,
        &mut || wakes(&board, &mut first.pass, TaskId(0), times),
        &mut || wakes(&board, &mut second.pass, TaskId(0), times),
    );
    since(rt, &start, times)
}

/// Two workers, and one shared task in the shared box.
fn shared_pair(rt: &HostRuntime, script: &Script) -> io::Result<Pair>
    ensures { IfOk result (λ d. IsNewPair d × IsSharedTask d.board 0 2 × (d.board.start.nexts ≡ nexts_of script.now)) }
{
    let nexts = Nexts::of(rt.alloc(), script)?;
    let (board, passes) = shared(rt.alloc(), &nexts)?;
    let Some(pair) = paired(board, passes) else {
        return Err(io::ErrorKind::OutOfMemory.into());
    };
    Ok(pair)
}

/// The script of the one shared task.
fn one_script(rt: &HostRuntime) -> io::Result<Script> {
    match round_script(rt.alloc(), 1) {
        Ok(script) => Ok(script),
        Err(_) => Err(io::ErrorKind::OutOfMemory.into()),
    }
}

/// A draw of a task that is not in the shared box, by one thread.
pub(crate) fn draw_alone(rt: &HostRuntime, times: u32) -> io::Result<u64> {
    let mut pair = shared_pair(rt, &one_script(rt)?)?;
    pair.board.draw(&mut pair.first, TaskId(0));
    let start = Instant::now(rt)?;
    tries(&pair.board, &mut pair.second, TaskId(0), times);
    since(rt, &start, times)
}

/// A body that goes out and comes in again, by one thread.
pub(crate) fn body_alone(rt: &HostRuntime, times: u32) -> io::Result<u64> {
    let mut pair = shared_pair(rt, &one_script(rt)?)?;
    let (_, drawn) = peep_and_draw(&pair.board, &mut pair.first, TaskId(0));
    if !drawn {
        return Err(io::ErrorKind::InvalidData.into());
    }
    let start = Instant::now(rt)?;
    bodies(&pair.board, &mut pair.first, TaskId(0), times);
    since(rt, &start, times)
}

/// A run of a shared task from its draw to its post, with its body out and in, by one thread.
pub(crate) fn shared_alone(rt: &HostRuntime, times: u32) -> io::Result<u64> {
    let script = one_script(rt)?;
    let mut pair = shared_pair(rt, &script)?;
    let start = Instant::now(rt)?;
    draws(&pair.board, &mut pair.first, &script, 1, 2, times);
    since(rt, &start, times)
}
