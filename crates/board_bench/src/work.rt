//! The work that is timed, on one pass.

ghost use Rattle.std.specs.Prelude.{◌<◌, length};
ghost use Rattle.task_machine.specs.Own.{away};
ghost use Rattle.board_bench.specs.Callers.{IsUsed, IsAt};

use crate::has::{is_busy, rests};
use sched_base::{Reasons, TaskId};
use task_machine::Seen;
use wake_board::{Board, Pass};

/// Wakes a task so often; how often it was not at rest.
pub(crate) fn wakes(board: &Board, pass: &mut Pass, id: TaskId, times: u32) -> u32
    requires used { IsUsed board.now pass.old }
    requires exists { id.0 < length board.now.start.state.tasks }
{
    let mut queued = 0u32;
    for _ in 0..times {
        let seen = board.wake(pass, id, Reasons::IO);
        if !rests(&seen) {
            queued = queued.wrapping_add(1);
        }
    }
    queued
}

/// Wakes, takes and drops a task of the caller's own so often, or until another caller wakes it; how often that was.
pub(crate) fn cycles(board: &Board, pass: &mut Pass, id: TaskId, times: u32) -> u32
    requires exists { id.0 < length board.now.start.state.tasks }
    requires own { IsAt board.now pass.old id.0 away 0 }
{
    for i in 0..times {
        let seen = board.wake(pass, id, Reasons::IO);
        if !rests(&seen) {
            return i;
        }
        board.take(pass, id);
        let dropped = board.drop_run(pass, id);
        if is_busy(&dropped) {
            return i;
        }
    }
    times
}
