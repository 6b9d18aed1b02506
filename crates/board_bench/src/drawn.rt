//! Runs of shared tasks, from their draws on.

ghost use Rattle.std.specs.Prelude.{◌≡◌, [], ℕ, true, false, ◌+◌, ◌*◌, ◌^◌, ◌<◌, ◌≤◌, length, slice_index, slice_index_or};
ghost use Rattle.step_tables.specs.Nexts.{nexts_of};
ghost use Rattle.board_bench.specs.Drawn.{IsClear, HasDrawn, IsSharedTask};
ghost use Rattle.board_bench.specs.Callers.{IsUsed};

use crate::has::{is_busy, rests};
use sched_base::{Reasons, TaskId};
use step_tables::Script;
use task_machine::Seen;
use wake_board::{Board, Body, Pass};

/// The row that comes after a row of a task; 0 where the script has no such row.
pub(crate) fn next_row(script: &Script, id: TaskId, row: u32) -> u32
    ensures { result ≡ slice_index (slice_index_or (nexts_of script.now) id.0 []) row }
{
    match script.tasks().get(id.0 as usize) {
        Some(task) => match task.rows.as_slice().get(row as usize) {
            Some(row) => row.next,
            None => 0,
        },
        None => 0,
    }
}

/// What the run of a drawn task began with.
#[derive(Clone, Copy, Debug, PartialEq, Eq)]
pub struct Run {
    pub body: Body,
    pub seen: Seen,
}

/// Looks into the shared box, and draws a task; the word that it saw, and whether it drew.
pub(crate) fn peep_and_draw(board: &Board, pass: &mut Pass, id: TaskId) -> (u64, bool)
    requires clear { IsClear board.now pass.old }
    requires exists { id.0 < length board.now.start.state.tasks }
    ensures drawn { result.1 ≡ true → HasDrawn board.now pass.new id.0 }
    ensures not { result.1 ≡ false → IsClear board.now pass.new }
    ensures few { length pass.new.entries ≤ length pass.old.entries + 1 }
    ensures who { pass.new.who ≡ pass.old.who }
{
    let word = board.peep(pass, id.0 / 64);
    (word, board.draw(pass, id))
}

/// Runs a shared task once that the caller has drawn, with its body out while the run begins. After the run the task is
/// woken, and goes back into the shared box.
pub(crate) fn run_drawn(
    board: &Board,
    pass: &mut Pass,
    script: &Script,
    id: TaskId,
    workers: u32,
) -> Run
    requires drawn { HasDrawn board.now pass.old id.0 }
    requires task { IsSharedTask board.now id.0 workers }
    requires nexts { board.now.start.nexts ≡ nexts_of script.now }
    requires early { length pass.old.entries < 2 ^ 40 }
    ensures clear { IsClear board.now pass.new }
    ensures few { length pass.new.entries ≤ length pass.old.entries + 4 }
    ensures who { pass.new.who ≡ pass.old.who }
{
    let body = board.body_out(pass, id);
    let seen = board.take(pass, id);
    let next = Body {
        row: next_row(script, id, body.row),
        takes: body.takes + 1,
    };
    board.body_in(pass, id, next);
    let dropped = board.drop_run(pass, id);
    let woken = board.wake(pass, id, Reasons::MSG);
    let held = is_busy(&dropped) | rests(&woken);
    if held {
        board.post(pass, id, workers);
    }
    Run { body, seen }
}

/// Draws a shared task and runs it once; none where it was not in the shared box.
pub(crate) fn draw_and_run(
    board: &Board,
    pass: &mut Pass,
    script: &Script,
    id: TaskId,
    workers: u32,
) -> Option<Run>
    requires clear { IsClear board.now pass.old }
    requires task { IsSharedTask board.now id.0 workers }
    requires nexts { board.now.start.nexts ≡ nexts_of script.now }
    requires early { length pass.old.entries + 1 < 2 ^ 40 }
    ensures clear { IsClear board.now pass.new }
    ensures few { length pass.new.entries ≤ length pass.old.entries + 5 }
    ensures who { pass.new.who ≡ pass.old.who }
{
    if board.draw(pass, id) {
        Some(run_drawn(board, pass, script, id, workers))
    } else {
        None
    }
}

/// Draws the tasks of the first so many in turn, so often, and runs each that was in the shared box; how many those were.
pub(crate) fn draws(
    board: &Board,
    pass: &mut Pass,
    script: &Script,
    tasks: u32,
    workers: u32,
    times: u32,
) -> u64
    requires clear { IsClear board.now pass.old }
    requires tasks { (i : ℕ) → i < tasks → IsSharedTask board.now i workers }
    requires some_tasks { 1 ≤ tasks }
    requires nexts { board.now.start.nexts ≡ nexts_of script.now }
    requires fresh { length pass.old.entries ≤ 2 ^ 20 }
    ensures clear { IsClear board.now pass.new }
    ensures who { pass.new.who ≡ pass.old.who }
{
    let mut taken = 0u64;
    for n in 0..times {
        if draw_and_run(board, pass, script, TaskId(n % tasks), workers).is_some() {
            taken = taken.wrapping_add(1);
        }
    }
    taken
}

/// Takes the body of a task that the caller has drawn out of its place and puts it back, so often; how often the task was
/// taken, added up.
pub(crate) fn bodies(board: &Board, pass: &mut Pass, id: TaskId, times: u32) -> u64
    requires one { HasDrawn board.now pass.old id.0 }
    ensures { HasDrawn board.now pass.new id.0 }
{
    let mut takes = 0u64;
    for _ in 0..times {
        let body = board.body_out(pass, id);
        takes = takes.wrapping_add(body.takes);
        board.body_in(pass, id, body);
    }
    takes
}

/// Draws a task so often; how often it was in the shared box.
pub(crate) fn tries(board: &Board, pass: &mut Pass, id: TaskId, times: u32) -> u32
    requires used { IsUsed board.now pass.old }
    requires exists { id.0 < length board.now.start.state.tasks }
{
    let mut drawn = 0u32;
    for _ in 0..times {
        if board.draw(pass, id) {
            drawn = drawn.wrapping_add(1);
        }
    }
    drawn
}

/// Wakes the first so many tasks, and puts those that rested into the shared box.
pub(crate) fn spread(board: &Board, pass: &mut Pass, tasks: u32, workers: u32)
    requires clear { IsClear board.now pass.old }
    requires tasks { (i : ℕ) → i < tasks → IsSharedTask board.now i workers }
    requires fresh { length pass.old.entries ≡ 0 }
    ensures clear { IsClear board.now pass.new }
    ensures few { length pass.new.entries ≤ 2 * tasks }
    ensures who { pass.new.who ≡ pass.old.who }
{
    for i in 0..tasks {
        let woken = board.wake(pass, TaskId(i), Reasons::MSG);
        if rests(&woken) {
            board.post(pass, TaskId(i), workers);
        }
    }
}
