//! Boards on which all tasks rest.

ghost use Rattle.std.specs.Prelude.{◌≡◌, ℕ, ◌<◌, ◌≤◌, length, slice_index, IfOk};
ghost use Rattle.board_bench.specs.Callers.{IsLaid, HasShared};
ghost use Rattle.board_bench.specs.Drawn.{IsSharedTask};
ghost use Rattle.board_bench.specs.Pairs.{AreFresh};

use sched_base::TaskId;
use std::alloc::{AllocError, Global};
use step_tables::Nexts;
use wake_board::laws::{new_words_stand, seated_words_stand, words_stand_for_one_state};
use wake_board::{Board, NO_HOLDER, Passes, Words};

/// A board of tasks with these homes, which all rest.
pub(crate) fn laid(
    alloc: Global,
    workers: u32,
    homes: &[u32],
    nexts: &Nexts,
) -> Result<(Board, Passes), AllocError>
    requires few_tasks { length homes.now ≤ 65536 }
    requires some_workers { 1 ≤ workers }
    requires few_workers { workers ≤ 64 }
    requires boxes { (i : ℕ) → i < length homes.now → slice_index homes.now i ≤ workers }
    ensures laid { IfOk result (λ r. IsLaid (length homes.now) workers homes.now r.0 r.1) }
    ensures nexts { IfOk result (λ r. r.0.start.nexts ≡ nexts.now) }
{
    let words = Words::new(alloc, homes.len() as u32, workers)?;
    let holders = vec![in alloc; NO_HOLDER; homes.len()]?;
    new_words_stand();
    words_stand_for_one_state();
    let made = Board::from_words(alloc, words, homes, &holders, nexts)?;
    Ok(made)
}

/// A board of two workers and one shared task, which is in the shared box to be run for the first time.
pub(crate) fn shared(alloc: Global, nexts: &Nexts) -> Result<(Board, Passes), AllocError>
    ensures shared { IfOk result (λ r. HasShared r.0 r.1) }
    ensures nexts { IfOk result (λ r. r.0.start.nexts ≡ nexts.now) }
{
    let mut words = Words::new(alloc, 1, 2)?;
    new_words_stand();
    seated_words_stand();
    words_stand_for_one_state();
    words.seat_init(TaskId(0), 2);
    let made = Board::from_words(alloc, words, &[2], &[NO_HOLDER], nexts)?;
    Ok(made)
}

/// A board of two workers and so many shared tasks, which all rest.
#[cfg(test)]
pub(crate) fn all_shared(
    alloc: Global,
    tasks: usize,
    nexts: &Nexts,
) -> Result<(Board, Passes), AllocError>
    requires few_tasks { tasks ≤ 65536 }
    ensures fresh { IfOk result (λ r. AreFresh r.0 r.1) }
    ensures tasks { IfOk result (λ r. (i : ℕ) → i < tasks → IsSharedTask r.0 i 2) }
    ensures nexts { IfOk result (λ r. r.0.start.nexts ≡ nexts.now) }
{
    let homes = vec![in alloc; 2; tasks]?;
    let made = laid(alloc, 2, &homes, nexts)?;
    Ok(made)
}
