//! How a board is driven by two callers, and ends.

ghost use Rattle.std.specs.Prelude.{◌≡◌, ℕ, ◌<◌, ◌≤◌, length, slice_index, IfOk, IfSome};
ghost use Rattle.board_bench.specs.Callers.{IsDriven, IsNew};

use crate::caller::Caller;
use crate::driven::Driven;
use crate::laid::laid;
use sched_base::CallerId;
use std::alloc::{AllocError, Global};
use step_tables::Nexts;
use wake_board::Words;

/// A board of tasks at rest with these homes, and its callers 0 and 1.
pub(crate) fn driven(
    alloc: Global,
    workers: u32,
    homes: &[u32],
) -> Result<Option<Driven>, AllocError>
    requires few { length homes.now ≤ 64 }
    requires some_workers { 1 ≤ workers }
    requires few_workers { workers ≤ 64 }
    requires own { (i : ℕ) → i < length homes.now → slice_index homes.now i < workers }
    ensures { IfOk result (λ o. IfSome o (λ d. IsDriven d homes.now workers × IsNew d)) }
{
    let (board, passes) = laid(alloc, workers, homes, &Nexts::none(alloc))?;
    let mut passes = passes;
    let Some(first) = passes.take(CallerId(0)) else {
        return Ok(None);
    };
    let Some(second) = passes.take(CallerId(1)) else {
        return Ok(None);
    };
    let first = Caller::new(alloc, &board, first, homes.len())?;
    let second = Caller::new(alloc, &board, second, homes.len())?;
    Ok(Some(Driven {
        board,
        passes,
        first,
        second,
    }))
}

/// What is left of a board where neither caller runs a task.
pub(crate) fn ended(driven: Driven, homes: &[u32], workers: u32) -> Option<Words>
    requires driven { IsDriven driven homes.now workers }
    requires some_workers { 1 ≤ workers }
{
    if !driven.first.is_idle() || !driven.second.is_idle() {
        return None;
    }
    let Driven {
        board,
        passes,
        first,
        second,
    } = driven;
    let mut passes = passes;
    passes.put(first.pass);
    passes.put(second.pass);
    Some(board.finish(passes))
}
