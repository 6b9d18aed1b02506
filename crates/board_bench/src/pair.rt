//! Two callers that draw shared tasks.

ghost use Rattle.std.specs.Prelude.{◌≡◌, IfSome};
ghost use Rattle.board_bench.specs.Pairs.{AreFresh, IsPair, IsNewPair};

use sched_base::CallerId;
use wake_board::{Board, Pass, Passes, Words};

/// A board, the passes of its callers 0 and 1, and those of all others.
#[derive(Drop)]
pub(crate) struct Pair {
    pub(crate) board: Board,
    pub(crate) passes: Passes,
    pub(crate) first: Pass,
    pub(crate) second: Pass,
}

/// A board that was just made, with the passes of callers 0 and 1 taken out.
pub(crate) fn paired(board: Board, passes: Passes) -> Option<Pair>
    requires { AreFresh board passes }
    ensures { IfSome result (λ d. IsNewPair d × (d.board ≡ board)) }
{
    let mut passes = passes;
    let Some(first) = passes.take(CallerId(0)) else {
        return None;
    };
    let Some(second) = passes.take(CallerId(1)) else {
        return None;
    };
    Some(Pair {
        board,
        passes,
        first,
        second,
    })
}

/// What is left of a board whose callers have nothing.
pub(crate) fn parted(pair: Pair) -> Words
    requires { IsPair pair }
{
    let Pair {
        board,
        passes,
        first,
        second,
    } = pair;
    let mut passes = passes;
    passes.put(first);
    passes.put(second);
    board.finish(passes)
}
