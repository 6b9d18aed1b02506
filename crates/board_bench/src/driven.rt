//! A board that two callers drive.

use crate::caller::Caller;
use wake_board::{Board, Passes};

/// A board, its callers 0 and 1, and the passes of all others.
#[derive(Drop)]
pub(crate) struct Driven {
    pub(crate) board: Board,
    pub(crate) passes: Passes,
    pub(crate) first: Caller,
    pub(crate) second: Caller,
}
