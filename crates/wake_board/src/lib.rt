//! The board: the task machine in words that many threads change at once, each call in one atomic step
//! (docs/BOARD.md).
#![tactic(auto)]

mod board;
mod body;
pub mod laws;
mod open;
mod pass;
mod passes;
mod slots;
#[cfg(test)]
mod tests;
mod views;
mod words;

pub use board::Board;
pub use body::Body;
pub use pass::Pass;
pub use passes::Passes;
pub use words::Words;

/// The number that stands for nobody in a list of holders.
pub const NO_HOLDER: u32 = u32::MAX;
