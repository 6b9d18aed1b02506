//! The lines of a transcript.

use task_machine::Entry;

/// One line of a transcript after the first.
#[derive(Clone, Copy, Debug, PartialEq, Eq)]
pub enum Line {
    /// A round begins: its number, from 0 on, and its tick in milliseconds.
    Round { number: u32, tick: u32 },
    /// One entry of the history.
    Entry(Entry),
    /// The run ended, at rest or else at its limit, with the round of this number.
    End { rest: bool, last: u32 },
}
