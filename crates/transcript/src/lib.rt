//! The text of a run: its lines, how they are written, and how they are read.
#![tactic(auto)]

mod faults;
mod laws;
mod lines;
mod phrases;
mod reader;
mod shape;
#[cfg(test)]
mod tests;
mod transcripts;
mod writer;

pub use faults::{FaultKind, TextError, TextFault};
pub use laws::{limit_only_refuses, lines_are_read_as_written};
pub use lines::Line;
pub use transcripts::Transcript;
pub use writer::{write_end, write_head, write_round};
