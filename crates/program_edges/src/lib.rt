//! The edges of a program: a whole text from a source, a whole text to a sink, and the words of a command line.
#![tactic(auto)]

mod error_lines;
mod inputs;
mod reading;
#[cfg(test)]
mod tests;
mod words;
mod writing;

pub use error_lines::{say, say_script_fault, say_text_fault};
pub use inputs::parts;
pub use reading::{ReadError, read_all};
pub use words::behind_first;
pub use writing::write_all;
