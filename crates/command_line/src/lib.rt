//! The commands of `taskrun`, read from the words of a command line.
#![tactic(auto)]

mod command;
pub mod laws;
mod numerals;
mod reading;

pub use command::Command;
pub use reading::command_of;

#[cfg(test)]
mod tests;
