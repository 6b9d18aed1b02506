//! What the whole scheduler speaks of: numbers of tasks and callers, reasons to run, tasklet
//! classes, and streams of bytes that count their faults.
#![tactic(auto)]

mod calm;
mod gates;
mod keyed_lists;
mod laws;
mod memory_in;
mod memory_out;
mod names;
mod plain_lists;
mod reason_set;
mod standard;
#[cfg(test)]
mod standard_tests;
mod steps;
mod streams;
#[cfg(test)]
mod tests;

pub use calm::{CalmSink, CalmSource};
pub use gates::{Gate, OpenGate};
pub use keyed_lists::KeyedLists;
pub use laws::{deletions_keep_keyed, insertions_keep_keyed};
pub use memory_in::MemSource;
pub use memory_out::MemSink;
pub use names::{CallerId, Class, TaskId};
pub use plain_lists::PlainLists;
pub use reason_set::Reasons;
pub use standard::{StdSink, StdSource};
pub use steps::Steps;
pub use streams::{Failed, Sink, Source};
