//! The tasks of a worker that wait to run, by arrival and nice, under keys that wrap
//! (docs/TIMERS.md).
#![tactic(auto)]

mod laws;
mod run_queue;
#[cfg(test)]
mod tests;

pub use laws::{run_queues_stay_beside, runners_are_odd};
pub use run_queue::RunQueue;
