//! The queue of the tasks that all workers share: dealt out by arrival and nice, or drawn from a board one at a time
//! (docs/SHARED.md).
#![tactic(auto)]

#[cfg(test)]
mod boards;
mod dealing;
#[cfg(test)]
mod draw_tests;
mod drawing;
mod ranking;
mod shared_queue;
mod spans;
#[cfg(test)]
mod tests;

pub use shared_queue::SharedQueue;
