//! The timers of a worker's tasks: a queue that moves an entry only when it must
//! (docs/TIMERS.md).
#![tactic(auto)]

mod laws;
#[cfg(test)]
mod tests;
mod wait_queue;

pub use laws::{
    expiries_stay_late, settled_queues_tell, steps_come_to_the_sweep, timers_are_even,
    wait_lists_stay_in_the_window, wait_queues_stay_beside,
};
pub use wait_queue::WaitQueue;
