//! The sequential task machine: where a task stands, what a call does to it and what it answers.
#![tactic(auto)]

mod calls;
mod entry_log;
mod laws;
mod machine;
mod task;
#[cfg(test)]
mod tests;

pub use calls::{Call, Entry, NotLegal, Reply};
pub use entry_log::Log;
pub use laws::{
    calls_have_one_reply, entries_are_events, histories_are_by_task, histories_have_one_end,
    openings_are_valid, own_calls_tell_places, refusals_are_exact, seats_and_deals_keep_validity,
    steps_keep_validity, takes_tell_reasons_since,
};
pub use machine::Machine;
pub use task::{Place, Seen, Stand, TaskState};
