//! A worker's turn of a round, one call at a time, and the rounds of all callers on threads (docs/MODEL.md, "The
//! worker", "A round on threads").
#![tactic(auto)]

mod board_calls;
mod board_draws;
mod board_turn;
mod calls;
mod crew;
mod holders;
mod injector;
mod lookups;
mod merger;
mod opening;
mod plant;
mod playing;
mod queues;
mod round;
#[cfg(test)]
mod tests;
mod turn;
mod worker;

pub use crew::{Crew, Kept, RecordCrew, ThreadCrew};
pub use injector::Injector;
pub use lookups::{call_of, home_of, is_rest, target};
pub use merger::Merger;
pub use opening::{machine_of, workers_of};
pub use plant::{Plant, RoundInHand, earlier_in, end_turns};
pub use wake_board::Body;
pub use worker::Worker;
