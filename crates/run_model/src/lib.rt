//! What a lawful run of a script is: rows and books, lawful turns, injector rounds and runs.
#![tactic(auto)]

mod laws;

pub use laws::{lawful_runs_are_decided, lawful_runs_keep_time};
