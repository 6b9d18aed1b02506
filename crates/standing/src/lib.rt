//! Machine and books agree, each next call is allowed, and every run can go on: what holds of every run of a script.
#![tactic(auto)]

mod laws;

pub use laws::{
    callers_hear, next_calls_are_allowed, rounds_are_calls, rounds_keep, rounds_stand_firm,
    runs_can_go_on, runs_stand_firm, runs_tell_reasons, takes_are_told,
};
