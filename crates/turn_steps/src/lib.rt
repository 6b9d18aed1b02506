//! What is left of a caller's part of a round, as data: its next call, and what a reply leaves.
#![tactic(auto)]

mod laws;

pub use laws::{
    injections_are_rests, replies_keep_once, rests_are_short, rests_are_told, turns_are_rests,
    turns_are_short,
};
