//! Walks over the trees of an arena and look-ups by key. Each answers by the list of the root.
#![tactic(auto)]

mod ends;
mod heads;
mod search;
#[cfg(test)]
mod tests;
mod walks;

pub use search::{descend, lookup, lookup_ge, lookup_le, seek};
pub use walks::{first, last, next, next_dup, next_unique, prev, prev_dup, prev_unique};
