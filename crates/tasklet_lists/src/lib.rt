//! Four lists of tasks that are to run, one for each class, and how much of a turn each may claim
//! (docs/MODEL.md, "Class lists").
#![tactic(auto)]

mod tasklet_lists;
#[cfg(test)]
mod tests;

pub use tasklet_lists::TaskletLists;
