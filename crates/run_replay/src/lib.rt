//! Whether the lines of a transcript are those of a lawful run of a script, judged line by line
//! (docs/MODEL.md, "Replay").
#![tactic(auto)]

mod floor;
mod injection;
mod judging;
mod shared_box;
#[cfg(test)]
mod tests;
mod watcher;
#[cfg(test)]
mod worked;

pub use judging::{Verdict, judge};
pub use watcher::Watcher;
