//! The forest: ordered lists of entries as trees in one arena.
#![tactic(auto)]

mod branching;
mod forest;
mod heads;
mod keyed;
pub mod laws;
mod planting;
mod removal;
mod replacing;
mod roots;
#[cfg(test)]
mod tests;
mod unlinking;

pub use forest::Forest;
pub use heads::head_of_key;
pub use planting::plant;
pub use removal::uproot;
