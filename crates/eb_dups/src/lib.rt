//! Insertion of an entry beside others of its key.
#![tactic(auto)]

mod grow;
mod twins;

pub use grow::attach;
pub use twins::insert_dup;
