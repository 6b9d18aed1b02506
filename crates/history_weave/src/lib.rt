//! One legal history out of the callers' logs.
#![tactic(auto)]

mod index;
mod kinds;
mod laws;
mod places;
mod weaver;

pub use laws::{merges_agree, rule_is_in_words};
pub use weaver::Weaver;
