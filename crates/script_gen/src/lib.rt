//! Scripts of any size, each made from a number.
#![tactic(auto)]

mod drawing;
mod generating;
pub mod laws;

pub use generating::generate;

#[cfg(test)]
mod tests;
