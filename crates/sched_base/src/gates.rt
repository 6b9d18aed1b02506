//! Where a test may hold a caller before a call.

use crate::names::CallerId;

/// Something that each caller passes before each of its calls in a round, counted from 1.
pub trait Gate {
    /// Answers nothing; it may take as long as it likes to return.
    fn at(&self, who: CallerId, nth: u64);
}

/// The gate that holds nobody.
#[derive(Clone, Copy, Debug, PartialEq, Eq)]
pub struct OpenGate;

impl Gate for OpenGate {
    fn at(&self, _who: CallerId, _nth: u64) {}
}
