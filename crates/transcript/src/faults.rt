//! Why a text is no transcript.

ghost use Rattle.std.specs.Prelude.{◌≡◌};
ghost use Rattle.transcript.specs.Judging.{number_of};

use std::alloc::AllocError;

/// The kinds of fault that a line may have.
#[derive(Clone, Copy, Debug, PartialEq, Eq)]
pub enum FaultKind {
    /// The line has none of the shapes.
    Line,
    /// The line may not stand there.
    Order,
    /// The text ends too early.
    Truncated,
    /// The text passes its limit.
    LimitPassed,
}

impl FaultKind {
    /// The number of the kind, from 1 to 4.
    pub fn number(self) -> u8
        ensures { result ≡ number_of self }
    {
        match self {
            FaultKind::Line => 1,
            FaultKind::Order => 2,
            FaultKind::Truncated => 3,
            FaultKind::LimitPassed => 4,
        }
    }

    /// The name of the kind, as it is printed.
    pub fn name(self) -> &'static str {
        match self {
            FaultKind::Line => "Line",
            FaultKind::Order => "Order",
            FaultKind::Truncated => "Truncated",
            FaultKind::LimitPassed => "LimitPassed",
        }
    }
}

/// The first bad line of a text, counted from 1, and the number of the kind of its fault.
#[derive(Clone, Copy, Debug, PartialEq, Eq)]
pub struct TextFault {
    pub line: u32,
    pub kind: u8,
}

/// Why no transcript was read.
#[derive(Clone, Copy, Debug, PartialEq, Eq)]
pub enum TextError {
    /// The text is no transcript.
    Refused(TextFault),
    /// There was no memory.
    Memory,
}

impl From<AllocError> for TextError {
    ghost use Rattle.std.specs.Prelude.{◌≡◌};
    ghost use Rattle.transcript.specs.declared.faults.TextError.TheVariants.{Memory};

    ghost from_gives = { λ e r. r ≡ Memory };

    fn from(_error: AllocError) -> TextError {
        TextError::Memory
    }
}
