//! Why a text is no script.

ghost use Rattle.std.specs.Prelude.{◌≡◌};
ghost use Rattle.step_tables.specs.Faults.{number_of_kind};

use std::alloc::AllocError;

/// The kinds of fault that a line may have. Where several apply, the first one here counts.
#[derive(Clone, Copy, Debug, PartialEq, Eq)]
pub enum FaultKind {
    /// Line 1 is another.
    Header,
    /// The words fit no shape, or a line of this shape may not come here.
    Word,
    /// A word in the place of a number writes none.
    Number,
    /// A row or an action names no task.
    UnknownTask,
    /// A task before has the same name.
    TwiceNamed,
    /// The row is not the one that must come next, or its next row is none of its task's.
    RowTarget,
    /// A row of a shared task or of a tasklet has an expiry.
    ExpiryBarred,
    /// A number is out of its range, or something is there too often.
    LimitPassed,
    /// The text ends too early.
    Truncated,
}

impl FaultKind {
    /// The number of the kind, from 1 to 9.
    pub fn number(self) -> u8
        ensures { result ≡ number_of_kind self }
    {
        match self {
            FaultKind::Header => 1,
            FaultKind::Word => 2,
            FaultKind::Number => 3,
            FaultKind::UnknownTask => 4,
            FaultKind::TwiceNamed => 5,
            FaultKind::RowTarget => 6,
            FaultKind::ExpiryBarred => 7,
            FaultKind::LimitPassed => 8,
            FaultKind::Truncated => 9,
        }
    }

    /// The name of the kind, as it is printed.
    pub fn name(self) -> &'static str {
        match self {
            FaultKind::Header => "Header",
            FaultKind::Word => "Word",
            FaultKind::Number => "Number",
            FaultKind::UnknownTask => "UnknownTask",
            FaultKind::TwiceNamed => "TwiceNamed",
            FaultKind::RowTarget => "RowTarget",
            FaultKind::ExpiryBarred => "ExpiryBarred",
            FaultKind::LimitPassed => "LimitPassed",
            FaultKind::Truncated => "Truncated",
        }
    }
}

/// The first bad line of a text, counted from 1, and the number of the kind of its fault.
#[derive(Clone, Copy, Debug, PartialEq, Eq)]
pub struct ScriptFault {
    pub line: u32,
    pub kind: u8,
}

/// Why no script was read.
#[derive(Clone, Copy, Debug, PartialEq, Eq)]
pub enum ScriptError {
    /// The text is no script.
    Refused(ScriptFault),
    /// There was no memory.
    Memory,
}

impl From<AllocError> for ScriptError {
    ghost use Rattle.std.specs.Prelude.{◌≡◌};
    ghost use Rattle.step_tables.specs.declared.faults.ScriptError.TheVariants.{Memory};

    ghost from_gives = { λ e r. r ≡ Memory };

    fn from(_error: AllocError) -> ScriptError {
        ScriptError::Memory
    }
}
