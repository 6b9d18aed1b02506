//! The table of a transcript's lines, and how far a text was read.

ghost use Rattle.std.specs.Prelude.{◌≡◌, ◌≤◌};
ghost use Rattle.text_lines.specs.Slots.{row_of, slots_of};
ghost use Rattle.text_lines.specs.Shapes.{value_count};
ghost use Rattle.transcript.specs.Tables.{row, answer_of, mask_slots};

use crate::lines::Line;
use crate::transcripts::Transcript;
use text_lines::{Row, Slot};

/// The rows of the table, by their names.
#[derive(Clone, Copy, Debug, PartialEq, Eq)]
pub(crate) enum Name {
    // The calls.
    Wake,
    Kill,
    Post,
    Get,
    Draw,
    Take,
    DropRun,
    Retire,
    // What a call may see of its task.
    Gone,
    Rest,
    Queued,
    Runs,
    // The lines that are no entries.
    First,
    Round,
    End,
}

/// What an entry tells behind its call.
#[derive(Clone, Copy, Debug, PartialEq, Eq)]
pub(crate) enum Answer {
    /// What the call saw of its task.
    Seen,
    /// The tasks of a group that were taken.
    Group,
    Nothing,
}

/// Behind the name of most calls: a task, or a group.
static NUMBER: [Slot; 1] = [Slot::Small];

/// Behind `wake`: a task, and reasons.
static WAKE: [Slot; 2] = [Slot::Small, Slot::Reasons];

/// Behind `post`: a task, and a place.
static POST: [Slot; 2] = [Slot::Small, Slot::Small];

/// Behind where a live task stands: its pending reasons, whether it was killed, its takes.
static LIVE: [Slot; 3] = [
    Slot::Pending,
    Slot::Choice(&[b"live", b"killed"]),
    Slot::Large,
];

/// Behind the name of the format: its version.
static FIRST: [Slot; 1] = [Slot::Word(b"1")];

/// Behind `round`: its number and its tick.
static ROUND: [Slot; 3] = [Slot::Small, Slot::Word(b"tick"), Slot::Small];

/// Behind `end`: how the run ended, and the number of the last round.
static END: [Slot; 2] = [Slot::Choice(&[b"rest", b"limit"]), Slot::Small];

/// The tasks of a group that were taken.
static GROUP: [Slot; 1] = [Slot::Mask];

impl Name {
    /// The name of the row, and the slots behind it.
    #[inline(always)]
    pub fn row(self) -> Row
        ensures same { row_of result ≡ row self }
        ensures few { value_count (slots_of result.slots.now) ≤ 4 }
    {
        let (name, slots): (&'static [u8], &'static [Slot]) = match self {
            Name::Wake => (b"wake", &WAKE),
            Name::Kill => (b"kill", &NUMBER),
            Name::Post => (b"post", &POST),
            Name::Get => (b"get", &NUMBER),
            Name::Draw => (b"draw", &NUMBER),
            Name::Take => (b"take", &NUMBER),
            Name::DropRun => (b"drop", &NUMBER),
            Name::Retire => (b"retire", &NUMBER),
            Name::Gone => (b"gone", &[]),
            Name::Rest => (b"rest", &LIVE),
            Name::Queued => (b"queued", &LIVE),
            Name::Runs => (b"runs", &LIVE),
            Name::First => (b"taskrun", &FIRST),
            Name::Round => (b"round", &ROUND),
            Name::End => (b"end", &END),
        };
        Row { name, slots }
    }

    /// What an entry of the call tells behind it.
    pub fn answer(self) -> Answer
        ensures { result ≡ answer_of self }
    {
        match self {
            Name::Post | Name::Draw => Answer::Nothing,
            Name::Get => Answer::Group,
            _ => Answer::Seen,
        }
    }
}

/// The slots of the answer to a get.
pub(crate) fn mask_slots() -> &'static [Slot]
    ensures { slots_of result.now ≡ mask_slots }
{
    &GROUP
}

/// What a line says.
#[derive(Clone, Copy, Debug, PartialEq, Eq)]
pub(crate) enum Said {
    /// The name of the format and its version.
    First,
    /// A line of the run.
    Holds(Line),
}

/// What was read of a text.
#[derive(Debug, Drop)]
pub(crate) struct Progress {
    /// Whether the first line came.
    pub begun: bool,
    /// How many rounds came.
    pub rounds: u64,
    /// Whether the end line came.
    pub ended: bool,
    /// The lines of the run.
    pub lines: Transcript,
}
