//! What the lines of a script have said so far.

use crate::faults::FaultKind;
use crate::lists::{Counts, Events};
use crate::named_tasks::NamedTasks;
use std::alloc::AllocError;

/// Why a line is refused.
#[derive(Drop)]
pub(crate) enum Refusal {
    /// The kind of its fault.
    Kind(FaultKind),
    NoMemory,
}

impl From<AllocError> for Refusal {
    ghost use Rattle.std.specs.Prelude.{◌≡◌};
    ghost use Rattle.step_tables.specs.declared.progress.Refusal.TheVariants.{NoMemory};

    ghost from_gives = { λ _ r. r ≡ NoMemory };

    fn from(_error: AllocError) -> Refusal {
        Refusal::NoMemory
    }
}

/// The settings, tasks and events of the lines that were read.
#[derive(Debug, Drop)]
pub(crate) struct Progress {
    /// The version that the first line says.
    pub version: u32,
    pub workers: u32,
    pub depth: u32,
    pub start: u32,
    pub step: u32,
    pub rounds: u32,
    /// The tasks, with the rows that have come.
    pub tasks: NamedTasks,
    /// How many rows each task's line promised.
    pub counts: Counts,
    /// The number of the task whose rows come now.
    pub at: usize,
    pub events: Events,
    /// Whether the line `end` has come.
    pub ended: bool,
}
