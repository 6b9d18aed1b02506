//! What a picture shows of the runs of tasks: bars, where each stands, and where it came from.

use sched_base::{Reasons, TaskId};

/// The most callers that have a lane each: sixteen workers and the injector.
pub const OWN_LANES: u32 = 17;

/// Where an entry of a transcript stands in a picture.
#[derive(Clone, Copy, Debug, PartialEq, Eq)]
pub struct Spot {
    /// The lane of its caller, 0 to 17. Callers past the seventeenth share the last lane.
    pub lane: u32,
    /// The number of its round.
    pub round: u32,
    /// How many entries of the lane stand before it in the round.
    pub slot: u64,
    /// Its line in the transcript, counted from 1.
    pub line: u64,
}

/// One run of a task, from its take on.
#[derive(Clone, Copy, Debug, PartialEq, Eq)]
pub struct Bar {
    /// Where its take stands.
    pub spot: Spot,
    pub task: TaskId,
    /// How many entries it has, the take among them.
    pub entries: u64,
    /// Whether its task was retired in it.
    pub is_retired: bool,
    /// The reasons that the take was given.
    pub reasons: Reasons,
    /// Whether the take found its task killed.
    pub is_killed: bool,
    /// How often the task was taken before.
    pub takes: u64,
    /// Where the wake or the kill stands that found the task at rest and led to this take.
    pub raised: Option<Spot>,
}

/// The rounds that a picture shows, from the first to the last.
#[derive(Clone, Copy, Debug, PartialEq, Eq)]
pub struct Rounds {
    pub first: u32,
    pub last: u32,
}
