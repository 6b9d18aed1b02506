//! What an entry means for the runs of tasks.

ghost use Rattle.std.specs.Prelude.{◌≡◌, ◌<◌, if◌then◌else◌};
ghost use Rattle.run_picture.specs.Steps.{lane_of, has_seen_rest, has_seen_killed, step_of, reasons_in, takes_in};

use crate::bars::{OWN_LANES, Rounds};
use sched_base::{CallerId, Reasons, TaskId};
use task_machine::{Call, Entry, Reply, Seen, Stand};

/// What an entry does to a run of its caller, or to a task at rest.
#[derive(Clone, Copy, Debug, PartialEq, Eq)]
pub(crate) enum Step {
    /// A run of this task begins.
    Takes(TaskId),
    /// This task was at rest, and now has something to run for.
    Raises(TaskId),
    /// A run ends.
    Drops,
    /// A run ends, and its task is gone.
    Retires,
    /// Nothing of these.
    Goes,
}

/// The lane of a caller.
pub(crate) fn lane_of(caller: CallerId) -> u32
    ensures same { result ≡ lane_of caller }
    ensures few { result < 18 }
{
    caller.0.min(OWN_LANES)
}

/// Whether a call found its task at rest.
fn has_seen_rest(reply: &Reply) -> bool
    ensures { result ≡ has_seen_rest reply.now }
{
    match reply {
        Reply::Task(Seen::Live { stand, .. }) => *stand == Stand::Rest,
        _ => false,
    }
}

/// Whether a call found its task killed.
pub(crate) fn has_seen_killed(reply: &Reply) -> bool
    ensures { result ≡ has_seen_killed reply.now }
{
    match reply {
        Reply::Task(Seen::Live { killed, .. }) => *killed,
        _ => false,
    }
}

/// The reasons that a call found its task with.
pub(crate) fn reasons_in(reply: &Reply) -> Reasons
    ensures { result ≡ reasons_in reply.now }
{
    match reply {
        Reply::Task(Seen::Live { pending, .. }) => *pending,
        _ => Reasons::EMPTY,
    }
}

/// How often a call found its task taken.
pub(crate) fn takes_in(reply: &Reply) -> u64
    ensures { result ≡ takes_in reply.now }
{
    match reply {
        Reply::Task(Seen::Live { takes, .. }) => *takes,
        _ => 0,
    }
}

/// What an entry does.
pub(crate) fn step_of(entry: &Entry) -> Step
    ensures { result ≡ step_of entry.now }
{
    match entry.call {
        Call::Take(task) => Step::Takes(task),
        Call::Wake(task, _) | Call::Kill(task) => raise(task, has_seen_rest(&entry.reply)),
        Call::DropRun(_) => drops(has_seen_killed(&entry.reply)),
        Call::Retire(_) => Step::Retires,
        Call::Post(_, _) | Call::Get(_) | Call::Draw(_) => Step::Goes,
    }
}

/// A wake or a kill.
fn raise(task: TaskId, has_seen_rest: bool) -> Step
    ensures { result ≡ (if has_seen_rest then Step.Raises task else Step.Goes) }
{
    if has_seen_rest {
        Step::Raises(task)
    } else {
        Step::Goes
    }
}

/// The end of a run's rows; a killed task is still to be retired.
fn drops(is_killed: bool) -> Step
    ensures { result ≡ (if is_killed then Step.Goes else Step.Drops) }
{
    if is_killed { Step::Goes } else { Step::Drops }
}

impl Rounds {
    ghost use Rattle.std.specs.Prelude.{◌≡◌};
    ghost use Rattle.run_picture.specs.Steps.{is_shown};

    /// Whether a round is shown.
    pub fn contains(&self, round: u32) -> bool
        ensures { result ≡ is_shown self.now round }
    {
        self.first <= round && round <= self.last
    }
}
