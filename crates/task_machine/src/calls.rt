//! The calls on shared task state, their replies, and the entries of a history.

ghost use Rattle.std.specs.Prelude.{◌≡◌};
ghost use Rattle.task_machine.specs.Step.{subject};

use crate::task::{Place, Seen};
use sched_base::{CallerId, Reasons, TaskId};

/// One call on shared task state.
#[derive(Clone, Copy, Debug, PartialEq, Eq)]
pub enum Call {
    /// Adds reasons to a task.
    Wake(TaskId, Reasons),
    /// Marks a task as killed.
    Kill(TaskId),
    /// Puts a task that the caller has in its hands into a box.
    Post(TaskId, u32),
    /// Takes the tasks of a group, 64 tasks from `64 * group` on, out of the caller's own box.
    Get(u32),
    /// Draws a task out of the shared box, to take it next.
    Draw(TaskId),
    /// Takes a task that the caller has in its hands or has drawn, to run it.
    Take(TaskId),
    /// Ends a task's run.
    DropRun(TaskId),
    /// Removes a task for good.
    Retire(TaskId),
}

impl Call {
    /// The number of the task that the call names, or of the first task of the group.
    pub(crate) fn subject(&self) -> usize
        ensures { result ≡ subject self.now }
    {
        match *self {
            Call::Wake(id, _)
            | Call::Kill(id)
            | Call::Post(id, _)
            | Call::Draw(id)
            | Call::Take(id)
            | Call::DropRun(id)
            | Call::Retire(id) => id.0 as usize,
            Call::Get(group) => 64 * group as usize,
        }
    }
}

/// The answer to a call.
#[derive(Clone, Copy, Debug, PartialEq, Eq)]
pub enum Reply {
    /// What the call saw of its task.
    Task(Seen),
    /// The tasks that a get took: bit b stands for task `64 * group + b`.
    Group(u64),
    /// Nothing to tell.
    Done,
}

/// One entry of a history: who called, what, and the answer.
#[derive(Clone, Copy, Debug, PartialEq, Eq)]
pub struct Entry {
    pub caller: CallerId,
    pub call: Call,
    pub reply: Reply,
}

/// Why the machine does not allow an entry: the first of these that holds.
#[derive(Clone, Copy, Debug, PartialEq, Eq)]
pub enum NotLegal {
    /// A task, box, group or caller number is out of range, a wake has no reason, or a get is not a
    /// worker's.
    Name,
    /// The task is at this place, where the call does not fit.
    Place(Place),
    /// This is the right reply, and the entry has another.
    Reply(Reply),
}
