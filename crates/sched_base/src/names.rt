//! Names of the parties: tasks, callers, and the classes of tasklets.

/// The number of a task, counted from 0 in the order of a script's task lines.
#[derive(Clone, Copy, Debug, PartialEq, Eq, PartialOrd, Ord)]
pub struct TaskId(pub u32);

/// The number of a caller: a worker from 0 on, and after the last worker the injector.
#[derive(Clone, Copy, Debug, PartialEq, Eq, PartialOrd, Ord)]
pub struct CallerId(pub u32);

/// The four classes of runnable work, the most pressing one first.
#[derive(Clone, Copy, Debug, PartialEq, Eq, PartialOrd, Ord)]
pub enum Class {
    Urgent,
    Normal,
    Bulk,
    Heavy,
}
