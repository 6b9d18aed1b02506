//! The lists of a script. Contracts see each as the list that it holds.

ghost use Rattle.std.specs.Prelude.{◌≡◌, List, [], ◌∷◌, ◌++◌, OnOk, OnErr};

use crate::tables::{Action, Event, Row, TaskDef};
use std::alloc::{AllocError, Global};
use std::marker::Model;

/// A list.
#[derive(Debug, Drop)]
pub struct Listed<T> {
    list: Vec<T>,
}

impl<T> Model for Listed<T> {
    ghost use Rattle.std.specs.Prelude.{List};

    ghost Value = { List T };

    ghost view = { λ l. l.list.items };
}

/// A task's name: a lower-case letter, then at most 15 lower-case letters, digits or `_`.
pub type Name = Listed<u8>;

/// The actions of a row, in order.
pub type Actions = Listed<Action>;

/// The rows of a task, from row 0 on.
pub type Rows = Listed<Row>;

/// The tasks of a script, from task 0 on.
pub type Tasks = Listed<TaskDef>;

/// The events of a script, in their order.
pub type Events = Listed<Event>;

/// The numbers of rows that the lines of tasks promise.
pub(crate) type Counts = Listed<u32>;

impl<T> Listed<T> {
    /// These, in this order.
    pub fn from_vec(list: Vec<T>) -> Listed<T>
        ensures { result ≡ list.items }
    {
        Listed { list }
    }

    /// The vector that holds them.
    pub fn into_vec(self) -> Vec<T>
        ensures { result.items ≡ self }
    {
        self.list
    }

    /// The list as a slice.
    pub fn as_slice(&self) -> &[T]
        ensures { result.now ≡ self.now }
    {
        self.list.as_slice()
    }
}

impl<T: Drop> Listed<T> {
    /// An empty list.
    pub(crate) fn new(alloc: Global) -> Listed<T>
        ensures { result ≡ [] }
    {
        Listed {
            list: Vec::new(alloc),
        }
    }

    /// One more at the end; a failure leaves the list as it is.
    pub(crate) fn push(&mut self, item: T) -> Result<(), AllocError>
        ensures ok { OnOk result (self.new ≡ self.old ++ item ∷ []) }
        ensures err { OnErr result (self.new ≡ self.old) }
    {
        self.list.push(item)?;
        Ok(())
    }
}

impl Listed<Event> {
    /// One event more.
    pub(crate) fn add(&mut self, event: Event) -> Result<(), AllocError>
        ensures { OnOk result (self.new ≡ self.old ++ event ∷ []) }
    {
        self.list.extend_from_slice(&[event])
    }
}
