//! The entries of one caller.

ghost use Rattle.std.specs.Prelude.{◌≡◌, ◌+◌, ◌<◌, ◌≤◌, [], ◌∷◌, ◌++◌, length, OnOk, OnErr};

use crate::calls::Entry;
use std::alloc::{AllocError, Global};
use std::marker::Model;

/// The entries of one caller, in the order in which it made them. Contracts see the entries, and
/// the room: how many entries the log can hold without more memory.
#[derive(Drop)]
pub struct Log {
    entries: Vec<Entry>,
}

impl Model for Log {
    ghost use Rattle.std.specs.Prelude.{vec_capacity};
    ghost use Rattle.task_machine.specs.Logged.{Logged};

    ghost Value = { Logged };

    ghost view = { λ log. record { entries = log.entries.items; room = vec_capacity log.entries } };
}

impl Log {
    /// A log with no entries. It takes no memory.
    pub fn new(alloc: Global) -> Log
        ensures { result.entries ≡ [] }
    {
        Log {
            entries: Vec::new(alloc),
        }
    }

    /// Makes room for this many more entries. After a refusal the log is as before.
    pub fn reserve(&mut self, more: usize) -> Result<(), AllocError>
        ensures entries { self.new.entries ≡ self.old.entries }
        ensures room { OnOk result (length self.old.entries + more ≤ self.new.room) }
        ensures kept { self.old.room ≤ self.new.room }
        ensures refused { OnErr result (self.new ≡ self.old) }
    {
        self.entries.reserve(more)
    }

    /// Adds an entry at the end, where there is room.
    pub fn push(&mut self, entry: Entry)
        requires { length self.old.entries < self.old.room }
        ensures entries { self.new.entries ≡ self.old.entries ++ entry ∷ [] }
        ensures room { self.new.room ≡ self.old.room }
    {
        let Entry {
            caller,
            call,
            reply,
        } = entry;
        self.entries.push_reserved(Entry {
            caller,
            call,
            reply,
        });
    }

    /// Forgets the entries, and keeps the room.
    pub fn clear(&mut self)
        ensures entries { self.new.entries ≡ [] }
        ensures room { self.new.room ≡ self.old.room }
    {
        self.entries.clear();
    }

    /// The entries.
    pub fn as_slice(&self) -> &[Entry]
        ensures { result.now ≡ self.now.entries }
    {
        self.entries.as_slice()
    }
}
