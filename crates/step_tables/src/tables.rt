//! The tables of a script.

ghost use Rattle.std.specs.Prelude.{◌≡◌, IsTrue};
ghost use Rattle.step_tables.specs.Sound.{is_sound};
ghost use Rattle.step_tables.specs.Made.{tables_of};

use crate::lists::{Actions, Events, Name, Rows, Tasks};
use sched_base::{Class, Reasons, TaskId};
use std::marker::Model;

/// One action of a row or an event.
#[derive(Clone, Copy, Debug, PartialEq, Eq)]
pub enum Action {
    /// Wakes a task with reasons, at least one.
    Wake(TaskId, Reasons),
    /// Kills a task.
    Kill(TaskId),
}

/// What a row does to its task's timer.
#[derive(Clone, Copy, Debug, PartialEq, Eq)]
pub enum Expiry {
    /// Leaves the expiry as it is.
    Keep,
    /// Sets it to so many ticks from now, 1 to 1,073,741,824.
    After(u32),
    /// Makes it unset.
    Never,
}

/// One row of a task: what one run of the task does, and the row of the run after it.
#[derive(Debug, Drop)]
pub struct Row {
    /// At most 16 actions, made in order.
    pub actions: Actions,
    pub expiry: Expiry,
    /// The number of the next row, below the task's number of rows.
    pub next: u32,
}

/// Where a task's runs are made, and in which order it comes.
#[derive(Clone, Copy, Debug, PartialEq, Eq)]
pub enum Kind {
    /// A task of one worker; nice is from -1,024 to 1,024, and less comes earlier.
    Pinned { home: u32, nice: i32 },
    /// A task that any worker may draw from the shared box; nice is as above.
    Shared { nice: i32 },
    /// A tasklet of one worker.
    Tasklet { home: u32, class: Class },
}

/// One task of a script.
#[derive(Debug, Drop)]
pub struct TaskDef {
    pub name: Name,
    pub kind: Kind,
    /// Whether the task is to run from the start on.
    pub init: bool,
    /// 1 to 64 rows.
    pub rows: Rows,
}

/// An action that the injector makes in a round.
#[derive(Clone, Copy, Debug, PartialEq, Eq)]
pub struct Event {
    pub round: u32,
    pub action: Action,
}

/// A script: how many workers there are, how the rounds are timed, the tasks and the events.
/// Contracts see its tables, which are in range.
#[derive(Debug, Drop)]
pub struct Script {
    /// The version of the format: 1 or 2.
    pub(crate) version: u32,
    /// 1 to 16.
    pub(crate) workers: u32,
    /// How many tasks a turn may pick, 1 to 1,000.
    pub(crate) depth: u32,
    /// The tick of round 0, in milliseconds that wrap at 2^32.
    pub(crate) start: u32,
    /// Milliseconds from one round to the next, 1 to 1,048,576.
    pub(crate) step: u32,
    /// The most rounds that are run, 1 to 100,000.
    pub(crate) rounds: u32,
    /// At most 4,096 tasks.
    pub(crate) tasks: Tasks,
    /// At most 65,536 events, by rising rounds.
    pub(crate) events: Events,
}

impl Model for Script {
    ghost use Rattle.step_tables.specs.Tables.{Tables};

    ghost Value = { Tables };

    ghost use Rattle.std.specs.Prelude.{IsTrue};
    ghost use Rattle.step_tables.specs.Sound.{is_sound};

    ghost view = { λ s. record { version = s.version; workers = s.workers; depth = s.depth; start = s.start; step = s.step; rounds = s.rounds; tasks = s.tasks; events = s.events } };

    ghost invariant = { λ s. IsTrue (is_sound (record { version = s.version; workers = s.workers; depth = s.depth; start = s.start; step = s.step; rounds = s.rounds; tasks = s.tasks; events = s.events })) };
}

/// The numbers of a script that are no tables: its workers, and how its rounds are timed.
#[derive(Clone, Copy, Debug, PartialEq, Eq)]
pub struct Settings {
    /// How many workers there are, 1 to 16.
    pub workers: u32,
    /// How many tasks a turn may pick, 1 to 1,000.
    pub depth: u32,
    /// The tick of round 0, in milliseconds that wrap at 2^32.
    pub start: u32,
    /// Milliseconds from one round to the next, 1 to 1,048,576.
    pub step: u32,
    /// The most rounds that are run, 1 to 100,000.
    pub rounds: u32,
}

impl Script {
    /// The script of these tables, which must be in range, in version 1. It takes no memory.
    pub fn of_tables(settings: Settings, tasks: Tasks, events: Events) -> Script
        requires { IsTrue (is_sound (tables_of settings tasks events)) }
        ensures same { result ≡ tables_of settings tasks events }
        ensures sound { IsTrue (is_sound result) }
    {
        Script {
            version: 1,
            workers: settings.workers,
            depth: settings.depth,
            start: settings.start,
            step: settings.step,
            rounds: settings.rounds,
            tasks,
            events,
        }
    }

    /// The version of the format that it is written in: 1 or 2.
    pub fn version(&self) -> u32
        ensures same { result ≡ self.now.version }
        ensures sound { IsTrue (is_sound self.now) }
    {
        self.version
    }

    /// How many workers there are, 1 to 16.
    pub fn workers(&self) -> u32
        ensures same { result ≡ self.now.workers }
        ensures sound { IsTrue (is_sound self.now) }
    {
        self.workers
    }

    /// How many tasks a turn may pick, 1 to 1,000.
    pub fn depth(&self) -> u32
        ensures same { result ≡ self.now.depth }
        ensures sound { IsTrue (is_sound self.now) }
    {
        self.depth
    }

    /// The tick of round 0, in milliseconds that wrap at 2^32.
    pub fn start(&self) -> u32
        ensures same { result ≡ self.now.start }
        ensures sound { IsTrue (is_sound self.now) }
    {
        self.start
    }

    /// Milliseconds from one round to the next, 1 to 1,048,576.
    pub fn step(&self) -> u32
        ensures same { result ≡ self.now.step }
        ensures sound { IsTrue (is_sound self.now) }
    {
        self.step
    }

    /// The most rounds that are run, 1 to 100,000.
    pub fn rounds(&self) -> u32
        ensures same { result ≡ self.now.rounds }
        ensures sound { IsTrue (is_sound self.now) }
    {
        self.rounds
    }

    /// At most 4,096 tasks.
    pub fn tasks(&self) -> &[TaskDef]
        ensures same { result.now ≡ self.now.tasks }
        ensures sound { IsTrue (is_sound self.now) }
    {
        self.tasks.as_slice()
    }

    /// At most 65,536 events, by rising rounds.
    pub fn events(&self) -> &[Event]
        ensures same { result.now ≡ self.now.events }
        ensures sound { IsTrue (is_sound self.now) }
    {
        self.events.as_slice()
    }
}
