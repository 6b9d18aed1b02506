//! The merge of the callers' logs.

ghost use Rattle.std.specs.Prelude.{◌≡◌, ◌+◌, ◌<◌, ◌≤◌, [], length, IfOk, OnOk, OnErr, vec_len, vec_capacity};
ghost use Rattle.std.specs.Bool.{OnTrue, OnFalse};
ghost use Rattle.task_machine.specs.History.{led, IsMerge};
ghost use Rattle.history_weave.specs.Places.{log_at, entry_count};
ghost use Rattle.history_weave.specs.Weaving.{HasMerge, HasTakesLeft};
ghost use Rattle.history_weave.specs.Going.{FitsTogether, Went, SomeWent, IsStuck, CanGoOn};

use crate::index::Index;
use crate::kinds::kind_of;
use crate::places::NONE;
use std::alloc::{AllocError, Global};
use std::marker::Model;
use task_machine::{Entry, Log, Machine};

/// A merge of logs, and the memory for making one. Contracts see its entries, the numbers of tasks
/// and workers of the machines for which it is, and its room: how many entries it can merge without
/// more memory.
#[derive(Drop)]
pub struct Weaver {
    tasks: u32,
    workers: u32,
    room: usize,
    entries: Vec<Entry>,
    index: Index,
}

impl Model for Weaver {
    ghost use Rattle.history_weave.specs.Weaving.{Weaving};

    ghost Value = { Weaving };

    ghost use Rattle.history_weave.specs.Woven.{IsWhole};

    ghost view = { λ w. record { entries = w.entries.items; tasks = w.tasks; workers = w.workers; room = w.room } };

    ghost invariant = { IsWhole };
}

impl Weaver {
    /// A weaver with no entries, for machines of so many tasks and workers. Its room is 0.
    pub fn new(alloc: Global, tasks: u32, workers: u32) -> Result<Weaver, AllocError>
        requires { workers ≤ 64 }
        ensures { IfOk result (λ w. w ≡ record { entries = []; tasks = tasks; workers = workers; room = 0 }) }
    {
        Ok(Weaver {
            tasks,
            workers,
            room: 0,
            entries: Vec::new(alloc),
            index: Index::new(alloc, tasks, workers as usize + 1)?,
        })
    }

    /// Makes room for merges of so many entries. After a refusal the weaver is as before.
    pub fn reserve(&mut self, entries: usize) -> Result<(), AllocError>
        ensures room { OnOk result (entries ≤ self.new.room) }
        ensures kept { self.old.room ≤ self.new.room }
        ensures same { self.new ≡ record self.old { room = self.new.room } }
        ensures refused { OnErr result (self.new ≡ self.old) }
    {
        if entries <= self.room {
            return Ok(());
        }
        self.entries.reserve(entries - self.entries.len())?;
        self.index.links.resize(entries, NONE)?;
        self.index.link_marks.resize(entries, NONE)?;
        self.room = entries;
        Ok(())
    }

    /// Merges the logs, one of each caller of the machine, into one legal history, and leads the
    /// machine through it. There is room for it, and no task can be taken too often in it. Which of
    /// several merges it is, is not fixed (docs/WEAVE.md).
    pub fn weave(&mut self, machine: &mut Machine, logs: &[Log])
        requires same_tasks { length machine.old.tasks ≡ self.old.tasks }
        requires same_workers { machine.old.workers ≡ self.old.workers }
        requires one_log_each { length logs.now ≡ self.old.workers + 1 }
        requires reserved { entry_count logs.now ≤ self.old.room }
        requires takes_left { HasTakesLeft machine.old logs.now }
        requires mergeable { HasMerge machine.old logs.now }
        ensures merged { IsMerge machine.old (log_at logs.now) self.new.entries }
        ensures led { machine.new ≡ led machine.old self.new.entries }
        ensures same { self.new ≡ record self.old { entries = self.new.entries } }
    {
        self.entries.clear();
        let total = self.index.enter_all(logs);
        let mut last = 0;
        'steps: while self.entries.len() < total {
            last = advance(&mut self.index, &mut self.entries, machine, logs, last);
        }
    }

    /// The entries of the merge.
    pub fn entries(&self) -> &[Entry]
        ensures { result.now ≡ self.now.entries }
    {
        self.entries.as_slice()
    }
}

/// Makes the next step of the merge, and answers whose it was. The caller that went last is tried
/// first.
fn advance(
    index: &mut Index,
    entries: &mut Vec<Entry>,
    machine: &mut Machine,
    logs: &[Log],
    last: usize,
) -> usize
    requires caller { last < length logs.now }
    requires reserved { vec_len entries.old < vec_capacity entries.old }
    requires together { FitsTogether logs.now index.old machine.old }
    requires goes_on { CanGoOn logs.now index.old machine.old }
    ensures caller { result < length logs.now }
    ensures went { SomeWent logs.now index.old index.new entries.old.items entries.new.items machine.old machine.new }
    ensures capacity { vec_capacity entries.new ≡ vec_capacity entries.old }
{
    if try_caller(index, entries, machine, logs, last) {
        return last;
    }
    for k in 0..logs.len() {
        if try_caller(index, entries, machine, logs, k) {
            return k;
        }
    }
    unreachable!()
}

/// Lets the next entry of caller k go, if it may and the machine allows it.
fn try_caller(
    index: &mut Index,
    entries: &mut Vec<Entry>,
    machine: &mut Machine,
    logs: &[Log],
    k: usize,
) -> bool
    requires caller { k < length logs.now }
    requires reserved { vec_len entries.old < vec_capacity entries.old }
    requires together { FitsTogether logs.now index.old machine.old }
    ensures went { OnTrue result (Went logs.now index.old index.new entries.old.items entries.new.items machine.old machine.new k) }
    ensures stuck { OnFalse result (IsStuck logs.now index.old machine.old k) }
    ensures index_kept { OnFalse result (index.new ≡ index.old) }
    ensures machine_kept { OnFalse result (machine.new ≡ machine.old) }
    ensures entries_kept { OnFalse result (entries.new ≡ entries.old) }
    ensures capacity { vec_capacity entries.new ≡ vec_capacity entries.old }
{
    let log = logs[k].as_slice();
    let place = index.next[k];
    if place == log.len() {
        return false;
    }
    let entry = &log[place];
    if !index.may_go(machine, logs, k, &kind_of(entry)) {
        return false;
    }
    match machine.apply(entry) {
        Ok(()) => {
            index.leave(logs, k);
            entries.push_reserved(*entry);
            true
        }
        Err(_) => false,
    }
}
