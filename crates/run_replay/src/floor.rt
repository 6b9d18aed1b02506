//! The machine with what is known of each task's next run.

ghost use Rattle.std.specs.Prelude.{◌≡◌, ◌↔◌, ◌<◌, ℕ, length, slice_index_or, replicate, false, IfOk, IsTrue};
ghost use Rattle.std.specs.Bool.{OnTrue};
ghost use Rattle.std.specs.List.{list_all};
ghost use Rattle.task_machine.specs.Task.{is_boxed, is_gone};
ghost use Rattle.task_machine.specs.Step.{AllRoom, Allowed, task_at};
ghost use Rattle.run_model.specs.Replies.{takes_in};
ghost use Rattle.run_model.specs.Standing.{opening, is_still_at};
ghost use Rattle.run_model.specs.Tables.{row_at};
ghost use Rattle.step_tables.specs.Sound.{is_sound};
ghost use Rattle.run_replay.specs.Floors.{Made, row_after};
ghost use Rattle.run_replay.specs.SharedBoxes.{tally, is_shared_at};

use sched_base::TaskId;
use std::alloc::{AllocError, Global};
use step_tables::Script;
use task_machine::{Call, Entry, Machine, Place, Reply, Seen};
use thread_loop::{Body, machine_of};

/// The machine, and the row of each task's next run.
#[derive(Drop)]
pub(crate) struct Floor {
    machine: Machine,
    rows: Vec<u32>,
}

impl Floor {
    /// The machine before round 0, where no task was taken yet.
    pub(crate) fn new(alloc: Global, script: &Script) -> Result<Floor, AllocError>
        ensures machine { IfOk result (λ f. f.machine ≡ (opening script.now).state) }
        ensures rows { IfOk result (λ f. f.rows.items ≡ replicate (length script.now.tasks) 0) }
        ensures sound { IsTrue (is_sound script.now) }
    {
        let rows = vec![in alloc; 0u32; script.tasks().len()]?;
        Ok(Floor {
            machine: machine_of(alloc, script)?,
            rows,
        })
    }

    /// Makes an entry, if the machine allows it.
    pub(crate) fn make(&mut self, script: &Script, entry: &Entry) -> bool
        requires room { AllRoom self.old.machine }
        requires rows { length self.old.rows.items ≡ length script.now.tasks }
        ensures allowed { IsTrue result ↔ Allowed self.old.machine entry.now }
        ensures made { OnTrue result (Made script.now entry.now self.old self.new) }
    {
        match self.machine.apply(entry) {
            Ok(()) => {
                self.go_on(script, &entry.call);
                true
            }
            Err(_) => false,
        }
    }

    /// Where a call takes a task, its next run has the row that comes after this one's.
    fn go_on(&mut self, script: &Script, call: &Call)
        requires { length self.old.rows.items ≡ length script.now.tasks }
        ensures machine { self.new.machine ≡ self.old.machine }
        ensures count { length self.new.rows.items ≡ length self.old.rows.items }
        ensures rows { (i : ℕ) → slice_index_or self.new.rows.items i 0 ≡ row_after script.now call.now i (slice_index_or self.old.rows.items i 0) }
    {
        if let Call::Take(id) = *call {
            let index = id.0 as usize;
            if index < self.rows.len() {
                self.rows[index] = next_row(script, id, self.rows[index]);
            }
        }
    }

    /// What the next run of a live task needs.
    pub(crate) fn body(&self, id: TaskId) -> Body
        requires rows { id.0 < length self.now.rows.items }
        requires exists { id.0 < length self.now.machine.tasks }
        requires live { is_gone (task_at self.now.machine id.0).place ≡ false }
        ensures row { result.row ≡ slice_index_or self.now.rows.items id.0 0 }
        ensures takes { result.takes ≡ (task_at self.now.machine id.0).takes }
    {
        Body {
            row: self.rows[id.0 as usize],
            takes: takes_in(&Reply::Task(self.machine.seen(id))),
        }
    }

    /// How many tasks are in the shared box.
    pub(crate) fn shared(&self, script: &Script) -> u32
        requires { length self.now.machine.tasks ≡ length script.now.tasks }
        ensures { result ≡ tally (is_shared_at script.now self.now.machine) (length script.now.tasks) }
    {
        let mut inside = 0;
        for number in 0..script.tasks().len() {
            if self.is_shared(script, TaskId(number as u32)) {
                inside += 1;
            }
        }
        inside
    }

    /// Whether a task is in the shared box.
    fn is_shared(&self, script: &Script, id: TaskId) -> bool
        requires { id.0 < length self.now.machine.tasks }
        ensures { result ≡ is_shared_at script.now self.now.machine id.0 }
    {
        match self.machine.place(id) {
            Place::Boxed(boxno) => script.workers() == boxno,
            _ => false,
        }
    }

    /// Whether all tasks rest or are gone.
    pub(crate) fn is_still(&self, script: &Script) -> bool
        requires { length self.now.machine.tasks ≡ length script.now.tasks }
        ensures { result ≡ list_all (λ t. is_still_at t.place) self.now.machine.tasks }
    {
        for number in 0..script.tasks().len() {
            if !is_still_at(self.machine.place(TaskId(number as u32))) {
                return false;
            }
        }
        true
    }
}

/// The row after this row of a task.
fn next_row(script: &Script, id: TaskId, row: u32) -> u32
    requires { id.0 < length script.now.tasks }
    ensures { result ≡ (row_at script.now id.0 row).next }
{
    let rows = script.tasks()[id.0 as usize].rows.as_slice();
    match rows.get(row as usize) {
        Some(row) => row.next,
        None => 0,
    }
}

/// How often a task was taken, as a call saw it.
fn takes_in(reply: &Reply) -> u64
    ensures { result ≡ takes_in reply.now }
{
    match *reply {
        Reply::Task(Seen::Live { takes, .. }) => takes,
        _ => 0,
    }
}

/// Whether a task at this place has nothing more to do.
fn is_still_at(place: Place) -> bool
    ensures { result ≡ is_still_at place }
{
    matches!(place, Place::Rest | Place::Gone)
}
