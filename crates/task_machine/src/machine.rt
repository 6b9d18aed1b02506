//! The machine: the states of all tasks, and one call after another.

ghost use Rattle.std.specs.Prelude.{◌≡◌, ◌<◌, ◌≤◌, ◌+◌, ◌*◌, true, length, replicate, IfOk, IfErr, OnOk, OnErr, IsTrue};
ghost use Rattle.task_machine.specs.Task.{resting, seated, seen_of, put};
ghost use Rattle.task_machine.specs.Step.{State, task_at, put_task, subject, is_named, fits, IsReply, after, changed, moved, each, IsBox, IsBoxIn, AllRoom, Step, Roomy};
ghost use Rattle.task_machine.specs.Marks.{groups, mark_at, FillsNoBox};
ghost use Rattle.task_machine.specs.Refusal.{Refused};
ghost use Rattle.task_machine.specs.declared.task.Place.TheVariants as places;
ghost use Rattle.task_machine.specs.declared.calls.Call.TheVariants as calls;

use crate::calls::{Call, Entry, NotLegal, Reply};
use crate::task::{Place, Seen, TaskState};
use sched_base::{CallerId, Reasons, TaskId};
use std::alloc::{AllocError, Global};
use std::marker::Model;

/// How many tasks a group has.
const GROUP: usize = 64;

/// The states of all tasks. Callers are the workers from 0 on, and after the last worker the
/// injector; box b is worker b's, and the shared box has the number of workers. Contracts see the
/// number of workers and the list of the tasks' states.
#[derive(Drop)]
pub struct Machine {
    workers: u32,
    tasks: Vec<TaskState>,
    /// For each group of each box whether a task may be in it: an empty one is not searched.
    marks: Vec<bool>,
}

impl Model for Machine {
    ghost use Rattle.std.specs.Prelude.{◌≤◌, length};
    ghost use Rattle.task_machine.specs.Step.{State};
    ghost use Rattle.task_machine.specs.Marks.{AreMarked};

    ghost Value = { State };

    ghost view = { λ m. record { workers = m.workers; tasks = m.tasks.items } };

    ghost invariant = { λ m. (m.workers ≤ 64) × (length m.tasks.items ≤ 65536) × AreMarked m.workers m.tasks.items m.marks.items };
}

impl Machine {
    /// A machine whose tasks all rest. At most 65,536 tasks, and 1 to 64 workers.
    pub fn new(alloc: Global, tasks: u32, workers: u32) -> Result<Machine, AllocError>
        requires few_tasks { tasks ≤ 65536 }
        requires some_workers { 1 ≤ workers }
        requires few_workers { workers ≤ 64 }
        ensures { IfOk result (λ m. m ≡ record { workers = workers; tasks = replicate tasks resting }) }
    {
        let count = tasks as usize;
        let boxes = workers as usize + 1;
        let mut states = Vec::new(alloc);
        states.resize(count, TaskState::RESTING)?;
        let mut marks = Vec::new(alloc);
        marks.resize(boxes * count.div_ceil(GROUP), false)?;
        Ok(Machine {
            workers,
            tasks: states,
            marks,
        })
    }

    /// Puts a task that was never woken into a box, with the reason init.
    pub fn seat_init(&mut self, id: TaskId, boxno: u32)
        requires exists { id.0 < length self.old.tasks }
        requires box_exists { boxno ≤ self.old.workers }
        requires rests { (task_at self.old id.0).place ≡ places.Rest }
        requires untaken { (task_at self.old id.0).takes ≡ 0 }
        ensures { self.new ≡ put_task self.old id.0 (seated boxno (task_at self.old id.0)) }
    {
        let place = self.mark_place(boxno, id.0 / GROUP as u32);
        let task = &mut self.tasks[id.0 as usize];
        task.post(boxno);
        task.pending = Reasons::INIT;
        self.marks[place] = true;
    }

    /// Moves a task from the shared box into a worker's box.
    pub fn deal(&mut self, id: TaskId, worker: u32)
        requires exists { id.0 < length self.old.tasks }
        requires is_worker { worker < self.old.workers }
        requires shared { (task_at self.old id.0).place ≡ places.Boxed self.old.workers }
        ensures { self.new ≡ put_task self.old id.0 (put (places.Boxed worker) (task_at self.old id.0)) }
    {
        self.put(id, worker);
    }

    /// A machine in the same state.
    pub fn try_clone(&self) -> Result<Machine, AllocError>
        ensures { IfOk result (λ m. m ≡ self.now) }
    {
        Ok(Machine {
            workers: self.workers,
            tasks: self.tasks.clone()?,
            marks: self.marks.clone()?,
        })
    }

    /// What a call would see of a task.
    pub fn seen(&self, id: TaskId) -> Seen
        requires { id.0 < length self.now.tasks }
        ensures { result ≡ seen_of (task_at self.now id.0) }
    {
        self.tasks[id.0 as usize].seen()
    }

    /// Where a task is.
    pub fn place(&self, id: TaskId) -> Place
        requires { id.0 < length self.now.tasks }
        ensures { result ≡ (task_at self.now id.0).place }
    {
        self.tasks[id.0 as usize].place
    }

    /// Which tasks of a group are in a box: bit j stands for task `64 * group + j`.
    pub fn box_group(&self, boxno: u32, group: u32) -> u64
        requires exists { 64 * group < length self.now.tasks }
        requires box_exists { boxno ≤ self.now.workers }
        ensures { IsBox self.now boxno group result }
    {
        if self.marks[self.mark_place(boxno, group)] {
            group_word(self.tasks.as_slice(), boxno, group)
        } else {
            0
        }
    }

    /// Where the mark of a group of a box stands.
    fn mark_place(&self, boxno: u32, group: u32) -> usize
        requires exists { 64 * group < length self.now.tasks }
        requires box_exists { boxno ≤ self.now.workers }
        ensures place { result ≡ mark_at (length self.now.tasks) boxno group }
        ensures within { result < (self.now.workers + 1) * groups (length self.now.tasks) }
    {
        boxno as usize * self.tasks.len().div_ceil(GROUP) + group as usize
    }

    /// Puts a task into a box.
    fn put(&mut self, id: TaskId, boxno: u32)
        requires exists { id.0 < length self.old.tasks }
        requires box_exists { boxno ≤ self.old.workers }
        ensures { self.new ≡ put_task self.old id.0 (put (places.Boxed boxno) (task_at self.old id.0)) }
    {
        let place = self.mark_place(boxno, id.0 / GROUP as u32);
        self.tasks[id.0 as usize].post(boxno);
        self.marks[place] = true;
    }

    /// Makes one call, if the machine allows the entry: the names are there, the task is where it
    /// must be, and the reply is the right one. Otherwise the first cause of these is the answer,
    /// and the machine is as before.
    pub fn apply(&mut self, entry: &Entry) -> Result<(), NotLegal>
        requires { AllRoom self.old }
        ensures step { OnOk result (Step self.old entry.now self.new) }
        ensures cause { IfErr result (λ e. Refused self.old entry.now e) }
        ensures unchanged { OnErr result (self.new ≡ self.old) }
    {
        let Entry {
            caller,
            call,
            reply,
        } = *entry;
        if !self.names(caller, &call) {
            return Err(NotLegal::Name);
        }
        if !self.fits(caller, &call) {
            return Err(NotLegal::Place(self.tasks[call.subject()].place));
        }
        let right = self.reply(caller, &call);
        if reply != right {
            return Err(NotLegal::Reply(right));
        }
        self.change(caller, &call);
        Ok(())
    }

    /// Makes one call that the machine allows, and answers its reply.
    pub fn make(&mut self, caller: CallerId, call: &Call) -> Reply
        requires named { is_named self.old caller call.now ≡ true }
        requires fits { fits self.old caller call.now ≡ true }
        requires room { Roomy call.now (task_at self.old (subject call.now)) }
        ensures reply { IsReply self.old caller call.now result }
        ensures state { self.new ≡ after self.old caller call.now }
    {
        let reply = self.reply(caller, call);
        self.change(caller, call);
        reply
    }

    /// Whether all that the caller names in a call is there.
    fn names(&self, caller: CallerId, call: &Call) -> bool
        ensures { result ≡ is_named self.now caller call.now }
    {
        caller.0 <= self.workers
            && call.subject() < self.tasks.len()
            && match *call {
                Call::Wake(_, reasons) => !reasons.is_empty(),
                Call::Post(_, boxno) => boxno <= self.workers,
                Call::Get(_) => caller.0 < self.workers,
                Call::Kill(_)
                | Call::Draw(_)
                | Call::Take(_)
                | Call::DropRun(_)
                | Call::Retire(_) => true,
            }
    }

    /// Whether the task that a call names is where the call needs it.
    fn fits(&self, caller: CallerId, call: &Call) -> bool
        requires { IsTrue (is_named self.now caller call.now) }
        ensures { result ≡ fits self.now caller call.now }
    {
        let place = self.tasks[call.subject()].place;
        match *call {
            Call::Wake(..) | Call::Kill(_) | Call::Get(_) => true,
            Call::Post(..) => place.is_in_hands_of(caller),
            Call::Draw(_) => place.is_in_box(self.workers),
            Call::Take(_) => place.is_in_hands_of(caller) || place.is_drawn_by(caller),
            Call::DropRun(_) => place.is_run_by(caller),
            Call::Retire(_) => {
                place.is_in_hands_of(caller)
                    || (place.is_drawn_by(caller) || place.is_run_by(caller))
            }
        }
    }

    /// The right reply to a call.
    fn reply(&self, caller: CallerId, call: &Call) -> Reply
        requires { IsTrue (is_named self.now caller call.now) }
        ensures { IsReply self.now caller call.now result }
    {
        match *call {
            Call::Post(..) | Call::Draw(_) => Reply::Done,
            Call::Get(group) => Reply::Group(self.box_group(caller.0, group)),
            Call::Wake(id, _)
            | Call::Kill(id)
            | Call::Take(id)
            | Call::DropRun(id)
            | Call::Retire(id) => Reply::Task(self.seen(id)),
        }
    }

    /// Makes the change of a call.
    fn change(&mut self, caller: CallerId, call: &Call)
        requires named { IsTrue (is_named self.old caller call.now) }
        requires room { Roomy call.now (task_at self.old (subject call.now)) }
        ensures { self.new ≡ after self.old caller call.now }
    {
        match *call {
            Call::Get(group) => self.get(caller, group),
            Call::Post(id, boxno) => self.put(id, boxno),
            Call::Wake(..)
            | Call::Kill(_)
            | Call::Draw(_)
            | Call::Take(_)
            | Call::DropRun(_)
            | Call::Retire(_) => self.change_one(caller, call),
        }
    }

    /// Makes the change of a call that puts no task into a box and names one task.
    fn change_one(&mut self, caller: CallerId, call: &Call)
        requires named { IsTrue (is_named self.old caller call.now) }
        requires room { Roomy call.now (task_at self.old (subject call.now)) }
        requires fills { FillsNoBox call.now }
        ensures { self.new ≡ after self.old caller call.now }
    {
        let task = &mut self.tasks[call.subject()];
        change_task(task, caller, call);
    }

    /// Moves the tasks of a group that are in the caller's box into its hands.
    fn get(&mut self, caller: CallerId, group: u32)
        requires named { IsTrue (is_named self.old caller (calls.Get group)) }
        ensures { self.new ≡ after self.old caller (calls.Get group) }
    {
        let place = self.mark_place(caller.0, group);
        if self.marks[place] {
            get_group(self.tasks.as_mut_slice(), caller, group);
            self.marks[place] = false;
        }
    }
}

/// Makes the change of a call to a task that the call is about.
fn change_task(task: &mut TaskState, caller: CallerId, call: &Call)
    requires { Roomy call.now task.old }
    ensures { task.new ≡ changed caller call.now task.old }
{
    match *call {
        Call::Wake(_, reasons) => task.wake(caller, reasons),
        Call::Kill(_) => task.kill(caller),
        Call::Post(_, boxno) => task.post(boxno),
        Call::Get(_) => task.get(caller),
        Call::Draw(_) => task.draw(caller),
        Call::Take(_) => task.take(caller),
        Call::DropRun(_) => task.drop_run(caller),
        Call::Retire(_) => task.retire(),
    }
}

/// The word of a group of these tasks in a box: bit j stands for task `64 * group + j`.
fn group_word(tasks: &[TaskState], boxno: u32, group: u32) -> u64
    requires { 64 * group ≤ length tasks.now }
    ensures { IsBoxIn tasks.now boxno group result }
{
    let first = GROUP * group as usize;
    let end = tasks.len().min(first + GROUP);
    let mut word = 0;
    for i in first..end {
        if tasks[i].place.is_in_box(boxno) {
            word |= 1u64 << (i - first);
        }
    }
    word
}

/// Moves the tasks of a group that are in the caller's box into its hands.
fn get_group(tasks: &mut [TaskState], caller: CallerId, group: u32)
    requires { 64 * group ≤ length tasks.old }
    ensures { tasks.new ≡ each (moved caller (calls.Get group)) 0 tasks.old }
{
    let first = GROUP * group as usize;
    let end = tasks.len().min(first + GROUP);
    for i in first..end {
        let task = &mut tasks[i];
        task.get(caller);
    }
}
