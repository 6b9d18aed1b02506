//! The words of a board between rounds.

ghost use Rattle.std.specs.Prelude.{◌≡◌, ℕ, ◌*◌, ◌/◌, ◌%◌, ◌<◌, ◌≤◌, false, IfOk, length, slice_index_or};
ghost use Rattle.std.specs.Mem.Slots.{slots_items, slots_filled, slots_len, IsFull};
ghost use Rattle.std.specs.Int.{bit_at};
ghost use Rattle.wake_board.specs.Lent.{AreLent, AreBack};
ghost use Rattle.wake_board.specs.Rows.{blank_row, task_word, box_word, box_at, width, row_seated, row_dealt, first_body};

use crate::body::Body;
use atomic_table::Closed;
use sched_base::TaskId;
use std::alloc::{AllocError, Global};
use std::marker::Model;

/// How many tasks a group has.
const GROUP: usize = 64;

/// The word of a task that rests, was never taken, and is woken with init.
const FIRST: u64 = 258;

/// The state words of all tasks, the words of all boxes, and the bodies of all tasks.
#[derive(Debug, Drop)]
pub struct Words {
    workers: u32,
    tasks: u32,
    pub(crate) row: Vec<u64>,
    pub(crate) bodies: Vec<Body>,
}

impl Model for Words {
    ghost use Rattle.std.specs.Prelude.{◌≡◌, ◌≤◌, length};
    ghost use Rattle.wake_board.specs.Rows.{WordRow, width};

    ghost Value = { WordRow };

    ghost view = { λ w. record { workers = w.workers; tasks = w.tasks; row = w.row.items; bodies = w.bodies.items } };

    ghost invariant = { λ w. (w.tasks ≤ 65536) × (1 ≤ w.workers) × (w.workers ≤ 64) × (length w.row.items ≡ width w.workers w.tasks) × (length w.bodies.items ≡ w.tasks) };
}

impl Words {
    /// All words 0: each task rests and was never taken, and all boxes are empty.
    pub fn new(alloc: Global, tasks: u32, workers: u32) -> Result<Words, AllocError>
        requires few_tasks { tasks ≤ 65536 }
        requires some_workers { 1 ≤ workers }
        requires few_workers { workers ≤ 64 }
        ensures { IfOk result (λ w. w ≡ blank_row tasks workers) }
    {
        let count = tasks as usize;
        let groups = (count + GROUP - 1) / GROUP;
        let mut row = Vec::new(alloc);
        row.resize(1 + count + (workers as usize + 1) * groups, 0)?;
        let mut bodies = Vec::new(alloc);
        bodies.resize(count, Body { row: 0, takes: 0 })?;
        Ok(Words {
            workers,
            tasks,
            row,
            bodies,
        })
    }

    /// Equal words.
    pub fn try_clone(&self) -> Result<Words, AllocError>
        ensures { IfOk result (λ w. w ≡ self.now) }
    {
        Ok(Words {
            workers: self.workers,
            tasks: self.tasks,
            row: self.row.clone()?,
            bodies: self.bodies.clone()?,
        })
    }

    /// The bodies once more, for the places of a table: one for each task, or none where no task is shared, since only the
    /// body of a shared task goes out.
    pub(crate) fn lent_bodies(&self, alloc: Global, homes: &[u32]) -> Result<Vec<Body>, AllocError>
        ensures { IfOk result (λ v. AreLent self.now homes.now v.items) }
    {
        if !homes.contains(&self.workers) {
            return Ok(Vec::new(alloc));
        }
        let bodies = self.copied_bodies()?;
        Ok(bodies)
    }

    /// The bodies of all tasks once more.
    fn copied_bodies(&self) -> Result<Vec<Body>, AllocError>
        ensures { IfOk result (λ v. v.items ≡ self.now.bodies) }
    {
        self.bodies.clone()
    }

    /// Where the word of a group in a box stands.
    pub(crate) fn box_place(&self, boxno: u32, group: u32) -> usize
        requires exists { 64 * group < self.now.tasks }
        requires box_exists { boxno ≤ self.now.workers }
        ensures place { result ≡ box_at self.now.tasks boxno group }
        ensures within { result < width self.now.workers self.now.tasks }
    {
        box_index(self.workers, self.tasks, boxno, group as usize)
    }

    /// The words of a table that is closed, in the memory of these, and the bodies that it has.
    pub(crate) fn filled(self, closed: Closed<Body, Global>) -> Words
        requires full { IsFull closed.words × IsFull closed.slots }
        requires words { slots_len closed.words ≡ width self.workers self.tasks }
        requires slots { slots_len closed.slots ≤ self.tasks }
        ensures words { result ≡ record self { row = slots_items closed.words; bodies = result.bodies } }
        ensures bodies { AreBack (slots_items closed.slots) result.bodies }
    {
        let mut words = self;
        let mut closed = closed;
        copy_row(&closed, words.row.as_mut_slice());
        take_bodies(&mut closed, words.bodies.as_mut_slice());
        closed.free();
        words
    }

    /// How many tasks there are.
    pub fn tasks(&self) -> u32
        ensures { result ≡ self.now.tasks }
    {
        self.tasks
    }

    /// How many workers there are.
    pub fn workers(&self) -> u32
        ensures { result ≡ self.now.workers }
    {
        self.workers
    }

    /// There are 1 to 64 workers and at most 65,536 tasks. So it is at any time: the call does nothing, and its contract is
    /// the law.
    pub fn stay_few(&self)
        ensures some_workers { 1 ≤ self.now.workers }
        ensures few_workers { self.now.workers ≤ 64 }
        ensures few_tasks { self.now.tasks ≤ 65536 }
    {
        let _workers = &self.workers;
    }

    /// The state word of a task.
    pub fn task(&self, id: TaskId) -> u64
        requires { id.0 < self.now.tasks }
        ensures { result ≡ task_word self.now id.0 }
    {
        self.row[id.0 as usize + 1]
    }

    /// The word of a group of 64 tasks in a box: bit j stands for task `64 * group + j`.
    pub fn box_word(&self, boxno: u32, group: u32) -> u64
        requires exists { 64 * group < self.now.tasks }
        requires box_exists { boxno ≤ self.now.workers }
        ensures { result ≡ box_word self.now boxno group }
    {
        self.row[box_index(self.workers, self.tasks, boxno, group as usize)]
    }

    /// The body of a task.
    pub fn body(&self, id: TaskId) -> Body
        requires { id.0 < self.now.tasks }
        ensures { result ≡ slice_index_or self.now.bodies id.0 first_body }
    {
        self.bodies[id.0 as usize]
    }

    /// Puts a task that was never woken into a box, with the reason init.
    pub fn seat_init(&mut self, id: TaskId, boxno: u32)
        requires exists { id.0 < self.old.tasks }
        requires box_exists { boxno ≤ self.old.workers }
        requires untouched { task_word self.old id.0 ≡ 0 }
        ensures { self.new ≡ row_seated self.old id.0 boxno }
    {
        let index = id.0 as usize;
        let at = box_index(self.workers, self.tasks, boxno, index / GROUP);
        self.row[index + 1] = FIRST;
        self.row[at] |= 1 << (index % GROUP);
    }

    /// Moves a task from the shared box into a worker's box.
    pub fn deal(&mut self, id: TaskId, worker: u32)
        requires exists { id.0 < self.old.tasks }
        requires is_worker { worker < self.old.workers }
        requires shared { bit_at (box_word self.old self.old.workers (id.0 / 64)) (id.0 % 64) ≡ 1 }
        ensures { self.new ≡ row_dealt self.old id.0 worker }
    {
        let index = id.0 as usize;
        let from = box_index(self.workers, self.tasks, self.workers, index / GROUP);
        let to = box_index(self.workers, self.tasks, worker, index / GROUP);
        self.row[from] &= !(1 << (index % GROUP));
        self.row[to] |= 1 << (index % GROUP);
    }
}

/// Where the word of a group in a box stands.
fn box_index(workers: u32, tasks: u32, boxno: u32, group: usize) -> usize
    requires small { (tasks ≤ 65536) × (workers ≤ 64) }
    requires exists { 64 * group < tasks }
    requires box_exists { boxno ≤ workers }
    ensures place { result ≡ box_at tasks boxno group }
    ensures within { result < width workers tasks }
{
    let groups = (tasks as usize + GROUP - 1) / GROUP;
    1 + tasks as usize + (boxno as usize * groups + group)
}

/// Reads all words of a closed table.
fn copy_row(closed: &Closed<Body, Global>, row: &mut [u64])
    requires full { IsFull closed.now.words }
    requires sized { slots_len closed.now.words ≡ length row.old }
    ensures { row.new ≡ slots_items closed.now.words }
{
    for i in 0..row.len() {
        row[i] = closed.word(i);
    }
}

/// Takes all bodies out of a closed table, each to the place of its task.
fn take_bodies(closed: &mut Closed<Body, Global>, bodies: &mut [Body])
    requires full { IsFull closed.old.slots }
    requires sized { slots_len closed.old.slots ≤ length bodies.old }
    ensures bodies { AreBack (slots_items closed.old.slots) bodies.new }
    ensures count { length bodies.new ≡ length bodies.old }
    ensures empty { (k : ℕ) → k < slots_len closed.new.slots → slice_index_or (slots_filled closed.new.slots) k false ≡ false }
    ensures words { closed.new.words ≡ closed.old.words }
{
    for i in 0..closed.slot_count() {
        bodies[i] = closed.take(i);
    }
}
