//! Which entries are left in the logs, and where the next entry of a kind stands in each.

ghost use Rattle.std.specs.Prelude.{◌≡◌, ◌≢◌, ℕ, ◌+◌, ◌-◌, ◌*◌, ◌/◌, ◌<◌, ◌≤◌, ◌∷◌, IsTrue, ◌↔◌, IfOk, length, slice_index, slice_set, vec_len};
ghost use Rattle.task_machine.specs.Step.{State, task_at};
ghost use Rattle.history_weave.specs.Rule.{Lets, Holds, TellsTakes, SawTakes};
ghost use Rattle.history_weave.specs.Kinds.{kind, KindNamed, KindSeen, KindGoes};
ghost use Rattle.history_weave.specs.Places.{none, log_at, left_of, entry_count, entry_at};
ghost use Rattle.task_machine.specs.declared.calls.Entry.{Entry};

use crate::kinds::{
    Kind, holds_task, kind_of, look_mark, looks_quietly, same_seen, saw_takes, seen_mark,
};
use crate::places::{NONE, Places};
use sched_base::TaskId;
use std::alloc::{AllocError, Global};
use task_machine::{Entry, Log, Machine, Seen};

/// How many tasks a group has.
const GROUP: usize = 64;

/// Where the next entries stand in the logs. From `next[k]` on the entries of log k are left.
#[derive(Drop)]
pub(crate) struct Index {
    /// In row i and column k: the next look at task i in log k.
    pub looks: Places,
    /// In row i and column k: the mark of that look.
    pub marks: Places,
    /// In row g and column k: the next get of group g in log k.
    pub gets: Places,
    /// How many draws of each task are left.
    pub draws: Vec<usize>,
    /// For the entry at place p of log k, under `starts[k] + p`: the next look at the same task, or
    /// the next get of the same group, in that log.
    pub links: Vec<usize>,
    /// Beside the link of a look: the mark of the look to which it leads.
    pub link_marks: Vec<usize>,
    /// Under which number the links of a log begin.
    pub starts: Vec<usize>,
    /// From which place on the entries of a log are left.
    pub next: Vec<usize>,
}

impl Index {
    ghost use Rattle.history_weave.specs.Indexed.{tasks_of, HasShape, HasAsManyLinks, HasLinkRoom, IsClear, IsIndexed, IsLaidOut, AreNamed, IsNextKind};

    /// An index in which nothing is left.
    pub fn new(alloc: Global, tasks: u32, callers: usize) -> Result<Index, AllocError>
        requires { callers ≤ 65 }
        ensures clear { IfOk result (λ x. IsClear callers x) }
        ensures tasks { IfOk result (λ x. tasks_of x ≡ tasks) }
    {
        let tasks = tasks as usize;
        let mut draws = Vec::new(alloc);
        draws.resize(tasks, 0)?;
        let mut starts = Vec::new(alloc);
        starts.resize(callers, 0)?;
        let mut next = Vec::new(alloc);
        next.resize(callers, 0)?;
        Ok(Index {
            looks: Places::new(alloc, tasks, callers)?,
            marks: Places::new(alloc, tasks, callers)?,
            gets: Places::new(alloc, (tasks + GROUP - 1) / GROUP, callers)?,
            draws,
            links: Vec::new(alloc),
            link_marks: Vec::new(alloc),
            starts,
            next,
        })
    }

    /// Enters the entry that stands in log k before those that are entered.
    fn enter(&mut self, logs: &[Log], k: usize, place: usize)
        requires caller { k < length logs.now }
        requires next { slice_index self.old.next.items k ≡ place + 1 }
        requires named { AreNamed logs.now (tasks_of self.old) }
        requires indexed { IsIndexed logs.now self.old }
        ensures indexed { IsIndexed logs.now self.new }
        ensures next { self.new.next.items ≡ slice_set self.old.next.items k place }
        ensures tasks { tasks_of self.new ≡ tasks_of self.old }
        ensures links { HasAsManyLinks self.old self.new }
    {
        let link = self.starts[k] + place;
        self.next[k] = place;
        match kind_of(&logs[k].as_slice()[place]) {
            Kind::Look { task, seen, quiet } => {
                self.links[link] = self.looks.at(task as usize, k);
                self.link_marks[link] = self.marks.at(task as usize, k);
                self.looks.set(task as usize, k, place);
                self.marks.set(task as usize, k, look_mark(&seen, quiet));
            }
            Kind::Get { group } => {
                self.links[link] = self.gets.at(group as usize, k);
                self.gets.set(group as usize, k, place);
            }
            Kind::Draw { task } => {
                self.draws[task as usize] += 1;
            }
            Kind::Post { .. } | Kind::Apart => {}
        }
    }

    /// Takes the next entry of log k out.
    pub fn leave(&mut self, logs: &[Log], k: usize)
        requires caller { k < length logs.now }
        requires some { slice_index self.old.next.items k < length (log_at logs.now k) }
        requires named { AreNamed logs.now (tasks_of self.old) }
        requires indexed { IsIndexed logs.now self.old }
        ensures indexed { IsIndexed logs.now self.new }
        ensures next { self.new.next.items ≡ slice_set self.old.next.items k (slice_index self.old.next.items k + 1) }
        ensures tasks { tasks_of self.new ≡ tasks_of self.old }
        ensures links { HasAsManyLinks self.old self.new }
    {
        let place = self.next[k];
        let link = self.starts[k] + place;
        self.next[k] = place + 1;
        match kind_of(&logs[k].as_slice()[place]) {
            Kind::Look { task, .. } => {
                let later = self.links[link];
                let mark = self.link_marks[link];
                self.looks.set(task as usize, k, later);
                self.marks.set(task as usize, k, mark);
            }
            Kind::Get { group } => {
                self.gets.set(group as usize, k, self.links[link]);
            }
            Kind::Draw { task } => {
                self.draws[task as usize] -= 1;
            }
            Kind::Post { .. } | Kind::Apart => {}
        }
    }

    /// Whether no log's next look at a task saw this and changes nothing.
    fn lets(&self, logs: &[Log], task: usize, seen: &Seen) -> bool
        requires task { task < tasks_of self.now }
        requires indexed { IsIndexed logs.now self.now }
        ensures { IsTrue result ↔ ((j : ℕ) → Lets task seen.now (left_of logs.now self.now.next.items j)) }
    {
        let mark = seen_mark(seen);
        for k in 0..logs.len() {
            if self.marks.at(task, k) == mark && !self.lets_next(logs, k, task, seen) {
                return false;
            }
        }
        true
    }

    /// Whether the next look of caller k at a task did not see this, or changes something.
    fn lets_next(&self, logs: &[Log], k: usize, task: usize, seen: &Seen) -> bool
        requires caller { k < length logs.now }
        requires task { task < tasks_of self.now }
        requires indexed { IsIndexed logs.now self.now }
        ensures { IsTrue result ↔ Lets task seen.now (left_of logs.now self.now.next.items k) }
    {
        let place = self.looks.at(task, k);
        if place == NONE {
            return true;
        }
        !looks_quietly(entry_at(logs, k, place), seen)
    }

    /// Whether the next get of a task's group in this box holds the task, if there is one.
    fn is_held(&self, logs: &[Log], task: u32, boxno: usize) -> bool
        requires task { task < tasks_of self.now }
        requires box_exists { boxno < length logs.now }
        requires indexed { IsIndexed logs.now self.now }
        ensures { IsTrue result ↔ Holds task (left_of logs.now self.now.next.items boxno) }
    {
        let place = self.gets.at(task as usize / GROUP, boxno);
        place == NONE || holds_task(entry_at(logs, boxno, place), task)
    }

    /// Whether the next look of caller k at a task saw it taken as often as it is seen now.
    fn is_drawn_first(&self, logs: &[Log], k: usize, task: usize, seen: &Seen) -> bool
        requires task { task < tasks_of self.now }
        requires caller { k < length logs.now }
        requires indexed { IsIndexed logs.now self.now }
        ensures sound { IsTrue result → (m : ℕ) × SawTakes m seen.now × TellsTakes task m (left_of logs.now self.now.next.items k) }
        ensures complete { (m : ℕ) → SawTakes m seen.now → TellsTakes task m (left_of logs.now self.now.next.items k) → IsTrue result }
    {
        let place = self.looks.at(task, k);
        place != NONE && saw_takes(entry_at(logs, k, place), seen)
    }

    /// Whether an entry of caller k of this kind that is the next in its log may go, if the machine
    /// allows it.
    pub fn may_go(&self, machine: &Machine, logs: &[Log], k: usize, kind: &Kind) -> bool
        requires caller { k < length logs.now }
        requires tasks { tasks_of self.now ≡ length machine.now.tasks }
        requires named { KindNamed (tasks_of self.now) (length logs.now) kind.now }
        requires next { IsNextKind logs.now self.now.next.items k kind.now }
        requires indexed { IsIndexed logs.now self.now }
        ensures sound { IsTrue result → KindGoes (left_of logs.now self.now.next.items) machine.now k kind.now }
        ensures complete { KindSeen machine.now kind.now → KindGoes (left_of logs.now self.now.next.items) machine.now k kind.now → IsTrue result }
    {
        match *kind {
            Kind::Look {
                task,
                ref seen,
                quiet,
            } => {
                quiet
                    || (same_seen(&machine.seen(TaskId(task)), seen)
                        && self.lets(logs, task as usize, seen))
            }
            Kind::Post { task, boxno } => self.is_held(logs, task, boxno as usize),
            Kind::Draw { task } => {
                self.draws[task as usize] == 1
                    || self.is_drawn_first(logs, k, task as usize, &machine.seen(TaskId(task)))
            }
            Kind::Get { .. } | Kind::Apart => true,
        }
    }

    /// Enters all logs into an index in which nothing is left. The answer is how many entries they
    /// have together.
    pub fn enter_all(&mut self, logs: &[Log]) -> usize
        requires few { entry_count logs.now ≤ none }
        requires room { HasLinkRoom (entry_count logs.now) self.old }
        requires clear { IsClear (length logs.now) self.old }
        requires named { AreNamed logs.now (tasks_of self.old) }
        ensures total { result ≡ entry_count logs.now }
        ensures indexed { IsIndexed logs.now self.new }
        ensures next { (k : ℕ) → slice_index self.new.next.items k ≡ 0 }
        ensures tasks { tasks_of self.new ≡ tasks_of self.old }
        ensures links { HasAsManyLinks self.old self.new }
    {
        let total = self.lay_out(logs);
        for k in 0..logs.len() {
            self.enter_log(logs, k);
        }
        total
    }

    /// Settles where the links of each log stand, with none of the entries left yet. The answer is
    /// how many entries the logs have together.
    fn lay_out(&mut self, logs: &[Log]) -> usize
        requires few { entry_count logs.now ≤ none }
        requires room { HasLinkRoom (entry_count logs.now) self.old }
        requires clear { IsClear (length logs.now) self.old }
        ensures total { result ≡ entry_count logs.now }
        ensures indexed { IsIndexed logs.now self.new }
        ensures next { (k : ℕ) → k < length logs.now → slice_index self.new.next.items k ≡ length (log_at logs.now k) }
        ensures tasks { tasks_of self.new ≡ tasks_of self.old }
        ensures links { HasAsManyLinks self.old self.new }
    {
        let mut total = 0;
        for k in 0..logs.len() {
            let count = logs[k].as_slice().len();
            self.starts[k] = total;
            self.next[k] = count;
            total += count;
        }
        total
    }

    /// Enters the entries of log k, from its end on.
    fn enter_log(&mut self, logs: &[Log], k: usize)
        requires caller { k < length logs.now }
        requires none_left { slice_index self.old.next.items k ≡ length (log_at logs.now k) }
        requires named { AreNamed logs.now (tasks_of self.old) }
        requires indexed { IsIndexed logs.now self.old }
        ensures indexed { IsIndexed logs.now self.new }
        ensures next { self.new.next.items ≡ slice_set self.old.next.items k 0 }
        ensures tasks { tasks_of self.new ≡ tasks_of self.old }
        ensures links { HasAsManyLinks self.old self.new }
    {
        for place in (0..logs[k].as_slice().len()).rev() {
            self.enter(logs, k, place);
        }
    }
}

/// The entry at a place of log k.
fn entry_at(logs: &[Log], k: usize, place: usize) -> &Entry
    requires caller { k < length logs.now }
    requires within { place < length (log_at logs.now k) }
    ensures { (d : Entry) → entry_at logs.now k place d ≡ result.now }
{
    &logs[k].as_slice()[place]
}
