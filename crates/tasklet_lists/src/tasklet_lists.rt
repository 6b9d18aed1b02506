//! Four lists linked inside one vector.

ghost use Rattle.std.specs.Prelude.{◌≡◌, ◌+◌, ◌*◌, ◌^◌, ◌<◌, ◌≤◌, ◌∷◌, [], ℕ, List, length, IfOk, MatchOption, false, min, nat_lt, if◌then◌else◌};
ghost use Rattle.std.specs.Int.{div_ceil};
ghost use Rattle.queue_model.specs.Classes.{of_class, pushed, popped, quotas};
ghost use Rattle.tasklet_lists.specs.ClassLists.{is_pushed, no_lists, in_order};
ghost use Rattle.tasklet_lists.specs.Links.{ends_of, with_ends, joined, joined_ends, left_ends};

use sched_base::{Class, TaskId};
use std::alloc::{AllocError, Global};
use std::marker::Model;

/// The first and the last task of a list, which count only where it has one, and how many it has.
#[derive(Clone, Copy, Debug)]
struct Ends {
    first: u32,
    last: u32,
    len: u32,
}

/// The ends of all four lists.
#[derive(Clone, Copy, Debug)]
struct AllEnds {
    urgent: Ends,
    normal: Ends,
    bulk: Ends,
    heavy: Ends,
}

/// Four lists of tasks, one for each class: a task joins at the end of a list and leaves it at the
/// front. A task stands in one list at most. Contracts see the number of tasks and the lists.
///
/// All lists are linked inside one vector, which has for each task the one that follows it in its
/// list. Each call takes constant time.
#[derive(Drop)]
pub struct TaskletLists {
    following: Vec<u32>,
    ends: AllEnds,
}

impl Model for TaskletLists {
    ghost use Rattle.std.specs.Prelude.{◌≡◌, length};
    ghost use Rattle.tasklet_lists.specs.ClassLists.{ClassLists};
    ghost use Rattle.tasklet_lists.specs.Links.{lists_of, AreLinked};

    ghost Value = { ClassLists };

    ghost view = { λ t. record { tasks = length t.following.items; lists = lists_of t.following.items t.ends } };

    ghost invariant = { λ t. AreLinked t.following.items t.ends };
}

impl Ends {
    /// The ends of an empty list.
    const NONE: Ends = Ends {
        first: 0,
        last: 0,
        len: 0,
    };
}

impl AllEnds {
    /// The ends of a class's list.
    fn of(&self, class: Class) -> Ends
        ensures { result ≡ ends_of class self.now }
    {
        match class {
            Class::Urgent => self.urgent,
            Class::Normal => self.normal,
            Class::Bulk => self.bulk,
            Class::Heavy => self.heavy,
        }
    }

    /// Changes the ends of a class's list.
    fn set(&mut self, class: Class, ends: Ends)
        ensures { self.new ≡ with_ends class ends self.old }
    {
        match class {
            Class::Urgent => self.urgent = ends,
            Class::Normal => self.normal = ends,
            Class::Bulk => self.bulk = ends,
            Class::Heavy => self.heavy = ends,
        }
    }
}

/// Links a task to the end of a list. The answer is the list's ends then.
fn join(following: &mut Vec<u32>, ends: Ends, id: TaskId) -> Ends
    requires last { 0 < ends.len → ends.last < length following.old.items }
    requires few { ends.len + 1 < 2 ^ 32 }
    ensures linked { following.new.items ≡ joined following.old.items ends id.0 }
    ensures ends { result ≡ joined_ends ends id.0 }
{
    let first = if ends.len == 0 {
        id.0
    } else {
        following[ends.last as usize] = id.0;
        ends.first
    };
    Ends {
        first,
        last: id.0,
        len: ends.len + 1,
    }
}

/// The ends of a list once its first task has left it.
fn leave(following: &Vec<u32>, ends: Ends) -> Ends
    requires some { 0 < ends.len }
    requires first { ends.first < length following.now.items }
    ensures { result ≡ left_ends following.now.items ends }
{
    Ends {
        first: following[ends.first as usize],
        last: ends.last,
        len: ends.len - 1,
    }
}

impl TaskletLists {
    /// Four empty lists for this many tasks.
    pub fn new(alloc: Global, tasks: u32) -> Result<TaskletLists, AllocError>
        ensures { IfOk result (λ t. t ≡ record { tasks = tasks; lists = no_lists }) }
    {
        let mut following = Vec::new(alloc);
        following.resize(tasks as usize, 0)?;
        let ends = AllEnds {
            urgent: Ends::NONE,
            normal: Ends::NONE,
            bulk: Ends::NONE,
            heavy: Ends::NONE,
        };
        Ok(TaskletLists { following, ends })
    }

    /// Puts a task that is in no list at the end of a class's list.
    pub fn push(&mut self, class: Class, id: TaskId)
        requires exists { id.0 < self.old.tasks }
        requires apart { is_pushed id.0 self.old.lists ≡ false }
        ensures { self.new ≡ record self.old { lists = pushed class (id.0 ∷ []) self.old.lists } }
    {
        let ends = self.ends.of(class);
        let longer = join(&mut self.following, ends, id);
        self.ends.set(class, longer);
    }

    /// Takes the first task out of a class's list; None exactly where the list is empty.
    pub fn pop(&mut self, class: Class) -> Option<TaskId>
        ensures task { MatchOption result (of_class class self.old.lists ≡ []) (λ id. (is : List ℕ) × (of_class class self.old.lists ≡ id.0 ∷ is)) }
        ensures lists { self.new ≡ record self.old { lists = popped class self.old.lists } }
    {
        let ends = self.ends.of(class);
        if ends.len == 0 {
            return None;
        }
        let shorter = leave(&self.following, ends);
        self.ends.set(class, shorter);
        Some(TaskId(ends.first))
    }

    /// The first task of a class's list; None exactly where the list is empty.
    pub fn first(&self, class: Class) -> Option<TaskId>
        ensures { MatchOption result (of_class class self.now.lists ≡ []) (λ id. (is : List ℕ) × (of_class class self.now.lists ≡ id.0 ∷ is)) }
    {
        let ends = self.ends.of(class);
        (ends.len > 0).then_some(TaskId(ends.first))
    }

    /// How many tasks a class's list has.
    pub fn len(&self, class: Class) -> u32
        ensures { result ≡ length (of_class class self.now.lists) }
    {
        self.ends.of(class).len
    }

    /// How many tasks of each class may run in a turn of this depth, in the order of the classes: a
    /// class's weight of 64, 48, 16 or 1 as a share of the weights of all classes that have a task,
    /// rounded up; of the heavy ones at most one, and of a class without a task none.
    pub fn quotas(&self, depth: u32) -> [u32; 4]
        ensures { result ≡ in_order (quotas depth self.now.lists) }
    {
        let weights = [
            weight_of(self.ends.urgent, 64),
            weight_of(self.ends.normal, 48),
            weight_of(self.ends.bulk, 16),
            weight_of(self.ends.heavy, 1),
        ];
        let total = weights[0] + weights[1] + weights[2] + weights[3];
        [
            share_of(depth, weights[0], total),
            share_of(depth, weights[1], total),
            share_of(depth, weights[2], total),
            at_most_one(share_of(depth, weights[3], total)),
        ]
    }
}

/// The weight of a class, if its list has a task.
fn weight_of(ends: Ends, weight: u64) -> u64
    ensures { result ≡ (if nat_lt 0 ends.len then weight else 0) }
{
    if ends.len > 0 { weight } else { 0 }
}

/// The share of the heavy class.
fn at_most_one(share: u32) -> u32
    ensures { result ≡ min 1 share }
{
    share.min(1)
}

/// A class's share of a turn, rounded up; nothing where it has no weight.
fn share_of(depth: u32, weight: u64, total: u64) -> u32
    requires part { weight ≤ total }
    requires few { total ≤ 129 }
    ensures { result ≡ (if nat_lt 0 weight then div_ceil (depth * weight) total else 0) }
{
    if weight == 0 {
        return 0;
    }
    (depth as u64 * weight).div_ceil(total) as u32
}
