//! The wait queue, over keyed lists that the caller lends.

ghost use Rattle.std.specs.Prelude.{◌≡◌, ◌+◌, ◌^◌, ◌<◌, true, false, length, slice_index, replicate, IfOk, IfNone, [], ℕ};
ghost use Rattle.std.specs.Option.{option_map};
ghost use Rattle.sched_base.specs.KeyedList.{KeyedRoots, root_at, first_entry, ChangesRoot};
ghost use Rattle.queue_model.specs.WaitList.{WaitList, expiry_of, with_expiry, armed, unlinked};
ghost use Rattle.queue_model.specs.Sweep.{due};
ghost use Rattle.queue_model.specs.SweepStep.{first_fired, swept_once};
ghost use Rattle.queue_model.specs.Settle.{settled, IsSettled};
ghost use Rattle.queue_model.specs.Walk.{walked};
ghost use Rattle.wait_queue.specs.Looks.{Saw, IfSettled, Moved, IsLeft};
ghost use Rattle.wait_queue.specs.Timers.{wait_list, Fits, IsReady, IsSameQueue, Inserts, insertions_of, first_key, key_of_task, is_none_left};

use sched_base::{KeyedLists, TaskId};
use std::alloc::{AllocError, Global};
use std::marker::Model;
use ticks::{ETERNITY, is_expired, is_lt, is_set};

/// How far back a walk over the keys begins, in milliseconds: half the circle.
const LOOK_BACK: u32 = 1 << 31;

/// What one look at the item that is due first came to.
#[derive(Debug)]
enum Look {
    /// No key is expired.
    Settled,
    /// The item was put back or forgotten.
    Passed,
    /// The item is out, and the timer of its task fires.
    Fired(TaskId),
}

/// The timers of some tasks. Their items stand in one root of keyed lists that the caller lends at
/// each call: task i has the entry `2 * i`. Contracts see the root and, for each task, the tick at
/// which it is due, 0 for unset (docs/TIMERS.md, "Wait queues").
#[derive(Drop)]
pub struct WaitQueue {
    root: u32,
    expiries: Vec<u32>,
}

impl Model for WaitQueue {
    ghost use Rattle.wait_queue.specs.Timers.{Timers};

    ghost Value = { Timers };

    ghost view = { λ q. record { root = q.root; expiries = q.expiries.items } };
}

impl WaitQueue {
    /// A queue in this root for tasks 0 to `tasks - 1`, none of which is due.
    pub fn new(alloc: Global, root: u32, tasks: u32) -> Result<WaitQueue, AllocError>
        ensures unset { IfOk result (λ q. q ≡ record { root = root; expiries = replicate tasks 0 }) }
        ensures fits { IfOk result (λ q. (lists : KeyedRoots) → IsReady root tasks lists → Fits q lists) }
    {
        let mut expiries = Vec::new(alloc);
        expiries.resize(tasks as usize, ETERNITY)?;
        Ok(WaitQueue { root, expiries })
    }

    /// Sets the tick at which a task is due, 0 for never. Its item stays as it is.
    pub fn set_expiry(&mut self, id: TaskId, tick: u32)
        requires { id.0 < length self.old.expiries }
        ensures list { (now : ℕ) (lists : KeyedRoots) → wait_list now self.new lists ≡ with_expiry id.0 tick (wait_list now self.old lists) }
        ensures queue { IsSameQueue self.old self.new }
        ensures fits { (lists : KeyedRoots) → Fits self.old lists → Fits self.new lists }
    {
        self.expiries[id.0 as usize] = tick;
    }

    /// The tick at which a task is due, 0 for never.
    pub fn expiry(&self, id: TaskId) -> u32
        requires { id.0 < length self.now.expiries }
        ensures { result ≡ slice_index self.now.expiries id.0 }
    {
        self.expiries[id.0 as usize]
    }

    /// The first entry of the walk that begins half the circle before `now`.
    fn first_walked<K: KeyedLists>(&self, lists: &K, now: u32) -> Option<u32>
        requires { self.now.root < length (K.seen lists.now).roots }
        ensures { result ≡ first_entry (walked now (root_at self.now.root (K.seen lists.now)).items) }
    {
        let start = now.wrapping_sub(LOOK_BACK);
        match lists.lookup_ge(self.root, start) {
            Some(entry) => Some(entry),
            None => lists.first(self.root),
        }
    }

    /// Puts a task in at its expiry, if that is set and the task has no item. A task that has one
    /// moves only where its expiry lies before its key.
    pub fn arm<K: KeyedLists>(&mut self, lists: &mut K, id: TaskId, now: u32)
        requires fits { Fits self.old (K.seen lists.old) }
        requires exists { id.0 < length self.old.expiries }
        requires room { insertions_of self.old (K.seen lists.old) + 1 < 2 ^ 63 }
        ensures list { wait_list now self.new (K.seen lists.new) ≡ armed now id.0 (wait_list now self.old (K.seen lists.old)) }
        ensures fits { Fits self.new (K.seen lists.new) }
        ensures others { ChangesRoot self.old.root (K.seen lists.old) (K.seen lists.new) }
        ensures insertions { Inserts 1 self.old (K.seen lists.old) (K.seen lists.new) }
        ensures queue { self.new ≡ self.old }
    {
        lists.stay_keyed();
        let expiry = self.expiries[id.0 as usize];
        if !is_set(expiry) {
            return;
        }
        let entry = 2 * id.0;
        let Some(key) = self.key(lists, id) else {
            lists.insert(self.root, entry, expiry);
            return;
        };
        if !is_lt(expiry, key) {
            return;
        }
        lists.delete(entry);
        lists.insert(self.root, entry, expiry);
    }

    /// Drops a task: it has no item any more, and it is never due.
    pub fn unlink<K: KeyedLists>(&mut self, lists: &mut K, id: TaskId)
        requires fits { Fits self.old (K.seen lists.old) }
        requires exists { id.0 < length self.old.expiries }
        ensures list { (now : ℕ) → wait_list now self.new (K.seen lists.new) ≡ unlinked id.0 (wait_list now self.old (K.seen lists.old)) }
        ensures fits { Fits self.new (K.seen lists.new) }
        ensures others { ChangesRoot self.old.root (K.seen lists.old) (K.seen lists.new) }
        ensures insertions { Inserts 0 self.old (K.seen lists.old) (K.seen lists.new) }
        ensures queue { IsSameQueue self.old self.new }
    {
        lists.stay_keyed();
        self.expiries[id.0 as usize] = ETERNITY;
        let entry = 2 * id.0;
        if lists.root_of(entry).is_none() {
            return;
        }
        lists.delete(entry);
    }

    /// Looks at the item that is due first: takes it out if its key is expired, and puts it back at
    /// its expiry if that is still ahead.
    fn look<K: KeyedLists>(&mut self, lists: &mut K, now: u32) -> Look
        requires fits { Fits self.old (K.seen lists.old) }
        requires room { insertions_of self.old (K.seen lists.old) + length (due now (wait_list now self.old (K.seen lists.old))) < 2 ^ 63 }
        ensures saw { Saw result now (wait_list now self.old (K.seen lists.old)) (wait_list now self.new (K.seen lists.new)) }
        ensures untouched { IfSettled result (K.seen lists.new ≡ K.seen lists.old) }
        ensures fits { Fits self.new (K.seen lists.new) }
        ensures others { ChangesRoot self.old.root (K.seen lists.old) (K.seen lists.new) }
        ensures insertions { Inserts 1 self.old (K.seen lists.old) (K.seen lists.new) }
        ensures queue { IsSameQueue self.old self.new }
    {
        lists.stay_keyed();
        let Some(entry) = self.first_walked(lists, now) else {
            return Look::Settled;
        };
        if !is_expired(lists.key_of(entry), now) {
            return Look::Settled;
        }
        lists.delete(entry);
        let task = entry / 2;
        let expiry = self.expiries[task as usize];
        if is_expired(expiry, now) {
            self.expiries[task as usize] = ETERNITY;
            return Look::Fired(TaskId(task));
        }
        if !is_set(expiry) {
            return Look::Passed;
        }
        lists.insert(self.root, entry, expiry);
        Look::Passed
    }

    /// Goes on with the sweep at `now` up to the first timer that fires, and answers its task. None
    /// where no timer fires any more; then no key that is left is expired.
    pub fn sweep_next<K: KeyedLists>(&mut self, lists: &mut K, now: u32) -> Option<TaskId>
        requires fits { Fits self.old (K.seen lists.old) }
        requires room { insertions_of self.old (K.seen lists.old) + length self.old.expiries < 2 ^ 63 }
        ensures fired { option_map (λ id. id.0) result ≡ first_fired now (wait_list now self.old (K.seen lists.old)) }
        ensures list { wait_list now self.new (K.seen lists.new) ≡ swept_once now (wait_list now self.old (K.seen lists.old)) }
        ensures settled { IfNone result (due now (wait_list now self.new (K.seen lists.new)) ≡ []) }
        ensures fits { Fits self.new (K.seen lists.new) }
        ensures others { ChangesRoot self.old.root (K.seen lists.old) (K.seen lists.new) }
        ensures insertions { Inserts (length self.old.expiries) self.old (K.seen lists.old) (K.seen lists.new) }
        ensures queue { IsSameQueue self.old self.new }
    {
        lists.stay_keyed();
        loop {
            match self.look(lists, now) {
                Look::Settled => return None,
                Look::Passed => {}
                Look::Fired(id) => return Some(id),
            }
        }
    }

    /// Moves the item that is due first to its expiry, or forgets it where that is unset. False where there is no such
    /// item, or it stands at its expiry.
    fn settle_first<K: KeyedLists>(&mut self, lists: &mut K, now: u32) -> bool
        requires fits { Fits self.old (K.seen lists.old) }
        requires room { (IsLeft now (wait_list now self.old (K.seen lists.old)) → ⊥) → insertions_of self.old (K.seen lists.old) + 1 < 2 ^ 63 }
        ensures moved { result ≡ true → Moved now (wait_list now self.old (K.seen lists.old)) (wait_list now self.new (K.seen lists.new)) }
        ensures left { result ≡ false → IsLeft now (wait_list now self.old (K.seen lists.old)) × (K.seen lists.new ≡ K.seen lists.old) }
        ensures fits { Fits self.new (K.seen lists.new) }
        ensures others { ChangesRoot self.old.root (K.seen lists.old) (K.seen lists.new) }
        ensures insertions { Inserts 1 self.old (K.seen lists.old) (K.seen lists.new) }
        ensures queue { self.new ≡ self.old }
    {
        lists.stay_keyed();
        let Some(entry) = self.first_walked(lists, now) else {
            return false;
        };
        let expiry = self.expiries[(entry / 2) as usize];
        if lists.key_of(entry) == expiry {
            return false;
        }
        lists.delete(entry);
        if !is_set(expiry) {
            return true;
        }
        lists.insert(self.root, entry, expiry);
        true
    }

    /// Settles the list, as seen from `now`: while the item that is due first does not stand at its expiry, it moves
    /// there, or is forgotten where its expiry is unset. Afterwards the first key is the earliest expiry of all items.
    pub fn settle<K: KeyedLists>(&mut self, lists: &mut K, now: u32)
        requires fits { Fits self.old (K.seen lists.old) }
        requires room { insertions_of self.old (K.seen lists.old) + length self.old.expiries < 2 ^ 63 }
        ensures list { wait_list now self.new (K.seen lists.new) ≡ settled now (wait_list now self.old (K.seen lists.old)) }
        ensures stays { IsSettled (wait_list now self.old (K.seen lists.old)) → K.seen lists.new ≡ K.seen lists.old }
        ensures fits { Fits self.new (K.seen lists.new) }
        ensures others { ChangesRoot self.old.root (K.seen lists.old) (K.seen lists.new) }
        ensures insertions { Inserts (length self.old.expiries) self.old (K.seen lists.old) (K.seen lists.new) }
        ensures queue { self.new ≡ self.old }
    {
        lists.stay_keyed();
        while self.settle_first(lists, now) {}
    }

    /// The key of the item that is due first; none where there is no item.
    pub fn next_expiry<K: KeyedLists>(&self, lists: &K, now: u32) -> Option<u32>
        requires { Fits self.now (K.seen lists.now) }
        ensures { result ≡ first_key (wait_list now self.now (K.seen lists.now)).items }
    {
        lists.stay_keyed();
        match self.first_walked(lists, now) {
            Some(entry) => Some(lists.key_of(entry)),
            None => None,
        }
    }

    /// The key under which a task stands; none where it has no item.
    pub fn key<K: KeyedLists>(&self, lists: &K, id: TaskId) -> Option<u32>
        requires fits { Fits self.now (K.seen lists.now) }
        requires exists { id.0 < length self.now.expiries }
        ensures { (now : ℕ) → result ≡ key_of_task id.0 (wait_list now self.now (K.seen lists.now)).items }
    {
        lists.stay_keyed();
        let entry = 2 * id.0;
        if lists.root_of(entry).is_none() {
            return None;
        }
        Some(lists.key_of(entry))
    }

    /// Whether there is no item.
    pub fn is_empty<K: KeyedLists>(&self, lists: &K) -> bool
        requires { Fits self.now (K.seen lists.now) }
        ensures { (now : ℕ) → result ≡ is_none_left (wait_list now self.now (K.seen lists.now)).items }
    {
        lists.first(self.root).is_none()
    }
}
