//! The run queue, over keyed lists that the caller lends.

ghost use Rattle.std.specs.Prelude.{◌≡◌, ℕ, ◌+◌, ◌*◌, ◌^◌, ◌<◌, ◌≤◌, pos, negsuc, ◌*ℤ◌, ◌≤ℤ◌, false, length};
ghost use Rattle.std.specs.Option.{option_map};
ghost use Rattle.sched_base.specs.KeyedList.{KeyedRoots, root_at, first_entry, ChangesRoot};
ghost use Rattle.queue_model.specs.Ticks.{distance};
ghost use Rattle.queue_model.specs.RunList.{RunList, arrived, without_least, is_listed};
ghost use Rattle.queue_model.specs.Walk.{walked};
ghost use Rattle.run_queue.specs.Runners.{run_list, in_order, now_of, entry_of, first_task, Fits, IsReady};

use sched_base::{KeyedLists, TaskId};
use std::marker::Model;

/// How far back a walk over the keys begins: half the circle.
const LOOK_BACK: u32 = 1 << 31;

/// The tasks that wait to run. Their items stand in one root of keyed lists that the caller lends
/// at each call: task i has the entry `2 * i + 1`. Contracts see the root, the depth, how many
/// tasks were ever put in, and how many wait (docs/TIMERS.md, "Run queues").
#[derive(Drop)]
pub struct RunQueue {
    root: u32,
    depth: u32,
    count: u64,
    waiting: u32,
}

impl Model for RunQueue {
    ghost use Rattle.run_queue.specs.Runners.{Runners};

    ghost Value = { Runners };

    ghost view = { λ q. record { root = q.root; depth = q.depth; count = q.count; waiting = q.waiting } };
}

/// The low 32 bits of a count.
fn low(count: u64) -> u32
    ensures { result ≡ now_of count }
{
    (count % (1 << 32)) as u32
}

/// The stored key of a task that arrives with this count. Its distance from the count is `nice`
/// times the depth. `nice` is -1,024 to 1,024, and the depth at most 1,000.
fn stored_key(count: u64, depth: u32, nice: i32) -> u32
    requires shallow { depth ≤ 1000 }
    requires not_low { negsuc 1023 ≤ℤ nice }
    requires not_high { nice ≤ℤ pos 1024 }
    ensures { distance result (now_of count) ≡ nice *ℤ pos depth }
{
    let offset = nice * depth as i32;
    low(count).wrapping_add(offset.cast_unsigned())
}

impl RunQueue {
    /// An empty queue in this root, into which nothing was put yet. The depth is 1 to 1,000.
    pub fn new(root: u32, depth: u32) -> RunQueue
        requires some { 1 ≤ depth }
        requires shallow { depth ≤ 1000 }
        ensures queue { result ≡ record { root = root; depth = depth; count = 0; waiting = 0 } }
        ensures fits { (lists : KeyedRoots) → IsReady root lists → Fits result lists }
    {
        RunQueue::with_count(root, depth, 0)
    }

    /// An empty queue in this root, into which this many tasks were put. The depth is 1 to 1,000.
    pub fn with_count(root: u32, depth: u32, count: u64) -> RunQueue
        requires some { 1 ≤ depth }
        requires shallow { depth ≤ 1000 }
        requires small { count < 2 ^ 62 }
        ensures queue { result ≡ record { root = root; depth = depth; count = count; waiting = 0 } }
        ensures fits { (lists : KeyedRoots) → IsReady root lists → Fits result lists }
    {
        RunQueue {
            root,
            depth,
            count,
            waiting: 0,
        }
    }

    /// How many tasks wait.
    pub fn len(&self) -> u32
        ensures { result ≡ self.now.waiting }
    {
        self.waiting
    }

    /// How many tasks were ever put in.
    pub fn count(&self) -> u64
        ensures { result ≡ self.now.count }
    {
        self.count
    }

    /// The first entry of the walk that begins half the circle before the count.
    fn first_walked<K: KeyedLists>(&self, lists: &K) -> Option<u32>
        requires { self.now.root < length (K.seen lists.now).roots }
        ensures { result ≡ first_entry (in_order self.now (K.seen lists.now)) }
    {
        let start = low(self.count).wrapping_sub(LOOK_BACK);
        match lists.lookup_ge(self.root, start) {
            Some(entry) => Some(entry),
            None => lists.first(self.root),
        }
    }

    /// Puts a task in: the count rises, and the task's key is the count and `nice` times the depth.
    /// `nice` is -1,024 to 1,024, and the lists have at most 2^20 entries.
    pub fn insert<K: KeyedLists>(&mut self, lists: &mut K, id: TaskId, nice: i32)
        requires fits { Fits self.old (K.seen lists.old) }
        requires exists { entry_of id.0 < (K.seen lists.old).entries }
        requires few { (K.seen lists.old).entries ≤ 2 ^ 20 }
        requires absent { is_listed id.0 (run_list self.old (K.seen lists.old)) ≡ false }
        requires not_low { negsuc 1023 ≤ℤ nice }
        requires not_high { nice ≤ℤ pos 1024 }
        requires small { self.old.count < 2 ^ 63 }
        requires room { (root_at self.old.root (K.seen lists.old)).insertions + 1 < 2 ^ 63 }
        ensures list { run_list self.new (K.seen lists.new) ≡ arrived self.old.depth id.0 nice (run_list self.old (K.seen lists.old)) }
        ensures fits { Fits self.new (K.seen lists.new) }
        ensures others { ChangesRoot self.old.root (K.seen lists.old) (K.seen lists.new) }
        ensures insertions { (root_at self.old.root (K.seen lists.new)).insertions ≡ (root_at self.old.root (K.seen lists.old)).insertions + 1 }
        ensures queue { self.new ≡ record self.old { count = self.old.count + 1; waiting = self.old.waiting + 1 } }
    {
        lists.stay_keyed();
        self.count += 1;
        let key = stored_key(self.count, self.depth, nice);
        lists.insert(self.root, 2 * id.0 + 1, key);
        self.waiting += 1;
    }

    /// Takes out the task with the least key, the one that came first among equals; none where no
    /// task waits.
    pub fn pick<K: KeyedLists>(&mut self, lists: &mut K) -> Option<TaskId>
        requires { Fits self.old (K.seen lists.old) }
        ensures picked { option_map (λ id. id.0) result ≡ first_task (run_list self.old (K.seen lists.old)).items }
        ensures list { run_list self.new (K.seen lists.new) ≡ without_least 1 (run_list self.old (K.seen lists.old)) }
        ensures fits { Fits self.new (K.seen lists.new) }
        ensures others { ChangesRoot self.old.root (K.seen lists.old) (K.seen lists.new) }
        ensures insertions { (root_at self.old.root (K.seen lists.new)).insertions ≡ (root_at self.old.root (K.seen lists.old)).insertions }
        ensures queue { self.new ≡ record self.old { waiting = self.new.waiting } }
    {
        lists.stay_keyed();
        let Some(entry) = self.first_walked(lists) else {
            return None;
        };
        lists.delete(entry);
        self.waiting -= 1;
        Some(TaskId(entry / 2))
    }
}
