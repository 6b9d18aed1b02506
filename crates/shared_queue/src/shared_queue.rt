//! The shared queue.

ghost use Rattle.std.specs.Prelude.{◌≡◌, ℕ, ◌*◌, ◌<◌, ◌≤◌, pos, [], length, map, replicate, IfOk};
ghost use Rattle.queue_model.specs.Walk.{walked};
ghost use Rattle.run_queue.specs.Runners.{now_of, run_item};
ghost use Rattle.sched_base.specs.KeyedList.{root_at};
ghost use Rattle.shared_queue.specs.Sharing.{Sharing, shared_list};
ghost use Rattle.shared_queue.specs.Dealing.{AreNices};

use crate::ranking::Ranking;
use run_queue::RunQueue;
use sched_base::KeyedLists;
use std::alloc::{AllocError, Global};
use std::marker::Model;

/// The root of the lists in which the shared run list stands.
const ROOT: u32 = 0;

/// The shared tasks that wait, in the first root of keyed lists, and the nice of each task. Contracts see the lists, the
/// queue over them and the nices.
#[derive(Drop)]
pub struct SharedQueue<K: KeyedLists> {
    pub(crate) lists: K,
    pub(crate) queue: RunQueue,
    pub(crate) ranks: Ranking,
}

impl<K: KeyedLists> Model for SharedQueue<K> {
    ghost use Rattle.shared_queue.specs.Sharing.{Sharing, IsSharing};

    ghost Value = { Sharing };

    ghost view = { λ q. record { lists = K.seen q.lists; queue = q.queue; ranks = q.ranks } };

    ghost invariant = { λ q. IsSharing (record { lists = K.seen q.lists; queue = q.queue; ranks = q.ranks }) };
}

impl<K: KeyedLists> SharedQueue<K> {
    /// An empty queue for this many tasks, at most 65,536, each of nice 0, in root 0 of these lists. They are empty, and have
    /// two entries for each task. The depth is 1 to 1,000. Want of memory is the one error.
    pub fn new(
        alloc: Global,
        lists: K,
        depth: u32,
        tasks: u32,
    ) -> Result<SharedQueue<K>, AllocError>
    where
        K: Drop,
        requires root { 0 < length (K.seen lists).roots }
        requires empty { (root : ℕ) → root < length (K.seen lists).roots → (root_at root (K.seen lists)).items ≡ [] }
        requires entries { (K.seen lists).entries ≡ 2 * tasks }
        requires few { tasks ≤ 65536 }
        requires some { 1 ≤ depth }
        requires shallow { depth ≤ 1000 }
        ensures { IfOk result (λ q. q ≡ record { lists = K.seen lists; queue = record { root = 0; depth = depth; count = 0; waiting = 0 }; ranks = replicate tasks (pos 0) }) }
    {
        let ranks = Ranking::new(alloc, tasks)?;
        Ok(SharedQueue {
            lists,
            queue: RunQueue::new(ROOT, depth),
            ranks,
        })
    }

    /// The lists. Their root 0 stands for the shared run list: its items are those of that root in the order of a walk, under
    /// whole-number keys.
    pub fn lists(&self) -> &K
        ensures same { K.seen result.now ≡ self.now.lists }
        ensures list { let l = shared_list self.now in l.items ≡ map (run_item l.count) (walked (now_of l.count) (root_at 0 (K.seen result.now)).items) }
    {
        &self.lists
    }

    /// Keeps one nice for each task, from -1,024 to 1,024, by which `draw_for` goes. It takes no memory, and the time of a
    /// sort of the tasks.
    pub fn rank(&mut self, nice: &[i32])
        requires tasks { length nice.now ≡ length self.old.ranks }
        requires nices { AreNices nice.now }
        ensures { self.new ≡ record self.old { ranks = nice.now } }
    {
        self.ranks.keep(nice);
    }
}
