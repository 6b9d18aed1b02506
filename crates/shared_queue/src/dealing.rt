//! Gathering and dealing of the tasks in the shared box.

ghost use Rattle.std.specs.Prelude.{◌≡◌, ◌+◌, ◌^◌, ◌<◌, ◌≤◌, ℤ, pos, negsuc, ◌≤ℤ◌, [], ◌∷◌, if◌then◌else◌, length, map};
ghost use Rattle.std.specs.Option.{is_some};
ghost use Rattle.sched_base.specs.KeyedList.{root_at, ChangesRoot};
ghost use Rattle.queue_model.specs.RunList.{arrived, gathered, least, without_least, is_listed, hands_out};
ghost use Rattle.run_queue.specs.Runners.{first_task};
ghost use Rattle.shared_queue.specs.Sharing.{Sharing, shared_list, Moves};
ghost use Rattle.shared_queue.specs.Dealing.{boxed, AreBoxed, words_dealt, homes_dealt, nice_in, AreNices};

use crate::shared_queue::SharedQueue;
use sched_base::{KeyedLists, TaskId};
use wake_board::Words;

/// How many tasks a group has.
const GROUP: u32 = 64;

impl<K: KeyedLists> SharedQueue<K> {
    /// Puts the tasks of the shared box that do not wait in the queue into it, in ascending number. There is a nice for each
    /// task, from -1,024 to 1,024.
    pub fn gather(&mut self, words: &Words, nice: &[i32])
        requires tasks { words.now.tasks ≡ length self.old.ranks }
        requires nice { length nice.now ≡ length self.old.ranks }
        requires nices { AreNices nice.now }
        requires small { self.old.queue.count + length self.old.ranks < 2 ^ 63 }
        requires room { (root_at 0 self.old.lists).insertions + length self.old.ranks < 2 ^ 63 }
        ensures list { shared_list self.new ≡ gathered self.old.queue.depth (nice_in nice.now) (boxed words.now) (shared_list self.old) }
        ensures boxed { AreBoxed (shared_list self.old) words.now → AreBoxed (shared_list self.new) words.now }
        ensures moves { Moves self.old self.new }
    {
        for i in 0..words.tasks() {
            let id = TaskId(i);
            let word = words.box_word(words.workers(), id.0 / GROUP);
            if (word >> (id.0 % GROUP)) & 1 == 1 {
                self.join(id, nice[id.0 as usize]);
            }
        }
    }

    /// Puts a task into the queue, where it does not wait there.
    fn join(&mut self, id: TaskId, nice: i32)
        requires exists { id.0 < length self.old.ranks }
        requires not_low { negsuc 1023 ≤ℤ nice }
        requires not_high { nice ≤ℤ pos 1024 }
        requires small { self.old.queue.count < 2 ^ 63 }
        requires room { (root_at 0 self.old.lists).insertions + 1 < 2 ^ 63 }
        ensures list { shared_list self.new ≡ (if is_listed id.0 (shared_list self.old) then shared_list self.old else arrived self.old.queue.depth id.0 nice (shared_list self.old)) }
        ensures moves { Moves self.old self.new }
    {
        self.lists.stay_keyed();
        if self.lists.root_of(2 * id.0 + 1).is_none() {
            self.queue.insert(&mut self.lists, id, nice);
        }
    }

    /// Picks tasks, at most so many, and puts the first into the box of worker 0, the next into that of worker 1, and so on,
    /// after the last worker again from worker 0. That box is the task's home from now on. The answer is how many were
    /// picked. Each task of the queue is in the shared box of the words.
    pub fn deal(&mut self, words: &mut Words, homes: &mut [u32], most: u32) -> u32
        requires tasks { words.old.tasks ≡ length self.old.ranks }
        requires homes { length homes.old ≡ length self.old.ranks }
        requires boxed { AreBoxed (shared_list self.old) words.old }
        ensures count { result ≡ length (least most (shared_list self.old)) }
        ensures list { shared_list self.new ≡ without_least most (shared_list self.old) }
        ensures words { words.new ≡ words_dealt (hands_out words.old.workers most (shared_list self.old)) words.old }
        ensures homes { homes.new ≡ homes_dealt (hands_out words.old.workers most (shared_list self.old)) homes.old }
        ensures boxed { AreBoxed (shared_list self.new) words.new }
        ensures moves { Moves self.old self.new }
    {
        words.stay_few();
        let workers = words.workers();
        for picks in 0..most {
            if !self.deal_one(words, homes, picks % workers) {
                return picks;
            }
        }
        most
    }

    /// Picks a task for a worker; false where none waits.
    fn deal_one(&mut self, words: &mut Words, homes: &mut [u32], worker: u32) -> bool
        requires tasks { words.old.tasks ≡ length self.old.ranks }
        requires homes { length homes.old ≡ length self.old.ranks }
        requires boxed { AreBoxed (shared_list self.old) words.old }
        requires worker { worker < words.old.workers }
        ensures some { result ≡ is_some (first_task (shared_list self.old).items) }
        ensures list { shared_list self.new ≡ without_least 1 (shared_list self.old) }
        ensures words { words.new ≡ words_dealt (map (λ i. (worker, i)) (least 1 (shared_list self.old))) words.old }
        ensures homes { homes.new ≡ homes_dealt (map (λ i. (worker, i)) (least 1 (shared_list self.old))) homes.old }
        ensures boxed { AreBoxed (shared_list self.new) words.new }
        ensures moves { Moves self.old self.new }
    {
        self.lists.stay_keyed();
        let Some(id) = self.queue.pick(&mut self.lists) else {
            return false;
        };
        words.deal(id, worker);
        homes[id.0 as usize] = worker;
        true
    }
}
