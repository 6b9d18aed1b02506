//! The queues of a worker: its timers and its runnable tasks in one forest, and its class lists.

ghost use Rattle.std.specs.Prelude.{◌≡◌, ℕ, ◌+◌, ◌^◌, ◌<◌, ◌≤◌, pos, negsuc, ◌≤ℤ◌, [], ◌∷◌, length, IfOk, IfNone, IfSome, Option, None, Some};
ghost use Rattle.std.specs.Option.{option_map};
ghost use Rattle.task_machine.specs.declared.calls.Reply.TheVariants as replies;
ghost use Rattle.queue_model.specs.Classes.{Classes, of_class, run_in, next_run, quotas};
ghost use Rattle.queue_model.specs.Sweep.{fired, swept};
ghost use Rattle.queue_model.specs.Clock.{Window, behind};
ghost use Rattle.queue_model.specs.Settle.{settled, IsSettled};
ghost use Rattle.queue_model.specs.RunList.{arrived, without_least};
ghost use Rattle.run_queue.specs.Runners.{first_task};
ghost use Rattle.queue_model.specs.SweepStep.{first_fired, swept_once};
ghost use Rattle.run_model.specs.Book.{Book, queued, queued_all, filled, taken_from, untimed, row_ended, timed};
ghost use Rattle.run_model.specs.Replies.{members};
ghost use Rattle.run_model.specs.Standing.{blank_book};
ghost use Rattle.turn_steps.specs.Times.{times, listed};
ghost use Rattle.eb32_core.specs.Forest.{seen_of};
ghost use Rattle.wait_queue.specs.Timers.{first_key};
ghost use Rattle.thread_loop.specs.Queues.{book_of, Fits, Grows, made_of, quotas_of, next_of};

use eb32_core::Forest;
use run_queue::RunQueue;
use sched_base::{Class, KeyedLists, TaskId};
use std::alloc::{AllocError, Global};
use step_tables::{Expiry, Kind, Script};
use tasklet_lists::TaskletLists;
use ticks::{ETERNITY, add};
use wait_queue::WaitQueue;

/// The root of the forest that holds the timers.
const TIMERS: u32 = 0;

/// The root of the forest that holds the runnable tasks.
const RUNNERS: u32 = 1;

/// How many runs of each class may still be made in a turn.
#[derive(Clone, Copy, Debug)]
pub(crate) struct Quotas {
    pub(crate) urgent: u32,
    pub(crate) normal: u32,
    pub(crate) bulk: u32,
    pub(crate) heavy: u32,
}

/// One task to run, the first of its class's list.
#[derive(Clone, Copy, Debug)]
pub(crate) struct NextRun {
    pub(crate) class: Class,
    pub(crate) task: TaskId,
}

/// The timers and the runnable tasks of a worker, in two roots of one forest, and its class lists. Task i
/// has the entry `2 * i` for its timer and `2 * i + 1` for its run.
#[derive(Drop)]
pub(crate) struct Queues {
    forest: Forest,
    timers: WaitQueue,
    runners: RunQueue,
    lists: TaskletLists,
}

impl Queues {
    /// Empty queues for the tasks of a script.
    pub(crate) fn new(alloc: Global, script: &Script) -> Result<Queues, AllocError>
        ensures fits { IfOk result (λ q. Fits script.now q) }
        ensures blank { IfOk result (λ q. (T : ℕ) → book_of T q ≡ blank_book (length script.now.tasks)) }
        ensures made { IfOk result (λ q. made_of q ≡ 0) }
    {
        let tasks = script.tasks().len() as u32;
        let forest = Forest::new(alloc, 2, 2 * tasks)?;
        forest.stay_keyed();
        Ok(Queues {
            forest,
            timers: WaitQueue::new(alloc, TIMERS, tasks)?,
            runners: RunQueue::new(RUNNERS, script.depth()),
            lists: TaskletLists::new(alloc, tasks)?,
        })
    }

    /// The forest: root 0 holds the timers, root 1 the runnable tasks.
    pub(crate) fn forest(&self) -> &Forest
        ensures { result.now ≡ self.now.forest }
    {
        &self.forest
    }

    /// Queues a task that is in no list: puts it into the run queue with its nice, or a tasklet at the end of
    /// its class's list.
    pub(crate) fn queue(&mut self, script: &Script, id: TaskId)
        requires fits { Fits script.now self.old }
        requires exists { id.0 < length script.now.tasks }
        requires absent { listed id.0 (book_of 0 self.old) ≡ 0 }
        requires room { made_of self.old + 2 < 2 ^ 63 }
        ensures book { (T : ℕ) → book_of T self.new ≡ queued script.now id.0 (book_of T self.old) }
        ensures fits { Fits script.now self.new }
        ensures made { Grows 2 self.old self.new }
    {
        match script.tasks()[id.0 as usize].kind {
            Kind::Pinned { nice, .. } => self.arrive(script, id, nice),
            Kind::Shared { nice } => self.arrive(script, id, nice),
            Kind::Tasklet { class, .. } => self.lists.push(class, id),
        }
    }

    /// Puts a task that is in no list into the run queue.
    fn arrive(&mut self, script: &Script, id: TaskId, nice: i32)
        requires fits { Fits script.now self.old }
        requires exists { id.0 < length script.now.tasks }
        requires absent { listed id.0 (book_of 0 self.old) ≡ 0 }
        requires not_low { negsuc 1023 ≤ℤ nice }
        requires not_high { nice ≤ℤ pos 1024 }
        requires room { made_of self.old + 2 < 2 ^ 63 }
        ensures book { (T : ℕ) → book_of T self.new ≡ record (book_of T self.old) { run = arrived script.now.depth id.0 nice (book_of T self.old).run } }
        ensures fits { Fits script.now self.new }
        ensures made { Grows 2 self.old self.new }
    {
        self.runners.insert(&mut self.forest, id, nice);
        self.forest.stay_keyed();
    }

    /// Queues the tasks of a group whose bits are set, in ascending order.
    pub(crate) fn collect(&mut self, script: &Script, group: u32, mask: u64)
        requires fits { Fits script.now self.old }
        requires exist { (i : ℕ) → 0 < times i (members group (replies.Group mask)) → i < length script.now.tasks }
        requires absent { (i : ℕ) → times i (members group (replies.Group mask)) + listed i (book_of 0 self.old) ≤ 1 }
        requires room { made_of self.old + 128 < 2 ^ 63 }
        ensures book { (T : ℕ) → book_of T self.new ≡ queued_all script.now (members group (replies.Group mask)) (book_of T self.old) }
        ensures fits { Fits script.now self.new }
        ensures made { Grows 128 self.old self.new }
    {
        let mut rest = mask;
        while rest != 0 {
            let bit = rest.trailing_zeros();
            self.queue(script, TaskId(64 * group + bit));
            rest &= !(1 << bit);
        }
    }

    /// Goes on with the sweep at `now` up to the first timer that fires, and answers its task.
    pub(crate) fn sweep(&mut self, script: &Script, now: u32) -> Option<TaskId>
        requires fits { Fits script.now self.old }
        requires room { made_of self.old + length script.now.tasks < 2 ^ 63 }
        ensures fired { option_map (λ id. id.0) result ≡ first_fired now (book_of now self.old).wait }
        ensures book { book_of now self.new ≡ record (book_of now self.old) { wait = swept_once now (book_of now self.old).wait } }
        ensures none { IfNone result ((fired now (book_of now self.old).wait ≡ []) × ((book_of now self.new).wait ≡ swept now (book_of now self.old).wait)) }
        ensures some { IfSome result (λ id. (fired now (book_of now self.old).wait ≡ id.0 ∷ fired now (book_of now self.new).wait) × (swept now (book_of now self.new).wait ≡ swept now (book_of now self.old).wait)) }
        ensures fits { Fits script.now self.new }
        ensures made { Grows (length script.now.tasks) self.old self.new }
    {
        let fired = self.timers.sweep_next(&mut self.forest, now);
        self.forest.stay_keyed();
        fired
    }

    /// Moves the first tasks of the run queue to the end of the normal list, until that has `depth` tasks.
    pub(crate) fn fill(&mut self, script: &Script)
        requires fits { Fits script.now self.old }
        ensures book { (T : ℕ) → book_of T self.new ≡ filled script.now.depth (book_of T self.old) }
        ensures fits { Fits script.now self.new }
        ensures made { Grows 0 self.old self.new }
    {
        while self.lists.len(Class::Normal) < script.depth() {
            let Some(id) = self.pick(script) else {
                return;
            };
            self.lists.push(Class::Normal, id);
        }
    }

    /// Takes the first task out of the run queue; none where no task waits there.
    fn pick(&mut self, script: &Script) -> Option<TaskId>
        requires { Fits script.now self.old }
        ensures task { option_map (λ id. id.0) result ≡ first_task (book_of 0 self.old).run.items }
        ensures exists { IfSome result (λ id. id.0 < length script.now.tasks) }
        ensures absent { IfSome result (λ id. listed id.0 (book_of 0 self.new) ≡ 0) }
        ensures book { (T : ℕ) → book_of T self.new ≡ record (book_of T self.old) { run = without_least 1 (book_of T self.old).run } }
        ensures fits { Fits script.now self.new }
        ensures made { Grows 0 self.old self.new }
    {
        let picked = self.runners.pick(&mut self.forest);
        self.forest.stay_keyed();
        picked
    }

    /// How many runs of each class a turn may make.
    pub(crate) fn quotas(&self, script: &Script) -> Quotas
        requires { Fits script.now self.now }
        ensures { quotas_of result ≡ quotas script.now.depth (book_of 0 self.now).lists }
    {
        let [urgent, normal, bulk, heavy] = self.lists.quotas(script.depth());
        Quotas {
            urgent,
            normal,
            bulk,
            heavy,
        }
    }

    /// The first task of a class's list; none where the list is empty or no run is left.
    fn next_in(&self, class: Class, runs: u32) -> Option<NextRun>
        ensures { next_of result ≡ run_in class (of_class class self.now.lists.lists) runs None }
    {
        if runs == 0 {
            return None;
        }
        self.lists.first(class).map(|task| NextRun { class, task })
    }

    /// The task that runs next, the most pressing class first; none where no class has both a task and a
    /// run left.
    pub(crate) fn next(&self, quotas: &Quotas) -> Option<NextRun>
        ensures { next_of result ≡ next_run (book_of 0 self.now).lists (quotas_of quotas.now) }
    {
        self.next_in(Class::Urgent, quotas.urgent)
            .or_else(|| self.next_in(Class::Normal, quotas.normal))
            .or_else(|| self.next_in(Class::Bulk, quotas.bulk))
            .or_else(|| self.next_in(Class::Heavy, quotas.heavy))
    }

    /// Takes the first task out of a class's list.
    pub(crate) fn take_first(&mut self, script: &Script, class: Class)
        requires { Fits script.now self.old }
        ensures book { (T : ℕ) → book_of T self.new ≡ taken_from class (book_of T self.old) }
        ensures fits { Fits script.now self.new }
        ensures made { Grows 0 self.old self.new }
    {
        self.lists.pop(class);
    }

    /// Drops a task's timer.
    #[tactic(auto, using(crate::proofs::TimersKept::timers_changed))]
    pub(crate) fn drop_timer(&mut self, script: &Script, id: TaskId)
        requires fits { Fits script.now self.old }
        requires exists { id.0 < length script.now.tasks }
        ensures book { (T : ℕ) → book_of T self.new ≡ untimed id.0 (book_of T self.old) }
        ensures fits { Fits script.now self.new }
        ensures made { Grows 0 self.old self.new }
    {
        self.timers.unlink(&mut self.forest, id);
        self.forest.stay_keyed();
    }

    /// Makes what a row does to its task's timer at tick `now`.
    pub(crate) fn set_timer(&mut self, script: &Script, id: TaskId, now: u32, expiry: &Expiry)
        requires fits { Fits script.now self.old }
        requires exists { id.0 < length script.now.tasks }
        requires room { made_of self.old + 1 < 2 ^ 63 }
        ensures book { book_of now self.new ≡ record (book_of now self.old) { wait = timed now id.0 expiry.now (book_of now self.old).wait } }
        ensures fits { Fits script.now self.new }
        ensures made { Grows 1 self.old self.new }
    {
        match *expiry {
            Expiry::Keep => {}
            Expiry::After(delay) => {
                self.timers.set_expiry(id, add(now, delay));
                self.timers.arm(&mut self.forest, id, now);
                self.forest.stay_keyed();
            }
            Expiry::Never => self.timers.set_expiry(id, ETERNITY),
        }
    }

    /// Settles the timers, as seen from `now`.
    pub(crate) fn settle(&mut self, script: &Script, now: u32)
        requires fits { Fits script.now self.old }
        requires room { made_of self.old + length script.now.tasks < 2 ^ 63 }
        ensures book { book_of now self.new ≡ record (book_of now self.old) { wait = settled now (book_of now self.old).wait } }
        ensures fits { Fits script.now self.new }
        ensures made { Grows (length script.now.tasks) self.old self.new }
        ensures stays { IsSettled (book_of now self.old).wait → made_of self.new ≡ made_of self.old }
    {
        self.timers.settle(&mut self.forest, now);
        self.forest.stay_keyed();
    }

    /// There are no more timers than tasks. The call does nothing, and its contract is the law.
    #[tactic(auto, using(crate::proofs::TimersOf::few_timers))]
    pub(crate) fn keep_few(&self, script: &Script)
        requires { Fits script.now self.now }
        ensures { (T : ℕ) → length (book_of T self.now).wait.items ≤ length script.now.tasks }
    {}

    /// While all timers lie in the window of both ticks, the book is the same from both. The call does nothing,
    /// and its contract is the law.
    #[tactic(auto, using(crate::proofs::TimersOf::book_stays))]
    pub(crate) fn keep_book(&self, script: &Script, before: u32, now: u32)
        requires fits { Fits script.now self.now }
        requires before { Window behind before (book_of before self.now).wait }
        requires after { Window behind now (book_of before self.now).wait }
        ensures { book_of now self.now ≡ book_of before self.now }
    {}

    /// The key of the first timer, as seen from `now`; none where there is none.
    pub(crate) fn first_key(&self, script: &Script, now: u32) -> Option<u32>
        requires { Fits script.now self.now }
        ensures { result ≡ first_key (book_of now self.now).wait.items }
    {
        self.timers.next_expiry(&self.forest, now)
    }
}
