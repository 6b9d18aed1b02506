//! What a plant starts from: the machine and the words as they open, a worker for each number, and the queue of shared
//! tasks.

ghost use Rattle.std.specs.Prelude.{◌≡◌, ℕ, suc, ◌<◌, length, map, slice_index_or, IfOk, IsTrue};
ghost use Rattle.run_model.specs.Tables.{nice_in};
ghost use Rattle.step_tables.specs.Nexts.{nexts_of};
ghost use Rattle.wake_board.specs.Between.{StandBetween};
ghost use Rattle.thread_loop.specs.Plants.{homes_of, nobody};
ghost use Rattle.step_tables.specs.Sound.{is_sound};
ghost use Rattle.run_model.specs.Standing.{opening};
ghost use Rattle.thread_loop.specs.Idle.{IsIdle, book_now};

use crate::lookups::{home_in, home_of, nice_in};
use crate::worker::Worker;
use eb32_core::Forest;
use sched_base::TaskId;
use shared_queue::SharedQueue;
use std::alloc::{AllocError, Global};
use step_tables::Script;
use task_machine::{Log, Machine};
use wake_board::{NO_HOLDER, Words};

/// How many bytes the allocator is led to keep for later rounds.
const KEPT: usize = 1 << 24;

/// Leads the allocator to keep the memory of a round for the next one. The C library's gives free memory back to the system
/// above twice the largest block that it had from there and gave back; of this one no byte is touched.
pub(crate) fn keep_memory(alloc: Global) {
    let _block = Vec::<u8>::with_capacity(alloc, KEPT);
}

/// The machine before round 0: a task that is to run from the start on is in the box of its home.
pub fn machine_of(alloc: Global, script: &Script) -> Result<Machine, AllocError>
    ensures opens { IfOk result (λ m. m ≡ (opening script.now).state) }
    ensures sound { IsTrue (is_sound script.now) }
{
    let tasks = script.tasks();
    let mut machine = Machine::new(alloc, tasks.len() as u32, script.workers())?;
    for number in 0..tasks.len() {
        if tasks[number].init {
            let id = TaskId(number as u32);
            machine.seat_init(id, home_of(script, id));
        }
    }
    Ok(machine)
}

/// The words before round 0, which stand for the state in which a task that is to run from the start on is in the box
/// of its home.
pub(crate) fn words_of(alloc: Global, script: &Script) -> Result<Words, AllocError>
    ensures { IfOk result (λ w. StandBetween w (homes_of script.now) (nobody script.now) (nexts_of script.now) (opening script.now).state) }
{
    let tasks = script.tasks();
    let mut words = Words::new(alloc, tasks.len() as u32, script.workers())?;
    for number in 0..tasks.len() {
        if tasks[number].init {
            let id = TaskId(number as u32);
            words.seat_init(id, home_of(script, id));
        }
    }
    Ok(words)
}

/// The home of each task.
pub(crate) fn homes_of(alloc: Global, script: &Script) -> Result<Vec<u32>, AllocError>
    ensures { IfOk result (λ homes. homes.items ≡ homes_of script.now) }
{
    let workers = script.workers();
    let homes = script
        .tasks()
        .iter()
        .map(|task| home_in(workers, task.kind));
    homes.collect(alloc)
}

/// Nobody as the holder of each task.
pub(crate) fn holders_of(alloc: Global, script: &Script) -> Result<Vec<u32>, AllocError>
    ensures { IfOk result (λ holders. holders.items ≡ nobody script.now) }
{
    Ok(vec![in alloc; NO_HOLDER; script.tasks().len()]?)
}

/// The queue of the shared tasks, with the nice of each task.
pub(crate) fn queue_of(alloc: Global, script: &Script) -> Result<SharedQueue<Forest>, AllocError>
    ensures { IfOk result (λ q. length q.ranks ≡ length script.now.tasks) }
{
    let tasks = script.tasks().len() as u32;
    let forest = Forest::new(alloc, 1, 2 * tasks)?;
    let mut queue = SharedQueue::new(alloc, forest, script.depth(), tasks)?;
    let nices = nices_of(alloc, script)?;
    queue.rank(&nices);
    Ok(queue)
}

/// The nice of each task; a tasklet has 0.
fn nices_of(alloc: Global, script: &Script) -> Result<Vec<i32>, AllocError>
    ensures same { IfOk result (λ nices. nices.items ≡ map (λ d. nice_in d.kind) script.now.tasks) }
    ensures sound { IsTrue (is_sound script.now) }
{
    let nices = script.tasks().iter().map(|task| nice_in(task.kind));
    nices.collect(alloc)
}

/// An empty log for each caller.
pub(crate) fn logs_of(alloc: Global, script: &Script) -> Result<Vec<Log>, AllocError>
    ensures { IfOk result (λ logs. length logs.items ≡ suc script.now.workers) }
{
    let count = script.workers() + 1;
    let mut logs = Vec::with_capacity(alloc, count as usize)?;
    for _ in 0..count {
        logs.push(Log::new(alloc))?;
    }
    Ok(logs)
}

/// A worker for each number, in order.
pub fn workers_of(alloc: Global, script: &Script) -> Result<Vec<Worker>, AllocError>
    ensures count { IfOk result (λ workers. length workers.items ≡ script.now.workers) }
    ensures books { IfOk result (λ workers. map book_now workers.items ≡ (opening script.now).books) }
    ensures idle { IfOk result (λ workers. (k : ℕ) (d : Worker) → k < script.now.workers → IsIdle script.now 0 k (opening script.now).state (slice_index_or workers.items k d)) }
{
    let count = script.workers();
    let mut workers = Vec::with_capacity(alloc, count as usize)?;
    for number in 0..count {
        workers.push(Worker::new(alloc, number, script)?)?;
    }
    Ok(workers)
}
