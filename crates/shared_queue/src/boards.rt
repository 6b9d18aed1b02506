//! Boards of shared tasks, and queues for them, for the tests.

ghost use Rattle.std.specs.Prelude.{◌≡◌, ◌≤◌, length, IfOk};
ghost use Rattle.shared_queue.specs.Crowds.{IsCrowd};
ghost use Rattle.shared_queue.specs.Dealing.{AreNices};

use crate::SharedQueue;
use sched_base::{PlainLists, TaskId};
use std::alloc::{AllocError, Global};
use step_tables::Nexts;
use wake_board::laws::{new_words_stand, seated_words_stand};
use wake_board::{Board, NO_HOLDER, Passes, Words};

/// A board of two workers and so many shared tasks, of which these, in ascending number, are in the shared box to be run
/// for the first time.
pub(crate) fn crowd(alloc: Global, tasks: u32, boxed: &[u32]) -> Result<(Board, Passes), AllocError>
    requires { tasks ≤ 65536 }
    ensures { IfOk result (λ r. IsCrowd tasks r.0 r.1) }
{
    let mut words = Words::new(alloc, tasks, 2)?;
    new_words_stand();
    seated_words_stand();
    let mut next = 0;
    for id in boxed {
        if *id >= next && *id < tasks {
            words.seat_init(TaskId(*id), 2);
            next = *id + 1;
        }
    }
    let homes = vec![in alloc; 2u32; tasks as usize]?;
    let holders = vec![in alloc; NO_HOLDER; tasks as usize]?;
    let made = Board::from_words(alloc, words, &homes, &holders, &Nexts::none(alloc))?;
    Ok(made)
}

/// A queue for so many tasks.
pub(crate) fn queue(alloc: Global, tasks: u32) -> Result<SharedQueue<PlainLists>, AllocError>
    requires { tasks ≤ 65536 }
    ensures { IfOk result (λ q. length q.ranks ≡ tasks) }
{
    let lists = PlainLists::new(alloc, 1, 2 * tasks)?;
    SharedQueue::new(alloc, lists, 200, tasks)
}

/// The nices of so many tasks: for some of them these, where the task exists and the nice is in range, and 0 for all others.
pub(crate) fn nices(
    alloc: Global,
    tasks: u32,
    some: &[u32],
    theirs: &[i32],
) -> Result<Vec<i32>, AllocError>
    ensures sized { IfOk result (λ nices. length nices.items ≡ tasks) }
    ensures nices { IfOk result (λ nices. AreNices nices.items) }
{
    let mut nices = vec![in alloc; 0i32; tasks as usize]?;
    for (task, nice) in some.iter().zip(theirs.iter()) {
        if *task < tasks && *nice >= -1024 && *nice <= 1024 {
            nices[*task as usize] = *nice;
        }
    }
    Ok(nices)
}
