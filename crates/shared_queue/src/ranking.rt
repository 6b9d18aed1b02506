//! The order in which tasks are drawn.

ghost use Rattle.std.specs.Prelude.{◌≡◌, ℕ, ◌<◌, ◌≤◌, pos, length, replicate, IfOk, MatchOption, vec_capacity};
ghost use Rattle.wake_board.specs.Rows.{groups};
ghost use Rattle.shared_queue.specs.Dealing.{nice_in};
ghost use Rattle.shared_queue.specs.Looking.{IsFirst, NoneSet};
ghost use Rattle.shared_queue.specs.Spans.{AreSpans, place_at};

use crate::spans::{Span, first_set, lay};
use std::alloc::{AllocError, Global};
use std::marker::Model;

/// The nice of each task, at most 65,536, and the spans by which the first of some tasks is found. Contracts see the nices.
#[derive(Drop)]
pub(crate) struct Ranking {
    nices: Vec<i32>,
    order: Vec<(i32, u32)>,
    spans: Vec<Span>,
}

impl Model for Ranking {
    ghost use Rattle.std.specs.Prelude.{◌≡◌, ◌≤◌, ℤ, List, length, vec_capacity};
    ghost use Rattle.shared_queue.specs.Rankings.{IsRanking};

    ghost Value = { List ℤ };

    ghost view = { λ r. r.nices.items };

    ghost invariant = { λ r. IsRanking r.nices.items (length r.order.items) (vec_capacity r.spans) r.spans.items };
}

impl Ranking {
    /// So many tasks, each of nice 0. Want of memory is the one error.
    pub(crate) fn new(alloc: Global, tasks: u32) -> Result<Ranking, AllocError>
        requires { tasks ≤ 65536 }
        ensures { IfOk result (λ r. r ≡ replicate tasks (pos 0)) }
    {
        let nices = vec![in alloc; 0i32; tasks as usize]?;
        let mut order = vec![in alloc; (0i32, 0u32); tasks as usize]?;
        let mut spans = Vec::with_capacity(alloc, tasks as usize)?;
        arrange(nices.as_slice(), &mut order, &mut spans);
        Ok(Ranking {
            nices,
            order,
            spans,
        })
    }

    /// How many tasks there are.
    pub(crate) fn len(&self) -> usize
        ensures { result ≡ length self.now }
    {
        self.nices.len()
    }

    /// Keeps one nice for each task. It takes no memory, and the time of a sort of the tasks.
    pub(crate) fn keep(&mut self, nices: &[i32])
        requires { length nices.now ≡ length self.old }
        ensures { self.new ≡ nices.now }
    {
        self.nices.copy_from_slice(nices);
        arrange(nices, &mut self.order, &mut self.spans);
    }

    /// The first task, by nice and then by number, that is set in the words, in time linear in the number of spans.
    pub(crate) fn first_seen(&self, words: &[u64]) -> Option<u32>
        requires sized { length words.now ≡ groups (length self.now) }
        ensures { MatchOption result (NoneSet self.now words.now) (IsFirst self.now words.now) }
    {
        first_set(self.spans.as_slice(), words)
    }
}

/// Lays the spans of tasks that have these nices.
fn arrange(nices: &[i32], order: &mut [(i32, u32)], spans: &mut Vec<Span>)
    requires few { length nices.now ≤ 65536 }
    requires sized { length order.old ≡ length nices.now }
    requires room { length nices.now ≤ vec_capacity spans.old }
    ensures spans { AreSpans nices.now spans.new.items }
    ensures sized { length order.new ≡ length order.old }
    ensures capacity { vec_capacity spans.new ≡ vec_capacity spans.old }
{
    list(nices, order);
    order.sort_unstable();
    lay(order, spans);
}

/// Lists each task by its nice and number.
fn list(nices: &[i32], order: &mut [(i32, u32)])
    requires few { length nices.now ≤ 65536 }
    requires sized { length order.old ≡ length nices.now }
    ensures places { (q : ℕ) → q < length nices.now → place_at order.new q ≡ (nice_in nices.now q, q) }
{
    for (number, place) in order.iter_mut().enumerate() {
        *place = (nices[number], number as u32);
    }
}
