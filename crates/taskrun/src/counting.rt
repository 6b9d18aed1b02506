//! How many takes and wakes a run has.

ghost use Rattle.std.specs.Prelude.{◌≡◌, ◌+◌, ◌≤◌, ◌^◌, length, count_by};
ghost use Rattle.taskrun.specs.Summary.{is_take, is_wake, CanCount, HasCounted};

use crate::courses::Scribe;
use std::alloc::AllocError;
use task_machine::{Call, Entry};

/// How many takes and wakes were made. With 128 bits no sum of theirs passes its end.
#[derive(Clone, Copy, Debug)]
pub(crate) struct Counts {
    pub takes: u128,
    pub wakes: u128,
}

/// Whether the entry is a take.
fn is_take(entry: &Entry) -> bool
    ensures { result ≡ is_take entry.now }
{
    matches!(entry.call, Call::Take(_))
}

/// Whether the entry is a wake.
fn is_wake(entry: &Entry) -> bool
    ensures { result ≡ is_wake entry.now }
{
    matches!(entry.call, Call::Wake(..))
}

/// How many entries are takes.
fn takes_in(entries: &[Entry]) -> usize
    ensures { result ≡ count_by is_take entries.now }
{
    entries.iter().filter(|entry| is_take(entry)).count()
}

/// How many entries are wakes.
fn wakes_in(entries: &[Entry]) -> usize
    ensures { result ≡ count_by is_wake entries.now }
{
    entries.iter().filter(|entry| is_wake(entry)).count()
}

impl Counts {
    /// None were made.
    pub const NONE: Counts = Counts { takes: 0, wakes: 0 };

    /// Counts the entries of a round too.
    fn add(&mut self, entries: &[Entry])
        requires { CanCount self.old }
        ensures { HasCounted entries.now self.old self.new }
    {
        self.takes += takes_in(entries) as u128;
        self.wakes += wakes_in(entries) as u128;
    }
}

/// Counts note a round by its takes and wakes.
impl Scribe for Counts {
    ghost use Rattle.taskrun.specs.Summary.{CanCount, HasCounted};

    ghost can_note = { λ _ _ counts. CanCount counts };

    ghost notes = { λ _ round old new. HasCounted round.entries old new };

    fn note(&mut self, _round: u32, _tick: u32, entries: &[Entry]) -> Result<(), AllocError> {
        self.add(entries);
        Ok(())
    }
}
