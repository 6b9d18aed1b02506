//! Who makes the rounds of a plant.

ghost use Rattle.std.specs.Prelude.{◌≡◌, ◌≤◌, ◌<◌, ◌+◌, ◌++◌, [], Some, true, false, length, vec_capacity, IfOk};
ghost use Rattle.std.specs.Option.{option_map};
ghost use Rattle.thread_loop.specs.Plants.{logs_of, next_round, CanRun, IsRun};
ghost use Rattle.thread_loop.specs.Crews.{kept, kept_logs, Grows, IsHeard, HasKept};

use crate::plant::{Plant, RoundInHand};
use sched_base::Gate;
use std::alloc::{AllocError, Global};
use std::marker::Model;
use std::thread::Threads;
use step_tables::Script;
use task_machine::{Entry, Log};

/// One call that a round made, with the number of the round.
#[derive(Clone, Copy, Debug, PartialEq, Eq)]
pub struct Kept {
    pub round: u32,
    pub entry: Entry,
}

/// Makes the rounds of a plant. A crew has as a meaning the calls that its rounds made, where it tells them.
pub trait Crew {
    ghost use Rattle.std.specs.Prelude.{List, Option};
    ghost use Rattle.thread_loop.specs.declared.crew.Kept.{Kept};

    ghost told: { Self → Option (List Kept) };

    /// Hears of the round that was run, which is not ended.
    fn heard(&mut self, plant: &Plant, round: u32)
        requires { IsHeard plant.now }
        ensures { Grows (told self.old) (told self.new) (kept_logs round (logs_of plant.now)) };

    /// Runs the round that was begun, and hears of it.
    final fn round<R: Threads + Sync, G: Gate + Sync>(
        &mut self,
        rt: &R,
        plant: &mut Plant,
        script: &Script,
        hand: &mut RoundInHand,
        round: u32,
        gate: &G,
    )
        requires { CanRun script.now round plant.old hand.old }
        ensures run { IsRun script.now (next_round round plant.old) plant.new hand.new }
        ensures told { Grows (told self.old) (told self.new) (kept_logs round (logs_of plant.new)) }
    {
        plant.run_round(rt, script, hand, round, gate);
        self.heard(plant, round);
    }
}

/// Makes the rounds and tells nothing of them.
#[derive(Debug, Drop)]
pub struct ThreadCrew;

impl ThreadCrew {
    /// A crew that keeps nothing. It takes no memory.
    pub fn new() -> ThreadCrew {
        ThreadCrew
    }
}

impl Crew for ThreadCrew {
    ghost use Rattle.std.specs.Prelude.{None};

    ghost told = { λ _. None };

    fn heard(&mut self, _plant: &Plant, _round: u32) {}
}

/// Keeps the calls of all rounds that it made, as long as there is room for them. Contracts see the calls, where it has
/// them all, and its room.
#[derive(Drop)]
pub struct RecordCrew {
    tells: bool,
    calls: Vec<Kept>,
}

impl Model for RecordCrew {
    ghost use Rattle.std.specs.Prelude.{vec_capacity};
    ghost use Rattle.thread_loop.specs.Crews.{Recorded, told_if};

    ghost Value = { Recorded };

    ghost view = { λ c. record { told = told_if c.tells c.calls.items; room = vec_capacity c.calls } };
}

impl RecordCrew {
    /// A crew with room for this many calls, which made no round. The one error is want of memory.
    pub fn new(alloc: Global, room: usize) -> Result<RecordCrew, AllocError>
        ensures told { IfOk result (λ crew. crew.told ≡ Some []) }
        ensures room { IfOk result (λ crew. room ≤ crew.room) }
    {
        Ok(RecordCrew {
            tells: true,
            calls: Vec::with_capacity(alloc, room)?,
        })
    }

    /// The calls of all rounds that it made, round by round and in each caller by caller; none where they did not all
    /// fit into its room.
    pub fn calls(&self) -> Option<&[Kept]>
        ensures { option_map (λ calls. calls.now) result ≡ self.now.told }
    {
        if self.tells {
            Some(self.calls.as_slice())
        } else {
            None
        }
    }
}

impl Crew for RecordCrew {
    ghost told = { λ c. c.told };

    fn heard(&mut self, plant: &Plant, round: u32)
        requires { IsHeard plant.now }
        ensures grown { Grows self.old.told self.new.told (kept_logs round (logs_of plant.now)) }
        // What fits into its room it keeps.
        ensures kept { HasKept self.old (kept_logs round (logs_of plant.now)) self.new }
    {
        self.tells = self.tells && keep_all(&mut self.calls, round, plant.logs());
    }
}

/// Keeps the calls of all logs, and says whether they fitted into the room that is left.
fn keep_all(calls: &mut Vec<Kept>, round: u32, logs: &[Log]) -> bool
    ensures kept { result ≡ true → calls.new.items ≡ calls.old.items ++ kept_logs round logs.now }
    ensures full { result ≡ false → vec_capacity calls.old < length calls.old.items + length (kept_logs round logs.now) }
    ensures room { vec_capacity calls.new ≡ vec_capacity calls.old }
{
    for log in logs {
        if !keep(calls, round, log.as_slice()) {
            return false;
        }
    }
    true
}

/// Keeps some calls, and says whether they fitted into the room that is left.
fn keep(calls: &mut Vec<Kept>, round: u32, entries: &[Entry]) -> bool
    ensures kept { result ≡ true → calls.new.items ≡ calls.old.items ++ kept round entries.now }
    ensures full { result ≡ false → vec_capacity calls.old < length calls.old.items + length entries.now }
    ensures room { vec_capacity calls.new ≡ vec_capacity calls.old }
{
    for entry in entries {
        if calls.len() == calls.capacity() {
            return false;
        }
        calls.push_reserved(Kept {
            round,
            entry: *entry,
        });
    }
    true
}
