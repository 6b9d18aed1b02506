//! The state word of a task: one number of 64 bits from which each call reads what it sees, and
//! which each call changes in one step (docs/BOARD.md, "The state word").
//!
//! | Bits | Hold |
//! |---|---|
//! | 0 | the task runs |
//! | 1 | it is queued, or runs and has something to run for |
//! | 2 | it was killed since it was last taken |
//! | 3 | it is gone, whatever else is set |
//! | 4 to 7 | 0 |
//! | 8 to 14 | the reasons that are pending |
//! | 15 | 0 |
//! | 16 to 63 | how often it was taken |
#![tactic(auto)]

ghost use Rattle.std.specs.Prelude.{◌≡◌, ◌≢◌, ℕ, ◌-◌, ◌^◌, ◌<◌, Bool, bit_or, bit_and};
ghost use Rattle.sched_base.specs.declared.names.CallerId.{CallerId};
ghost use Rattle.task_machine.specs.declared.task.Seen.{Seen};
ghost use Rattle.task_machine.specs.declared.task.Seen.TheVariants as views;
ghost use Rattle.task_machine.specs.declared.task.Stand.{Stand};
ghost use Rattle.task_machine.specs.declared.task.Place.TheVariants as places;
ghost use Rattle.task_machine.specs.declared.task.TaskState.{TaskState};
ghost use Rattle.task_machine.specs.Task.{gone, IsValidTask, seen_of, woken, flagged, taken, dropped};
ghost use Rattle.task_word.specs.Word.{is_running, is_queued, flags_with, word_of, seen_in, HasWord, StandsFor, Follows, word_takes, wake_bits, kill_bits, drop_mask, taken_word};

#[cfg(test)]
mod tests;

use sched_base::Reasons;
use task_machine::{Seen, Stand};

/// The bit of a task that runs.
const RUNNING: u64 = 1;

/// The bit of a task that is queued, or runs and has something to run for.
const QUEUED: u64 = 2;

/// The bit of a task that was killed.
const KILLED: u64 = 4;

/// The word of a task that is gone: its one bit outweighs all others.
pub const GONE: u64 = 8;

/// The bits that a kill sets.
pub const KILL_BITS: u64 = 6;

/// The bits that a drop keeps.
pub const DROP_MASK: u64 = 0xffff_ffff_ffff_fffe;

/// The word of what is seen of a task.
pub fn encode(seen: Seen) -> u64
    requires { HasWord seen }
    ensures value { result ≡ word_of seen }
    ensures stands { StandsFor result seen }
    ensures read_back { seen_in result ≡ seen }
{
    let Seen::Live {
        stand,
        pending,
        killed,
        takes,
    } = seen
    else {
        return GONE;
    };
    takes << 16 | (pending.bits() as u64) << 8 | flags_of(stand, pending, killed)
}

/// The bits 0 to 2 of the word of a live task.
fn flags_of(stand: Stand, pending: Reasons, killed: bool) -> u64
    ensures value { result ≡ flags_with (is_running stand) (is_queued stand pending killed) killed }
    ensures below { result < 8 }
{
    let mark = if killed { KILLED } else { 0 };
    let has_work = killed || !pending.is_empty();
    match stand {
        Stand::Rest => mark,
        Stand::Queued => QUEUED + mark,
        Stand::Runs if has_work => RUNNING + QUEUED + mark,
        Stand::Runs => RUNNING + mark,
    }
}

/// What is seen of a task by its word: gone where bit 3 is set, whatever else is; else it runs
/// where bit 0 is set, else it is queued where bit 1 is, else it rests.
pub fn seen_of(word: u64) -> Seen
    ensures value { result ≡ seen_in word }
    ensures stands { (s : Seen) → StandsFor word s → result ≡ s }
{
    if (word >> 3) & 1 == 1 {
        return Seen::Gone;
    }
    let stand = if word & 1 == 1 {
        Stand::Runs
    } else if (word >> 1) & 1 == 1 {
        Stand::Queued
    } else {
        Stand::Rest
    };
    let bits = ((word >> 8) & 127) as u8;
    Seen::Live {
        stand,
        pending: Reasons::from_bits(bits).unwrap(),
        killed: (word >> 2) & 1 == 1,
        takes: takes_of(word),
    }
}

/// How often a task was taken, by the word of one that is not gone.
pub fn takes_of(word: u64) -> u64
    ensures value { result ≡ word_takes word }
    ensures stands { (st : Stand) (n m : ℕ) (b : Bool) → StandsFor word (views.Live st n b m) → result ≡ m }
{
    word >> 16
}

/// The bits that a wake with these reasons sets.
pub fn wake_bits_of(reasons: Reasons) -> u64
    ensures value { result ≡ wake_bits reasons }
    ensures below { result < 2 ^ 16 }
    ensures reasons_below { reasons < 2 ^ 7 }
{
    (reasons.bits() as u64) << 8 | QUEUED
}

/// The word after a wake with these reasons.
pub fn after_wake(word: u64, reasons: Reasons) -> u64
    ensures value { result ≡ bit_or word (wake_bits reasons) }
    ensures step { reasons ≢ 0 → (k : CallerId) → Follows (woken k reasons) word result }
{
    word | wake_bits_of(reasons)
}

/// The word after a kill.
pub fn after_kill(word: u64) -> u64
    ensures value { result ≡ bit_or word kill_bits }
    ensures step { (k : CallerId) → Follows (flagged k) word result }
{
    word | KILL_BITS
}

/// The word after a take of a task that was taken this often before, whatever the word was.
pub fn after_take(takes: u64) -> u64
    requires { takes < 2 ^ 48 - 1 }
    ensures value { result ≡ taken_word takes }
    ensures step { (k : CallerId) (t : TaskState) → t.takes ≡ takes → StandsFor result (seen_of (taken k t)) }
{
    (takes + 1) << 16 | RUNNING
}

/// The word after the end of a run.
pub fn after_drop(word: u64) -> u64
    ensures value { result ≡ bit_and word drop_mask }
    ensures step { (k : CallerId) (t : TaskState) → t.place ≡ places.Runs k → StandsFor word (seen_of t) → StandsFor result (seen_of (dropped k t)) }
{
    word & DROP_MASK
}

/// The word after a retirement, whatever it was.
pub fn after_retire() -> u64
    ensures value { result ≡ 8 }
    ensures step { StandsFor result (seen_of gone) }
{
    GONE
}
