//! Who has which task in its hands between rounds.

ghost use Rattle.std.specs.Prelude.{◌≡◌, ◌≢◌, ℕ, ◌<◌, false, Some, length, slice_index, IfSome, IfNone};
ghost use Rattle.task_machine.specs.Own.{Own, own_of};
ghost use Rattle.thread_loop.specs.Holders.{holder_by, is_get, is_seen, saw_work, mask_in, Gives, Holds, Moves, Stays, Grouped};

use crate::lookups::is_rest;
use sched_base::TaskId;
use task_machine::{Call, Entry, Reply, Seen};
use wake_board::NO_HOLDER;

/// How many tasks a group has.
const GROUP: usize = 64;

/// A task, and whether a caller has it in its hands from now on.
#[derive(Clone, Copy, Debug)]
struct Moved {
    task: usize,
    held: bool,
}

/// Goes on with the entries of one caller: each task of the caller's own has the caller as its holder
/// where the entries leave it in the caller's hands, and else nobody.
pub(crate) fn hold(holders: &mut [u32], homes: &[u32], who: u32, entries: &[Entry])
    requires sized { length homes.now ≡ length holders.old }
    ensures own { (i : ℕ) (o : Own) → i < length holders.old → slice_index homes.now i ≡ who → slice_index holders.old i ≡ holder_by who o → slice_index holders.new i ≡ holder_by who (own_of i o entries.now) }
    ensures others { (i : ℕ) → slice_index homes.now i ≢ who → slice_index holders.new i ≡ slice_index holders.old i }
    ensures count { length holders.new ≡ length holders.old }
{
    for entry in entries {
        hold_one(holders, homes, who, entry);
    }
}

/// Goes on with one entry.
fn hold_one(holders: &mut [u32], homes: &[u32], who: u32, entry: &Entry)
    requires sized { length homes.now ≡ length holders.old }
    ensures { Holds who entry.now homes.now holders.old holders.new }
{
    match entry.call {
        Call::Get(group) => hold_group(holders, homes, who, group, mask_of(&entry.reply)),
        _ => hold_moved(holders, homes, who, entry),
    }
}

/// Goes on with one entry that is no get.
fn hold_moved(holders: &mut [u32], homes: &[u32], who: u32, entry: &Entry)
    requires sized { length homes.now ≡ length holders.old }
    requires not_get { is_get entry.now.call ≡ false }
    ensures { Holds who entry.now homes.now holders.old holders.new }
{
    if let Some(moved) = moved_by(entry) {
        let holder = if moved.held { who } else { NO_HOLDER };
        give(holders, homes, who, moved.task, holder);
    }
}

/// The task that an entry, which is no get, puts into its caller's hands or out of them; none where it
/// does neither.
fn moved_by(entry: &Entry) -> Option<Moved>
    requires { is_get entry.now.call ≡ false }
    ensures some { IfSome result (λ m. Moves m.task m.held entry.now) }
    ensures none { IfNone result (Stays entry.now) }
{
    match entry.call {
        Call::Wake(id, _) | Call::Kill(id) if is_rest(&entry.reply) => moves(id, true),
        Call::Post(id, _) | Call::Draw(id) => moves(id, false),
        Call::Take(id) | Call::Retire(id) if is_task(&entry.reply) => moves(id, false),
        Call::DropRun(id) if is_task(&entry.reply) => moves(id, is_busy(&entry.reply)),
        _ => None,
    }
}

/// A task that comes into a caller's hands, or leaves them.
fn moves(id: TaskId, held: bool) -> Option<Moved>
    ensures { result ≡ Some (record { task = id.0; held = held }) }
{
    Some(Moved {
        task: id.0 as usize,
        held,
    })
}

/// Whether a reply tells what was seen of a task.
fn is_task(reply: &Reply) -> bool
    ensures { result ≡ is_seen reply.now }
{
    matches!(*reply, Reply::Task(_))
}

/// Whether a call saw its task with something to run for.
fn is_busy(reply: &Reply) -> bool
    ensures { result ≡ saw_work reply.now }
{
    match *reply {
        Reply::Task(
            Seen::Live {
                pending,
                killed,
                ..
            },
        ) => !pending.is_empty() || killed,
        _ => false,
    }
}

/// The mask of a get's reply.
fn mask_of(reply: &Reply) -> u64
    ensures { result ≡ mask_in reply.now }
{
    match *reply {
        Reply::Group(mask) => mask,
        _ => 0,
    }
}

/// Takes the tasks of a get into a caller's hands, where they are its own.
fn hold_group(holders: &mut [u32], homes: &[u32], who: u32, group: u32, mask: u64)
    requires sized { length homes.now ≡ length holders.old }
    ensures { Grouped who group mask 64 homes.now holders.old holders.new }
{
    let mut rest = mask;
    while rest != 0 {
        let bit = rest.trailing_zeros();
        give(
            holders,
            homes,
            who,
            GROUP * group as usize + bit as usize,
            who,
        );
        rest &= !(1 << bit);
    }
}

/// Gives a task a holder, where it is a caller's own.
fn give(holders: &mut [u32], homes: &[u32], who: u32, task: usize, holder: u32)
    requires sized { length homes.now ≡ length holders.old }
    ensures { Gives who task holder homes.now holders.old holders.new }
{
    if task < holders.len() && homes[task] == who {
        holders[task] = holder;
    }
}
