//! What an entry is for the task that it is about.

ghost use Rattle.std.specs.Prelude.{◌≡◌, ◌+◌, ◌*◌, ◌^◌, ◌/◌, ◌%◌, IsTrue, ◌↔◌};
ghost use Rattle.history_weave.specs.Rule.{is_quiet, is_rest};
ghost use Rattle.history_weave.specs.Kinds.{change_of, look, kind, seen_mark, look_mark, LooksQuietly, HoldsTask, SameTakes, SawTakesOf};

use crate::places::NONE;
use sched_base::{Reasons, TaskId};
use task_machine::{Call, Entry, Reply, Seen, Stand};

/// What an entry is for the task, or the group, that it is about.
#[derive(Clone, Copy)]
pub(crate) enum Kind {
    /// A look at a task, with what it saw, and whether it changes nothing.
    Look { task: u32, seen: Seen, quiet: bool },
    /// A post of a task into a box.
    Post { task: u32, boxno: u32 },
    /// A get of a group.
    Get { group: u32 },
    /// A draw of a task.
    Draw { task: u32 },
    /// Nothing to any task, since the reply does not belong to the call.
    Apart,
}

/// What a look is to change: a wake, a kill, or any other, which needs the task in its hands.
#[derive(Clone, Copy)]
pub(crate) enum Aim {
    Wake(Reasons),
    Kill,
    Lead,
}

/// What an entry is.
pub(crate) fn kind_of(entry: &Entry) -> Kind
    ensures { result ≡ kind entry.now.call entry.now.reply }
{
    match entry.call {
        Call::Wake(id, reasons) => look(id, Aim::Wake(reasons), entry.reply),
        Call::Kill(id) => look(id, Aim::Kill, entry.reply),
        Call::Take(id) | Call::DropRun(id) | Call::Retire(id) => look(id, Aim::Lead, entry.reply),
        Call::Post(id, boxno) => Kind::Post { task: id.0, boxno },
        Call::Draw(id) => Kind::Draw { task: id.0 },
        Call::Get(group) => match entry.reply {
            Reply::Group(_) => Kind::Get { group },
            Reply::Task(_) | Reply::Done => Kind::Apart,
        },
    }
}

/// A look at a task with this reply.
fn look(id: TaskId, aim: Aim, reply: Reply) -> Kind
    ensures { result ≡ look id.0 (change_of aim) reply }
{
    match reply {
        Reply::Task(seen) => Kind::Look {
            task: id.0,
            seen,
            quiet: is_quiet(&seen, &aim),
        },
        Reply::Group(_) | Reply::Done => Kind::Apart,
    }
}

/// Whether a look that saw this and is allowed changes nothing.
fn is_quiet(seen: &Seen, aim: &Aim) -> bool
    ensures { result ≡ is_quiet seen.now (change_of aim.now) }
{
    match *seen {
        Seen::Gone => true,
        Seen::Live {
            stand,
            pending,
            killed,
            ..
        } => match *aim {
            Aim::Wake(reasons) => {
                !is_rest(stand) && pending.union(reasons).bits() == pending.bits()
            }
            Aim::Kill => !is_rest(stand) && killed,
            Aim::Lead => false,
        },
    }
}

/// Whether the task rests.
fn is_rest(stand: Stand) -> bool
    ensures { result ≡ is_rest stand }
{
    match stand {
        Stand::Rest => true,
        Stand::Queued | Stand::Runs => false,
    }
}

/// Whether an entry is a look that saw this and changes nothing.
pub(crate) fn looks_quietly(entry: &Entry, seen: &Seen) -> bool
    ensures { IsTrue result ↔ LooksQuietly seen.now (kind entry.now.call entry.now.reply) }
{
    match kind_of(entry) {
        Kind::Look {
            seen: saw,
            quiet,
            ..
        } => quiet && same_seen(&saw, seen),
        Kind::Post { .. } | Kind::Get { .. } | Kind::Draw { .. } | Kind::Apart => false,
    }
}

/// A number that tells apart most of what looks can see.
pub(crate) fn seen_mark(seen: &Seen) -> usize
    ensures { result ≡ seen_mark seen.now }
{
    match *seen {
        Seen::Gone => 0,
        Seen::Live { pending, takes, .. } => pending.bits() as usize
            + 256 * (takes % (1 << 48)) as usize,
    }
}

/// The mark of a look: that of what it saw, where it is quiet.
pub(crate) fn look_mark(seen: &Seen, quiet: bool) -> usize
    ensures { result ≡ look_mark seen.now quiet }
{
    if quiet { seen_mark(seen) } else { NONE }
}

/// Whether both are the same.
pub(crate) fn same_seen(a: &Seen, b: &Seen) -> bool
    ensures { IsTrue result ↔ (a.now ≡ b.now) }
{
    match *a {
        Seen::Gone => match *b {
            Seen::Gone => true,
            Seen::Live { .. } => false,
        },
        Seen::Live {
            stand,
            pending,
            killed,
            takes,
        } => match *b {
            Seen::Gone => false,
            Seen::Live {
                stand: other_stand,
                pending: other_pending,
                killed: other_killed,
                takes: other_takes,
            } => {
                same_stand(stand, other_stand)
                    && pending.bits() == other_pending.bits()
                    && killed == other_killed
                    && takes == other_takes
            }
        },
    }
}

/// Whether both are the same.
fn same_stand(a: Stand, b: Stand) -> bool
    ensures { IsTrue result ↔ (a ≡ b) }
{
    match a {
        Stand::Rest => match b {
            Stand::Rest => true,
            Stand::Queued | Stand::Runs => false,
        },
        Stand::Queued => match b {
            Stand::Queued => true,
            Stand::Rest | Stand::Runs => false,
        },
        Stand::Runs => match b {
            Stand::Runs => true,
            Stand::Rest | Stand::Queued => false,
        },
    }
}

/// Whether a get's reply holds this task of its group.
pub(crate) fn holds_task(entry: &Entry, task: u32) -> bool
    ensures { IsTrue result ↔ HoldsTask task entry.now.reply }
{
    match entry.reply {
        Reply::Group(word) => (word >> (task % 64)) & 1 == 1,
        Reply::Task(_) | Reply::Done => false,
    }
}

/// Whether a look's reply has as many takes as are seen now.
pub(crate) fn saw_takes(entry: &Entry, seen: &Seen) -> bool
    ensures { IsTrue result ↔ SawTakesOf entry.now.reply seen.now }
{
    match entry.reply {
        Reply::Task(saw) => same_takes(&saw, seen),
        Reply::Group(_) | Reply::Done => false,
    }
}

/// Whether both are live, with as many takes.
fn same_takes(a: &Seen, b: &Seen) -> bool
    ensures { IsTrue result ↔ SameTakes a.now b.now }
{
    match *a {
        Seen::Gone => false,
        Seen::Live { takes, .. } => match *b {
            Seen::Gone => false,
            Seen::Live {
                takes: other_takes,
                ..
            } => takes == other_takes,
        },
    }
}
