//! What a turn looks up in its script, and what it reads from a reply.

ghost use Rattle.std.specs.Prelude.{◌≡◌, ◌<◌, length, slice_get, Some};
ghost use Rattle.step_tables.specs.declared.tables.Script.{Script};
ghost use Rattle.run_model.specs.Replies.{is_rest, is_killed, has_reasons};
ghost use Rattle.run_model.specs.Tables.{call_of, def_of, groups, home_in, home_of, nice_in, row_at, target};

use sched_base::TaskId;
use step_tables::{Action, Kind, Row, Script, TaskDef};
use task_machine::{Call, Reply, Seen, Stand};

/// How many groups of 64 tasks there are.
pub(crate) fn groups(script: &Script) -> u32
    ensures same { result ≡ groups script.now }
    ensures few { result < 65 }
{
    (script.tasks().len() as u32).div_ceil(64)
}

/// The tables of a task.
fn task_of(script: &Script, id: TaskId) -> &TaskDef
    requires { id.0 < length script.now.tasks }
    ensures { result.now ≡ def_of script.now id.0 }
{
    &script.tasks()[id.0 as usize]
}

/// The box to which a task is posted: its worker's, or the shared box, whose number is that of workers.
pub fn home_of(script: &Script, id: TaskId) -> u32
    requires { id.0 < length script.now.tasks }
    ensures { result ≡ home_of script.now id.0 }
{
    home_in(script.workers(), task_of(script, id).kind)
}

/// The box to which a task of this kind is posted, among so many workers.
pub(crate) fn home_in(workers: u32, kind: Kind) -> u32
    ensures { (s : Script) → s.workers ≡ workers → result ≡ home_in s kind }
{
    match kind {
        Kind::Pinned { home, .. } => home,
        Kind::Shared { .. } => workers,
        Kind::Tasklet { home, .. } => home,
    }
}

/// The nice of a task of this kind; a tasklet has 0.
pub(crate) fn nice_in(kind: Kind) -> i32
    ensures { result ≡ nice_in kind }
{
    match kind {
        Kind::Pinned { nice, .. } => nice,
        Kind::Shared { nice } => nice,
        Kind::Tasklet { .. } => 0,
    }
}

/// A row of a task.
pub(crate) fn row_at(script: &Script, id: TaskId, row: u32) -> &Row
    requires exists { id.0 < length script.now.tasks }
    requires row { row < length (def_of script.now id.0).rows }
    ensures { result.now ≡ row_at script.now id.0 row }
{
    &task_of(script, id).rows.as_slice()[row as usize]
}

/// The call by which an action is made.
pub fn call_of(action: &Action) -> Call
    ensures { result ≡ call_of action.now }
{
    match *action {
        Action::Wake(task, reasons) => Call::Wake(task, reasons),
        Action::Kill(task) => Call::Kill(task),
    }
}

/// The task that an action names.
pub fn target(action: &Action) -> TaskId
    ensures { result.0 ≡ target action.now }
{
    match *action {
        Action::Wake(task, _) => task,
        Action::Kill(task) => task,
    }
}

/// Whether a call saw its task at rest, so that the task is now in the caller's hands.
pub fn is_rest(reply: &Reply) -> bool
    ensures { result ≡ is_rest reply.now }
{
    match *reply {
        Reply::Task(Seen::Live { stand, .. }) => stand == Stand::Rest,
        _ => false,
    }
}

/// Whether a call saw its task killed.
pub(crate) fn is_killed(reply: &Reply) -> bool
    ensures { result ≡ is_killed reply.now }
{
    match *reply {
        Reply::Task(Seen::Live { killed, .. }) => killed,
        _ => false,
    }
}

/// Whether a call saw reasons pending.
pub(crate) fn has_reasons(reply: &Reply) -> bool
    ensures { result ≡ has_reasons reply.now }
{
    match *reply {
        Reply::Task(Seen::Live { pending, .. }) => !pending.is_empty(),
        _ => false,
    }
}
