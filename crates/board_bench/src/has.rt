//! What a caller has of a task.

ghost use Rattle.std.specs.Prelude.{◌≡◌};
ghost use Rattle.task_machine.specs.Own.{saw_rest, saw_busy};

use task_machine::{Seen, Stand};

/// A caller has a task not at all, in its hands, or in a run.
#[derive(Clone, Copy, Debug, PartialEq, Eq)]
pub enum Has {
    Nothing,
    Hands,
    Run,
}

/// Whether a call saw its task at rest.
pub(crate) fn rests(seen: &Seen) -> bool
    ensures { result ≡ saw_rest seen.now }
{
    match *seen {
        Seen::Live {
            stand: Stand::Rest,
            ..
        } => true,
        _ => false,
    }
}

/// Whether a call saw a reason or the killed flag pending.
pub(crate) fn is_busy(seen: &Seen) -> bool
    ensures { result ≡ saw_busy seen.now }
{
    match *seen {
        Seen::Live {
            pending,
            killed,
            ..
        } => !pending.is_empty() || killed,
        Seen::Gone => false,
    }
}
