//! The passes of all callers of a board.

ghost use Rattle.std.specs.Prelude.{◌≡◌, ◌≢◌, ℕ, ◌<◌, None, Some, [], length, slice_index_or, slice_set, slice_get};
ghost use Rattle.task_machine.specs.Own.{drawing};
ghost use Rattle.wake_board.specs.Ends.{own_by};

use crate::pass::Pass;
use sched_base::CallerId;
use std::marker::Model;

/// One place for each caller: its pass, or nothing while the pass is out. Contracts see the list of places.
#[derive(Drop)]
pub struct Passes {
    pub(crate) places: Vec<Option<Pass>>,
}

impl Model for Passes {
    ghost use Rattle.std.specs.Prelude.{List, Option};
    ghost use Rattle.wake_board.specs.Seen.{Held};

    ghost Value = { List (Option Held) };

    ghost view = { λ p. p.places.items };
}

impl Passes {
    /// Gives out the pass of a caller; none where it is out, or the number is no caller.
    pub fn take(&mut self, who: CallerId) -> Option<Pass>
        ensures found { result ≡ slice_index_or self.old who.0 None }
        ensures out { self.new ≡ slice_set self.old who.0 None }
    {
        match self.places.get_mut(who.0 as usize) {
            Some(place) => place.take(),
            None => None,
        }
    }

    /// Takes back a pass that is out, has no body out and no task drawn.
    pub fn put(&mut self, pass: Pass)
        requires out { slice_get self.old pass.who ≡ Some None }
        requires bodies { pass.outs ≡ [] }
        requires undrawn { (i : ℕ) → i < length pass.start.state.tasks → own_by pass i ≢ drawing }
        ensures { self.new ≡ slice_set self.old pass.who (Some pass) }
    {
        let who = pass.who.0 as usize;
        self.places[who] = Some(pass);
    }
}
