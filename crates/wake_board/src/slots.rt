//! How bodies leave their places at the table, and come back to them.

ghost use Rattle.std.specs.Prelude.{◌≡◌, ◌<◌, [], ◌∷◌, length};
ghost use Rattle.task_machine.specs.Own.{drawing};
ghost use Rattle.step_tables.specs.Nexts.{row_after};
ghost use Rattle.wake_board.specs.Start.{start_of, start_in};
ghost use Rattle.wake_board.specs.Outs.{HasBody, NoBody, Carries, without};
ghost use Rattle.wake_board.specs.Seen.{own_log, own_view, OutTold, with_out};
ghost use Rattle.wake_board.specs.Bodies.{IsKnownOut};

use crate::body::Body;
use crate::views::{ComesFirst, GoesIn, GoesOut, Named, Opening, Ruling, View};
use atomic_table::{Seat, Shared};

/// Takes the slot of a task, and reads the body in it.
pub(crate) fn slot_out<J: Named>(
    shared: &Shared<Body, View, Opening, Ruling>,
    seat: &mut Seat<Body, View>,
    task: u32,
) -> Body
    requires named { J.task ≡ task }
    requires same { seat.old.table_id ≡ shared.now.table_id }
    requires words { 0 < shared.now.table_id.words }
    requires log { seat.old.me.0.logs ≡ own_log seat.old.me.0.logs ∷ [] }
    requires exists { task < length (start_of shared.now.key).state.tasks }
    requires drawn { own_view seat.old.me.0 task ≡ drawing }
    requires home { NoBody seat.old.me.0.outs task }
    ensures table { seat.new.table_id ≡ seat.old.table_id }
    ensures told { OutTold seat.old.me task result seat.new.me }
{
    shared.load::<GoesOut<J>>(seat, 0);
    *seat.slot_mut(shared, task as usize)
}

/// Writes a body into the slot of a task, and gives the slot back.
pub(crate) fn slot_in<J: Named>(
    shared: &Shared<Body, View, Opening, Ruling>,
    seat: &mut Seat<Body, View>,
    task: u32,
    body: Body,
)
    requires named { J.task ≡ task }
    requires same { seat.old.table_id ≡ shared.now.table_id }
    requires words { 0 < shared.now.table_id.words }
    requires log { seat.old.me.0.logs ≡ own_log seat.old.me.0.logs ∷ [] }
    requires carries { Carries seat.old.me.1 seat.old.me.0.outs }
    requires out { IsKnownOut seat.old.me.0 task body.takes }
    requires row { body.row ≡ row_after (start_of shared.now.key).nexts task body.takes }
    ensures table { seat.new.table_id ≡ seat.old.table_id }
    ensures view { seat.new.me.0 ≡ with_out seat.old.me.0 (without task seat.old.me.0.outs) }
    ensures slots { Carries seat.new.me.1 (without task seat.old.me.0.outs) }
{
    shared.load::<ComesFirst<J>>(seat, 0);
    shared.exchange(seat, task as usize, body);
    shared.load::<GoesIn>(seat, 0);
}
