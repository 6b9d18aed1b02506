//! How a board is made of words, and ends in words.

ghost use Rattle.std.specs.Prelude.{◌≡◌, ℕ, suc, ◌<◌, ◌≤◌, [], length, slice_index_or, IfOk, Option, Some, None, IsSome};
ghost use Rattle.wake_board.specs.Seen.{Held};
ghost use Rattle.wake_board.specs.Start.{start_of};
ghost use Rattle.wake_board.specs.Between.{StandBetween, FewTakes};
ghost use Rattle.wake_board.specs.Rule.{first_view};
ghost use Rattle.wake_board.specs.Ends.{fresh, AllBack};
ghost use Rattle.wake_board.specs.Gathered.{IsOpening, IsSeatOf, Gathers};

use crate::body::Body;
use crate::pass::Pass;
use crate::views::{Leaves, Opening, Returns, Ruling, View};
use crate::words::Words;
use atomic_table::{Refused, Seat, Shared, Table};
use sched_base::CallerId;
use std::alloc::{AllocError, Global};
use std::snapshot::Snapshot;
use step_tables::Nexts;

pub(crate) type Laid = Table<Body, View, Opening, Ruling, Global>;

/// A list of numbers once more.
fn listed(alloc: Global, numbers: &[u32]) -> Result<Vec<u32>, AllocError>
    ensures { IfOk result (λ v. v.items ≡ numbers.now) }
{
    numbers.to_vec(alloc)
}

/// What a board is opened with.
pub(crate) fn opening_of(
    alloc: Global,
    words: &Words,
    homes: &[u32],
    holders: &[u32],
    nexts: &Nexts,
) -> Result<Opening, AllocError>
    ensures { IfOk result (λ o. IsOpening o words.now homes.now holders.now nexts.now) }
{
    Ok(Opening {
        words: Snapshot::of(words),
        homes: listed(alloc, homes)?,
        holders: listed(alloc, holders)?,
        nexts: Snapshot::of(nexts),
    })
}

/// Lays out the table of a board, with the seat that has the logs of all callers.
pub(crate) fn lay(
    alloc: Global,
    words: &Words,
    opening: &Opening,
) -> Result<(Laid, Seat<Body, View>), AllocError>
    requires words { opening.now.words.value ≡ words.now }
    requires stands { StandBetween words.now opening.now.homes.items opening.now.holders.items opening.now.nexts.value (start_of opening.now).state }
    requires few { FewTakes opening.now.homes.items (start_of opening.now).state }
    ensures { IfOk result (λ t. (t.0.shared.table_id.words ≡ length words.now.row) × (t.0.shared.table_id.slots ≤ words.now.tasks) × (t.0.shared.key ≡ opening.now) × (t.1.table_id ≡ t.0.shared.table_id) × (t.1.me ≡ (first_view opening.now, []))) }
{
    let bodies = words.lent_bodies(alloc, opening.homes.as_slice())?;
    match Table::new(alloc, words.row.as_slice(), bodies, opening) {
        Ok(laid) => Ok(laid),
        Err(Refused { slots: _ }) => Err(AllocError),
    }
}

/// One fresh pass for each caller, from the seat that has the logs of all.
pub(crate) fn deal_passes(
    alloc: Global,
    shared: &Shared<Body, View, Opening, Ruling>,
    seat: Seat<Body, View>,
    callers: u32,
) -> Result<Vec<Option<Pass>>, AllocError>
    requires seat { (seat.table_id ≡ shared.now.table_id) × (seat.me ≡ (first_view shared.now.key, [])) }
    requires words { 0 < shared.now.table_id.words }
    requires callers { callers ≡ suc (start_of shared.now.key).state.workers }
    ensures count { IfOk result (λ v. length v.items ≡ callers) }
    ensures each { IfOk result (λ v. (k : ℕ) → k < callers → slice_index_or v.items k None ≡ Some (fresh (record { board = shared.now.table_id; start = start_of shared.now.key }) k)) }
{
    let mut seat = seat;
    let mut places = Vec::with_capacity(alloc, callers as usize)?;
    for k in 0..callers {
        let pass = Pass {
            seat: shared.split_seat::<Leaves>(&mut seat),
            who: CallerId(k),
        };
        places.push(Some(pass))?;
    }
    Ok(places)
}

/// The seat of a pass that is there.
fn seat_of(place: Option<Pass>) -> Seat<Body, View>
    requires { IsSome place }
    ensures { (p : Held) → place ≡ Some p → IsSeatOf p result }
{
    let Some(pass) = place else { unreachable!() };
    let Pass { seat, who: _ } = pass;
    seat
}

/// Takes all passes in, from the last to the first.
pub(crate) fn gather(
    shared: &Shared<Body, View, Opening, Ruling>,
    places: Vec<Option<Pass>>,
) -> Seat<Body, View>
    requires words { 0 < shared.now.table_id.words }
    requires back { AllBack (record { board = shared.now.table_id; start = start_of shared.now.key }) places.items }
    ensures seat { result.table_id ≡ shared.now.table_id }
    ensures all { Gathers places.items 0 result.me.0 }
{
    let mut places = places;
    let Some(last) = places.pop() else {
        unreachable!()
    };
    let mut seat = seat_of(last);
    while let Some(place) = places.pop() {
        let other = seat_of(place);
        shared.join_seat::<Returns>(&mut seat, other);
    }
    seat
}
