//! Laws of walks over keyed lists and of settled lists: each function does nothing, and its contract is the law.

ghost use Rattle.queue_model.specs.Laws.{SettledLists, SweepsGoOn, WalksBeginByLookUps, WalksGoByDistance, WalksStay, WalksTakeInsertions};

/// A walk that begins half the circle before a tick comes to the items of a keyed list in the
/// order of their distance from that tick.
pub fn walks_go_by_distance()
    ensures { WalksGoByDistance }
{}

/// The first entry of such a walk is what a look-up from its start finds, or else the first entry.
pub fn walks_begin_by_look_ups()
    ensures { WalksBeginByLookUps }
{}

/// An insertion by key is an insertion by distance in such a walk.
pub fn walks_take_insertions()
    ensures { WalksTakeInsertions }
{}

/// While all keys are near, a walk from one tick is the walk from another.
pub fn walks_stay_in_the_window()
    ensures { WalksStay }
{}

/// A wait list that is settled has its first item at its expiry, and no expiry that is set comes
/// before that key; where it is empty none is set. Settling keeps the window.
#[tactic(auto, using(crate::proofs::Settles::settled_lists))]
pub fn settled_lists()
    ensures { SettledLists }
{}

/// A step of a sweep that fires a task fires the first of those that the whole sweep fires, and the
/// sweep of the list that it leaves is the rest; a step that fires none is the whole sweep.
#[tactic(auto, using(crate::proofs::WholeSweep::sweeps_on))]
pub fn sweeps_go_on()
    ensures { SweepsGoOn }
{}
