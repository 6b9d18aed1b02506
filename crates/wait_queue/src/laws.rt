//! Laws of wait lists: each function does nothing, and its contract is the law.

ghost use Rattle.wait_queue.specs.Earliest.{SettledQueuesTell, StayLate};
ghost use Rattle.wait_queue.specs.Laws.{StepsComeToTheSweep, TimersAreEven, WaitListsStay, WaitQueuesStayBeside};

/// Calls of `sweep_next` at one tick until it answers none, with no other call between, are the
/// whole sweep at that tick.
#[tactic(auto, using(crate::proofs::Whole::whole_sweep))]
pub fn steps_come_to_the_sweep()
    ensures { StepsComeToTheSweep }
{}

/// While all keys are near, the wait list is the same from one tick and from another.
#[tactic(auto, using(crate::proofs::Whole::lists_stay))]
pub fn wait_lists_stay_in_the_window()
    ensures { WaitListsStay }
{}

/// What changes another root, and leaves none of the queue's entries there, leaves the queue fitting
/// and its wait list as it was.
#[tactic(auto, using(crate::proofs::Beside::stays_beside))]
pub fn wait_queues_stay_beside()
    ensures { WaitQueuesStayBeside }
{}

/// The root of a wait queue holds even entries alone.
#[tactic(auto, using(crate::proofs::Beside::own_entries))]
pub fn timers_are_even()
    ensures { TimersAreEven }
{}

/// Once a queue is settled, its next expiry is the earliest expiry of all items, and there is none
/// exactly where it has no item, while no item has an expiry before its key.
#[tactic(auto, using(crate::proofs::Early::queues_tell))]
pub fn settled_queues_tell()
    ensures { SettledQueuesTell }
{}

/// Settling leaves no item with an expiry before its key where there was none, and in a window there is
/// none.
#[tactic(auto, using(crate::proofs::Early::stay_late))]
pub fn expiries_stay_late()
    ensures { StayLate }
{}
