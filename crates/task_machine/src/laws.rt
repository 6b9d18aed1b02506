//! What holds of every machine, as functions that do nothing and whose contracts are the laws.

ghost use Rattle.task_machine.specs.Laws.{OwnCallsTellPlaces, StepsKeepValidity, OpeningsAreValid, SeatsAndDealsKeepValidity, CallsHaveOneReply, RefusalsAreExact, HistoriesHaveOneEnd, TakesTellReasonsSince, EntriesAreEvents, HistoriesAreByTask};

/// Every step leads from a valid state to a valid one.
pub fn steps_keep_validity()
    ensures { StepsKeepValidity }
{}

/// Every opening is valid.
pub fn openings_are_valid()
    ensures { OpeningsAreValid }
{}

/// Seating a task, and dealing one that is in a box, keep the tasks' states valid.
pub fn seats_and_deals_keep_validity()
    ensures { SeatsAndDealsKeepValidity }
{}

/// A call has one right reply.
pub fn calls_have_one_reply()
    ensures { CallsHaveOneReply }
{}

/// An entry is not both allowed and refused, and it is refused for one cause.
pub fn refusals_are_exact()
    ensures { RefusalsAreExact }
{}

/// A legal history leads from its first state to one end.
pub fn histories_have_one_end()
    ensures { HistoriesHaveOneEnd }
{}

/// In a legal history from an opening each take has exactly the reasons since the task's previous
/// take, and the killed flag exactly where a kill came since then.
pub fn takes_tell_reasons_since()
    ensures { TakesTellReasonsSince }
{}

/// An entry is allowed exactly where it is formed and each task admits what it is for that task, and
/// then each task is afterwards what this makes of it.
pub fn entries_are_events()
    ensures { EntriesAreEvents }
{}

/// Entries are a legal history exactly where each is formed and each task admits what they are for
/// it, and then each task is at the end what they make of it.
pub fn histories_are_by_task()
    ensures { HistoriesAreByTask }
{}

/// After a legal history, what a caller has of a task is what its own calls in it make of what it had.
pub fn own_calls_tell_places()
    ensures { OwnCallsTellPlaces }
{}
