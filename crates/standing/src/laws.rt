//! What holds of every run, as functions that do nothing and whose contracts are the laws.

ghost use Rattle.standing.specs.Laws.{CallersHear, NextCallsAreAllowed, RoundsAreCalls, RoundsKeep, RoundsStandFirm, RunsCanGoOn, RunsStandFirm, RunsTellReasons, TakesAreTold};

/// What stands together holds at the opening, and each call within a round and each lawful round
/// keeps it.
#[tactic(auto, using(crate::proofs::Lawful::rounds_keep_all))]
pub fn rounds_keep()
    ensures { RoundsKeep }
{}

/// Each next call of each caller is allowed, and so is each draw of a task that is in the shared box.
#[tactic(auto, using(crate::proofs::Lawful::next_calls_all))]
pub fn next_calls_are_allowed()
    ensures { NextCallsAreAllowed }
{}

/// Whole rounds and any calls of the next one are the beginning of a lawful run to its end.
#[tactic(auto, using(crate::proofs::Lawful::runs_go_on))]
pub fn runs_can_go_on()
    ensures { RunsCanGoOn }
{}

/// The beginning of the entries of a lawful round are such calls.
pub fn rounds_are_calls()
    ensures { RoundsAreCalls }
{}

/// A caller that follows its part has what its part says, whatever the others do, and the machine
/// gives it a reply that its part can hear.
#[tactic(auto, using(crate::proofs::Lawful::callers_hear_all))]
pub fn callers_hear()
    ensures { CallersHear }
{}

/// All that stands together before a round holds at the opening, and each lawful round keeps it; within
/// the round places, homes and the timers' window stand after each call.
#[tactic(auto, using(crate::proofs::Lawful::rounds_firm))]
pub fn rounds_stand_firm()
    ensures { RoundsStandFirm }
{}

/// All of it stands after whole rounds, and no task can be taken too often in the next one.
pub fn runs_stand_firm()
    ensures { RunsStandFirm }
{}

/// The takes of a task that is not gone are those before and those among the calls of its worker.
pub fn takes_are_told()
    ensures { TakesAreTold }
{}

/// In each lawful run each take has exactly the reasons since the task's previous take, or since the
/// opening, and the killed flag exactly where a kill came since then.
pub fn runs_tell_reasons()
    ensures { RunsTellReasons }
{}
