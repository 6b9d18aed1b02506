//! Laws of run lists: each function does nothing, and its contract is the law.

ghost use Rattle.run_queue.specs.Laws.{RunQueuesStayBeside, RunnersAreOdd};

/// What changes another root, and leaves none of the queue's entries there, leaves the queue fitting
/// and its run list as it was.
#[tactic(auto, using(crate::proofs::Beside::stays_beside))]
pub fn run_queues_stay_beside()
    ensures { RunQueuesStayBeside }
{}

/// The root of a run queue holds odd entries alone.
#[tactic(auto, using(crate::proofs::Beside::own_entries))]
pub fn runners_are_odd()
    ensures { RunnersAreOdd }
{}
