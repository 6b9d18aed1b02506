//! All lawful runs of a script that is closed by homes have the same calls of each caller in each round. Each function does
//! nothing, and its contract is the law (docs/MODEL.md, "Scripts closed by homes").
#![tactic(auto)]

ghost use Rattle.closed_runs.specs.Laws.{ClosedRoundsAreDetermined, ClosedRunsAreDetermined, ClosedRunsCountAlike};

/// Of a script that is closed by homes, two lawful rounds from what stands have the same calls of each caller, with the
/// same replies, and lead to the same tasks and books.
pub fn closed_rounds_are_determined()
    ensures { ClosedRoundsAreDetermined }
{}

/// Of a script that is closed by homes, two lawful runs have as many rounds, end alike, and have the same tick and the
/// same calls of each caller, with the same replies, in each round.
#[tactic(auto, using(crate::proofs::Runs::runs_alike))]
pub fn closed_runs_are_determined()
    ensures { ClosedRunsAreDetermined }
{}

/// So whatever is counted over the histories of two lawful runs is the same.
#[tactic(auto, using(crate::proofs::Counts::counts_alike))]
pub fn closed_runs_count_alike()
    ensures { ClosedRunsCountAlike }
{}
