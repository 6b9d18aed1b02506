//! Which lines may come in a transcript of a script, one after another, and what these rules mean
//! (docs/MODEL.md, "Lines that are allowed").
#![tactic(auto)]

ghost use Rattle.fronts.specs.Laws.{FrontsAreAllowedLines};

/// Lines are a front of a script, the first lines of some lawful run, exactly where each of them is
/// allowed after those before it.
#[tactic(auto, using(crate::proofs::Fronts::fronts))]
pub fn fronts_are_allowed_lines()
    ensures { FrontsAreAllowedLines }
{}
