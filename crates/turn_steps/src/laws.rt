//! Laws of what is left of a turn: each function does nothing, and its contract is the law.

ghost use Rattle.turn_steps.specs.Laws.{InjectsAreRests, RepliesKeepOnce, RestsAreShort, RestsAreTold, TurnsAreRests, TurnsAreShort};

/// The calls of a worker are a lawful turn just where they are the rest of its part from its begin.
pub fn turns_are_rests()
    ensures { TurnsAreRests }
{}

/// The calls of the injector are a lawful round of it just where they are the rest of its part from
/// its begin.
#[tactic(auto, using(crate::proofs::Turns::injects_all))]
pub fn injections_are_rests()
    ensures { InjectsAreRests }
{}

/// Entries are the rest of a part just where each is a next call and after the last none is asked.
#[tactic(auto, using(crate::proofs::Told::rests_told))]
pub fn rests_are_told()
    ensures { RestsAreTold }
{}

/// After a reply that a machine can give, a caller has each task once at most.
#[tactic(auto, using(crate::proofs::Hears::replies_keep_once))]
pub fn replies_keep_once()
    ensures { RepliesKeepOnce }
{}

/// The rest of a part has no more calls than are counted for its stage.
#[tactic(auto, using(crate::proofs::Hears::rests_short))]
pub fn rests_are_short()
    ensures { RestsAreShort }
{}

/// A turn has at most one call for each group and each timer, 35 for each of at most `depth + 3`
/// runs, and 36 for each of at most `depth` draws.
pub fn turns_are_short()
    ensures { TurnsAreShort }
{}
