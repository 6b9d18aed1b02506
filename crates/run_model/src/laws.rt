//! Laws of lawful runs: each function does nothing, and its contract is the law.

ghost use Rattle.run_model.specs.Laws.{LawfulRunsAreDecided, LawfulRunsKeepTime};

/// A run of a script passes a test that reads its entries from the first to the last just where
/// it is lawful.
#[tactic(auto, using(crate::proofs::Decided::the_test_decides))]
pub fn lawful_runs_are_decided()
    ensures { LawfulRunsAreDecided }
{}

/// Round k of a lawful run is k steps after the start, modulo 2^32.
#[tactic(auto, using(crate::proofs::Times::lawful_times))]
pub fn lawful_runs_keep_time()
    ensures { LawfulRunsKeepTime }
{}
