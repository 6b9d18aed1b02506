//! The verdict on the lines of a transcript.

ghost use Rattle.std.specs.Prelude.{◌≡◌, ◌↔◌, ℕ, false, IfOk};
ghost use Rattle.transcript.specs.Judging.{GoesOn};
ghost use Rattle.run_replay.specs.Verdicts.{AreOfRun, FirstNotLawful};

use crate::watcher::Watcher;
use std::alloc::{AllocError, Global};
use step_tables::Script;
use transcript::Transcript;

/// The verdict on the lines of a transcript.
#[derive(Clone, Copy, Debug, PartialEq, Eq)]
pub enum Verdict {
    /// The lines are those of a lawful run.
    Lawful,
    /// This line of the text, counted from 1, is the first that may not come after those before it.
    NotLawful(usize),
}

/// Judges the lines of a transcript, which go on to their end line, as those of a run of a script. The one error is want
/// of memory.
pub fn judge(alloc: Global, script: &Script, transcript: &Transcript) -> Result<Verdict, AllocError>
    requires { GoesOn 0 false transcript.now }
    ensures lawful { IfOk result (λ v. (v ≡ Verdict.Lawful) ↔ AreOfRun script.now transcript.now) }
    ensures line { IfOk result (λ v. (n : ℕ) → v ≡ Verdict.NotLawful n → FirstNotLawful script.now transcript.now n) }
{
    let mut watcher = Watcher::new(alloc, script)?;
    for (index, line) in transcript.as_slice().iter().enumerate() {
        if !watcher.allows(script, line) {
            return Ok(Verdict::NotLawful(index + 2));
        }
    }
    Ok(Verdict::Lawful)
}
