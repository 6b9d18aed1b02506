//! What holds of each generated script.

ghost use Rattle.std.specs.Prelude.{◌≡◌, ℕ, ◌≤◌, true};
ghost use Rattle.step_tables.specs.Homes.{IsClosedByHomes};
ghost use Rattle.step_tables.specs.Sound.{is_sound};
ghost use Rattle.script_gen.specs.Generated.{generated};

/// A generated script is in range.
pub fn generated_is_sound()
    ensures { (seed size : ℕ) → 1 ≤ size → size ≤ 4096 → is_sound (generated seed size) ≡ true }
{}

/// A generated script is closed by homes: it has no shared task and no event, and each of its rows
/// names tasks of its own task's home only.
pub fn generated_is_closed()
    ensures { (seed size : ℕ) → 1 ≤ size → size ≤ 4096 → IsClosedByHomes (generated seed size) }
{}
