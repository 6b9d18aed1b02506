//! Laws of scripts and of their texts.

ghost use Rattle.std.specs.Prelude.{◌≡◌, ◌≤◌, ℕ, true, List, length, Ok};
ghost use Rattle.step_tables.specs.declared.tables.Script.{Script};
ghost use Rattle.step_tables.specs.Limits.{limits_of};
ghost use Rattle.step_tables.specs.Sound.{is_sound};
ghost use Rattle.step_tables.specs.Ranges.{ScriptRange};
ghost use Rattle.step_tables.specs.Text.{script_text};
ghost use Rattle.step_tables.specs.Judging.{script_of, script_within, most_bytes};

/// In a script whose tables are in range each task, row, action and event is in range.
pub fn ranges()
    ensures { (s : Script) → is_sound s ≡ true → ScriptRange s }
{}

/// A text that is read as a script is the text of that script, within the limit of its version.
pub fn read_back()
    ensures { (bytes : List ℕ) (s : Script) → script_of bytes ≡ Ok s
        → (bytes ≡ script_text s) × (length bytes ≤ most_bytes bytes) }
{}

/// The text of a script in range, if it is within the limit of its version, is read as that script.
pub fn read_again()
    ensures { (s : Script) → is_sound s ≡ true → length (script_text s) ≤ (limits_of s.version).bytes
        → script_of (script_text s) ≡ Ok s }
{}

/// The script of a text is that of the whole text: the reader's cut behind the byte past the limit
/// changes no answer.
pub fn whole()
    ensures { (bytes : List ℕ) → script_of bytes ≡ script_within (most_bytes bytes) bytes }
{}
