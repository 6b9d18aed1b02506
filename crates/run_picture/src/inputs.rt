//! The input: a transcript, or a script and then its transcript.

ghost use Rattle.std.specs.Prelude.{◌≡◌, true};
ghost use Rattle.run_picture.specs.Inputs.{input_of, GivesInput, has_script};

use program_edges::parts;
use std::alloc::Global;
use step_tables::{Script, ScriptError, ScriptFault};
use transcript::{TextError, TextFault, Transcript};

/// Why the input is refused: the first fault of its script, or else of its transcript, whose lines are
/// counted from 1 again.
#[derive(Clone, Copy, Debug, PartialEq, Eq)]
pub enum Refusal {
    Script(ScriptFault),
    Transcript(TextFault),
}

/// Why there is no input.
#[derive(Clone, Copy, Debug, PartialEq, Eq)]
pub(crate) enum InputError {
    Refused(Refusal),
    Memory,
}

/// What was read.
#[derive(Debug, Drop)]
pub(crate) struct Input {
    pub script: Option<Script>,
    pub transcript: Transcript,
}

impl From<ScriptError> for InputError {
    ghost use Rattle.run_picture.specs.Inputs.{of_script};

    ghost from_gives = { λ e r. r ≡ of_script e };

    fn from(error: ScriptError) -> InputError {
        match error {
            ScriptError::Refused(fault) => InputError::Refused(Refusal::Script(fault)),
            ScriptError::Memory => InputError::Memory,
        }
    }
}

impl From<TextError> for InputError {
    ghost use Rattle.run_picture.specs.Inputs.{of_transcript};

    ghost from_gives = { λ e r. r ≡ of_transcript e };

    fn from(error: TextError) -> InputError {
        match error {
            TextError::Refused(fault) => InputError::Refused(Refusal::Transcript(fault)),
            TextError::Memory => InputError::Memory,
        }
    }
}

/// Whether a text begins as scripts do.
fn has_script(bytes: &[u8]) -> bool
    ensures { result ≡ has_script bytes.now }
{
    bytes.starts_with(b"taskscript ")
}

/// Reads a script and its transcript.
fn read_both(alloc: Global, bytes: &[u8]) -> Result<Input, InputError>
    requires { has_script bytes.now ≡ true }
    ensures { GivesInput result (input_of bytes.now) }
{
    let (front, behind) = parts(bytes);
    let script = Script::read(alloc, front)?;
    let transcript = Transcript::read(alloc, behind)?;
    Ok(Input {
        script: Some(script),
        transcript,
    })
}

/// Reads the input.
pub(crate) fn read_input(alloc: Global, bytes: &[u8]) -> Result<Input, InputError>
    ensures { GivesInput result (input_of bytes.now) }
{
    if has_script(bytes) {
        return read_both(alloc, bytes);
    }
    let transcript = Transcript::read(alloc, bytes)?;
    Ok(Input {
        script: None,
        transcript,
    })
}
