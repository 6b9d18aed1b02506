//! The commands.

ghost use Rattle.std.specs.Prelude.{◌≡◌, Option, None, Some, option_map, IfSome, ◌≤◌};
ghost use Rattle.command_line.specs.Commands.{bare_command, generation, command_in};

use crate::numerals::number;

/// What `taskrun` is asked to do.
#[derive(Clone, Copy, Debug, PartialEq, Eq)]
pub enum Command {
    /// Runs a script.
    Run,
    /// Judges a transcript of a script.
    Replay,
    /// Runs the script of this size, 1 to 4,096, that follows from the seed.
    Gen { seed: u64, size: u32 },
}

/// The command of one word.
fn bare_command(name: &str) -> Option<Command>
    ensures { result ≡ bare_command name.now }
{
    match name {
        "run" => Some(Command::Run),
        "replay" => Some(Command::Replay),
        _ => None,
    }
}

/// The command `gen` with these words.
fn generation(seed: &str, size: &str) -> Option<Command>
    ensures { result ≡ generation seed.now size.now }
{
    let seed = number(seed.as_bytes(), u64::MAX)?;
    let size = number(size.as_bytes(), 4096)?;
    if size == 0 {
        None
    } else {
        Some(Command::Gen {
            seed,
            size: size as u32,
        })
    }
}

/// The command of this name with what stands behind it.
pub(crate) fn command_in(name: &str, seed: Option<&str>, size: Option<&str>) -> Option<Command>
    ensures { result ≡ command_in name.now (option_map (λ word. word.now) seed.entry) (option_map (λ word. word.now) size.entry) }
{
    match (seed, size) {
        (None, None) => bare_command(name),
        (Some(seed), Some(size)) if name == "gen" => generation(seed, size),
        _ => None,
    }
}
