//! Reading the words with `clap`.

ghost use Rattle.std.specs.Prelude.{◌≡◌, ◌&&◌, ◌≤◌, List, [], ◌∷◌, map, length, true, IfOk, IsTrue, codes, nat_lt, nat_le, not};
ghost use Rattle.std.specs.List.{list_any};
ghost use Rattle.std.specs.String.{string_bytes};
ghost use Rattle.clap.specs.Words.{app_of, found_of};
ghost use Rattle.command_line.specs.Commands.{command_of, begins_with_dash, may_command};
ghost use Rattle.command_line.specs.Words.{taskrun_app, command_found};

use crate::command::{Command, command_in};
use clap::error::ErrorKind;
use clap::{Arg, ArgMatches, Command as Words};
use std::alloc::{AllocError, Global};

/// The command that these words are, the program's own name not among them; none where they are no
/// command (docs/MODEL.md, "Commands"). The one error is want of memory.
pub fn command_of(alloc: Global, words: &[String]) -> Result<Option<Command>, AllocError>
    ensures { IfOk result (λ command. command ≡ command_of (map (λ word. string_bytes word) words.now)) }
{
    if !may_command(words) {
        return Ok(None);
    }
    match words_of(alloc)?.try_get_matches_from(words) {
        Ok(matches) => Ok(matched(&matches)),
        Err(error) if error.kind() == ErrorKind::OutOfMemory => Err(AllocError),
        Err(_) => Ok(None),
    }
}

/// Whether there are one to three words and none begins with a dash, so that `clap` has neither flags
/// nor help to find in them.
fn may_command(words: &[String]) -> bool
    ensures { result ≡ may_command (map (λ word. string_bytes word) words.now) }
{
    match words.len() {
        1..=3 => !any_dash(words),
        _ => false,
    }
}

/// Whether some word begins with a dash.
fn any_dash(words: &[String]) -> bool
    ensures { result ≡ list_any (λ word. begins_with_dash (string_bytes word)) words.now }
{
    words.iter().any(|word| begins_with_dash(word))
}

/// Whether the word begins with a dash.
fn begins_with_dash(word: &String) -> bool
    ensures { result ≡ begins_with_dash (string_bytes word.now) }
{
    word.as_bytes().first() == Some(&b'-')
}

/// The words of a command line, as `clap` is to read them: a name, and maybe a seed and a size.
fn words_of<'a>(alloc: Global) -> Result<Words<'a>, AllocError>
    ensures { IfOk result (λ command. app_of command ≡ taskrun_app) }
{
    let name = Arg::new(alloc, "command").required(true);
    Words::new(alloc, "taskrun")
        .no_binary_name(true)
        .disable_help_flag(true)
        .arg(name)?
        .arg(Arg::new(alloc, "seed"))?
        .arg(Arg::new(alloc, "size"))
}

/// The command in the words that were found.
fn matched(matches: &ArgMatches<'_>) -> Option<Command>
    ensures { result ≡ command_found matches.now }
{
    let name = matches.get_str("command")?;
    command_in(name, matches.get_str("seed"), matches.get_str("size"))
}
