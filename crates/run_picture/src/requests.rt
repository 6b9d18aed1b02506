//! The words of the command line.

ghost use Rattle.std.specs.Prelude.{◌≡◌, ◌≢◌, IfOk, map, option_map};
ghost use Rattle.std.specs.String.{string_bytes};
ghost use Rattle.run_picture.specs.Requests.{command, request_of, asked_by, asked_from, bound_of, is_set, rounds_of, Asks};
ghost use Rattle.clap.specs.Words.{app_of, found_of, kind_of, rows_of};

use crate::bars::Rounds;
use clap::error::ErrorKind;
use clap::{Arg, ArgAction, ArgMatches, Command, Error};
use std::alloc::{AllocError, Global};
use text_lines::number;

/// The most rounds that a picture shows.
pub const MOST_ROUNDS: u32 = 2_000;

/// What is asked for.
#[derive(Clone, Copy, Debug, PartialEq, Eq)]
pub struct Request {
    pub rounds: Rounds,
    /// Whether as text, and else as SVG.
    pub is_text: bool,
}

/// Why nothing is asked for.
#[derive(Clone, Copy, Debug, PartialEq, Eq)]
pub enum WordsError {
    /// The words are no command.
    Usage,
    /// There is no memory.
    Memory,
}

impl From<AllocError> for WordsError {
    ghost use Rattle.std.specs.Prelude.{◌≡◌};
    ghost use Rattle.run_picture.specs.declared.requests.WordsError.TheVariants.{Memory};

    ghost from_gives = { λ _ e. e ≡ Memory };

    fn from(_error: AllocError) -> WordsError {
        WordsError::Memory
    }
}

/// The command line of the program.
fn make_command<'a>(alloc: Global) -> Result<Command<'a>, AllocError>
    ensures { IfOk result (λ c. app_of c ≡ command) }
{
    let from = Arg::new(alloc, "from").long("from").action(ArgAction::Set);
    let to = Arg::new(alloc, "to").long("to").action(ArgAction::Set);
    let text = Arg::new(alloc, "text")
        .long("text")
        .action(ArgAction::SetTrue);
    let plain = Command::new(alloc, "taskpicture")
        .no_binary_name(true)
        .disable_help_flag(true);
    plain.arg(from)?.arg(to)?.arg(text)
}

/// What the words behind the program's own name ask for.
///
/// # Errors
///
/// `Usage` where they are no command; `Memory` where there is no memory.
pub(crate) fn read_words(alloc: Global, words: &[String]) -> Result<Request, WordsError>
    ensures { Asks result (request_of (map (λ word. string_bytes word) words.now)) }
{
    let command = make_command(alloc)?;
    match command.try_get_matches_from(words) {
        Ok(matches) => request_in(&matches),
        Err(error) => Err(error_of(&error)),
    }
}

/// Why words were refused.
fn error_of(error: &Error) -> WordsError
    ensures { result ≡ WordsError.Usage → kind_of error.now ≢ ErrorKind.OutOfMemory }
{
    match error.kind() {
        ErrorKind::OutOfMemory => WordsError::Memory,
        _ => WordsError::Usage,
    }
}

/// What the words ask for that were found.
fn request_in(matches: &ArgMatches<'_>) -> Result<Request, WordsError>
    ensures { Asks result (asked_by (rows_of (found_of matches.now))) }
{
    let first = bound_of(matches.get_str("from"), 0);
    let last = bound_of(matches.get_str("to"), u32::MAX);
    let is_text = is_set(matches.get_str("text"));
    asked_from(first, last, is_text)
}

/// What the bounds ask for.
fn asked_from(first: Option<u32>, last: Option<u32>, is_text: bool) -> Result<Request, WordsError>
    ensures { Asks result (asked_from first last is_text) }
{
    match (first, last) {
        (Some(first), Some(last)) if first <= last => Ok(Request {
            rounds: rounds_of(first, last),
            is_text,
        }),
        _ => Err(WordsError::Usage),
    }
}

/// The number of a round, where the word for it is there and is one.
fn bound_of(word: Option<&str>, otherwise: u32) -> Option<u32>
    ensures { result ≡ bound_of otherwise (option_map (λ w. w.now) word.entry) }
{
    match word {
        Some(word) => Some(number(word.as_bytes(), 4_294_967_295)? as u32),
        None => Some(otherwise),
    }
}

/// Whether the word is there that stands for a flag.
fn is_set(word: Option<&str>) -> bool
    ensures { result ≡ is_set (option_map (λ w. w.now) word.entry) }
{
    match word {
        Some(word) => word == "true",
        None => false,
    }
}

/// The rounds from one to another, and no more than a picture shows.
fn rounds_of(first: u32, last: u32) -> Rounds
    ensures { result ≡ rounds_of first last }
{
    Rounds {
        first,
        last: last.min(first.saturating_add(MOST_ROUNDS - 1)),
    }
}
