//! The words of a line, and what numbers and classes mean.

ghost use Rattle.std.specs.Prelude.{◌≡◌, ◌^◌, ◌<◌, nat_lt, option_map, IfSome};
ghost use Rattle.std.specs.List.{list_all, list_any};
ghost use Rattle.text_lines.specs.Pieces.{pieces, words_in};
ghost use Rattle.step_tables.specs.Words.{is_empty, words_of, number_of, signed_of};

use text_lines::{Words, number, signed};

/// The most that a number of ten digits may be.
const MOST_NUMBER: u64 = 9_999_999_999;

/// The words of a line; none where a space stands at an end or beside another, or a byte is not ASCII.
#[tactic(auto, unfolding(crate::specs::Words::words_of))]
pub(crate) fn words_of(line: &[u8]) -> Option<Words<'_>>
    ensures { option_map words_in result ≡ words_of line.now }
{
    if is_ascii(line) && !has_empty_word(line) {
        Some(Words::of(line))
    } else {
        None
    }
}

/// Whether all bytes are ASCII.
fn is_ascii(line: &[u8]) -> bool
    ensures { result ≡ list_all (λ b. nat_lt b 128) line.now }
{
    line.iter().all(|byte| *byte < 128)
}

/// Whether there is no byte.
fn is_empty(word: &[u8]) -> bool
    ensures { result ≡ is_empty word.now }
{
    match word {
        [] => true,
        _ => false,
    }
}

/// Whether some word of the line is empty.
fn has_empty_word(line: &[u8]) -> bool
    ensures { result ≡ list_any is_empty (pieces 32 line.now) }
{
    line.split(|byte| *byte == b' ').any(|word| is_empty(word))
}

/// The number that a word of at most ten digits writes.
pub(crate) fn number_of(word: &[u8]) -> Option<u64>
    ensures same { result ≡ number_of word.now }
    ensures below { IfSome result (λ n. n < 10 ^ 10) }
{
    number(word, MOST_NUMBER)
}

/// A number, or a number other than 0 behind a minus sign.
pub(crate) fn signed_of(word: &[u8]) -> Option<i64>
    ensures { result ≡ signed_of word.now }
{
    signed(word, MOST_NUMBER)
}
