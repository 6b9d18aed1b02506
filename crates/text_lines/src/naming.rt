//! Names, and words of a few.

ghost use Rattle.std.specs.Prelude.{◌≡◌, map, bytes_eq};
ghost use Rattle.std.specs.List.{list_all, position_from};
ghost use Rattle.text_lines.specs.Names.{is_name, is_name_byte, place_in};

/// Whether a name may have this byte behind its first.
fn is_name_byte(byte: u8) -> bool
    ensures { result ≡ is_name_byte byte }
{
    byte.is_ascii_lowercase() || byte.is_ascii_digit() || byte == b'_'
}

/// Whether a name may have these bytes behind its first.
fn are_name_bytes(bytes: &[u8]) -> bool
    ensures { result ≡ list_all is_name_byte bytes.now }
{
    bytes.iter().all(|byte| is_name_byte(*byte))
}

/// Whether the word is a lower-case letter, then at most 15 lower-case letters, digits or `_`.
#[tactic(auto, unfolding(crate::specs::Names::is_name))]
pub fn is_name(word: &[u8]) -> bool
    ensures { result ≡ is_name word.now }
{
    match word.split_first() {
        None => false,
        Some((first, rest)) => {
            first.is_ascii_lowercase() && rest.len() <= 15 && are_name_bytes(rest)
        }
    }
}

/// The place of the word among some, from 0 on.
pub fn place_in(words: &[&[u8]], word: &[u8]) -> Option<usize>
    ensures { result ≡ place_in (map (λ w. w.now) words.now) word.now }
{
    first_same(words, word)
}

/// The place of the first of some words that is this one.
fn first_same(words: &[&[u8]], word: &[u8]) -> Option<usize>
    ensures { result ≡ position_from (λ w. bytes_eq w.now word.now) 0 words.now }
{
    words.iter().position(|other| *other == word)
}
