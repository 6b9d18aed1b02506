//! A text cut at a byte, one piece at a time.

ghost use Rattle.std.specs.Prelude.{◌≡◌, ◌∷◌, ◌<◌, ◌==◌, length, IfSome, position, option_map};
ghost use Rattle.text_lines.specs.Steps.{is_empty};
ghost use Rattle.text_lines.specs.Pieces.{pieces, pieces_left};

use memchr::memchr;

/// The words of a line that are not yet read, by their bytes; none where no word is left.
#[derive(Clone, Copy)]
pub struct Words<'a> {
    pub rest: Option<&'a [u8]>,
}

/// The piece in front of the first byte `at`, and what stands behind that byte, if there is one.
#[inline(always)]
pub fn next_piece(at: u8, bytes: &[u8]) -> (&[u8], Option<&[u8]>)
    ensures parted { pieces at bytes.now ≡ result.0.now ∷ pieces_left at result.1 }
    ensures shorter { IfSome result.1 (λ r. length r.now < length bytes.now) }
{
    match place_of(at, bytes) {
        Some(place) => (&bytes[..place], Some(&bytes[place + 1..])),
        None => (bytes, None),
    }
}

/// The place of the first byte `at`. Words are short, so each byte is looked at in turn.
#[inline(always)]
fn place_of(at: u8, bytes: &[u8]) -> Option<usize>
    ensures { result ≡ position (λ b. b == at) bytes.now }
{
    bytes.iter().position(|byte| *byte == at)
}

/// The first line, and what stands behind its line feed, if there is one.
pub fn next_line(bytes: &[u8]) -> (&[u8], Option<&[u8]>)
    ensures parted { pieces 10 bytes.now ≡ result.0.now ∷ pieces_left 10 result.1 }
    ensures shorter { IfSome result.1 (λ r. length r.now < length bytes.now) }
{
    match place_of_feed(bytes) {
        Some(place) => (&bytes[..place], Some(&bytes[place + 1..])),
        None => (bytes, None),
    }
}

/// The place of the first line feed.
#[tactic(auto, using(crate::proofs::Firsts::found_position))]
fn place_of_feed(bytes: &[u8]) -> Option<usize>
    ensures { result ≡ position (λ b. b == 10) bytes.now }
{
    memchr(b'\n', bytes)
}

impl<'a> Words<'a> {
    ghost use Rattle.text_lines.specs.Pieces.{words_in, word_at, word_and_rest};

    /// The words of a line, parted by single spaces.
    pub fn of(line: &'a [u8]) -> Words<'a>
        ensures { words_in result ≡ pieces 32 line.now }
    {
        Words { rest: Some(line) }
    }

    /// The first word, and the words behind it.
    #[tactic(auto, unfolding(crate::specs::Pieces::word_at))]
    pub fn first(self) -> Option<(&'a [u8], Words<'a>)>
        ensures { option_map word_and_rest result ≡ word_at (words_in self.entry) }
    {
        let (word, rest) = next_piece(b' ', self.rest?);
        Some((word, Words { rest }))
    }

    /// Whether no word is left.
    #[tactic(auto, using(crate::proofs::Cuts::pieces_not_empty))]
    pub fn is_at_end(self) -> bool
        ensures { result ≡ is_empty (words_in self.entry) }
    {
        self.rest.is_none()
    }
}
