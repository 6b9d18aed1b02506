//! Words that stand for reasons.

ghost use Rattle.std.specs.Prelude.{◌≡◌, ◌<◌, ◌^◌, [], slice_index_or};
ghost use Rattle.text_lines.specs.Pieces.{pieces_left};
ghost use Rattle.text_lines.specs.Reasons.{reason_names, reasons, pending, TakesName};

use crate::cursor::next_piece;
use sched_base::Reasons;

/// Reasons that are pending, or a minus for none.
pub fn pending(word: &[u8]) -> Option<Reasons>
    ensures { result ≡ pending word.now }
{
    if word == b"-".as_slice() {
        Some(Reasons::EMPTY)
    } else {
        reasons(word)
    }
}

/// One reason or more, in their order and parted by commas.
pub fn reasons(word: &[u8]) -> Option<Reasons>
    ensures { result ≡ reasons word.now }
{
    let mut left = Some(word);
    let mut bits = 0u8;
    for bit in 0..7 {
        let (is_named, behind) = take_name(bit, left);
        if is_named {
            bits += 1 << bit;
        }
        left = behind;
    }
    match left {
        Some(_) => None,
        None => Reasons::from_bits(bits),
    }
}

/// Takes the next word of a list if it is the name of a bit: whether it was, and what is left.
fn take_name(bit: usize, left: Option<&[u8]>) -> (bool, Option<&[u8]>)
    requires { bit < 7 }
    ensures { TakesName (slice_index_or reason_names bit []) (pieces_left 44 left.entry) result.0 (pieces_left 44 result.1) }
{
    match left {
        Some(rest) => {
            let (word, behind) = next_piece(b',', rest);
            if reason_name(bit) == word {
                (true, behind)
            } else {
                (false, left)
            }
        }
        None => (false, None),
    }
}

/// The name of the reason of a bit.
pub(crate) fn reason_name(bit: usize) -> &'static [u8]
    requires { bit < 7 }
    ensures { result.now ≡ slice_index_or reason_names bit [] }
{
    match bit {
        0 => b"init",
        1 => b"timer",
        2 => b"io",
        3 => b"signal",
        4 => b"msg",
        5 => b"res",
        _ => b"other",
    }
}
