//! Numbers of up to 64 bits.

ghost use Rattle.std.specs.Prelude.{◌≡◌, ◌+◌, ◌*◌, ◌<◌, ◌≤◌, Some, None, IfSome, nat_le, if◌then◌else◌};
ghost use Rattle.text_lines.specs.Numbers.{has_leading_zero, is_plain, plain_number, number};

/// A number without leading zeros, of at most 20 digits and at most `most`.
#[tactic(auto, unfolding(text_lines::specs::Numbers::number))]
pub(crate) fn number(word: &[u8], most: u64) -> Option<u64>
    ensures value { result ≡ number most word.now }
    ensures bound { IfSome result (λ n. n ≤ most) }
{
    if is_plain(word) {
        digits(word, most)
    } else {
        None
    }
}

/// Whether there are 1 to 20 bytes and no leading zero.
fn is_plain(word: &[u8]) -> bool
    ensures { result ≡ is_plain word.now }
{
    !word.is_empty() && word.len() <= 20 && !has_leading_zero(word)
}

/// Whether a digit 0 has more behind it.
fn has_leading_zero(word: &[u8]) -> bool
    ensures { result ≡ has_leading_zero word.now }
{
    word.len() > 1 && word[0] == b'0'
}

/// The number that digits write, if it is at most `most`.
fn digits(word: &[u8], most: u64) -> Option<u64>
    ensures value { result ≡ plain_number most word.now }
    ensures bound { IfSome result (λ n. n ≤ most) }
{
    let mut value = 0u64;
    for byte in word {
        if !byte.is_ascii_digit() {
            return None;
        }
        let more = u128::from(value) * 10 + u128::from(*byte - b'0');
        if more > u128::from(most) {
            return None;
        }
        value = more as u64;
    }
    Some(value)
}
