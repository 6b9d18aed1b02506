//! Words that stand for numbers.

ghost use Rattle.std.specs.Prelude.{◌≡◌, ◌<◌, ◌≤◌, ◌^◌, IfSome, IsTrue, nat_le, ◌&&◌, length, if◌then◌else◌};
ghost use Rattle.std.specs.List.{list_all};
ghost use Rattle.std.specs.Char.{digit_value};
ghost use Rattle.std.specs.Str.Parse.{digits_value};
ghost use Rattle.text_lines.specs.Numbers.{has_leading_zero, is_plain, plain_number, number, signed};
ghost use Rattle.text_lines.specs.Masks.{hex, is_hex_digit};

/// A number without leading zeros, of at most 20 digits and at most `most`.
#[tactic(auto, unfolding(crate::specs::Numbers::number))]
pub fn number(word: &[u8], most: u64) -> Option<u64>
    requires { most < 2 ^ 50 }
    ensures value { result ≡ number most word.now }
    ensures bound { IfSome result (λ n. n ≤ most) }
{
    if is_plain(word) {
        digits(word, most)
    } else {
        None
    }
}

/// Whether there are 1 to 20 bytes and no leading zero.
fn is_plain(word: &[u8]) -> bool
    ensures { result ≡ is_plain word.now }
{
    !word.is_empty() && word.len() <= 20 && !has_leading_zero(word)
}

/// Whether a digit 0 has more behind it.
fn has_leading_zero(word: &[u8]) -> bool
    ensures { result ≡ has_leading_zero word.now }
{
    word.len() > 1 && word[0] == b'0'
}

/// The number that digits write, if it is at most `most`.
fn digits(word: &[u8], most: u64) -> Option<u64>
    requires { most < 2 ^ 50 }
    ensures value { result ≡ plain_number most word.now }
    ensures bound { IfSome result (λ n. n ≤ most) }
{
    let mut value = 0u64;
    for byte in word {
        if !byte.is_ascii_digit() {
            return None;
        }
        value = value * 10 + u64::from(*byte - b'0');
        if value > most {
            return None;
        }
    }
    Some(value)
}

/// A number, or a number other than 0 behind a minus sign.
#[tactic(auto, unfolding(crate::specs::Numbers::signed))]
pub fn signed(word: &[u8], most: u64) -> Option<i64>
    requires { most < 2 ^ 50 }
    ensures { result ≡ signed most word.now }
{
    match word {
        [] => None,
        [b'-', digits @ ..] => match number(digits, most)? {
            0 => None,
            n => Some(-(n as i64)),
        },
        _ => Some(number(word, most)? as i64),
    }
}

/// 16 hexadecimal digits in lower case.
#[tactic(auto, unfolding(crate::specs::Masks::hex))]
pub fn hex(word: &[u8]) -> Option<u64>
    ensures { result ≡ hex word.now }
{
    if word.len() == 16 {
        hex_digits(word)
    } else {
        None
    }
}

/// The number that hexadecimal digits write.
fn hex_digits(word: &[u8]) -> Option<u64>
    requires { length word.now ≡ 16 }
    ensures { result ≡ (if list_all is_hex_digit word.now then Some (digits_value 16 word.now) else None) }
{
    let mut value = 0u64;
    for byte in word {
        if !is_hex_digit(*byte) {
            return None;
        }
        value = value * 16 + u64::from(hex_value(*byte));
    }
    Some(value)
}

/// Whether a byte is a hexadecimal digit in lower case.
fn is_hex_digit(byte: u8) -> bool
    ensures { result ≡ is_hex_digit byte }
{
    byte.is_ascii_digit() || (b'a' <= byte && byte <= b'f')
}

/// The value of a hexadecimal digit in lower case.
fn hex_value(byte: u8) -> u8
    requires { IsTrue (is_hex_digit byte) }
    ensures value { result ≡ digit_value byte }
    ensures below { result < 16 }
{
    if byte < b'a' {
        byte - b'0'
    } else {
        byte - b'a' + 10
    }
}
