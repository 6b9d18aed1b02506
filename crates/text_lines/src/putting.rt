//! Words that are written at the end of a text. A failure leaves the bytes that stood there in front.

ghost use Rattle.std.specs.Prelude.{◌≡◌, ◌<◌, ◌++◌, ◌∷◌, OnOk, decimal, if◌then◌else◌, false};
ghost use Rattle.std.specs.Fmt.{digit_glyph, signed_decimal};
ghost use Rattle.text_lines.specs.Added.{Kept};
ghost use Rattle.text_lines.specs.Masks.{hex_word};
ghost use Rattle.text_lines.specs.Reasons.{reasons_word, pending_word};

use crate::reason_words::reason_name;
use itoa::Buffer;
use sched_base::Reasons;
use std::alloc::AllocError;

/// Appends bytes.
pub fn put_bytes(out: &mut Vec<u8>, bytes: &[u8]) -> Result<(), AllocError>
    ensures kept { Kept out.old.items out.new.items }
    ensures written { OnOk result (out.new.items ≡ out.old.items ++ bytes.now) }
{
    out.extend_from_slice(bytes)
}

/// Appends a space and a word.
pub fn put_word(out: &mut Vec<u8>, word: &[u8]) -> Result<(), AllocError>
    ensures kept { Kept out.old.items out.new.items }
    ensures written { OnOk result (out.new.items ≡ out.old.items ++ 32 ∷ word.now) }
{
    put_bytes(out, b" ")?;
    put_bytes(out, word)
}

/// Appends a number.
pub fn put_number(out: &mut Vec<u8>, number: u64) -> Result<(), AllocError>
    ensures kept { Kept out.old.items out.new.items }
    ensures written { OnOk result (out.new.items ≡ out.old.items ++ decimal number) }
{
    if number < 10 {
        return put_digit(out, number as u8);
    }
    let mut buffer = Buffer::new();
    put_bytes(out, buffer.format(number).as_bytes())
}

/// Appends a number of one digit.
#[tactic(auto, using(std::proofs::lemmas::Fmt::decimal_digit))]
fn put_digit(out: &mut Vec<u8>, digit: u8) -> Result<(), AllocError>
    requires { digit < 10 }
    ensures kept { Kept out.old.items out.new.items }
    ensures written { OnOk result (out.new.items ≡ out.old.items ++ decimal digit) }
{
    out.push(b'0' + digit)?;
    Ok(())
}

/// Appends a signed number.
pub fn put_signed(out: &mut Vec<u8>, number: i32) -> Result<(), AllocError>
    ensures kept { Kept out.old.items out.new.items }
    ensures written { OnOk result (out.new.items ≡ out.old.items ++ signed_decimal number) }
{
    let mut buffer = Buffer::new();
    put_bytes(out, buffer.format(number).as_bytes())
}

/// The digit of a number below 16, in lower case.
fn hex_digit(digit: u8) -> u8
    requires { digit < 16 }
    ensures { result ≡ digit_glyph false digit }
{
    if digit < 10 {
        b'0' + digit
    } else {
        b'a' - 10 + digit
    }
}

/// Appends the 16 hexadecimal digits of a mask.
pub fn put_mask(out: &mut Vec<u8>, mask: u64) -> Result<(), AllocError>
    ensures kept { Kept out.old.items out.new.items }
    ensures written { OnOk result (out.new.items ≡ out.old.items ++ hex_word 16 mask) }
{
    let digits = mask_digits(mask);
    put_bytes(out, &digits)
}

/// The 16 hexadecimal digits of a mask.
#[tactic(auto, using(crate::proofs::HexDigits::hex_back, crate::proofs::HexDigits::hex_none))]
fn mask_digits(mask: u64) -> [u8; 16]
    ensures { result ≡ hex_word 16 mask }
{
    let mut digits = [0u8; 16];
    let mut rest = mask;
    for place in (0..16).rev() {
        digits[place] = hex_digit((rest % 16) as u8);
        rest /= 16;
    }
    digits
}

/// Appends the reasons of a set, in their order and parted by commas.
#[tactic(auto, using(crate::proofs::Listed::left_start, crate::proofs::Listed::left_yes, crate::proofs::Listed::left_no, crate::proofs::Listed::left_end))]
pub fn put_reasons(out: &mut Vec<u8>, reasons: Reasons) -> Result<(), AllocError>
    ensures kept { Kept out.old.items out.new.items }
    ensures written { OnOk result (out.new.items ≡ out.old.items ++ reasons_word reasons) }
{
    let mut rest = reasons.bits();
    let mut is_first = true;
    for bit in 0..7 {
        if rest % 2 == 1 {
            put_name(out, reason_name(bit), is_first)?;
            is_first = false;
        }
        rest /= 2;
    }
    Ok(())
}

/// Appends a name, behind a comma if it is not the first.
fn put_name(out: &mut Vec<u8>, name: &[u8], is_first: bool) -> Result<(), AllocError>
    ensures kept { Kept out.old.items out.new.items }
    ensures written { OnOk result (out.new.items ≡ out.old.items ++ (if is_first then name.now else 44 ∷ name.now)) }
{
    if !is_first {
        put_bytes(out, b",")?;
    }
    put_bytes(out, name)
}

/// Appends the reasons that are pending, or a minus.
pub fn put_pending(out: &mut Vec<u8>, reasons: Reasons) -> Result<(), AllocError>
    ensures kept { Kept out.old.items out.new.items }
    ensures written { OnOk result (out.new.items ≡ out.old.items ++ pending_word reasons) }
{
    if reasons.is_empty() {
        put_bytes(out, b"-")
    } else {
        put_reasons(out, reasons)
    }
}
