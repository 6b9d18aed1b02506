//! Text in parts.

ghost use Rattle.std.specs.Prelude.{◌≡◌, ◌++◌, OnOk};
ghost use Rattle.text_lines.specs.Added.{Kept};
ghost use Rattle.run_picture.specs.Parts.{part_text, parts_text};

use std::alloc::AllocError;
use text_lines::{put_bytes, put_number};

/// A part of a text.
#[derive(Clone, Copy)]
pub(crate) enum Part<'a> {
    Text(&'a [u8]),
    Number(u64),
}

/// Appends a part.
fn put_part(out: &mut Vec<u8>, part: &Part<'_>) -> Result<(), AllocError>
    ensures kept { Kept out.old.items out.new.items }
    ensures written { OnOk result (out.new.items ≡ out.old.items ++ part_text part.now) }
{
    match part {
        Part::Text(text) => put_bytes(out, text),
        Part::Number(number) => put_number(out, *number),
    }
}

/// Appends parts, one after another.
pub(crate) fn put(out: &mut Vec<u8>, parts: &[Part<'_>]) -> Result<(), AllocError>
    ensures kept { Kept out.old.items out.new.items }
    ensures written { OnOk result (out.new.items ≡ out.old.items ++ parts_text parts.now) }
{
    for part in parts {
        put_part(out, part)?;
    }
    Ok(())
}
