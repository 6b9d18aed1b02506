//! Words read by the slots of a shape, and values written by them.

ghost use Rattle.std.specs.Prelude.{◌≡◌, ◌+◌, ◌<◌, ◌≤◌, ◌++◌, OnOk, option_map, map, length, slice_index_or, []};
ghost use Rattle.text_lines.specs.Pieces.{words_in};
ghost use Rattle.text_lines.specs.Numbers.{number};
ghost use Rattle.text_lines.specs.Added.{Kept, spaced, spelled};
ghost use Rattle.text_lines.specs.Slots.{slot_of, slots_of, row_of, value_of, values_of};
ghost use Rattle.text_lines.specs.Shapes.{value_in, taken, taken_view, value_count, front, whole, behind, spelled_in, words, row_words};

use crate::cursor::Words;
use crate::naming::{is_name, place_in};
use crate::numerals::{hex, number};
use crate::putting::{put_bytes, put_mask, put_number, put_pending, put_reasons, put_word};
use crate::reason_words::{pending, reasons};
use crate::slots::{Row, Slot, Value, index_at, number_at, reasons_at, small_at, text_at};
use arrayvec::ArrayVec;
use std::alloc::AllocError;

/// The values of the slots of a shape.
pub type Values<'a> = ArrayVec<Value<'a>, 4>;

/// A number below 2^32.
fn small(word: &[u8]) -> Option<u32>
    ensures { result ≡ number 4294967295 word.now }
{
    match number(word, 4_294_967_295) {
        Some(value) => Some(value as u32),
        None => None,
    }
}

/// The value of a word in a slot that has one.
fn value_in<'a>(slot: &Slot, word: &'a [u8]) -> Option<Value<'a>>
    ensures { option_map value_of result ≡ value_in (slot_of slot.now) word.now }
{
    match slot {
        Slot::Word(_) => None,
        Slot::Any => Some(Value::Text(word)),
        Slot::Small => Some(Value::Small(small(word)?)),
        Slot::Large => Some(Value::Number(number(word, 281_474_976_710_655)?)),
        Slot::Mask => Some(Value::Number(hex(word)?)),
        Slot::Reasons => Some(Value::Reasons(reasons(word)?)),
        Slot::Pending => Some(Value::Reasons(pending(word)?)),
        Slot::Choice(words) => Some(Value::Index(place_in(words, word)?)),
        Slot::Name => {
            if is_name(word) {
                Some(Value::Text(word))
            } else {
                None
            }
        }
    }
}

/// What a word is in a slot.
#[derive(Clone, Copy)]
enum Found<'a> {
    /// It may not stand there.
    Refused,
    /// The fixed word of the slot.
    Fixed,
    /// A word with a value.
    Holds(Value<'a>),
}

/// What a word is in a slot.
fn taken<'a>(slot: &Slot, word: &'a [u8]) -> Found<'a>
    ensures { taken_view result ≡ taken (slot_of slot.now) word.now }
{
    match slot {
        Slot::Word(text) => {
            if *text == word {
                Found::Fixed
            } else {
                Found::Refused
            }
        }
        _ => match value_in(slot, word) {
            Some(value) => Found::Holds(value),
            None => Found::Refused,
        },
    }
}

/// The values of the words in front, slot by slot, and the words behind them.
pub fn front<'a>(slots: &[Slot], words: Words<'a>) -> Option<(Values<'a>, Words<'a>)>
    requires { value_count (slots_of slots.now) ≤ 4 }
    ensures { option_map (λ r. (values_of r.0.items, words_in r.1)) result ≡ front (slots_of slots.now) (words_in words.entry) }
{
    let mut values = ArrayVec::new();
    let mut rest = words;
    for slot in slots {
        let Some((word, more)) = rest.first() else {
            return None;
        };
        match taken(slot, word) {
            Found::Refused => return None,
            Found::Fixed => {}
            Found::Holds(value) => values.push(value),
        }
        rest = more;
    }
    Some((values, rest))
}

/// The values of the words, where no word is left.
#[tactic(auto, unfolding(crate::specs::Shapes::whole))]
pub fn whole<'a>(slots: &[Slot], words: Words<'a>) -> Option<Values<'a>>
    requires { value_count (slots_of slots.now) ≤ 4 }
    ensures { option_map (λ vs. values_of vs.items) result ≡ whole (slots_of slots.now) (words_in words.entry) }
{
    match front(slots, words) {
        Some((values, rest)) => { if rest.is_at_end() { Some(values) } else { None } }
        None => None,
    }
}

/// Appends the word of a slot, of which the value stands first.
#[inline(always)]
fn put_in(out: &mut Vec<u8>, slot: &Slot, values: &[Value<'_>]) -> Result<(), AllocError>
    ensures kept { Kept out.old.items out.new.items }
    ensures written { OnOk result (out.new.items ≡ out.old.items ++ spelled_in (slot_of slot.now) (values_of values.now)) }
{
    match slot {
        Slot::Word(text) => put_bytes(out, text),
        Slot::Any | Slot::Name => put_bytes(out, text_at(values, 0)),
        Slot::Small => put_number(out, u64::from(small_at(values, 0))),
        Slot::Large => put_number(out, number_at(values, 0)),
        Slot::Mask => put_mask(out, number_at(values, 0)),
        Slot::Reasons => put_reasons(out, reasons_at(values, 0)),
        Slot::Pending => put_pending(out, reasons_at(values, 0)),
        Slot::Choice(words) => put_bytes(out, choice_at(words, index_at(values, 0))),
    }
}

/// The word at a place, or no byte where there is none.
#[inline(always)]
#[tactic(auto, using(crate::proofs::ListViews::index_there, crate::proofs::ListViews::index_missing))]
fn choice_at(words: &'static [&'static [u8]], place: usize) -> &'static [u8]
    ensures { result.now ≡ slice_index_or (map (λ w. w.now) words.now) place [] }
{
    match words.get(place) {
        Some(word) => word,
        None => &[],
    }
}

/// The values of the slots behind a slot.
#[inline(always)]
fn values_behind<'s, 'a>(slot: &Slot, values: &'s [Value<'a>]) -> &'s [Value<'a>]
    ensures { values_of result.now ≡ behind (slot_of slot.now) (values_of values.now) }
{
    match slot {
        Slot::Word(_) => values,
        _ => match values {
            [] => values,
            [_, more @ ..] => more,
        },
    }
}

/// Appends the words of a shape, each behind a space.
#[inline(always)]
#[tactic(auto, unfolding(crate::specs::Shapes::words))]
pub fn put_slots(out: &mut Vec<u8>, slots: &[Slot], values: &[Value<'_>]) -> Result<(), AllocError>
    ensures kept { Kept out.old.items out.new.items }
    ensures written { OnOk result (out.new.items ≡ out.old.items ++ spaced (words (slots_of slots.now) (values_of values.now))) }
{
    let mut left = values;
    for slot in slots {
        put_bytes(out, b" ")?;
        put_in(out, slot, left)?;
        left = values_behind(slot, left);
    }
    Ok(())
}

/// Appends the words of a row of a table, each behind a space.
#[inline(always)]
pub fn put_row(out: &mut Vec<u8>, row: &Row, values: &[Value<'_>]) -> Result<(), AllocError>
    ensures kept { Kept out.old.items out.new.items }
    ensures written { OnOk result (out.new.items ≡ out.old.items ++ spaced (row_words (row_of row.now) (values_of values.now))) }
{
    put_word(out, row.name)?;
    put_slots(out, row.slots, values)
}

/// Appends the line of a row: its words with spaces between them, and a line feed.
pub fn put_line(out: &mut Vec<u8>, row: &Row, values: &[Value<'_>]) -> Result<(), AllocError>
    ensures kept { Kept out.old.items out.new.items }
    ensures written { OnOk result (out.new.items ≡ out.old.items ++ spelled (row_words (row_of row.now) (values_of values.now))) }
{
    put_bytes(out, row.name)?;
    put_slots(out, row.slots, values)?;
    put_bytes(out, b"\n")
}
