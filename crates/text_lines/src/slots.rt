//! The slots of a line, and the values that stand in them.

ghost use Rattle.std.specs.Prelude.{◌≡◌, ◌<◌, ◌^◌, option_map, slice_get};
ghost use Rattle.text_lines.specs.Slots.{value_of, values_of, in_small, in_number, in_reasons, in_index, in_text, small_at, number_at, reasons_at, index_at, text_at};

use sched_base::Reasons;

/// What may stand in one place of a line.
#[derive(Clone, Copy)]
pub enum Slot {
    /// This word, which has no value.
    Word(&'static [u8]),
    /// Any word.
    Any,
    /// A number below 2^32.
    Small,
    /// A number below 2^48.
    Large,
    /// The 16 hexadecimal digits of a mask.
    Mask,
    /// A reason list.
    Reasons,
    /// A reason list, or a minus for none.
    Pending,
    /// One of these words, which all differ.
    Choice(&'static [&'static [u8]]),
    /// A name.
    Name,
}

/// The value in a slot.
#[derive(Clone, Copy)]
pub enum Value<'a> {
    Small(u32),
    /// A large number, or a mask.
    Number(u64),
    /// Reasons that are listed, or pending.
    Reasons(Reasons),
    /// The place of the word among those of a choice.
    Index(usize),
    /// A name, or any word.
    Text(&'a [u8]),
}

impl Default for Value<'_> {
    fn default() -> Self {
        Value::Small(0)
    }
}

/// A row of a table: its first word, and the slots behind it.
#[derive(Clone, Copy)]
pub struct Row {
    pub name: &'static [u8],
    pub slots: &'static [Slot],
}

/// The small number of a value, else 0.
fn small_in(value: Option<&Value<'_>>) -> u32
    ensures { result ≡ in_small (option_map (λ v. value_of v.now) value.entry) }
{
    match value {
        Some(Value::Small(number)) => *number,
        _ => 0,
    }
}

/// The large number or the mask of a value, else 0.
fn number_in(value: Option<&Value<'_>>) -> u64
    ensures { result ≡ in_number (option_map (λ v. value_of v.now) value.entry) }
{
    match value {
        Some(Value::Number(number)) => *number,
        _ => 0,
    }
}

/// The reasons of a value, else none.
fn reasons_in(value: Option<&Value<'_>>) -> Reasons
    ensures { result ≡ in_reasons (option_map (λ v. value_of v.now) value.entry) }
{
    match value {
        Some(Value::Reasons(reasons)) => *reasons,
        _ => Reasons::EMPTY,
    }
}

/// The place of a value, else 0.
fn index_in(value: Option<&Value<'_>>) -> usize
    ensures { result ≡ in_index (option_map (λ v. value_of v.now) value.entry) }
{
    match value {
        Some(Value::Index(place)) => *place,
        _ => 0,
    }
}

/// The word of a value, else no byte.
fn text_in<'a>(value: Option<&Value<'a>>) -> &'a [u8]
    ensures { result.now ≡ in_text (option_map (λ v. value_of v.now) value.entry) }
{
    match value {
        Some(Value::Text(word)) => word,
        _ => &[],
    }
}

/// The small number at a place, or 0 where there is none.
#[tactic(auto, using(crate::proofs::ListViews::get_mapped))]
pub fn small_at(values: &[Value<'_>], place: usize) -> u32
    ensures { result ≡ small_at (values_of values.now) place }
{
    small_in(values.get(place))
}

/// The large number or the mask at a place, or 0 where there is none.
#[tactic(auto, using(crate::proofs::ListViews::get_mapped))]
pub fn number_at(values: &[Value<'_>], place: usize) -> u64
    ensures { result ≡ number_at (values_of values.now) place }
{
    number_in(values.get(place))
}

/// The reasons at a place, or none where there are none.
#[tactic(auto, using(crate::proofs::ListViews::get_mapped))]
pub fn reasons_at(values: &[Value<'_>], place: usize) -> Reasons
    ensures { result ≡ reasons_at (values_of values.now) place }
{
    reasons_in(values.get(place))
}

/// The place of the word of a choice at a place, or 0 where there is none.
#[tactic(auto, using(crate::proofs::ListViews::get_mapped))]
pub fn index_at(values: &[Value<'_>], place: usize) -> usize
    ensures { result ≡ index_at (values_of values.now) place }
{
    index_in(values.get(place))
}

/// The word at a place, or no byte where there is none.
#[tactic(auto, using(crate::proofs::ListViews::get_mapped))]
pub fn text_at<'a>(values: &[Value<'a>], place: usize) -> &'a [u8]
    ensures { result.now ≡ text_at (values_of values.now) place }
{
    text_in(values.get(place))
}
