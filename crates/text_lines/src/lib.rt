//! What all texts are made of: lines and words, numbers, names, reason lists, and shapes as data.
#![tactic(auto)]

mod cursor;
mod limits;
mod naming;
mod numerals;
mod putting;
mod reason_words;
mod shapes;
mod slots;
#[cfg(test)]
mod tests;

pub use cursor::{Words, next_line, next_piece};
pub use limits::{is_line, line_over};
pub use naming::{is_name, place_in};
pub use numerals::{hex, number, signed};
pub use putting::{
    put_bytes, put_mask, put_number, put_pending, put_reasons, put_signed, put_word,
};
pub use reason_words::{pending, reasons};
pub use shapes::{Values, front, put_line, put_row, put_slots, whole};
pub use slots::{Row, Slot, Value, index_at, number_at, reasons_at, small_at, text_at};
