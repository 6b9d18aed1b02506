//! The numbers that words write, and the ranges that they are held to.

ghost use Rattle.std.specs.Prelude.{◌≡◌, ℕ, ◌<◌, ◌^◌, false};
ghost use Rattle.step_tables.specs.Judging.{value, signed_value, no_number, no_signed, outside, outside_nice, place_no_number, place_outside, delay_no_number, delay_outside, kind_of, expiry_of};
ghost use Rattle.step_tables.specs.Views.{place_view, delay_view};

use crate::limits::MOST_DELAY;
use crate::shapes::{Delay, Place};
use crate::tables::{Expiry, Kind};
use crate::words::{number_of, signed_of};

/// The number of a word, where it writes one, else 0.
#[tactic(auto, unfolding(crate::specs::Judging::value))]
pub(crate) fn value(word: &[u8]) -> u64
    ensures { result ≡ value word.now }
{
    number_of(word).unwrap_or(0)
}

/// The signed number of a word, where it writes one, else 0.
#[tactic(auto, unfolding(crate::specs::Judging::signed_value))]
pub(crate) fn signed_value(word: &[u8]) -> i64
    ensures { result ≡ signed_value word.now }
{
    signed_of(word).unwrap_or(0)
}

/// Whether the word writes no number.
#[tactic(auto, unfolding(crate::specs::Judging::no_number))]
pub(crate) fn no_number(word: &[u8]) -> bool
    ensures { result ≡ no_number word.now }
{
    number_of(word).is_none()
}

/// Whether the word writes no signed number.
#[tactic(auto, unfolding(crate::specs::Judging::no_signed))]
fn no_signed(word: &[u8]) -> bool
    ensures { result ≡ no_signed word.now }
{
    signed_of(word).is_none()
}

/// Whether n is not from `low` to `high`.
pub(crate) fn outside(low: u32, high: u32, n: u64) -> bool
    ensures { result ≡ outside low high n }
{
    n < low as u64 || (high as u64) < n
}

/// Whether n is no nice.
fn outside_nice(n: i64) -> bool
    ensures { result ≡ outside_nice n }
{
    n < -1024 || 1024 < n
}

/// Whether a word in a number's place writes none.
#[tactic(auto, unfolding(crate::specs::Judging::place_no_number))]
pub(crate) fn place_no_number(place: Place<'_>) -> bool
    ensures { result ≡ place_no_number (place_view place.entry) }
{
    match place {
        Place::Pinned { home, nice } => no_number(home) || no_signed(nice),
        Place::Shared { nice } => no_signed(nice),
        Place::Tasklet { home, class: _ } => no_number(home),
    }
}

/// Whether a number of the place is out of its range.
#[tactic(auto, unfolding(crate::specs::Judging::place_outside))]
pub(crate) fn place_outside(workers: u32, place: Place<'_>) -> bool
    ensures { result ≡ place_outside workers (place_view place.entry) }
{
    match place {
        Place::Pinned { home, nice } => {
            workers as u64 <= value(home) || outside_nice(signed_value(nice))
        }
        Place::Shared { nice } => outside_nice(signed_value(nice)),
        Place::Tasklet { home, class: _ } => workers as u64 <= value(home),
    }
}

/// Whether the word of an expiry writes no number.
#[tactic(auto, unfolding(crate::specs::Judging::delay_no_number))]
pub(crate) fn delay_no_number(delay: Delay<'_>) -> bool
    ensures { result ≡ delay_no_number (delay_view delay.entry) }
{
    match delay {
        Delay::Keeps | Delay::Never => false,
        Delay::After(ticks) => no_number(ticks),
    }
}

/// Whether the number of an expiry is out of its range.
#[tactic(auto, unfolding(crate::specs::Judging::delay_outside))]
pub(crate) fn delay_outside(delay: Delay<'_>) -> bool
    ensures { result ≡ delay_outside (delay_view delay.entry) }
{
    match delay {
        Delay::Keeps | Delay::Never => false,
        Delay::After(ticks) => outside(1, MOST_DELAY, value(ticks)),
    }
}

/// A number from `low` to `high`.
pub(crate) fn number_within(low: u32, high: u32, word: &[u8]) -> u32
    requires { outside low high (value word.now) ≡ false }
    ensures { result ≡ value word.now }
{
    value(word) as u32
}

/// The nice that a word writes.
fn nice_of(word: &[u8]) -> i32
    requires { outside_nice (signed_value word.now) ≡ false }
    ensures { result ≡ signed_value word.now }
{
    signed_value(word) as i32
}

/// The kind of task that a place within its ranges says.
#[tactic(auto, unfolding(crate::specs::Judging::place_outside, crate::specs::Judging::kind_of))]
pub(crate) fn kind_of(workers: u32, place: Place<'_>) -> Kind
    requires { place_outside workers (place_view place) ≡ false }
    ensures { result ≡ kind_of (place_view place.entry) }
{
    match place {
        Place::Pinned { home, nice } => Kind::Pinned {
            home: value(home) as u32,
            nice: nice_of(nice),
        },
        Place::Shared { nice } => Kind::Shared {
            nice: nice_of(nice),
        },
        Place::Tasklet { home, class } => Kind::Tasklet {
            home: value(home) as u32,
            class,
        },
    }
}

/// The expiry that an expiry within its range says.
#[tactic(auto, unfolding(crate::specs::Judging::delay_outside, crate::specs::Judging::expiry_of))]
pub(crate) fn expiry_of(delay: Delay<'_>) -> Expiry
    requires { delay_outside (delay_view delay) ≡ false }
    ensures { result ≡ expiry_of (delay_view delay.entry) }
{
    match delay {
        Delay::Keeps => Expiry::Keep,
        Delay::After(ticks) => Expiry::After(number_within(1, MOST_DELAY, ticks)),
        Delay::Never => Expiry::Never,
    }
}
