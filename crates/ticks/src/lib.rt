//! Ticks: times in milliseconds modulo 2^32, where 0 stands for never (docs/MODEL.md, "Ticks").
//!
//! Two ticks compare by their wrapped difference, read as a signed number of 32 bits.
#![tactic(auto)]

ghost use Rattle.std.specs.Prelude.{◌≡◌};
ghost use Rattle.queue_model.specs.Ticks as model;
ghost use Rattle.ticks.specs.Earlier.{is_before, earlier, later_if_set};

#[cfg(test)]
mod tests;

/// The tick that never comes.
pub const ETERNITY: u32 = 0;

/// Whether a tick is one that comes at all.
pub fn is_set(t: u32) -> bool
    ensures { result ≡ model.is_set t }
{
    t != ETERNITY
}

/// The tick `delay` milliseconds after `now`. Where that would be 0 it is 1.
pub fn add(now: u32, delay: u32) -> u32
    ensures { result ≡ model.later now delay }
{
    match now.wrapping_add(delay) {
        ETERNITY => 1,
        tick => tick,
    }
}

/// The tick `delay` milliseconds after `now`, or `ETERNITY` where there is no delay.
pub fn add_ifset(now: u32, delay: u32) -> u32
    ensures { result ≡ later_if_set now delay }
{
    if delay == 0 {
        ETERNITY
    } else {
        add(now, delay)
    }
}

/// How far `t` lies ahead of `now`, in milliseconds; negative where it lies behind.
pub fn distance(t: u32, now: u32) -> i32
    ensures { result ≡ model.distance t now }
{
    t.wrapping_sub(now).cast_signed()
}

/// Whether `t` is set and `now` has reached it.
pub fn is_expired(t: u32, now: u32) -> bool
    ensures { result ≡ model.is_expired t now }
{
    is_set(t) && distance(t, now) <= 0
}

/// Whether `a` lies before `b`.
pub fn is_lt(a: u32, b: u32) -> bool
    ensures { result ≡ is_before a b }
{
    distance(a, b) < 0
}

/// The earlier one of two ticks. An unset one is the answer only where both are.
pub fn first(a: u32, b: u32) -> u32
    ensures { result ≡ earlier a b }
{
    if !is_set(a) {
        b
    } else if !is_set(b) || distance(a, b) <= 0 {
        a
    } else {
        b
    }
}
