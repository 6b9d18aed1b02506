//! Times the calls of a forest. The words of the command are a name, a number of entries and a mask
//! for their keys, any number of times. For each three it writes a line with the nanoseconds that
//! one call of each kind takes, the best of five rounds.
#![tactic(auto)]

mod rounds;
#[cfg(test)]
mod tests;
mod work;

use rounds::{Times, measure};
use std::marker::Brand;
use std::sync::ledger::Blank;
use std::{env, io};

/// The best times for so many entries.
fn best(rt: &HostRuntime, entries: u32, mask: u32) -> io::Result<Times> {
    measure::<Brand>(rt, Blank::new(1), entries, mask)
}

fn main(rt: HostRuntime) -> io::Result<()> {
    let mut words = env::args(&rt)?.skip(1);
    while let Some(name) = words.next() {
        let (Some(entries), Some(mask)) = (words.next(), words.next()) else {
            break;
        };
        let (Ok(entries), Ok(mask)) = (entries.parse::<u32>(), mask.parse::<u32>()) else {
            break;
        };
        let best = best(&rt, entries, mask)?;
        println!(rt; "{name}_{entries} {best}")?;
    }
    Ok(())
}
