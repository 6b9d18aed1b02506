//! Times the calls of a board. The one word of the command is how often each is made, and a line tells the nanoseconds of
//! each; with no word nothing is timed.
#![tactic(auto)]

mod caller;
mod drawn;
mod drive;
mod driven;
mod has;
mod laid;
mod pair;
mod rounds;
mod scripts;
#[cfg(test)]
mod tests;
mod work;

use rounds::{
    body_alone, cycle_alone, cycle_apart, draw_alone, shared_alone, wake_alone, wake_together,
};
use std::{env, io};

fn main(rt: HostRuntime) -> io::Result<()> {
    let mut words = env::args(&rt)?.skip(1);
    let Some(word) = words.next() else {
        return Ok(());
    };
    let times = word.parse::<u32>().unwrap_or(0);
    let rows = [
        ("wake_alone", wake_alone(&rt, times)?),
        ("cycle_alone", cycle_alone(&rt, times)?),
        ("cycle_apart", cycle_apart(&rt, &rt, times)?),
        ("wake_together", wake_together(&rt, &rt, times)?),
        ("draw_alone", draw_alone(&rt, times)?),
        ("body_alone", body_alone(&rt, times)?),
        ("shared_alone", shared_alone(&rt, times)?),
    ];
    for (name, tenths) in rows {
        println!(rt; "{name} {}.{}", tenths / 10, tenths % 10)?;
    }
    Ok(())
}
