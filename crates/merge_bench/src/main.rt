//! Times the merge of callers' logs. The words of the command are a name and a number of entries,
//! any number of times: `random` is a history of 4,096 tasks by 17 callers, `led` one of a single task
//! by three, and `woken` one of a single task that three callers wake. For each two it writes a line
//! with the nanoseconds that one entry takes to be merged, and to be applied to a machine alone, the
//! best of five rounds.
#![tactic(auto)]

ghost use Rattle.merge_bench.specs.Histories.{IsShape};

mod histories;
mod merges;
mod rounds;
#[cfg(test)]
mod tests;

use histories::{Shape, random_history, woken_by_three};
use rounds::{Times, measure};
use std::{env, io};

const RANDOM: Shape = Shape {
    tasks: 4096,
    workers: 16,
    one_in: 65536,
    shared: false,
};

const ONE_TASK: Shape = Shape {
    tasks: 1,
    workers: 2,
    one_in: 1 << 30,
    shared: false,
};

/// The best times of a random history.
fn random(rt: &HostRuntime, shape: Shape, count: u32) -> io::Result<Option<Times>>
    requires { IsShape shape }
{
    let history = random_history(rt.alloc(), shape, 42, count)?;
    measure(rt, shape, history.as_slice())
}

/// The best times of the history of this name.
fn best(rt: &HostRuntime, name: &str, count: u32) -> io::Result<Option<Times>> {
    match name {
        "random" => random(rt, RANDOM, count),
        "led" => random(rt, ONE_TASK, count),
        "woken" => measure(rt, ONE_TASK, woken_by_three(rt.alloc(), count)?.as_slice()),
        _ => Ok(None),
    }
}

fn main(rt: HostRuntime) -> io::Result<()> {
    let mut words = env::args(&rt)?.skip(1);
    while let Some(name) = words.next() {
        let Some(count) = words.next() else {
            break;
        };
        let Ok(count) = count.parse::<u32>() else {
            break;
        };
        if let Some(best) = best(&rt, &name, count)? {
            println!(rt; "{name}_{count} {best}")?;
        }
    }
    Ok(())
}
