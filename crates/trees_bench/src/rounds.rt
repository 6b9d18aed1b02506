//! Rounds of work, and the best time of each kind of call.

ghost use Rattle.std.specs.Prelude.{◌≡◌, ◌+◌, ◌*◌, ◌^◌, ◌<◌, length, slice_index, OnOk};
ghost use Rattle.trees_bench.specs.Filled.{HasOneRoot, AllFree, Grows};

use crate::work::{Draws, churn, clear, fill, look_up, walk};
use eb32_core::Forest;
use sched_base::Steps;
use std::fmt::{self, Display, Formatter, Write};
use std::io;
use std::sync::ledger::{Blank, Ledger};
use std::time::Instant;

/// Tenths of nanoseconds for one call of each kind, and the sum of the keys that were read.
#[derive(Drop)]
pub(crate) struct Times {
    insert: u64,
    walk: u64,
    look_up: u64,
    churn: u64,
    delete: u64,
    sum: u32,
}

impl Display for Times {
    fn fmt<W: Write>(&self, f: &mut Formatter<W>) -> fmt::Result {
        let named = [
            ("insert", self.insert),
            ("walk", self.walk),
            ("lookup_ge", self.look_up),
            ("churn", self.churn),
            ("delete", self.delete),
        ];
        for (name, tenths) in named {
            write!(f, "{name} {}.{} ", tenths / 10, tenths % 10)?;
        }
        write!(f, "sum {}", self.sum)
    }
}

/// Tenths of nanoseconds since then, for each of so many calls.
fn since(rt: &HostRuntime, start: &Instant, calls: u32) -> io::Result<u64> {
    let spent = u64::try_from(start.elapsed(rt)?.as_nanos()).unwrap_or(u64::MAX);
    Ok(spent.saturating_mul(10) / u64::from(calls.max(1)))
}

/// One round: the forest is empty before it and afterwards.
fn round<L: Ledger>(
    rt: &HostRuntime,
    forest: &mut Forest,
    mask: u32,
    steps: &mut Steps<L>,
) -> io::Result<Times>
    requires root { HasOneRoot forest.old }
    requires free { AllFree forest.old }
    requires room { slice_index forest.old.made 0 + 2 * length forest.old.parts.elements < 2 ^ 63 }
    ensures free { OnOk result (AllFree forest.new) }
    ensures grows { OnOk result (Grows (2 * length forest.old.parts.elements) forest.old forest.new) }
{
    let calls = forest.arena().entries();
    let mut draws = Draws::new();
    let start = Instant::now(rt)?;
    fill(forest, mask, &mut draws, steps);
    let insert = since(rt, &start, calls)?;
    let start = Instant::now(rt)?;
    let walked = walk(forest.arena());
    let walk = since(rt, &start, calls)?;
    let start = Instant::now(rt)?;
    let found = look_up(forest.arena(), mask, &mut draws);
    let look_up = since(rt, &start, calls)?;
    let start = Instant::now(rt)?;
    churn(forest, mask, &mut draws, steps);
    let churn = since(rt, &start, calls)?;
    let start = Instant::now(rt)?;
    clear(forest, steps);
    let delete = since(rt, &start, calls)?;
    let sum = walked.wrapping_add(found);
    Ok(Times {
        insert,
        walk,
        look_up,
        churn,
        delete,
        sum,
    })
}

/// The best of five rounds over one forest.
pub(crate) fn measure<L: Ledger>(
    rt: &HostRuntime,
    blank: Blank,
    entries: u32,
    mask: u32,
) -> io::Result<Times>
    requires name { blank.name ≡ L.name }
    requires parts { blank.parts ≡ L.parts }
    requires some { 0 < L.parts }
{
    let mut steps = Steps::<L>::new(blank);
    let Ok(mut forest) = Forest::new(rt.alloc(), 1, entries.min(1 << 30)) else {
        return Err(io::ErrorKind::OutOfMemory.into());
    };
    let mut best = round(rt, &mut forest, mask, &mut steps)?;
    for _ in 0..4u32 {
        let times = round(rt, &mut forest, mask, &mut steps)?;
        best = Times {
            insert: best.insert.min(times.insert),
            walk: best.walk.min(times.walk),
            look_up: best.look_up.min(times.look_up),
            churn: best.churn.min(times.churn),
            delete: best.delete.min(times.delete),
            sum: times.sum,
        };
    }
    Ok(best)
}
