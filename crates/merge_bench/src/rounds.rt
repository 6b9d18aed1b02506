//! Rounds of merging and of applying, and the best times.

ghost use Rattle.std.specs.Prelude.{◌≡◌, ◌+◌, ◌-◌, ◌^◌, ◌<◌, ◌≤◌, length, OnOk};
ghost use Rattle.merge_bench.specs.Histories.{IsShape, AreCut};

use crate::histories::Shape;
use crate::merges::{cut, lead};
use history_weave::Weaver;
use std::fmt::{self, Display, Formatter, Write};
use std::io;
use std::time::Instant;
use task_machine::{Entry, Log, Machine};

/// Tenths of nanoseconds for one entry.
#[derive(Drop)]
pub(crate) struct Times {
    weave: u64,
    apply: u64,
}

impl Display for Times {
    fn fmt<W: Write>(&self, f: &mut Formatter<W>) -> fmt::Result {
        let named = [("weave", self.weave), ("apply", self.apply)];
        for (name, tenths) in named {
            write!(f, " {name} {}.{}", tenths / 10, tenths % 10)?;
        }
        Ok(())
    }
}

/// Tenths of nanoseconds since then, for each of so many entries.
fn since(rt: &HostRuntime, start: &Instant, entries: usize) -> io::Result<u64> {
    let spent = u64::try_from(start.elapsed(rt)?.as_nanos()).unwrap_or(u64::MAX);
    Ok(spent.saturating_mul(10) / entries.max(1) as u64)
}

/// One round: the entries applied to a new machine, and their logs merged again. There are no times
/// where the entries are no legal history.
fn round(
    rt: &HostRuntime,
    shape: Shape,
    entries: &[Entry],
    logs: &[Log],
    weaver: &mut Weaver,
) -> io::Result<Option<Times>>
    requires shape { IsShape shape }
    requires few { length entries.now < 2 ^ 32 }
    requires cut { AreCut logs.now (shape.workers + 1) entries.now }
    requires tasks { weaver.old.tasks ≡ shape.tasks }
    requires workers { weaver.old.workers ≡ shape.workers }
    requires reserved { length entries.now ≤ weaver.old.room }
    ensures same { OnOk result (weaver.new ≡ record weaver.old { entries = weaver.new.entries }) }
{
    let mut machine = Machine::new(rt.alloc(), shape.tasks, shape.workers)?;
    let start = Instant::now(rt)?;
    let legal = lead(&mut machine, entries);
    let apply = since(rt, &start, entries.len())?;
    if !legal {
        return Ok(None);
    }
    let mut machine = Machine::new(rt.alloc(), shape.tasks, shape.workers)?;
    let start = Instant::now(rt)?;
    weaver.weave(&mut machine, logs);
    let weave = since(rt, &start, entries.len())?;
    Ok(Some(Times { weave, apply }))
}

/// The best of five rounds, if the entries are a legal history.
pub(crate) fn measure(
    rt: &HostRuntime,
    shape: Shape,
    entries: &[Entry],
) -> io::Result<Option<Times>>
    requires { IsShape shape }
{
    if entries.len() > u32::MAX as usize {
        return Ok(None);
    }
    let logs = cut(rt.alloc(), entries, shape.workers as usize + 1)?;
    let mut weaver = Weaver::new(rt.alloc(), shape.tasks, shape.workers)?;
    weaver.reserve(entries.len())?;
    let mut best = Times {
        weave: u64::MAX,
        apply: u64::MAX,
    };
    for _ in 0..5u32 {
        let Some(times) = round(rt, shape, entries, &logs, &mut weaver)? else {
            return Ok(None);
        };
        best = Times {
            weave: best.weave.min(times.weave),
            apply: best.apply.min(times.apply),
        };
    }
    Ok(Some(best))
}
