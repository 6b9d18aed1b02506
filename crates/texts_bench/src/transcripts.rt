//! Times for a transcript.

ghost use Rattle.std.specs.Prelude.{◌≡◌, ◌<◌};
ghost use Rattle.std.specs.List.{All};
ghost use Rattle.transcript.specs.HasText.{HasTextLine, HasTextEntry};

use crate::times::{Times, check, since};
use std::io;
use std::time::Instant;
use task_machine::Entry;
use transcript::{Line, Transcript, write_end, write_head, write_round};

/// Writes a round, and answers the nanoseconds that it took.
fn timed_round(
    rt: &HostRuntime,
    out: &mut Vec<u8>,
    number: u32,
    tick: u32,
    entries: &[Entry],
) -> io::Result<u64>
    requires { All HasTextEntry entries.now }
{
    let start = Instant::now(rt)?;
    write_round(out, number, tick, entries)?;
    since(rt, &start)
}

/// Writes the end line, and answers the nanoseconds that it took.
fn timed_end(rt: &HostRuntime, out: &mut Vec<u8>, rest: bool, last: u32) -> io::Result<u64> {
    let start = Instant::now(rt)?;
    write_end(out, rest, last)?;
    since(rt, &start)
}

/// Writes lines, round by round, and answers the nanoseconds that it took.
fn written(rt: &HostRuntime, out: &mut Vec<u8>, lines: &[Line]) -> io::Result<u64>
    requires { All HasTextLine lines.now }
{
    write_head(out)?;
    let mut spent = 0u64;
    let mut round = None;
    let mut entries = Vec::new(rt.alloc());
    for line in lines {
        if let Line::Entry(entry) = line {
            entries.push(*entry)?;
            continue;
        }
        if let Some((number, tick)) = round {
            spent = spent.saturating_add(timed_round(rt, out, number, tick, &entries)?);
            entries.clear();
        }
        match line {
            Line::Round { number, tick } => round = Some((*number, *tick)),
            Line::End { rest, last } => {
                spent = spent.saturating_add(timed_end(rt, out, *rest, *last)?);
            }
            Line::Entry(_) => {}
        }
    }
    Ok(spent)
}

/// Reads a transcript and writes it again.
pub(crate) fn measure(rt: &HostRuntime, bytes: &[u8]) -> io::Result<Times> {
    let start = Instant::now(rt)?;
    let Ok(transcript) = Transcript::read(rt.alloc(), bytes) else {
        return Err(io::ErrorKind::InvalidData.into());
    };
    let read = since(rt, &start)?;
    let mut out = Vec::with_capacity(rt.alloc(), bytes.len())?;
    let write = written(rt, &mut out, transcript.as_slice())?;
    check(bytes, &out)?;
    Ok(Times {
        bytes: bytes.len(),
        read,
        write,
    })
}
