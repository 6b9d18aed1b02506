//! A whole text to a sink, in whatever pieces it goes.

ghost use Rattle.std.specs.Prelude.{◌≡◌, ◌<◌, ◌≤◌, take, length, OnErr, OnOk};
ghost use Rattle.sched_base.specs.Streams.{Appends, AppendsFront, Rose};

use sched_base::{Failed, Sink};

/// Writes a whole text to a sink.
///
/// # Errors
///
/// Where a write fails; the sink then has a first part of the text, and its count of faults rose.
pub fn write_all<O: Sink>(out: &mut O, text: &[u8]) -> Result<(), Failed>
    ensures ok { OnOk result (Appends (O.held out.old) (O.held out.new) text.now) }
    ensures err { OnErr result (AppendsFront (O.held out.old) (O.held out.new) text.now) }
    ensures rose { OnErr result (Rose (O.faults out.old) (O.faults out.new)) }
    ensures counted { O.faults out.old ≤ O.faults out.new }
{
    let mut at = 0;
    while at < text.len() {
        match out.write(&text[at..]) {
            Ok(n) => at += n,
            Err(Failed) => return Err(Failed),
        }
    }
    Ok(())
}
