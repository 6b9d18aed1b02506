//! The line on standard error that tells of an answer.

ghost use Rattle.std.specs.Prelude.{◌≡◌, ◌+◌, ◌≤◌, ◌++◌, length, codes, decimal};
ghost use Rattle.sched_base.specs.Streams.{Appends, AppendsFront, Rose};
ghost use Rattle.taskrun.specs.ErrorLines.{error_line, script_fault_name, text_fault_name};

use crate::status::Status;
use arrayvec::ArrayString;
use itoa::Buffer;
use program_edges::write_all;
use sched_base::{Failed, Sink};

/// Room for the longest line, in bytes.
const ROOM: usize = 64;

/// The name of a kind of fault of a script, by its number from 1 to 9.
fn script_fault_name(kind: u8) -> &'static str
    ensures name { result.now ≡ script_fault_name kind }
    ensures short { length result.now ≤ 12 }
{
    match kind {
        1 => "Header",
        2 => "Word",
        3 => "Number",
        4 => "UnknownTask",
        5 => "TwiceNamed",
        6 => "RowTarget",
        7 => "ExpiryBarred",
        8 => "LimitPassed",
        _ => "Truncated",
    }
}

/// The name of a kind of fault of a transcript, by its number from 1 to 4.
fn text_fault_name(kind: u8) -> &'static str
    ensures name { result.now ≡ text_fault_name kind }
    ensures short { length result.now ≤ 12 }
{
    match kind {
        1 => "Line",
        2 => "Order",
        3 => "Truncated",
        _ => "LimitPassed",
    }
}

/// A line that names another line by its number, and a fault.
fn fault_line(before: &str, line: u32, name: &str) -> ArrayString<ROOM>
    requires { length before.now + length name.now ≤ 50 }
    ensures { result.bytes ≡ before.now ++ (decimal line ++ (codes ": " ++ (name.now ++ codes "\n"))) }
{
    let mut text = ArrayString::new();
    let mut buffer = Buffer::new();
    text.push_str(before);
    text.push_str(buffer.format(line));
    text.push_str(": ");
    text.push_str(name);
    text.push_str("\n");
    text
}

/// The line that names the first line that is not lawful, by its number.
fn unlawful_line(line: u32) -> ArrayString<ROOM>
    ensures { result.bytes ≡ codes "not lawful: line " ++ (decimal line ++ codes "\n") }
{
    let mut text = ArrayString::new();
    let mut buffer = Buffer::new();
    text.push_str("not lawful: line ");
    text.push_str(buffer.format(line));
    text.push_str("\n");
    text
}

/// Writes a line. Where that fails, a first part of it was written, and nothing else is to be done.
fn say<E: Sink>(err: &mut E, line: &str)
    ensures whole { ¬ Rose (E.faults err.old) (E.faults err.new) → Appends (E.held err.old) (E.held err.new) line.now }
    ensures front { AppendsFront (E.held err.old) (E.held err.new) line.now }
{
    match write_all(err, line.as_bytes()) {
        Ok(()) => {}
        Err(Failed) => {}
    }
}

/// Writes the one line of an answer, and none for Done. It takes no memory.
#[tactic(auto, unfolding(crate::specs::ErrorLines::error_line))]
pub(crate) fn tell<E: Sink>(err: &mut E, status: &Status)
    ensures whole { ¬ Rose (E.faults err.old) (E.faults err.new) → Appends (E.held err.old) (E.held err.new) (error_line status.now) }
    ensures front { AppendsFront (E.held err.old) (E.held err.new) (error_line status.now) }
    ensures silent { status.now ≡ Status.Done → err.new ≡ err.old }
{
    match status {
        Status::Done => {}
        Status::ScriptRefused(fault) => {
            let name = script_fault_name(fault.kind);
            say(err, fault_line("script: line ", fault.line, name).as_str());
        }
        Status::Usage => {
            say(
                err,
                "usage: taskrun run, taskrun replay or taskrun gen SEED SIZE\n",
            );
        }
        Status::ReadFault => say(err, "read fault\n"),
        Status::WriteFault => say(err, "write fault\n"),
        Status::NoMemory => say(err, "want of memory\n"),
        Status::NotLawful(line) => say(err, unlawful_line(*line).as_str()),
        Status::TextRefused(fault) => {
            let name = text_fault_name(fault.kind);
            say(
                err,
                fault_line("transcript: line ", fault.line, name).as_str(),
            );
        }
    }
}
