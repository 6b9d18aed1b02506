//! Lines on standard error, and those that tell of the first fault of a text.

ghost use Rattle.std.specs.Prelude.{◌≡◌, ◌+◌, ◌≤◌, ◌++◌, length, codes, decimal};
ghost use Rattle.sched_base.specs.Streams.{Appends, AppendsFront, Rose};
ghost use Rattle.program_edges.specs.ErrorLines.{script_fault_name, text_fault_name, script_fault_line, text_fault_line};

use crate::writing::write_all;
use arrayvec::ArrayString;
use itoa::Buffer;
use sched_base::{Failed, Sink};

/// Room for the longest line, in bytes.
const ROOM: usize = 64;

/// The name of a kind of fault of a script, by its number from 1 to 9.
fn script_fault_name(kind: u8) -> &'static str
    ensures name { result.now ≡ script_fault_name kind }
    ensures short { length result.now ≤ 12 }
{
    match kind {
        1 => "Header",
        2 => "Word",
        3 => "Number",
        4 => "UnknownTask",
        5 => "TwiceNamed",
        6 => "RowTarget",
        7 => "ExpiryBarred",
        8 => "LimitPassed",
        _ => "Truncated",
    }
}

/// The name of a kind of fault of a transcript, by its number from 1 to 4.
fn text_fault_name(kind: u8) -> &'static str
    ensures name { result.now ≡ text_fault_name kind }
    ensures short { length result.now ≤ 12 }
{
    match kind {
        1 => "Line",
        2 => "Order",
        3 => "Truncated",
        _ => "LimitPassed",
    }
}

/// A line that names another line by its number, and a fault.
fn fault_line(before: &str, line: u32, name: &str) -> ArrayString<ROOM>
    requires { length before.now + length name.now ≤ 50 }
    ensures { result.bytes ≡ before.now ++ (decimal line ++ (codes ": " ++ (name.now ++ codes "\n"))) }
{
    let mut text = ArrayString::new();
    let mut buffer = Buffer::new();
    text.push_str(before);
    text.push_str(buffer.format(line));
    text.push_str(": ");
    text.push_str(name);
    text.push_str("\n");
    text
}

/// Writes a line. Where that fails, a first part of it was written, and nothing else is to be done.
pub fn say<E: Sink>(err: &mut E, line: &str)
    ensures whole { ¬ Rose (E.faults err.old) (E.faults err.new) → Appends (E.held err.old) (E.held err.new) line.now }
    ensures front { AppendsFront (E.held err.old) (E.held err.new) line.now }
{
    match write_all(err, line.as_bytes()) {
        Ok(()) => {}
        Err(Failed) => {}
    }
}

/// Writes the line that tells of the first fault of a script: where it is, and of which kind, by its number from 1 to 9. It
/// takes no memory.
#[tactic(auto, unfolding(crate::specs::ErrorLines::script_fault_line))]
pub fn say_script_fault<E: Sink>(err: &mut E, line: u32, kind: u8)
    ensures whole { ¬ Rose (E.faults err.old) (E.faults err.new) → Appends (E.held err.old) (E.held err.new) (script_fault_line line kind) }
    ensures front { AppendsFront (E.held err.old) (E.held err.new) (script_fault_line line kind) }
{
    let name = script_fault_name(kind);
    say(err, fault_line("script: line ", line, name).as_str());
}

/// Writes the line that tells of the first fault of a transcript: where it is, and of which kind, by its number from 1 to 4.
/// It takes no memory.
#[tactic(auto, unfolding(crate::specs::ErrorLines::text_fault_line))]
pub fn say_text_fault<E: Sink>(err: &mut E, line: u32, kind: u8)
    ensures whole { ¬ Rose (E.faults err.old) (E.faults err.new) → Appends (E.held err.old) (E.held err.new) (text_fault_line line kind) }
    ensures front { AppendsFront (E.held err.old) (E.held err.new) (text_fault_line line kind) }
{
    let name = text_fault_name(kind);
    say(err, fault_line("transcript: line ", line, name).as_str());
}
