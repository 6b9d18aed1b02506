//! The writer: each call appends its part of the text, or leaves the text as it was.

ghost use Rattle.std.specs.Prelude.{◌≡◌, ◌<◌, ◌++◌, ◌∷◌, [], OnOk, OnErr};
ghost use Rattle.std.specs.List.{All};
ghost use Rattle.text_lines.specs.Added.{Kept, spaced};
ghost use Rattle.text_lines.specs.Added.{spelled};
ghost use Rattle.text_lines.specs.Slots.{values_of};
ghost use Rattle.text_lines.specs.Shapes.{row_words};
ghost use Rattle.transcript.specs.Tables.{row};
ghost use Rattle.transcript.specs.HasText.{HasTextEntry};
ghost use Rattle.transcript.specs.Spelling.{call_words, stand_name, fate_index, end_index, seen_words, reply_words, head_text, entry_text, entries_text, round_text, end_text, line_text};

use crate::shape::{Name, mask_slots};
use std::alloc::AllocError;
use task_machine::{Call, Entry, Reply, Seen, Stand};
use text_lines::{Value, put_bytes, put_line, put_number, put_row, put_slots};

/// Appends the first line.
///
/// # Errors
///
/// Where there is no memory; the text is then as it was.
#[tactic(auto, unfolding(crate::specs::Spelling::head_text, text_lines::specs::Added::spelled, text_lines::specs::Shapes::words))]
pub fn write_head(out: &mut Vec<u8>) -> Result<(), AllocError>
    ensures written { OnOk result (out.new.items ≡ out.old.items ++ head_text) }
    ensures refused { OnErr result (out.new.items ≡ out.old.items) }
{
    out.extend_from_slice(b"taskrun 1\n")
}

/// Appends a round: its line and its entries.
///
/// # Errors
///
/// Where there is no memory; the text is then as it was.
pub fn write_round(
    out: &mut Vec<u8>,
    number: u32,
    tick: u32,
    entries: &[Entry],
) -> Result<(), AllocError>
    requires { All HasTextEntry entries.now }
    ensures written { OnOk result (out.new.items ≡ out.old.items ++ round_text number tick entries.now) }
    ensures refused { OnErr result (out.new.items ≡ out.old.items) }
{
    let before = out.len();
    match put_round(out, number, tick, entries) {
        Ok(()) => Ok(()),
        Err(error) => {
            out.truncate(before);
            Err(error)
        }
    }
}

/// Appends the end line: the round of this number was the last one, and the run came to rest or
/// else to its limit.
///
/// # Errors
///
/// Where there is no memory; the text is then as it was.
pub fn write_end(out: &mut Vec<u8>, rest: bool, last: u32) -> Result<(), AllocError>
    ensures written { OnOk result (out.new.items ≡ out.old.items ++ end_text rest last) }
    ensures refused { OnErr result (out.new.items ≡ out.old.items) }
{
    let before = out.len();
    match put_end(out, rest, last) {
        Ok(()) => Ok(()),
        Err(error) => {
            out.truncate(before);
            Err(error)
        }
    }
}

/// Appends a round, or a front of it where there is no memory.
#[tactic(auto, unfolding(crate::specs::Spelling::round_text, crate::specs::Spelling::entries_text))]
fn put_round(out: &mut Vec<u8>, number: u32, tick: u32, entries: &[Entry]) -> Result<(), AllocError>
    ensures kept { Kept out.old.items out.new.items }
    ensures written { OnOk result (out.new.items ≡ out.old.items ++ round_text number tick entries.now) }
{
    put_plain(
        out,
        Name::Round,
        &[Value::Small(number), Value::Small(tick)],
    )?;
    for entry in entries {
        put_entry(out, entry)?;
    }
    Ok(())
}

/// Appends a line that is no entry.
fn put_plain(out: &mut Vec<u8>, name: Name, values: &[Value<'_>]) -> Result<(), AllocError>
    ensures kept { Kept out.old.items out.new.items }
    ensures written { OnOk result (out.new.items ≡ out.old.items ++ spelled (row_words (row name) (values_of values.now))) }
{
    put_line(out, &name.row(), values)
}

/// Appends a call.
fn put_call(out: &mut Vec<u8>, call: &Call) -> Result<(), AllocError>
    ensures kept { Kept out.old.items out.new.items }
    ensures written { OnOk result (out.new.items ≡ out.old.items ++ spaced (call_words call.now)) }
{
    match *call {
        Call::Wake(task, reasons) => put_named(
            out,
            Name::Wake,
            &[Value::Small(task.0), Value::Reasons(reasons)],
        ),
        Call::Kill(task) => put_named(out, Name::Kill, &[Value::Small(task.0)]),
        Call::Post(task, place) => put_named(
            out,
            Name::Post,
            &[Value::Small(task.0), Value::Small(place)],
        ),
        Call::Get(group) => put_named(out, Name::Get, &[Value::Small(group)]),
        Call::Draw(task) => put_named(out, Name::Draw, &[Value::Small(task.0)]),
        Call::Take(task) => put_named(out, Name::Take, &[Value::Small(task.0)]),
        Call::DropRun(task) => put_named(out, Name::DropRun, &[Value::Small(task.0)]),
        Call::Retire(task) => put_named(out, Name::Retire, &[Value::Small(task.0)]),
    }
}

/// Appends a call by its name and its values.
#[inline(always)]
fn put_named(out: &mut Vec<u8>, name: Name, values: &[Value<'_>]) -> Result<(), AllocError>
    ensures kept { Kept out.old.items out.new.items }
    ensures written { OnOk result (out.new.items ≡ out.old.items ++ spaced (row_words (row name) (values_of values.now))) }
{
    put_row(out, &name.row(), values)
}

/// The word for where a task stands.
fn stand_name(stand: Stand) -> Name
    ensures { result ≡ stand_name stand }
{
    match stand {
        Stand::Rest => Name::Rest,
        Stand::Queued => Name::Queued,
        Stand::Runs => Name::Runs,
    }
}

/// The place of the word for whether a task was killed.
fn fate_index(is_killed: bool) -> usize
    ensures { result ≡ fate_index is_killed }
{
    if is_killed { 1 } else { 0 }
}

/// Appends what a call saw of its task.
fn put_seen(out: &mut Vec<u8>, seen: &Seen) -> Result<(), AllocError>
    ensures kept { Kept out.old.items out.new.items }
    ensures written { OnOk result (out.new.items ≡ out.old.items ++ spaced (seen_words seen.now)) }
{
    match *seen {
        Seen::Gone => put_row(out, &Name::Gone.row(), &[]),
        Seen::Live {
            stand,
            pending,
            killed,
            takes,
        } => put_row(
            out,
            &stand_name(stand).row(),
            &[
                Value::Reasons(pending),
                Value::Index(fate_index(killed)),
                Value::Number(takes),
            ],
        ),
    }
}

/// Appends the answer to a call.
fn put_reply(out: &mut Vec<u8>, reply: &Reply) -> Result<(), AllocError>
    ensures kept { Kept out.old.items out.new.items }
    ensures written { OnOk result (out.new.items ≡ out.old.items ++ spaced (reply_words reply.now)) }
{
    match reply {
        Reply::Task(seen) => put_seen(out, seen),
        Reply::Group(mask) => put_slots(out, mask_slots(), &[Value::Number(*mask)]),
        Reply::Done => Ok(()),
    }
}

/// Appends an entry.
fn put_entry(out: &mut Vec<u8>, entry: &Entry) -> Result<(), AllocError>
    ensures kept { Kept out.old.items out.new.items }
    ensures written { OnOk result (out.new.items ≡ out.old.items ++ entry_text entry.now) }
{
    put_bytes(out, b"c")?;
    put_number(out, u64::from(entry.caller.0))?;
    put_call(out, &entry.call)?;
    put_reply(out, &entry.reply)?;
    put_bytes(out, b"\n")
}

/// The place of the word for how a run ended.
fn end_index(rest: bool) -> usize
    ensures { result ≡ end_index rest }
{
    if rest { 0 } else { 1 }
}

/// Appends the end line.
#[tactic(auto, unfolding(crate::specs::Spelling::end_text))]
fn put_end(out: &mut Vec<u8>, rest: bool, last: u32) -> Result<(), AllocError>
    ensures kept { Kept out.old.items out.new.items }
    ensures written { OnOk result (out.new.items ≡ out.old.items ++ end_text rest last) }
{
    put_plain(
        out,
        Name::End,
        &[Value::Index(end_index(rest)), Value::Small(last)],
    )
}
