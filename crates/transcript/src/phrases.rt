//! What the words of a line say.

ghost use Rattle.std.specs.Prelude.{◌≡◌, ◌==◌, option_map};
ghost use Rattle.text_lines.specs.Pieces.{words_in};
ghost use Rattle.text_lines.specs.Numbers.{number};
ghost use Rattle.text_lines.specs.Slots.{values_of, small_at, number_at, reasons_at, index_at};
ghost use Rattle.text_lines.specs.Shapes.{kind_named, part_of, part_at};
ghost use Rattle.transcript.specs.Tables.{row, calls, others, all_names};
ghost use Rattle.transcript.specs.Grammar.{call_of, live_of, seen_of, line_of, seen_in, reply_in, caller_in, entry_of, entry_in, plain_in, said_by, said};

use crate::lines::Line;
use crate::shape::{Answer, Name, Said, mask_slots};
use sched_base::{CallerId, TaskId};
use task_machine::{Call, Entry, Reply, Seen, Stand};
use text_lines::{Value, Values, Words, front, index_at, number, number_at, reasons_at, small_at};

/// What a line says: its words are parted by single spaces.
#[tactic(auto, unfolding(crate::specs::Grammar::said))]
pub(crate) fn said(text: &[u8]) -> Option<Said>
    ensures { result ≡ said text.now }
{
    said_by(Words::of(text))
}

/// What words say.
fn said_by(words: Words<'_>) -> Option<Said>
    ensures { result ≡ said_by (words_in words.entry) }
{
    match entry_in(words) {
        Some(said) => Some(said),
        None => plain_in(words),
    }
}

/// The row of this name.
fn named(word: &[u8]) -> Option<Name>
    ensures { result ≡ kind_named row all_names word.now }
{
    match call_named(word) {
        Some(name) => Some(name),
        None => other_named(word),
    }
}

/// The row of the call of this name.
fn call_named(word: &[u8]) -> Option<Name>
    ensures { result ≡ kind_named row calls word.now }
{
    match word {
        b"wake" => Some(Name::Wake),
        b"kill" => Some(Name::Kill),
        b"post" => Some(Name::Post),
        b"get" => Some(Name::Get),
        b"draw" => Some(Name::Draw),
        b"take" => Some(Name::Take),
        b"drop" => Some(Name::DropRun),
        b"retire" => Some(Name::Retire),
        _ => None,
    }
}

/// The row of this name, where it is none of a call.
fn other_named(word: &[u8]) -> Option<Name>
    ensures { result ≡ kind_named row others word.now }
{
    match word {
        b"gone" => Some(Name::Gone),
        b"rest" => Some(Name::Rest),
        b"queued" => Some(Name::Queued),
        b"runs" => Some(Name::Runs),
        b"taskrun" => Some(Name::First),
        b"round" => Some(Name::Round),
        b"end" => Some(Name::End),
        _ => None,
    }
}

/// The call of these values, where the row is one of a call.
fn call_of(name: Name, values: &[Value<'_>]) -> Option<Call>
    ensures { result ≡ call_of name (values_of values.now) }
{
    let task = TaskId(small_at(values, 0));
    match name {
        Name::Wake => Some(Call::Wake(task, reasons_at(values, 1))),
        Name::Kill => Some(Call::Kill(task)),
        Name::Post => Some(Call::Post(task, small_at(values, 1))),
        Name::Get => Some(Call::Get(small_at(values, 0))),
        Name::Draw => Some(Call::Draw(task)),
        Name::Take => Some(Call::Take(task)),
        Name::DropRun => Some(Call::DropRun(task)),
        Name::Retire => Some(Call::Retire(task)),
        _ => None,
    }
}

/// What a call saw of a task that stands there, by these values.
fn live_of(stand: Stand, values: &[Value<'_>]) -> Seen
    ensures { result ≡ live_of stand (values_of values.now) }
{
    Seen::Live {
        stand,
        pending: reasons_at(values, 0),
        killed: index_at(values, 1) == 1,
        takes: number_at(values, 2),
    }
}

/// What a call saw, by these values, where the row tells that.
fn seen_of(name: Name, values: &[Value<'_>]) -> Option<Seen>
    ensures { result ≡ seen_of name (values_of values.now) }
{
    match name {
        Name::Gone => Some(Seen::Gone),
        Name::Rest => Some(live_of(Stand::Rest, values)),
        Name::Queued => Some(live_of(Stand::Queued, values)),
        Name::Runs => Some(live_of(Stand::Runs, values)),
        _ => None,
    }
}

/// The line of these values, where the row is one of a line.
fn line_of(name: Name, values: &[Value<'_>]) -> Option<Said>
    ensures { result ≡ line_of name (values_of values.now) }
{
    match name {
        Name::First => Some(Said::First),
        Name::Round => Some(Said::Holds(Line::Round {
            number: small_at(values, 0),
            tick: small_at(values, 1),
        })),
        Name::End => Some(Said::Holds(Line::End {
            rest: index_at(values, 0) == 0,
            last: small_at(values, 1),
        })),
        _ => None,
    }
}

/// The row that stands first, its values, and the words behind it.
#[inline(always)]
fn part_at<'a>(words: Words<'a>) -> Option<(Name, Values<'a>, Words<'a>)>
    ensures { option_map (λ p. part_of p.0 (values_of p.1.items) (words_in p.2)) result ≡ part_at row all_names (words_in words.entry) }
{
    let (word, rest) = words.first()?;
    let name = named(word)?;
    match front(name.row().slots, rest) {
        Some((values, rest)) => Some((name, values, rest)),
        None => None,
    }
}

/// What a call saw of its task, with no word behind it.
fn seen_in(words: Words<'_>) -> Option<Seen>
    ensures { result ≡ seen_in (words_in words.entry) }
{
    match part_at(words) {
        Some((name, values, rest)) => {
            let seen = seen_of(name, &values)?;
            if rest.is_at_end() { Some(seen) } else { None }
        }
        None => None,
    }
}

/// The tasks of a group that a get took, with no word behind them.
fn group_in(words: Words<'_>) -> Option<Reply>
    ensures { result ≡ reply_in Answer.Group (words_in words.entry) }
{
    match front(mask_slots(), words) {
        Some((values, rest)) => {
            if rest.is_at_end() {
                Some(Reply::Group(number_at(&values, 0)))
            } else {
                None
            }
        }
        None => None,
    }
}

/// The answer to a call.
fn reply_in(answer: Answer, words: Words<'_>) -> Option<Reply>
    ensures { result ≡ reply_in answer (words_in words.entry) }
{
    match answer {
        Answer::Seen => Some(Reply::Task(seen_in(words)?)),
        Answer::Group => group_in(words),
        Answer::Nothing => {
            if words.is_at_end() {
                Some(Reply::Done)
            } else {
                None
            }
        }
    }
}

/// The letter c, and the caller's number.
fn caller_in(word: &[u8]) -> Option<u32>
    ensures { result ≡ caller_in word.now }
{
    match word {
        [b'c', digits @ ..] => match number(digits, 4_294_967_295) {
            Some(value) => Some(value as u32),
            None => None,
        },
        _ => None,
    }
}

/// The entry of a caller: the call, and the answer.
fn entry_of(caller: u32, words: Words<'_>) -> Option<Said>
    ensures { result ≡ entry_of caller (words_in words.entry) }
{
    match part_at(words) {
        Some((name, values, rest)) => {
            let call = call_of(name, &values)?;
            let reply = reply_in(name.answer(), rest)?;
            Some(Said::Holds(Line::Entry(Entry {
                caller: CallerId(caller),
                call,
                reply,
            })))
        }
        None => None,
    }
}

/// An entry: the caller, the call, and the answer.
fn entry_in(words: Words<'_>) -> Option<Said>
    ensures { result ≡ entry_in (words_in words.entry) }
{
    let (word, rest) = words.first()?;
    let caller = caller_in(word)?;
    entry_of(caller, rest)
}

/// Another line.
fn plain_in(words: Words<'_>) -> Option<Said>
    ensures { result ≡ plain_in (words_in words.entry) }
{
    match part_at(words) {
        Some((name, values, rest)) => {
            let said = line_of(name, &values)?;
            if rest.is_at_end() { Some(said) } else { None }
        }
        None => None,
    }
}
