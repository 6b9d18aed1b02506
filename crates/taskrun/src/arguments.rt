//! From the arguments of the process to an answer.

ghost use Rattle.std.specs.Prelude.{◌≡◌, ◌≢◌, [], drop, IfOk, IfErr, IsErr, IsErrAnd};
ghost use Rattle.std.specs.IoError.{error_kind};
ghost use Rattle.std.specs.Vec.Iter.{into_iter_items};
ghost use Rattle.sched_base.specs.Streams.{Appends, AppendsFront, Rose};
ghost use Rattle.taskrun.specs.Answers.{AnswersTo, ExpectedOf, IsAmong};
ghost use Rattle.taskrun.specs.Arguments.{command_among};
ghost use Rattle.taskrun.specs.ErrorLines.{error_line};

use crate::error_lines::tell;
use crate::status::Status;
use crate::top::taskrun;
use program_edges::behind_first;
use sched_base::{Gate, Sink, Source};
use std::alloc::Global;
use std::env::Args;
use std::io::{self, ErrorKind};
use std::thread::Threads;
use thread_loop::Crew;

/// Why there are no words.
#[derive(Clone, Copy, Debug, PartialEq, Eq)]
enum NoWords {
    /// An argument is no text.
    NoText,
    /// There was no memory for them.
    NoMemory,
}

/// The words of the command line behind the program's own name.
fn words_of(alloc: Global, args: io::Result<Args>) -> Result<Vec<String>, NoWords>
    ensures words { IfOk args (λ all. IfOk result (λ words. words.items ≡ drop 1 (into_iter_items all))) }
    ensures memory { IfOk args (λ all. IfErr result (λ e. e ≡ NoWords.NoMemory)) }
    ensures none { IfErr args (λ _. IsErr result) }
    ensures no_text { IfErr args (λ e. error_kind e ≢ ErrorKind.OutOfMemory → IsErrAnd result (λ e. e ≡ NoWords.NoText)) }
    ensures no_memory { IfErr args (λ e. error_kind e ≡ ErrorKind.OutOfMemory → IsErrAnd result (λ e. e ≡ NoWords.NoMemory)) }
{
    match args {
        Ok(args) => match behind_first(alloc, args) {
            Ok(words) => Ok(words),
            Err(_) => Err(NoWords::NoMemory),
        },
        Err(error) if error.kind() == ErrorKind::OutOfMemory => Err(NoWords::NoMemory),
        Err(_) => Err(NoWords::NoText),
    }
}

/// Does what the arguments of the process ask for.
pub fn answer<R: Threads + Sync, S: Source, O: Sink, E: Sink, C: Crew, G: Gate + Sync>(
    rt: &R,
    alloc: Global,
    args: io::Result<Args>,
    src: &mut S,
    out: &mut O,
    err: &mut E,
    crew: &mut C,
    gate: &G,
) -> Status
    ensures answers { IfOk args (λ all. AnswersTo (command_among (into_iter_items all)) (S.left src.old) (O.held out.old) (O.held out.new) (C.told crew.old) (C.told crew.new) result) }
    // Words that are no text are no command, and want of memory for them is told as that.
    ensures no_text { IfErr args (λ e. error_kind e ≢ ErrorKind.OutOfMemory → result ≡ Status.Usage) }
    ensures no_memory { IfErr args (λ e. error_kind e ≡ ErrorKind.OutOfMemory → result ≡ Status.NoMemory) }
    ensures untouched { IfErr args (λ _. (src.new ≡ src.old) × ((out.new ≡ out.old) × (crew.new ≡ crew.old))) }
    // Usage is the answer to words that are no command, unless there is no memory for them.
    ensures among { IfOk args (λ all. IsAmong (command_among (into_iter_items all)) result) }
    // Where no count rose, the answer is want of memory or the one that words and bytes call for.
    ensures complete { IfOk args (λ all. ¬ Rose (S.faults src.old) (S.faults src.new) → ¬ Rose (O.faults out.old) (O.faults out.new)
        → ExpectedOf (command_among (into_iter_items all)) (S.left src.old) result) }
    // The answer's line is told, or a first part of it where that failed.
    ensures told { ¬ Rose (E.faults err.old) (E.faults err.new) → Appends (E.held err.old) (E.held err.new) (error_line result) }
    ensures begun { AppendsFront (E.held err.old) (E.held err.new) (error_line result) }
{
    match words_of(alloc, args) {
        Ok(words) => taskrun(rt, alloc, &words, src, out, err, crew, gate),
        Err(NoWords::NoText) => only_told(err, Status::Usage),
        Err(NoWords::NoMemory) => only_told(err, Status::NoMemory),
    }
}

/// An answer that comes before anything is done.
fn only_told<E: Sink>(err: &mut E, status: Status) -> Status
    ensures same { result ≡ status }
    ensures told { ¬ Rose (E.faults err.old) (E.faults err.new) → Appends (E.held err.old) (E.held err.new) (error_line result) }
    ensures begun { AppendsFront (E.held err.old) (E.held err.new) (error_line result) }
{
    tell(err, &status);
    status
}
