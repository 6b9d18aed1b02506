//! From the arguments of the process to an answer.

ghost use Rattle.std.specs.Prelude.{◌≡◌, ◌≢◌, ◌⊎◌, drop, map, take, IfOk, IfErr, IfSome, None};
ghost use Rattle.std.specs.IoError.{error_kind};
ghost use Rattle.std.specs.String.{string_bytes};
ghost use Rattle.std.specs.Vec.Iter.{into_iter_items};
ghost use Rattle.sched_base.specs.Streams.{Appends, AppendsFront, Rose};
ghost use Rattle.program_edges.specs.Texts.{ReadsAtMost};
ghost use Rattle.run_picture.specs.Requests.{request_of};
ghost use Rattle.run_picture.specs.Inputs.{input_of};
ghost use Rattle.run_picture.specs.Answers.{Answers, IsAmong, IsUnwritten};
ghost use Rattle.run_picture.specs.ErrorLines.{error_line};

use crate::complaints::complain;
use crate::status::Status;
use crate::top::taskpicture;
use program_edges::behind_first;
use sched_base::{Sink, Source};
use std::alloc::Global;
use std::env::Args;
use std::io::{self, ErrorKind};

/// Draws as the arguments of the process ask.
#[tactic(auto, using(crate::proofs::Answered::among_memory))]
pub fn answer<S: Source, O: Sink, E: Sink>(
    alloc: Global,
    args: io::Result<Args>,
    src: &mut S,
    out: &mut O,
    err: &mut E,
) -> Status
    ensures answers { IfOk args (λ all. IfSome (S.left src.old) (λ bytes. Answers (request_of (map (λ word. string_bytes word) (drop 1 (into_iter_items all)))) (input_of (take 71303169 bytes)) (O.held out.old) (O.held out.new) result)) }
    // Words that are no text are no command, and want of memory for them is told as that.
    ensures no_text { IfErr args (λ e. error_kind e ≢ ErrorKind.OutOfMemory → result ≡ Status.Usage) }
    ensures no_memory { IfErr args (λ e. error_kind e ≡ ErrorKind.OutOfMemory → result ≡ Status.NoMemory) }
    // Usage is the answer to all words that are no command, unless there is no memory for them.
    ensures usage { IfOk args (λ all. result ≡ Status.Usage → request_of (map (λ word. string_bytes word) (drop 1 (into_iter_items all))) ≡ None) }
    ensures among { IfOk args (λ all. IsAmong (request_of (map (λ word. string_bytes word) (drop 1 (into_iter_items all)))) result) }
    ensures unasked { IfOk args (λ all. request_of (map (λ word. string_bytes word) (drop 1 (into_iter_items all))) ≡ None → src.new ≡ src.old) }
    ensures unread { result ≡ Status.Usage → src.new ≡ src.old }
    ensures untouched { IfErr args (λ _. (src.new ≡ src.old) × (out.new ≡ out.old)) }
    ensures few { ReadsAtMost 71303169 (S.left src.old) (S.left src.new) }
    ensures unwritten { IsUnwritten result → out.new ≡ out.old }
    ensures read_fault { result ≡ Status.ReadFault → Rose (S.faults src.old) (S.faults src.new) }
    ensures write_fault { result ≡ Status.WriteFault → Rose (O.faults out.old) (O.faults out.new) }
    // The answer's line is told, or a first part of it where that failed; Done has none.
    ensures told { ¬ Rose (E.faults err.old) (E.faults err.new) → Appends (E.held err.old) (E.held err.new) (error_line result) }
    ensures begun { AppendsFront (E.held err.old) (E.held err.new) (error_line result) }
    ensures silent { result ≡ Status.Done → err.new ≡ err.old }
{
    match args {
        Ok(args) => match behind_first(alloc, args) {
            Ok(words) => taskpicture(alloc, &words, src, out, err),
            Err(_) => end(err, Status::NoMemory),
        },
        Err(error) if error.kind() == ErrorKind::OutOfMemory => { end(err, Status::NoMemory) }
        Err(_) => end(err, Status::Usage),
    }
}

/// Tells of an answer.
fn end<E: Sink>(err: &mut E, status: Status) -> Status
    ensures same { result ≡ status }
    ensures told { ¬ Rose (E.faults err.old) (E.faults err.new) → Appends (E.held err.old) (E.held err.new) (error_line result) }
    ensures begun { AppendsFront (E.held err.old) (E.held err.new) (error_line result) }
{
    complain(err, &status);
    status
}
