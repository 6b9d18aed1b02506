//! The top call: the words of the command line, a transcript in, a picture out.

ghost use Rattle.std.specs.Prelude.{◌≡◌, map, take, IfOk, IfSome, Some, None};
ghost use Rattle.std.specs.String.{string_bytes};
ghost use Rattle.sched_base.specs.Streams.{Appends, AppendsFront, Rose};
ghost use Rattle.program_edges.specs.Texts.{ReadsAtMost};
ghost use Rattle.run_picture.specs.Requests.{request_of};
ghost use Rattle.run_picture.specs.Inputs.{input_of};
ghost use Rattle.run_picture.specs.Answers.{Answers, IsAmong, IsUnwritten, IsRunning, IsPicture, GivesPicture};
ghost use Rattle.run_picture.specs.ErrorLines.{error_line};

use crate::columns::Board;
use crate::complaints::complain;
use crate::drawing::{Scene, draw};
use crate::inputs::{Input, InputError, read_input};
use crate::layout::Layout;
use crate::requests::{Request, WordsError, read_words};
use crate::scans::bars_of;
use crate::status::Status;
use crate::terminal::tell;
use program_edges::{ReadError, read_all, write_all};
use sched_base::{Sink, Source};
use std::alloc::{AllocError, Global};

/// What is read of a source at most: as much as a script and a transcript may have, and one byte.
const MOST_BYTES: usize = 71_303_169;

/// Reads a transcript, or a script and its transcript, from `src` and writes a picture of the run to `out`.
///
/// The words are `--from R`, `--to R` and `--text`, each at most once. The answers and what stands after
/// each are in docs/PICTURES.md, "Answers"; all but Done are told in a line on `err`.
pub fn taskpicture<S: Source, O: Sink, E: Sink>(
    alloc: Global,
    words: &[String],
    src: &mut S,
    out: &mut O,
    err: &mut E,
) -> Status
    // What each answer says, where the source tells its bytes.
    ensures answers { IfSome (S.left src.old) (λ bytes. Answers (request_of (map (λ word. string_bytes word) words.now)) (input_of (take 71303169 bytes)) (O.held out.old) (O.held out.new) result) }
    // Usage comes only where the words are no command, and then nothing was read.
    ensures usage { result ≡ Status.Usage → request_of (map (λ word. string_bytes word) words.now) ≡ None }
    ensures unread { result ≡ Status.Usage → src.new ≡ src.old }
    ensures few { ReadsAtMost 71303169 (S.left src.old) (S.left src.new) }
    // It comes to all words that are none, unless there is no memory for them; then too nothing was read.
    ensures among { IsAmong (request_of (map (λ word. string_bytes word) words.now)) result }
    ensures unasked { request_of (map (λ word. string_bytes word) words.now) ≡ None → src.new ≡ src.old }
    // After all answers but Done and a write fault the sink is as it was.
    ensures unwritten { IsUnwritten result → out.new ≡ out.old }
    // A fault comes only where the stream's count rose in this call.
    ensures read_fault { result ≡ Status.ReadFault → Rose (S.faults src.old) (S.faults src.new) }
    ensures write_fault { result ≡ Status.WriteFault → Rose (O.faults out.old) (O.faults out.new) }
    // The answer's line is told, or a first part of it where that failed; Done has none.
    ensures told { ¬ Rose (E.faults err.old) (E.faults err.new) → Appends (E.held err.old) (E.held err.new) (error_line result) }
    ensures begun { AppendsFront (E.held err.old) (E.held err.new) (error_line result) }
    ensures silent { result ≡ Status.Done → err.new ≡ err.old }
{
    let status = show(alloc, words, src, out);
    complain(err, &status);
    status
}

/// Writes the picture that the words ask for.
#[tactic(auto, using(crate::proofs::Answered::among_running, crate::proofs::Answered::among_asked, crate::proofs::Answered::among_memory, crate::proofs::Answered::asks_something))]
fn show<S: Source, O: Sink>(alloc: Global, words: &[String], src: &mut S, out: &mut O) -> Status
    ensures answers { IfSome (S.left src.old) (λ bytes. Answers (request_of (map (λ word. string_bytes word) words.now)) (input_of (take 71303169 bytes)) (O.held out.old) (O.held out.new) result) }
    ensures usage { result ≡ Status.Usage → request_of (map (λ word. string_bytes word) words.now) ≡ None }
    ensures unread { result ≡ Status.Usage → src.new ≡ src.old }
    ensures among { IsAmong (request_of (map (λ word. string_bytes word) words.now)) result }
    ensures unasked { request_of (map (λ word. string_bytes word) words.now) ≡ None → src.new ≡ src.old }
    ensures few { ReadsAtMost 71303169 (S.left src.old) (S.left src.new) }
    ensures unwritten { IsUnwritten result → out.new ≡ out.old }
    ensures read_fault { result ≡ Status.ReadFault → Rose (S.faults src.old) (S.faults src.new) }
    ensures write_fault { result ≡ Status.WriteFault → Rose (O.faults out.old) (O.faults out.new) }
{
    match read_words(alloc, words) {
        Ok(request) => match read_all(alloc, src, MOST_BYTES) {
            Ok(bytes) => show_bytes(alloc, &request, &bytes, out),
            Err(ReadError::Fault) => Status::ReadFault,
            Err(ReadError::Memory) => Status::NoMemory,
        },
        Err(WordsError::Usage) => Status::Usage,
        Err(WordsError::Memory) => Status::NoMemory,
    }
}

/// Writes a picture of what these bytes tell.
fn show_bytes<O: Sink>(alloc: Global, request: &Request, bytes: &[u8], out: &mut O) -> Status
    ensures answers { Answers (Some request.now) (input_of bytes.now) (O.held out.old) (O.held out.new) result }
    ensures unwritten { IsUnwritten result → out.new ≡ out.old }
    ensures write_fault { result ≡ Status.WriteFault → Rose (O.faults out.old) (O.faults out.new) }
    ensures running { IsRunning result }
{
    match picture_of(alloc, request, bytes) {
        Ok(text) => match write_all(out, &text) {
            Ok(()) => Status::Done,
            Err(_) => Status::WriteFault,
        },
        Err(InputError::Refused(refusal)) => Status::Refused(refusal),
        Err(InputError::Memory) => Status::NoMemory,
    }
}

/// The picture of what these bytes tell.
fn picture_of(alloc: Global, request: &Request, bytes: &[u8]) -> Result<Vec<u8>, InputError>
    ensures { GivesPicture request.now (input_of bytes.now) result }
{
    let input = read_input(alloc, bytes)?;
    match picture(alloc, request, &input) {
        Ok(text) => Ok(text),
        Err(_) => Err(InputError::Memory),
    }
}

/// The picture of an input.
fn picture(alloc: Global, request: &Request, input: &Input) -> Result<Vec<u8>, AllocError>
    ensures { IfOk result (λ text. IsPicture request.now (record { script = input.now.script; lines = input.now.transcript }) text.items) }
{
    let lines = input.transcript.as_slice();
    let workers = match &input.script {
        Some(script) => script.workers(),
        None => 1,
    };
    let bars = bars_of(alloc, &request.rounds, lines)?;
    let board = Board::of(alloc, &request.rounds, lines, workers)?;
    let layout = Layout::of(alloc, &board)?;
    let scene = Scene {
        script: input.script.as_ref(),
        bars: &bars,
        board: &board,
        layout: &layout,
    };
    if request.is_text {
        tell(alloc, &scene)
    } else {
        draw(alloc, &scene)
    }
}
