//! The top call: the words of the command line, the bytes in, the bytes out.

ghost use Rattle.std.specs.Prelude.{◌≡◌, ℕ, ◌≤◌, true, false, map, IfSome, Some, [], Ok};
ghost use Rattle.std.specs.String.{string_bytes};
ghost use Rattle.sched_base.specs.Streams.{Appends, AppendsFront, Rose};
ghost use Rattle.step_tables.specs.Judging.{script_of};
ghost use Rattle.command_line.specs.Commands.{command_of};
ghost use Rattle.script_gen.specs.Generated.{generated};
ghost use Rattle.program_edges.specs.Texts.{ReadsAtMost};
ghost use Rattle.taskrun.specs.Answers.{most_read, reads_source, makes_run, HasOneSummary, SumsAlike, Answers, AnswersTo, HasSize, IsAmong, IsSumming, Expected, ExpectedOf, Sums, IsDone, IsOfSource, IsRunning, IsUnwritten};
ghost use Rattle.taskrun.specs.ErrorLines.{error_line};

use crate::error_lines::tell;
use crate::replays::replay;
use crate::rounds::{PlayError, play_out};
use crate::status::Status;
use crate::summary::sum_up;
use command_line::{Command, command_of};
use program_edges::{ReadError, read_all};
use sched_base::{Gate, Sink, Source};
use script_gen::generate;
use std::alloc::Global;
use std::thread::Threads;
use step_tables::{Script, ScriptError};
use thread_loop::Crew;

/// One byte more than a script may have: what is read of a source at most.
const MOST_BYTES: usize = 4_194_305;

/// Does what the words ask for: `run` runs the script on `src` and writes the transcript of the run to `out`, round by
/// round; `replay` judges the transcript behind a script on `src`; `gen` runs a generated script and writes the summary
/// of the run.
///
/// The rounds of a run are made by `crew`, and `gate` is called before each call of a worker or the injector. The answers
/// and what stands after each are in docs/MODEL.md, "Answers". An answer other than Done is told in one line on `err`.
pub fn taskrun<R: Threads + Sync, S: Source, O: Sink, E: Sink, C: Crew, G: Gate + Sync>(
    rt: &R,
    alloc: Global,
    words: &[String],
    src: &mut S,
    out: &mut O,
    err: &mut E,
    crew: &mut C,
    gate: &G,
) -> Status
    // What each answer says, by the command, where the source tells its bytes; where the crew tells its calls, they grew
    // by those of the run that was written or summed up.
    ensures answers { AnswersTo (command_of (map (λ word. string_bytes word) words.now)) (S.left src.old) (O.held out.old) (O.held out.new) (C.told crew.old) (C.told crew.new) result }
    // What gen writes is the summary of each run of its script, whatever the threads did.
    ensures one { SumsAlike (command_of (map (λ word. string_bytes word) words.now)) (O.held out.old) (O.held out.new) result }
    // To run and to replay, all was read where the answer is Done; other commands read nothing, and none reads more than
    // its input may have and one byte. A command that makes no run leaves the crew as it was.
    ensures ended { reads_source (command_of (map (λ word. string_bytes word) words.now)) ≡ true
        → IfSome (S.left src.old) (λ _. result ≡ Status.Done → S.left src.new ≡ Some []) }
    ensures unread { reads_source (command_of (map (λ word. string_bytes word) words.now)) ≡ false → src.new ≡ src.old }
    ensures idle { makes_run (command_of (map (λ word. string_bytes word) words.now)) ≡ false → crew.new ≡ crew.old }
    ensures few { ReadsAtMost (most_read (command_of (map (λ word. string_bytes word) words.now))) (S.left src.old) (S.left src.new) }
    // Usage comes exactly where the words are no command, but for want of memory; answers 6 and 7 to a replay alone.
    ensures among { IsAmong (command_of (map (λ word. string_bytes word) words.now)) result }
    // After answers 1, 2, 3, 6 and 7 sink and crew are as they were.
    ensures unwritten { IsUnwritten result → (out.new ≡ out.old) × (crew.new ≡ crew.old) }
    // A fault comes only where the stream's count rose in this call.
    ensures read_fault { result ≡ Status.ReadFault → Rose (S.faults src.old) (S.faults src.new) }
    ensures write_fault { result ≡ Status.WriteFault → Rose (O.faults out.old) (O.faults out.new) }
    // Where no count rose, the answer is want of memory or the one that words and bytes call for.
    ensures complete { ¬ Rose (S.faults src.old) (S.faults src.new) → ¬ Rose (O.faults out.old) (O.faults out.new)
        → ExpectedOf (command_of (map (λ word. string_bytes word) words.now)) (S.left src.old) result }
    // The answer's line is told, or a first part of it where that failed; Done has none.
    ensures told { ¬ Rose (E.faults err.old) (E.faults err.new) → Appends (E.held err.old) (E.held err.new) (error_line result) }
    ensures begun { AppendsFront (E.held err.old) (E.held err.new) (error_line result) }
    ensures silent { result ≡ Status.Done → err.new ≡ err.old }
{
    let status = carry_out(rt, alloc, words, src, out, crew, gate);
    tell(err, &status);
    status
}

/// Carries out the command that the words are.
fn carry_out<R: Threads + Sync, S: Source, O: Sink, C: Crew, G: Gate + Sync>(
    rt: &R,
    alloc: Global,
    words: &[String],
    src: &mut S,
    out: &mut O,
    crew: &mut C,
    gate: &G,
) -> Status
    ensures answers { AnswersTo (command_of (map (λ word. string_bytes word) words.now)) (S.left src.old) (O.held out.old) (O.held out.new) (C.told crew.old) (C.told crew.new) result }
    ensures one { SumsAlike (command_of (map (λ word. string_bytes word) words.now)) (O.held out.old) (O.held out.new) result }
    ensures ended { reads_source (command_of (map (λ word. string_bytes word) words.now)) ≡ true
        → IfSome (S.left src.old) (λ _. result ≡ Status.Done → S.left src.new ≡ Some []) }
    ensures unread { reads_source (command_of (map (λ word. string_bytes word) words.now)) ≡ false → src.new ≡ src.old }
    ensures idle { makes_run (command_of (map (λ word. string_bytes word) words.now)) ≡ false → crew.new ≡ crew.old }
    ensures few { ReadsAtMost (most_read (command_of (map (λ word. string_bytes word) words.now))) (S.left src.old) (S.left src.new) }
    ensures among { IsAmong (command_of (map (λ word. string_bytes word) words.now)) result }
    ensures unwritten { IsUnwritten result → (out.new ≡ out.old) × (crew.new ≡ crew.old) }
    ensures read_fault { result ≡ Status.ReadFault → Rose (S.faults src.old) (S.faults src.new) }
    ensures write_fault { result ≡ Status.WriteFault → Rose (O.faults out.old) (O.faults out.new) }
    ensures complete { ¬ Rose (S.faults src.old) (S.faults src.new) → ¬ Rose (O.faults out.old) (O.faults out.new)
        → ExpectedOf (command_of (map (λ word. string_bytes word) words.now)) (S.left src.old) result }
{
    match command_of(alloc, words) {
        Ok(command) => serve(rt, alloc, command, src, out, crew, gate),
        Err(_) => Status::NoMemory,
    }
}

/// Carries out a command, if there is one.
fn serve<R: Threads + Sync, S: Source, O: Sink, C: Crew, G: Gate + Sync>(
    rt: &R,
    alloc: Global,
    command: Option<Command>,
    src: &mut S,
    out: &mut O,
    crew: &mut C,
    gate: &G,
) -> Status
    requires size { HasSize command }
    ensures answers { AnswersTo command (S.left src.old) (O.held out.old) (O.held out.new) (C.told crew.old) (C.told crew.new) result }
    ensures one { SumsAlike command (O.held out.old) (O.held out.new) result }
    ensures ended { reads_source command ≡ true
        → IfSome (S.left src.old) (λ _. result ≡ Status.Done → S.left src.new ≡ Some []) }
    ensures unread { reads_source command ≡ false → src.new ≡ src.old }
    ensures idle { makes_run command ≡ false → crew.new ≡ crew.old }
    ensures few { ReadsAtMost (most_read command) (S.left src.old) (S.left src.new) }
    ensures among { IsAmong command result }
    ensures unwritten { IsUnwritten result → (out.new ≡ out.old) × (crew.new ≡ crew.old) }
    ensures read_fault { result ≡ Status.ReadFault → Rose (S.faults src.old) (S.faults src.new) }
    ensures write_fault { result ≡ Status.WriteFault → Rose (O.faults out.old) (O.faults out.new) }
    ensures complete { ¬ Rose (S.faults src.old) (S.faults src.new) → ¬ Rose (O.faults out.old) (O.faults out.new)
        → ExpectedOf command (S.left src.old) result }
{
    match command {
        Some(Command::Run) => run(rt, alloc, src, out, crew, gate),
        Some(Command::Gen { seed, size }) => generated(rt, alloc, seed, size, out, crew, gate),
        Some(Command::Replay) => replay(alloc, src, out),
        None => Status::Usage,
    }
}

/// Runs the script on `src`.
fn run<R: Threads + Sync, S: Source, O: Sink, C: Crew, G: Gate + Sync>(
    rt: &R,
    alloc: Global,
    src: &mut S,
    out: &mut O,
    crew: &mut C,
    gate: &G,
) -> Status
    ensures answers { IfSome (S.left src.old) (λ bytes. Answers (script_of bytes) (O.held out.old) (O.held out.new) (C.told crew.old) (C.told crew.new) result) }
    ensures ended { IfSome (S.left src.old) (λ _. result ≡ Status.Done → S.left src.new ≡ Some []) }
    ensures few { ReadsAtMost 4194305 (S.left src.old) (S.left src.new) }
    ensures among { IsOfSource result }
    ensures unwritten { IsUnwritten result → (out.new ≡ out.old) × (crew.new ≡ crew.old) }
    ensures read_fault { result ≡ Status.ReadFault → Rose (S.faults src.old) (S.faults src.new) }
    ensures write_fault { result ≡ Status.WriteFault → Rose (O.faults out.old) (O.faults out.new) }
    ensures complete { ¬ Rose (S.faults src.old) (S.faults src.new) → ¬ Rose (O.faults out.old) (O.faults out.new)
        → IfSome (S.left src.old) (λ bytes. Expected (script_of bytes) result) }
{
    match read_all(alloc, src, MOST_BYTES) {
        Ok(bytes) => run_bytes(rt, alloc, &bytes, out, crew, gate),
        Err(ReadError::Fault) => Status::ReadFault,
        Err(ReadError::Memory) => Status::NoMemory,
    }
}

/// Runs the generated script of a seed and a size, and sums it up.
fn generated<R: Threads + Sync, O: Sink, C: Crew, G: Gate + Sync>(
    rt: &R,
    alloc: Global,
    seed: u64,
    size: u32,
    out: &mut O,
    crew: &mut C,
    gate: &G,
) -> Status
    requires size { (1 ≤ size) × (size ≤ 4096) }
    ensures answers { Sums (generated seed size) (O.held out.old) (O.held out.new) (C.told crew.old) (C.told crew.new) result }
    ensures one { HasOneSummary seed size (O.held out.old) (O.held out.new) result }
    ensures summing { IsSumming result }
    ensures write_fault { result ≡ Status.WriteFault → Rose (O.faults out.old) (O.faults out.new) }
    ensures complete { ¬ Rose (O.faults out.old) (O.faults out.new) → IsDone result }
{
    match generate(alloc, seed, size) {
        Ok(script) => sum_script(rt, alloc, &script, out, crew, gate),
        Err(_) => Status::NoMemory,
    }
}

/// Runs a script and sums it up.
fn sum_script<R: Threads + Sync, O: Sink, C: Crew, G: Gate + Sync>(
    rt: &R,
    alloc: Global,
    script: &Script,
    out: &mut O,
    crew: &mut C,
    gate: &G,
) -> Status
    ensures answers { Sums script.now (O.held out.old) (O.held out.new) (C.told crew.old) (C.told crew.new) result }
    ensures summing { IsSumming result }
    ensures write_fault { result ≡ Status.WriteFault → Rose (O.faults out.old) (O.faults out.new) }
    ensures complete { ¬ Rose (O.faults out.old) (O.faults out.new) → IsDone result }
{
    match sum_up(rt, alloc, script, out, crew, gate) {
        Ok(()) => Status::Done,
        Err(PlayError::Fault) => Status::WriteFault,
        Err(PlayError::Memory) => Status::NoMemory,
    }
}

/// Runs the script of these bytes.
fn run_bytes<R: Threads + Sync, O: Sink, C: Crew, G: Gate + Sync>(
    rt: &R,
    alloc: Global,
    bytes: &[u8],
    out: &mut O,
    crew: &mut C,
    gate: &G,
) -> Status
    ensures answers { Answers (script_of bytes.now) (O.held out.old) (O.held out.new) (C.told crew.old) (C.told crew.new) result }
    ensures write_fault { result ≡ Status.WriteFault → Rose (O.faults out.old) (O.faults out.new) }
    ensures counted { O.faults out.old ≤ O.faults out.new }
    ensures unwritten { IsUnwritten result → (out.new ≡ out.old) × (crew.new ≡ crew.old) }
    ensures running { IsRunning result }
{
    match Script::read(alloc, bytes) {
        Ok(script) => run_script(rt, alloc, &script, out, crew, gate),
        Err(ScriptError::Refused(fault)) => Status::ScriptRefused(fault),
        Err(ScriptError::Memory) => Status::NoMemory,
    }
}

/// Runs a script.
fn run_script<R: Threads + Sync, O: Sink, C: Crew, G: Gate + Sync>(
    rt: &R,
    alloc: Global,
    script: &Script,
    out: &mut O,
    crew: &mut C,
    gate: &G,
) -> Status
    ensures answers { Answers (Ok script.now) (O.held out.old) (O.held out.new) (C.told crew.old) (C.told crew.new) result }
    ensures write_fault { result ≡ Status.WriteFault → Rose (O.faults out.old) (O.faults out.new) }
    ensures counted { O.faults out.old ≤ O.faults out.new }
    ensures unwritten { IsUnwritten result → (out.new ≡ out.old) × (crew.new ≡ crew.old) }
    ensures running { IsRunning result }
{
    match play_out(rt, alloc, script, out, crew, gate) {
        Ok(()) => Status::Done,
        Err(PlayError::Fault) => Status::WriteFault,
        Err(PlayError::Memory) => Status::NoMemory,
    }
}
