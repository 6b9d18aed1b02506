//! A script with a transcript behind it, and the verdict on the transcript.

ghost use Rattle.std.specs.Prelude.{◌≡◌, ◌≤◌, false, length, Ok, IfSome, Some, []};
ghost use Rattle.sched_base.specs.Streams.{Rose};
ghost use Rattle.step_tables.specs.Judging.{script_of};
ghost use Rattle.transcript.specs.Judging.{run_of, GoesOn};
ghost use Rattle.program_edges.specs.Texts.{ReadsAtMost};
ghost use Rattle.taskrun.specs.Answers.{Replays, ExpectedReplay, IsReplaying, IsUnwritten};
ghost use Rattle.taskrun.specs.Inputs.{script_part, transcript_part};

use crate::inputs::parts;
use crate::status::Status;
use program_edges::{ReadError, read_all, write_all};
use run_replay::{Verdict, judge};
use sched_base::{Sink, Source};
use std::alloc::Global;
use step_tables::{Script, ScriptError};
use transcript::{TextError, Transcript};

/// One byte more than a script and a transcript may have together: what is read of a source at most.
const MOST_BYTES: usize = 71_303_169;

/// Judges the transcript behind a script on `src`.
pub(crate) fn replay<S: Source, O: Sink>(alloc: Global, src: &mut S, out: &mut O) -> Status
    ensures answers { IfSome (S.left src.old) (λ bytes. Replays (script_of (script_part bytes)) (run_of (transcript_part bytes)) (O.held out.old) (O.held out.new) result) }
    ensures ended { IfSome (S.left src.old) (λ _. result ≡ Status.Done → S.left src.new ≡ Some []) }
    ensures few { ReadsAtMost 71303169 (S.left src.old) (S.left src.new) }
    ensures usage { result ≡ Status.Usage → ⊥ }
    ensures unwritten { IsUnwritten result → out.new ≡ out.old }
    ensures read_fault { result ≡ Status.ReadFault → Rose (S.faults src.old) (S.faults src.new) }
    ensures write_fault { result ≡ Status.WriteFault → Rose (O.faults out.old) (O.faults out.new) }
    ensures complete { ¬ Rose (S.faults src.old) (S.faults src.new) → ¬ Rose (O.faults out.old) (O.faults out.new)
        → IfSome (S.left src.old) (λ bytes. ExpectedReplay (script_of (script_part bytes)) (run_of (transcript_part bytes)) result) }
{
    match read_all(alloc, src, MOST_BYTES) {
        Ok(bytes) => replay_bytes(alloc, &bytes, out),
        Err(ReadError::Fault) => Status::ReadFault,
        Err(ReadError::Memory) => Status::NoMemory,
    }
}

/// Judges the transcript behind the script in these bytes.
fn replay_bytes<O: Sink>(alloc: Global, bytes: &[u8], out: &mut O) -> Status
    requires { length bytes.now ≤ 71303169 }
    ensures answers { Replays (script_of (script_part bytes.now)) (run_of (transcript_part bytes.now)) (O.held out.old) (O.held out.new) result }
    ensures write_fault { result ≡ Status.WriteFault → Rose (O.faults out.old) (O.faults out.new) }
    ensures unwritten { IsUnwritten result → out.new ≡ out.old }
    ensures replaying { IsReplaying result }
{
    let (script, text) = parts(bytes);
    match Script::read(alloc, script) {
        Ok(script) => replay_text(alloc, &script, text, out),
        Err(ScriptError::Refused(fault)) => Status::ScriptRefused(fault),
        Err(ScriptError::Memory) => Status::NoMemory,
    }
}

/// Judges a transcript of a script, by its text.
fn replay_text<O: Sink>(alloc: Global, script: &Script, text: &[u8], out: &mut O) -> Status
    requires { length text.now ≤ 71303169 }
    ensures answers { Replays (Ok script.now) (run_of text.now) (O.held out.old) (O.held out.new) result }
    ensures write_fault { result ≡ Status.WriteFault → Rose (O.faults out.old) (O.faults out.new) }
    ensures unwritten { IsUnwritten result → out.new ≡ out.old }
    ensures replaying { IsReplaying result }
{
    match Transcript::read(alloc, text) {
        Ok(transcript) => replay_lines(alloc, script, &transcript, out),
        Err(TextError::Refused(fault)) => Status::TextRefused(fault),
        Err(TextError::Memory) => Status::NoMemory,
    }
}

/// Judges the lines of a transcript of a script, and says on `out` where they are lawful.
fn replay_lines<O: Sink>(
    alloc: Global,
    script: &Script,
    transcript: &Transcript,
    out: &mut O,
) -> Status
    requires order { GoesOn 0 false transcript.now }
    requires few { length transcript.now ≤ 71303169 }
    ensures answers { Replays (Ok script.now) (Ok transcript.now) (O.held out.old) (O.held out.new) result }
    ensures write_fault { result ≡ Status.WriteFault → Rose (O.faults out.old) (O.faults out.new) }
    ensures unwritten { IsUnwritten result → out.new ≡ out.old }
    ensures replaying { IsReplaying result }
{
    match judge(alloc, script, transcript) {
        Ok(Verdict::Lawful) => match write_all(out, b"lawful\n") {
            Ok(()) => Status::Done,
            Err(_) => Status::WriteFault,
        },
        Ok(Verdict::NotLawful(line)) => Status::NotLawful(line as u32),
        Err(_) => Status::NoMemory,
    }
}
