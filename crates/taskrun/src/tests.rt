//! The program over streams in memory.

use crate::error_lines::tell;
use crate::worked::*;
use crate::{Status, answer, taskrun};
use sched_base::{CalmSink, CalmSource, MemSink, MemSource, OpenGate, StdSink, StdSource};
use std::alloc::{AllocError, Global};
use std::env::Args;
use std::io::{self, ErrorKind};
use std::process::ExitCode;
use std::test::Fail;
use std::thread::Threads;
use step_tables::ScriptFault;
use thread_loop::ThreadCrew;
use transcript::TextFault;

/// How the streams of a run give and take bytes.
#[derive(Clone, Copy)]
pub(crate) struct Streams {
    piece_in: usize,
    fails_in: Option<u64>,
    room: usize,
    piece_out: usize,
    fails_out: Option<u64>,
}

pub(crate) const CALM: Streams = Streams {
    piece_in: 4096,
    fails_in: None,
    room: 4096,
    piece_out: 4096,
    fails_out: None,
};

#[derive(Drop)]
pub(crate) struct Outcome {
    pub code: u8,
    exit: ExitCode,
    pub text: Vec<u8>,
    pub complaint: Vec<u8>,
}

fn listed(alloc: Global, fails: Option<u64>) -> Result<Vec<u64>, AllocError> {
    let mut list = Vec::new(alloc);
    if let Some(number) = fails {
        list.push(number)?;
    }
    Ok(list)
}

pub(crate) fn words_of(alloc: Global, line: &str) -> Result<Vec<String>, AllocError> {
    let mut words = Vec::new(alloc);
    for word in line.split_whitespace() {
        words.push(String::from_str(alloc, word)?)?;
    }
    Ok(words)
}

/// Runs a script by the command line `taskrun` with these words.
pub(crate) fn run<R: Threads + Sync>(
    rt: &R,
    alloc: Global,
    line: &str,
    script: &str,
    streams: Streams,
) -> Result<Outcome, AllocError> {
    let line = format!(in alloc; "taskrun {line}")?;
    let words = words_of(alloc, line.as_str())?;
    run_by(rt, alloc, Ok(words.into_iter()), script, streams)
}

fn run_by<R: Threads + Sync>(
    rt: &R,
    alloc: Global,
    args: io::Result<Args>,
    script: &str,
    streams: Streams,
) -> Result<Outcome, AllocError> {
    let bytes = Vec::from_slice(alloc, script.as_bytes())?;
    let mut src = MemSource::new(
        bytes,
        streams.piece_in.max(1),
        listed(alloc, streams.fails_in)?,
    );
    let fails_out = listed(alloc, streams.fails_out)?;
    let mut out = MemSink::new(alloc, streams.room, streams.piece_out.max(1), fails_out)?;
    let mut err = MemSink::new(alloc, 100, 100, Vec::new(alloc))?;
    let status = answer(
        rt,
        alloc,
        args,
        &mut src,
        &mut out,
        &mut err,
        &mut ThreadCrew::new(),
        &OpenGate,
    );
    let text = Vec::from_slice(alloc, out.held())?;
    Ok(Outcome {
        code: status.code(),
        exit: ExitCode::from(status),
        text,
        complaint: Vec::from_slice(alloc, err.held())?,
    })
}

/// Whether the text is a first part of the other.
fn is_front(text: &[u8], whole: &str) -> bool {
    whole.as_bytes().get(..text.len()) == Some(text)
}

/// The line that tells of usage.
const USAGE: &str = "usage: taskrun run, taskrun replay or taskrun gen SEED SIZE\n";

#[test]
fn answers_worked_scripts(rt: HostRuntime) -> Result<(), Fail> {
    let cases = [
        ("run", FIRST, 0, FIRST_TEXT, ""),
        ("run", EMPTY, 0, EMPTY_TEXT, ""),
        ("run", SELF_WAKE, 0, SELF_WAKE_TEXT, ""),
        ("run", TIMER, 0, TIMER_TEXT, ""),
        ("run", JUMP, 0, JUMP_TEXT, ""),
        ("run", CHECK, 0, CHECK_TEXT, ""),
        ("run", TOGETHER, 0, TOGETHER_TEXT, ""),
        ("run", SHARED, 0, SHARED_TEXT, ""),
        ("run", DRAWN_AGAIN, 0, DRAWN_AGAIN_TEXT, ""),
        ("run", PUSHED_AGAIN, 0, PUSHED_AGAIN_TEXT, ""),
        ("run", MOVED_TIMERS, 0, MOVED_TIMERS_TEXT, ""),
        ("run", "", 1, "", "script: line 1: Truncated\n"),
        ("run", TIMER_CUT, 1, "", "script: line 9: Truncated\n"),
        ("run", "taskscript 9\n", 1, "", "script: line 1: Header\n"),
        ("", FIRST, 2, "", USAGE),
        ("run now", FIRST, 2, "", USAGE),
        ("replay", FIRST, 7, "", "transcript: line 1: Truncated\n"),
        ("gen 01 5", FIRST, 2, "", USAGE),
        ("--help", FIRST, 2, "", USAGE),
        ("gen 0 1", FIRST, 0, SMALLEST_SUMMARY, ""),
        ("gen 7 64", "", 0, SUMMARY_OF_64, ""),
    ];
    for (line, script, code, text, complaint) in cases {
        let outcome = run(&rt, rt.alloc(), line, script, CALM)?;
        assert_eq!(rt; outcome.code, code);
        assert_eq!(rt; outcome.text.as_slice(), text.as_bytes());
        assert_eq!(rt; outcome.complaint.as_slice(), complaint.as_bytes());
    }
    Ok(())
}

// Every kind of fault has its name, and each number in a line is written whole.
#[test]
fn names_each_answer(rt: HostRuntime) -> Result<(), Fail> {
    let script = |line, kind| Status::ScriptRefused(ScriptFault { line, kind });
    let text = |line, kind| Status::TextRefused(TextFault { line, kind });
    let cases = [
        (Status::Done, ""),
        (script(1, 1), "script: line 1: Header\n"),
        (script(22, 2), "script: line 22: Word\n"),
        (script(303, 3), "script: line 303: Number\n"),
        (script(4, 4), "script: line 4: UnknownTask\n"),
        (script(5, 5), "script: line 5: TwiceNamed\n"),
        (script(6, 6), "script: line 6: RowTarget\n"),
        (script(7, 7), "script: line 7: ExpiryBarred\n"),
        (
            script(u32::MAX, 8),
            "script: line 4294967295: LimitPassed\n",
        ),
        (script(9, 9), "script: line 9: Truncated\n"),
        (Status::Usage, USAGE),
        (Status::ReadFault, "read fault\n"),
        (Status::WriteFault, "write fault\n"),
        (Status::NoMemory, "want of memory\n"),
        (Status::NotLawful(13), "not lawful: line 13\n"),
        (text(1, 1), "transcript: line 1: Line\n"),
        (text(2, 2), "transcript: line 2: Order\n"),
        (text(10, 3), "transcript: line 10: Truncated\n"),
        (text(4, 4), "transcript: line 4: LimitPassed\n"),
    ];
    for (status, line) in cases {
        let mut err = MemSink::new(rt.alloc(), 100, 7, Vec::new(rt.alloc()))?;
        tell(&mut err, &status);
        assert_eq!(rt; err.held(), line.as_bytes());
        let mut full = MemSink::new(rt.alloc(), 8, 7, Vec::new(rt.alloc()))?;
        tell(&mut full, &status);
        assert!(rt; is_front(full.held(), line));
    }
    Ok(())
}

/// Whether the process ends with this code.
fn ends_with(alloc: Global, outcome: &Outcome, code: u8) -> Result<bool, AllocError> {
    let exit = format!(in alloc; "{:?}", outcome.exit)?;
    let named = format!(in alloc; "ExitCode(unix_exit_status({code}))")?;
    Ok(outcome.code == code && exit.as_str() == named.as_str())
}

#[test]
fn answers_become_exit_codes(rt: HostRuntime) -> Result<(), Fail> {
    let fails_in = Streams {
        fails_in: Some(0),
        ..CALM
    };
    let fails_out = Streams {
        fails_out: Some(0),
        ..CALM
    };
    let cases = [
        ("run", FIRST, CALM, 0),
        ("run", "", CALM, 1),
        ("", FIRST, CALM, 2),
        ("run", FIRST, fails_in, 3),
        ("run", FIRST, fails_out, 4),
    ];
    for (line, script, streams, code) in cases {
        let outcome = run(&rt, rt.alloc(), line, script, streams)?;
        assert!(rt; ends_with(rt.alloc(), &outcome, code)?);
    }
    for (kind, code) in [(ErrorKind::InvalidData, 2), (ErrorKind::OutOfMemory, 5)] {
        let outcome = run_by(&rt, rt.alloc(), Err(io::Error::from(kind)), FIRST, CALM)?;
        assert!(rt; ends_with(rt.alloc(), &outcome, code)?);
        assert!(rt; outcome.text.is_empty());
    }
    Ok(())
}

#[test]
fn takes_any_pieces(rt: HostRuntime) -> Result<(), Fail> {
    for piece_in in [1, 7, 16] {
        for piece_out in [1, 10] {
            let streams = Streams {
                piece_in,
                piece_out,
                ..CALM
            };
            let outcome = run(&rt, rt.alloc(), "run", TIMER, streams)?;
            assert_eq!(rt; outcome.code, 0);
            assert_eq!(rt; outcome.text.as_slice(), TIMER_TEXT.as_bytes());
        }
    }
    Ok(())
}

#[test]
fn tells_failed_reads(rt: HostRuntime) -> Result<(), Fail> {
    let reads = TIMER.len().div_ceil(16) as u64 + 1;
    for n in 0..21 {
        let streams = Streams {
            piece_in: 16,
            fails_in: Some(n),
            ..CALM
        };
        let outcome = run(&rt, rt.alloc(), "run", TIMER, streams)?;
        assert_eq!(rt; outcome.code, if n < reads { 3 } else { 0 });
        assert_eq!(rt; outcome.text.is_empty(), n < reads);
    }
    Ok(())
}

#[test]
fn tells_failed_writes(rt: HostRuntime) -> Result<(), Fail> {
    let mut failed = 0;
    for n in 0..61 {
        let streams = Streams {
            piece_out: 10,
            fails_out: Some(n),
            ..CALM
        };
        let outcome = run(&rt, rt.alloc(), "run", TIMER, streams)?;
        let whole = outcome.text.len() == TIMER_TEXT.len();
        assert_eq!(rt; outcome.code, if whole { 0 } else { 4 });
        assert!(rt; is_front(&outcome.text, TIMER_TEXT));
        if !whole {
            assert_eq!(rt; failed, n);
            failed = n + 1;
        }
    }
    assert_eq!(rt; failed, TIMER_TEXT.len().div_ceil(10) as u64);
    Ok(())
}

#[test]
fn fills_a_small_sink(rt: HostRuntime) -> Result<(), Fail> {
    let streams = Streams { room: 40, ..CALM };
    let outcome = run(&rt, rt.alloc(), "run", TIMER, streams)?;
    assert_eq!(rt; outcome.code, 4);
    assert_eq!(rt; outcome.text.len(), 40);
    assert!(rt; is_front(&outcome.text, TIMER_TEXT));
    Ok(())
}

#[test]
fn carries_bytes_over_std(rt: HostRuntime) -> Result<(), Fail> {
    let words = words_of(rt.alloc(), "run")?;
    let mut text = Vec::new(rt.alloc());
    let mut small = [0u8; 40];
    let mut err = StdSink::new(Vec::<u8>::new(rt.alloc()));
    let mut src = StdSource::new(TIMER.as_bytes());
    let mut out = StdSink::new(&mut text);
    let mut crew = ThreadCrew::new();
    let whole = taskrun(
        &rt,
        rt.alloc(),
        &words,
        &mut src,
        &mut out,
        &mut err,
        &mut crew,
        &OpenGate,
    );
    let mut src = StdSource::new(TIMER.as_bytes());
    let mut out = StdSink::new(&mut small[..]);
    let full = taskrun(
        &rt,
        rt.alloc(),
        &words,
        &mut src,
        &mut out,
        &mut err,
        &mut crew,
        &OpenGate,
    );
    assert_eq!(rt; whole, Status::Done);
    assert_eq!(rt; text.as_slice(), TIMER_TEXT.as_bytes());
    assert_eq!(rt; full, Status::WriteFault);
    assert!(rt; is_front(&small, TIMER_TEXT));
    Ok(())
}

// Over streams that never fail and memory that suffices each command answers for certain.
#[test]
fn answers_over_calm_streams(rt: HostRuntime) -> Result<(), Fail> {
    let replayed = format!(in rt.alloc(); "{TIMER}{TIMER_TEXT}")?;
    let cases = [
        ("run", TIMER, 0, TIMER_TEXT.len()),
        ("run", TIMER_CUT, 1, 0),
        ("replay", replayed.as_str(), 0, "lawful\n".len()),
        ("replay", TIMER, 7, 0),
        ("gen 7 64", "", 0, SUMMARY_OF_64.len()),
        ("gen 7 4097", "", 2, 0),
    ];
    for (line, input, code, count) in cases {
        let words = words_of(rt.alloc(), line)?;
        let mut src = CalmSource::new(Vec::from_slice(rt.alloc(), input.as_bytes())?);
        let mut out = CalmSink::new();
        let status = taskrun(
            &rt,
            rt.alloc(),
            &words,
            &mut src,
            &mut out,
            &mut CalmSink::new(),
            &mut ThreadCrew::new(),
            &OpenGate,
        );
        assert_eq!(rt; status.code(), code);
        assert_eq!(rt; out.count(), count as u64);
    }
    Ok(())
}

/// A ring of 100 tasks of one worker that pass a message round, and then each kills itself.
fn ring(alloc: Global) -> Result<String, AllocError> {
    let mut script = String::from_str(
        alloc,
        "taskscript 1\nworkers 1\ndepth 7\nstart 0\nstep 1\nrounds 400\n",
    )?;
    for i in 0..100i32 {
        let init = if i == 0 { " init" } else { "" };
        let line = format!(in alloc; "task t{i} home 0 nice {} rows 2{init}\n", i % 5 - 2)?;
        script.push_str(line.as_str())?;
    }
    for i in 0..100 {
        let next = (i + 1) % 100;
        let rows = format!(in alloc;
            "row t{i} 0 wake t{next} msg next 1\nrow t{i} 1 kill t{i} next 1\n"
        )?;
        script.push_str(rows.as_str())?;
    }
    script.push_str("end\n")?;
    Ok(script)
}

/// Three groups of tasks of one worker, more than may run in a turn, which wake and kill each other and have timers.
fn crowd(alloc: Global) -> Result<String, AllocError> {
    let mut script = String::from_str(
        alloc,
        "taskscript 1\nworkers 1\ndepth 10\nstart 4294967000\nstep 20\nrounds 40\n",
    )?;
    for i in 0..150i32 {
        let line = format!(in alloc; "task t{i} home 0 nice {} rows 2 init\n", i % 9 - 4)?;
        script.push_str(line.as_str())?;
    }
    for i in 0..150u32 {
        let first = format!(in alloc;
            "row t{i} 0 wake t{} io after {} next 1\n",
            (i * 7 + 1) % 150,
            i * 3 + 1
        )?;
        let second = format!(in alloc;
            "row t{i} 1 kill t{} wake t{} res next 0\n",
            (i * 11 + 3) % 150,
            (i * 5 + 2) % 150
        )?;
        script.push_str(first.as_str())?;
        script.push_str(second.as_str())?;
    }
    script.push_str("event 3 wake t5 signal\nevent 9 kill t77\nend\n")?;
    Ok(script)
}

/// A number that tells texts apart (FNV-1a).
fn print_of(text: &[u8]) -> u64 {
    let mut print: u64 = 0xcbf2_9ce4_8422_2325;
    for byte in text {
        print = (print ^ u64::from(*byte)).wrapping_mul(0x0100_0000_01b3);
    }
    print
}

// The lengths and prints are those of texts that were worked out apart from the program.
#[test]
fn answers_larger_scripts(rt: HostRuntime) -> Result<(), Fail> {
    let streams = Streams {
        room: 1_000_000,
        ..CALM
    };
    let ring = ring(rt.alloc())?;
    let outcome = run(&rt, rt.alloc(), "run", ring.as_str(), streams)?;
    assert_eq!(rt; outcome.code, 0);
    assert_eq!(rt; outcome.text.len(), 15353);
    assert_eq!(rt; print_of(&outcome.text), 0xf0aa5820655297dd);
    let crowd = crowd(rt.alloc())?;
    let outcome = run(&rt, rt.alloc(), "run", crowd.as_str(), streams)?;
    assert_eq!(rt; outcome.code, 0);
    assert_eq!(rt; outcome.text.len(), 43193);
    assert_eq!(rt; print_of(&outcome.text), 0x4d9c3dbc4686af5c);
    Ok(())
}
