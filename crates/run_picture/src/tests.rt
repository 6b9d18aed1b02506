//! Pictures of worked transcripts, words, refusals and faults, through streams in memory.

ghost use Rattle.std.specs.Prelude.{◌<◌, length};

use crate::bars::{Bar, Rounds};
use crate::scans::bars_of;
use crate::{Status, answer};
use sched_base::{MemSink, MemSource, StdSink, StdSource};
use std::alloc::{AllocError, Global};
use std::io::{self, ErrorKind};
use std::process::ExitCode;
use std::test::Fail;
use transcript::Transcript;

/// A check with a timer, and a tasklet that it wakes and then kills.
const CHECK: &str = "taskscript 1
workers 1
depth 200
start 1000
step 10
rounds 20
task check home 0 nice 0 rows 2 init
tasklet conn home 0 class urgent rows 1
row check 0 wake conn io after 20 next 1
row check 1 kill conn kill check next 1
row conn 0 next 0
end
";

const CHECK_RUN: &str = "taskrun 1
round 0 tick 1000
c0 get 0 0000000000000001
c0 take 0 queued init live 0
c0 wake 1 io rest - live 0
c0 drop 0 runs - live 1
round 1 tick 1010
c0 get 0 0000000000000000
c0 take 1 queued io live 0
c0 drop 1 runs - live 1
round 2 tick 1020
c0 get 0 0000000000000000
c0 wake 0 timer rest - live 1
c0 take 0 queued timer live 1
c0 kill 1 rest - live 1
c0 kill 0 runs - live 2
c0 drop 0 runs - killed 2
c0 retire 0 queued - killed 2
round 3 tick 1030
c0 get 0 0000000000000000
c0 take 1 queued - killed 1
c0 retire 1 runs - live 2
end rest 3
";

/// Two workers in between one another, and an injector that wakes a task of the second.
const TOGETHER: &str = "taskrun 1
round 0 tick 5
c0 get 0 0000000000000001
c1 get 0 0000000000000002
c0 take 0 queued init live 0
c1 take 1 queued init,msg live 7
c2 wake 2 signal rest - live 0
c1 wake 0 io runs - live 1
c2 post 2 1
c0 drop 0 runs io live 1
c1 drop 1 runs - live 8
c0 take 0 queued io live 1
c1 get 0 0000000000000004
c0 drop 0 runs - live 2
c1 take 2 queued signal live 0
c1 drop 2 runs - live 1
c40 take 5000 gone
end limit 0
";

/// What is looked at of a bar: its line, lane, round, slot, task, entries, whether its task is retired, and
/// the line that raised it, or 0.
type Row = (u64, u32, u32, u64, u32, u64, bool, u64);

fn row_of(bar: &Bar) -> Row {
    let raised = match bar.raised {
        Some(spot) => spot.line,
        None => 0,
    };
    let spot = bar.spot;
    (
        spot.line,
        spot.lane,
        spot.round,
        spot.slot,
        bar.task.0,
        bar.entries,
        bar.is_retired,
        raised,
    )
}

const CHECK_BARS: [Row; 4] = [
    (4, 0, 0, 1, 0, 3, false, 0),
    (9, 0, 1, 1, 1, 2, false, 5),
    (14, 0, 2, 2, 0, 5, true, 13),
    (21, 0, 3, 1, 1, 2, true, 15),
];

const TOGETHER_BARS: [Row; 5] = [
    (5, 0, 0, 1, 0, 2, false, 0),
    (6, 1, 0, 1, 1, 3, false, 0),
    (12, 0, 0, 3, 0, 2, false, 0),
    (15, 1, 0, 5, 2, 2, false, 7),
    (17, 17, 0, 0, 5000, 1, false, 0),
];

#[test]
fn bars_of_worked_transcripts(rt: HostRuntime) -> Result<(), Fail> {
    let cases: [(&str, u32, u32, &[Row]); 4] = [
        (CHECK_RUN, 0, 9, &CHECK_BARS),
        (CHECK_RUN, 1, 2, &CHECK_BARS[1..3]),
        (CHECK_RUN, 4, 9, &[]),
        (TOGETHER, 0, 0, &TOGETHER_BARS),
    ];
    for (text, first, last, rows) in cases {
        let Ok(transcript) = Transcript::read(rt.alloc(), text.as_bytes()) else {
            assert!(rt; false);
            return Ok(());
        };
        let bars = bars_of(rt.alloc(), &Rounds { first, last }, transcript.as_slice())?;
        assert_eq!(rt; bars.len(), rows.len());
        for (bar, row) in bars.iter().zip(rows) {
            assert_eq!(rt; row_of(bar), *row);
        }
    }
    Ok(())
}

/// How a run of the program ended.
#[derive(Drop)]
struct Outcome {
    status: Status,
    text: Vec<u8>,
    told: Vec<u8>,
}

fn words_of(alloc: Global, line: &str) -> Result<Vec<String>, AllocError> {
    let mut words = Vec::new(alloc);
    for word in line.split_whitespace() {
        words.push(String::from_str(alloc, word)?)?;
    }
    Ok(words)
}

fn listed(alloc: Global, number: Option<u64>) -> Result<Vec<u64>, AllocError> {
    let mut list = Vec::new(alloc);
    if let Some(number) = number {
        list.push(number)?;
    }
    Ok(list)
}

/// Runs the program by these words on an input; the read or the write of these numbers fails.
fn run(
    alloc: Global,
    line: &str,
    input: &str,
    fails_in: Option<u64>,
    fails_out: Option<u64>,
) -> Result<Outcome, AllocError> {
    let line = format!(in alloc; "taskpicture {line}")?;
    let args = words_of(alloc, line.as_str())?.into_iter();
    let bytes = Vec::from_slice(alloc, input.as_bytes())?;
    let mut src = MemSource::new(bytes, 1000, listed(alloc, fails_in)?);
    let mut out = MemSink::new(alloc, 20_000, 1000, listed(alloc, fails_out)?)?;
    let mut err = MemSink::new(alloc, 100, 100, Vec::new(alloc))?;
    let status = answer(alloc, Ok(args), &mut src, &mut out, &mut err);
    Ok(Outcome {
        status,
        text: Vec::from_slice(alloc, out.held())?,
        told: Vec::from_slice(alloc, err.held())?,
    })
}

#[test]
fn answers_are_told(rt: HostRuntime) -> Result<(), Fail> {
    let usage = "usage: taskpicture [--from R] [--to R] [--text]\n";
    let cases = [
        ("", CHECK_RUN, 0, ""),
        ("--text", CHECK_RUN, 0, ""),
        ("--from 2 --to 2", CHECK_RUN, 0, ""),
        ("--to=3 --from=1 --text", CHECK_RUN, 0, ""),
        ("run", CHECK_RUN, 2, usage),
        ("--from 3 --to 2", CHECK_RUN, 2, usage),
        ("--from 01", CHECK_RUN, 2, usage),
        ("--to 4294967296", CHECK_RUN, 2, usage),
        ("--to", CHECK_RUN, 2, usage),
        ("--text --text", CHECK_RUN, 2, usage),
        ("--help", CHECK_RUN, 2, usage),
        ("", "", 7, "transcript: line 1: Truncated\n"),
        (
            "",
            "taskrun 1\nend rest 0\n",
            7,
            "transcript: line 2: Order\n",
        ),
        ("", "taskrun 2\n", 7, "transcript: line 1: Line\n"),
        ("", CHECK, 7, "transcript: line 1: Truncated\n"),
        (
            "",
            "taskscript 1\nworkers 1",
            7,
            "script: line 2: Truncated\n",
        ),
        (
            "",
            "taskscript 3\nend\ntaskrun 1\n",
            7,
            "script: line 1: Header\n",
        ),
        (
            "",
            "taskscript 1\nworkers 0\nend\n",
            7,
            "script: line 2: LimitPassed\n",
        ),
    ];
    for (words, input, code, told) in cases {
        let outcome = run(rt.alloc(), words, input, None, None)?;
        assert_eq!(rt; outcome.status.code(), code);
        assert_eq!(rt; outcome.told.as_slice(), told.as_bytes());
        assert_eq!(rt; outcome.text.is_empty(), code != 0);
    }
    Ok(())
}

#[test]
fn faults_of_streams_are_told(rt: HostRuntime) -> Result<(), Fail> {
    let failed = run(rt.alloc(), "", CHECK_RUN, Some(0), None)?;
    assert_eq!(rt; failed.status, Status::ReadFault);
    assert_eq!(rt; failed.told.as_slice(), b"read fault\n".as_slice());
    assert!(rt; failed.text.is_empty());
    let whole = run(rt.alloc(), "", CHECK_RUN, None, None)?;
    let failed = run(rt.alloc(), "", CHECK_RUN, None, Some(2))?;
    assert_eq!(rt; failed.status, Status::WriteFault);
    assert_eq!(rt; failed.told.as_slice(), b"write fault\n".as_slice());
    assert_eq!(rt; failed.text.len(), 2000);
    assert_eq!(rt; whole.text.get(..2000), Some(failed.text.as_slice()));
    for (kind, code) in [(ErrorKind::InvalidData, 2), (ErrorKind::OutOfMemory, 5)] {
        let mut src = StdSource::new(CHECK_RUN.as_bytes());
        let mut out = StdSink::new(Vec::<u8>::new(rt.alloc()));
        let mut err = StdSink::new(Vec::<u8>::new(rt.alloc()));
        let args = Err(io::Error::from(kind));
        let status = answer(rt.alloc(), args, &mut src, &mut out, &mut err);
        assert_eq!(rt; status.code(), code);
        let exit = format!(in rt.alloc(); "{:?}", ExitCode::from(status))?;
        let named = format!(in rt.alloc(); "ExitCode(unix_exit_status({code}))")?;
        assert_eq!(rt; exit.as_str(), named.as_str());
    }
    Ok(())
}

/// How often a piece stands in a text.
fn count_of(text: &[u8], piece: &[u8]) -> usize
    requires { 0 < length piece.now }
{
    text.windows(piece.len())
        .filter(|here| *here == piece)
        .count()
}

#[test]
fn pictures_have_each_take(rt: HostRuntime) -> Result<(), Fail> {
    let both = format!(in rt.alloc(); "{CHECK}{CHECK_RUN}")?;
    let pieces: [&[u8]; 8] = [
        b"<g id='L4' transform='translate(132,96)'><title>task 0 check: take 1 for init, round 0, line 4</title>",
        b"<g id='L9' transform='translate(280,96)'><title>task 1 conn: take 1 for io, round 1, line 9, raised in line 5</title>",
        b"task 0 check: take 2 for timer, round 2, line 14, raised in line 13, retired</title>",
        b"task 1 conn: take 2 for killed, round 3, line 21, raised in line 15, retired</title>",
        b">check</text>",
        b">worker 0</text>",
        b">injector</text>",
        b">rest</text>",
    ];
    let outcome = run(rt.alloc(), "", both.as_str(), None, None)?;
    assert_eq!(rt; outcome.status, Status::Done);
    assert_eq!(rt; count_of(&outcome.text, b"<g id='L"), 4);
    for piece in pieces {
        assert!(rt; count_of(&outcome.text, piece) >= 1);
    }
    let outcome = run(rt.alloc(), "", TOGETHER, None, None)?;
    assert_eq!(rt; count_of(&outcome.text, b"<g id='L"), 5);
    assert_eq!(rt; count_of(&outcome.text, b">others</text>"), 1);
    assert_eq!(rt;
        count_of(&outcome.text, b"translate(98,1252)'><title>task 5000:"),
        1
    );
    Ok(())
}

#[test]
fn tables_have_each_round_and_worker(rt: HostRuntime) -> Result<(), Fail> {
    let both = format!(in rt.alloc(); "{CHECK}{CHECK_RUN}")?;
    let outcome = run(rt.alloc(), "--text --from 1", both.as_str(), None, None)?;
    let table = " round       tick  worker  runs
     1       1010       0  conn:o
     2       1020       0  check:t
     3       1030       0  conn:k
end rest 3
i init, t timer, o io, s signal, m msg, r res, x other, k killed
";
    assert_eq!(rt; outcome.text.as_slice(), table.as_bytes());
    let mut many = String::from_str(rt.alloc(), "taskrun 1\nround 0 tick 4294967295\n")?;
    for task in 1_000_000_000u32..1_000_000_030 {
        let lines = format!(in rt.alloc();
            "c9 take {task} queued init,timer,io,signal,msg,res,other killed 0\nc9 retire {task} runs - live 0\n"
        )?;
        many.push_str(lines.as_str())?;
    }
    many.push_str("end rest 0\n")?;
    let outcome = run(rt.alloc(), "--text", many.as_str(), None, None)?;
    assert_eq!(rt; count_of(&outcome.text, b" +27\n"), 1);
    for line in outcome.text.as_slice().split(|byte| *byte == b'\n') {
        assert!(rt; line.len() <= 100);
    }
    Ok(())
}
