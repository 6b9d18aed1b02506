//! Runs whose callers are on threads of their own: side by side, whatever way they take, and as their crew tells them.

use crate::tests::words_of;
use crate::worked::*;
use crate::{Status, taskrun};
use sched_base::{CallerId, Gate, MemSink, MemSource, OpenGate, Reasons, TaskId};
use std::alloc::{AllocError, Global};
use std::sync::atomic::{AtomicU64, Ordering};
use std::test::Fail;
use std::thread::Threads;
use task_machine::{Call, Entry, Reply, Seen, Stand};
use thread_loop::{Crew, Kept, RecordCrew, ThreadCrew};

/// How often a caller looks for the other one.
const MOST_TURNS: u64 = 100_000_000;

/// Holds callers 0 and 1 before each of their first five calls until the other has come to its own; once a caller has
/// looked too often, it holds no more.
#[derive(Drop)]
struct Meeting {
    first: AtomicU64,
    second: AtomicU64,
    late: AtomicU64,
}

impl Meeting {
    fn new() -> Meeting {
        Meeting {
            first: AtomicU64::new(0),
            second: AtomicU64::new(0),
            late: AtomicU64::new(0),
        }
    }

    /// Waits until the other caller has come to a call.
    fn meet(&self, other: &AtomicU64, nth: u64) {
        for _ in 0..MOST_TURNS {
            if nth <= other.load(Ordering::SeqCst) || self.late.load(Ordering::SeqCst) == 1 {
                return;
            }
        }
        self.late.store(1, Ordering::SeqCst);
    }
}

impl Gate for Meeting {
    fn at(&self, who: CallerId, nth: u64) {
        if nth > 5 {
            return;
        }
        let (own, other) = if who.0 == 0 {
            (&self.first, &self.second)
        } else {
            (&self.second, &self.first)
        };
        own.store(nth, Ordering::SeqCst);
        self.meet(other, nth);
    }
}

/// Runs a script by a crew and gives what was written.
fn run<R: Threads + Sync, C: Crew, G: Gate + Sync>(
    rt: &R,
    alloc: Global,
    script: &str,
    crew: &mut C,
    gate: &G,
) -> Result<(Status, Vec<u8>), AllocError> {
    let words = words_of(alloc, "run")?;
    let bytes = Vec::from_slice(alloc, script.as_bytes())?;
    let mut src = MemSource::new(bytes, 4096, Vec::new(alloc));
    let mut out = MemSink::new(alloc, 65_536, 4096, Vec::new(alloc))?;
    let mut err = MemSink::new(alloc, 100, 100, Vec::new(alloc))?;
    let status = taskrun(rt, alloc, &words, &mut src, &mut out, &mut err, crew, gate);
    Ok((status, Vec::from_slice(alloc, out.held())?))
}

/// The lines that begin so, one after another.
fn lines_of(alloc: Global, text: &[u8], begin: &str) -> Result<String, AllocError> {
    let mut lines = String::new(alloc);
    let text = String::from_utf8_lossy(alloc, text)?;
    for line in text.as_str().split_inclusive('\n') {
        if line.starts_with(begin) {
            lines.push_str(line)?;
        }
    }
    Ok(lines)
}

#[test]
fn callers_are_side_by_side(rt: HostRuntime) -> Result<(), Fail> {
    let gate = Meeting::new();
    let (status, _) = run(&rt, rt.alloc(), TWO_ALONE, &mut ThreadCrew::new(), &gate)?;
    assert_eq!(rt; status, Status::Done);
    assert_eq!(rt; gate.first.load(Ordering::SeqCst), 5);
    assert_eq!(rt; gate.second.load(Ordering::SeqCst), 5);
    assert_eq!(rt; gate.late.load(Ordering::SeqCst), 0);
    Ok(())
}

/// What a task shows that is live and was taken so often.
fn live(stand: Stand, pending: Reasons, killed: bool, takes: u64) -> Reply {
    Reply::Task(Seen::Live {
        stand,
        pending,
        killed,
        takes,
    })
}

/// The calls of a worker whose one task, of its own number, kills itself.
fn calls_alone(worker: u32) -> [Kept; 5] {
    let id = TaskId(worker);
    let none = Reasons::EMPTY;
    let tasks = if worker == 0 { 1 } else { 2 };
    let kept = |call, reply| Kept {
        round: 0,
        entry: Entry {
            caller: CallerId(worker),
            call,
            reply,
        },
    };
    [
        kept(Call::Get(0), Reply::Group(tasks)),
        kept(Call::Take(id), live(Stand::Queued, Reasons::INIT, false, 0)),
        kept(Call::Kill(id), live(Stand::Runs, none, false, 1)),
        kept(Call::DropRun(id), live(Stand::Runs, none, true, 1)),
        kept(Call::Retire(id), live(Stand::Queued, none, true, 1)),
    ]
}

#[test]
fn a_crew_tells_all_calls_or_none(rt: HostRuntime) -> Result<(), Fail> {
    let mut crew = RecordCrew::new(rt.alloc(), 10)?;
    let (status, text) = run(&rt, rt.alloc(), TWO_ALONE, &mut crew, &OpenGate)?;
    assert_eq!(rt; status, Status::Done);
    let mut calls = Vec::from_slice(rt.alloc(), &calls_alone(0))?;
    calls.extend_from_slice(&calls_alone(1))?;
    assert_eq!(rt; crew.calls(), Some(calls.as_slice()));
    let first = lines_of(rt.alloc(), &text, "c0 ")?;
    assert_eq!(rt;
        first.as_str(),
        "c0 get 0 0000000000000001\nc0 take 0 queued init live 0\nc0 kill 0 runs - live 1\nc0 drop 0 runs - killed 1\nc0 retire 0 queued - killed 1\n"
    );
    let second = lines_of(rt.alloc(), &text, "c1 ")?;
    assert_eq!(rt;
        second.as_str(),
        "c1 get 0 0000000000000002\nc1 take 1 queued init live 0\nc1 kill 1 runs - live 1\nc1 drop 1 runs - killed 1\nc1 retire 1 queued - killed 1\n"
    );
    let mut small = RecordCrew::new(rt.alloc(), 9)?;
    let (status, _) = run(&rt, rt.alloc(), TWO_ALONE, &mut small, &OpenGate)?;
    assert_eq!(rt; status, Status::Done);
    assert_eq!(rt; small.calls(), None);
    Ok(())
}

// The second worker finds the task that the first one posts in round 0 or in round 1.
#[test]
fn a_posted_task_is_found_now_or_later(rt: HostRuntime) -> Result<(), Fail> {
    let found =
        "c1 get 0 0000000000000002\nc1 take 1 queued io live 0\nc1 kill 1 runs - live 1\nc1 drop 1 runs - killed 1\nc1 retire 1 queued - killed 1\n";
    let none = "c1 get 0 0000000000000000\n";
    let now = format!(in rt.alloc(); "{found}{none}{none}")?;
    let later = format!(in rt.alloc(); "{none}{found}{none}")?;
    for _ in 0..20 {
        let (status, text) = run(&rt, rt.alloc(), APART, &mut ThreadCrew::new(), &OpenGate)?;
        assert_eq!(rt; status, Status::Done);
        let rounds = lines_of(rt.alloc(), &text, "round ")?;
        assert_eq!(rt;
            rounds.as_str(),
            "round 0 tick 0\nround 1 tick 1\nround 2 tick 2\n"
        );
        let first = lines_of(rt.alloc(), &text, "c0 ")?;
        assert_eq!(rt; first.as_str(), APART_FIRST);
        let second = lines_of(rt.alloc(), &text, "c1 ")?;
        assert!(rt; second.as_str() == now.as_str() || second.as_str() == later.as_str());
        assert!(rt; text.ends_with(b"c2 wake 1 io gone\nend rest 2\n"));
    }
    Ok(())
}

#[test]
fn each_shared_task_is_drawn_once(rt: HostRuntime) -> Result<(), Fail> {
    for _ in 0..20 {
        let (status, text) = run(
            &rt,
            rt.alloc(),
            SHARED_BY_TWO,
            &mut ThreadCrew::new(),
            &OpenGate,
        )?;
        assert_eq!(rt; status, Status::Done);
        let text = String::from_utf8_lossy(rt.alloc(), &text)?;
        for line in [" draw 0\n", " draw 1\n", " draw 2\n"] {
            assert_eq!(rt; text.as_str().matches(line).count(), 1);
        }
        assert!(rt; text.as_str().ends_with("\nend rest 0\n"));
    }
    Ok(())
}

#[test]
fn a_waking_shared_task_is_drawn_each_round(rt: HostRuntime) -> Result<(), Fail> {
    for _ in 0..20 {
        let (status, text) = run(
            &rt,
            rt.alloc(),
            DRAWN_BY_TWO,
            &mut ThreadCrew::new(),
            &OpenGate,
        )?;
        assert_eq!(rt; status, Status::Done);
        let text = String::from_utf8_lossy(rt.alloc(), &text)?;
        assert_eq!(rt; text.as_str().matches("round ").count(), 3);
        for round in text.as_str().split("round ").skip(1) {
            let takes = round.matches(" take 0 ").count();
            assert!(rt; 1 <= takes && takes <= 2 * 5);
        }
        assert!(rt; text.as_str().ends_with("\nend limit 2\n"));
    }
    Ok(())
}

// The ticks of the rounds are told apart from how the workers' calls are merged.
#[test]
fn ticks_jump_to_the_first_timer(rt: HostRuntime) -> Result<(), Fail> {
    let alloc = rt.alloc();
    let cases = [
        (
            SECOND_FIRST,
            "round 0 tick 1000\nround 1 tick 1030\nround 2 tick 1050\n",
        ),
        (SHORT_JUMP, "round 0 tick 1000\nround 1 tick 1050\n"),
        (
            STOPPED_JUMP,
            "round 0 tick 1000\nround 1 tick 1010\nround 2 tick 1020\nround 3 tick 1050\n",
        ),
    ];
    for (script, rounds) in cases {
        let (status, text) = run(&rt, alloc, script, &mut ThreadCrew::new(), &OpenGate)?;
        assert_eq!(rt; status, Status::Done);
        let ticks = lines_of(alloc, &text, "round ")?;
        assert_eq!(rt; ticks.as_str(), rounds);
        let end = lines_of(alloc, &text, "end rest ")?;
        assert!(rt; !end.is_empty());
    }
    Ok(())
}
