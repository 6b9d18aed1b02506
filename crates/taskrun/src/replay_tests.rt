//! Scripts with a transcript behind them: the one of a lawful run, and the same with one line changed.

use crate::tests::{CALM, run};
use crate::worked::*;
use std::alloc::{AllocError, Global};
use std::test::Fail;

/// The timer script and its transcript, of which one line, counted from 1, has another form or is taken out.
fn changed(alloc: Global, number: usize, line: &str) -> Result<String, AllocError> {
    let mut text = String::from_str(alloc, TIMER)?;
    for (index, old) in TIMER_TEXT.lines().enumerate() {
        let new = if index + 1 == number { line } else { old };
        if !new.is_empty() {
            text.push_str(new)?;
            text.push_str("\n")?;
        }
    }
    Ok(text)
}

#[test]
fn replays_name_the_first_line_that_is_not_lawful(rt: HostRuntime) -> Result<(), Fail> {
    let cases = [
        (0, "", 0, ""),
        (3, "c0 get 0 0000000000000000", 6, "not lawful: line 3\n"),
        (5, "c0 drop 0 runs - live 2", 6, "not lawful: line 5\n"),
        (6, "round 1 tick 4294967295", 6, "not lawful: line 6\n"),
        (8, "round 3 tick 2", 7, "transcript: line 8: Order\n"),
        (
            12,
            "c0 wake 0 timer queued - live 1",
            6,
            "not lawful: line 12\n",
        ),
        (13, "c0 take 0 queued io live 1", 6, "not lawful: line 13\n"),
        (14, "c0 kill 1 runs - live 2", 6, "not lawful: line 14\n"),
        (15, "", 6, "not lawful: line 15\n"),
        (
            16,
            "c0 retire 0 queued - live 2",
            6,
            "not lawful: line 16\n",
        ),
        (17, "end limit 3", 6, "not lawful: line 17\n"),
        (17, "end rest 4", 7, "transcript: line 17: Order\n"),
        (17, "", 7, "transcript: line 17: Truncated\n"),
    ];
    for (number, line, code, complaint) in cases {
        let text = changed(rt.alloc(), number, line)?;
        let outcome = run(&rt, rt.alloc(), "replay", text.as_str(), CALM)?;
        assert_eq!(rt; outcome.code, code);
        assert_eq!(rt; outcome.complaint.as_slice(), complaint.as_bytes());
        let told = if code == 0 { "lawful\n" } else { "" };
        assert_eq!(rt; outcome.text.as_slice(), told.as_bytes());
    }
    Ok(())
}

#[test]
fn replays_know_where_ticks_jump(rt: HostRuntime) -> Result<(), Fail> {
    let cases = [
        ("tick 4\n", "tick 4\n", 0, ""),
        ("tick 4\n", "tick 3\n", 6, "not lawful: line 6\n"),
    ];
    for (old, new, code, complaint) in cases {
        let transcript = JUMP_TEXT.replace(rt.alloc(), old, new)?;
        let text = format!(in rt.alloc(); "{JUMP}{transcript}")?;
        let outcome = run(&rt, rt.alloc(), "replay", text.as_str(), CALM)?;
        assert_eq!(rt; outcome.code, code);
        assert_eq!(rt; outcome.complaint.as_slice(), complaint.as_bytes());
    }
    Ok(())
}

#[test]
fn inputs_without_their_parts_are_refused(rt: HostRuntime) -> Result<(), Fail> {
    let cases = [
        (TIMER_CUT, 1, "script: line 9: Truncated\n"),
        (TIMER, 7, "transcript: line 1: Truncated\n"),
        ("", 1, "script: line 1: Truncated\n"),
        (TIMER_TEXT, 1, "script: line 1: Header\n"),
    ];
    for (text, code, complaint) in cases {
        let outcome = run(&rt, rt.alloc(), "replay", text, CALM)?;
        assert_eq!(rt; outcome.code, code);
        assert_eq!(rt; outcome.complaint.as_slice(), complaint.as_bytes());
        assert!(rt; outcome.text.is_empty());
    }
    Ok(())
}
