//! Verdicts on worked transcripts, and on the same with one line changed.

use crate::judging::{Verdict, judge};
use crate::worked::*;
use std::alloc::{AllocError, Global};
use std::test::Fail;
use step_tables::Script;
use transcript::Transcript;

/// A transcript with one line, counted from 1, in another form or taken out.
#[derive(Clone, Copy)]
struct Case<'a> {
    script: &'a str,
    lines: &'a [&'a str],
    number: usize,
    changed: &'a str,
    verdict: Verdict,
}

/// The text of the lines with the change; an empty line is left out.
fn text_of(alloc: Global, case: &Case<'_>) -> Result<String, AllocError> {
    let mut text = String::new(alloc);
    for (index, line) in case.lines.iter().enumerate() {
        let line = if index + 1 == case.number {
            case.changed
        } else {
            *line
        };
        if !line.is_empty() {
            text.push_str(line)?;
            text.push_str("\n")?;
        }
    }
    Ok(text)
}

/// The verdict on a case; none where a text does not read.
fn judged(alloc: Global, case: &Case<'_>) -> Result<Option<Verdict>, AllocError> {
    let text = text_of(alloc, case)?;
    let Ok(script) = Script::read(alloc, case.script.as_bytes()) else {
        return Ok(None);
    };
    let Ok(transcript) = Transcript::read(alloc, text.as_bytes()) else {
        return Ok(None);
    };
    Ok(Some(judge(alloc, &script, &transcript)?))
}

/// A worked transcript, and where a change of one line is found.
fn with_line<'a>(
    script: &'a str,
    lines: &'a [&'a str],
    number: usize,
    changed: &'a str,
    verdict: Verdict,
) -> Case<'a> {
    Case {
        script,
        lines,
        number,
        changed,
        verdict,
    }
}

#[test]
fn verdicts_name_the_first_line_that_is_not_lawful(rt: HostRuntime) -> Result<(), Fail> {
    let alloc = rt.alloc();
    let cases = [
        with_line(TIMER, &TIMER_LINES, 0, "", Verdict::Lawful),
        with_line(
            TIMER,
            &TIMER_LINES,
            3,
            "c0 get 0 0000000000000000",
            Verdict::NotLawful(3),
        ),
        with_line(
            TIMER,
            &TIMER_LINES,
            5,
            "c0 drop 0 runs - live 2",
            Verdict::NotLawful(5),
        ),
        with_line(TIMER, &TIMER_LINES, 5, "", Verdict::NotLawful(5)),
        with_line(
            TIMER,
            &TIMER_LINES,
            6,
            "round 1 tick 4294967295",
            Verdict::NotLawful(6),
        ),
        with_line(
            TIMER,
            &TIMER_LINES,
            12,
            "c0 wake 0 timer queued - live 1",
            Verdict::NotLawful(12),
        ),
        with_line(
            TIMER,
            &TIMER_LINES,
            13,
            "c0 take 0 queued io live 1",
            Verdict::NotLawful(13),
        ),
        with_line(
            TIMER,
            &TIMER_LINES,
            14,
            "c0 kill 1 runs - live 2",
            Verdict::NotLawful(14),
        ),
        with_line(TIMER, &TIMER_LINES, 15, "", Verdict::NotLawful(15)),
        with_line(
            TIMER,
            &TIMER_LINES,
            16,
            "c0 retire 0 queued - live 2",
            Verdict::NotLawful(16),
        ),
        with_line(
            TIMER,
            &TIMER_LINES,
            17,
            "end limit 3",
            Verdict::NotLawful(17),
        ),
        with_line(JUMP, &JUMP_LINES, 0, "", Verdict::Lawful),
        with_line(
            JUMP,
            &JUMP_LINES,
            6,
            "round 1 tick 3",
            Verdict::NotLawful(6),
        ),
        with_line(SELF_WAKE, &SELF_WAKE_LINES, 0, "", Verdict::Lawful),
        with_line(
            SELF_WAKE,
            &SELF_WAKE_LINES,
            17,
            "end rest 2",
            Verdict::NotLawful(17),
        ),
        with_line(SHARED, &SHARED_LINES, 0, "", Verdict::Lawful),
        with_line(SHARED, &SHARED_LINES, 4, "c0 draw 0", Verdict::NotLawful(5)),
        with_line(WOKEN, &WOKEN_LINES, 0, "", Verdict::Lawful),
        with_line(WOKEN, &WOKEN_LINES, 5, "", Verdict::NotLawful(5)),
    ];
    for case in cases.iter() {
        assert_eq!(rt; judged(alloc, case)?, Some(case.verdict));
    }
    Ok(())
}
