//! The reader: a text is judged line by line, up to its first bad line.

ghost use Rattle.std.specs.Prelude.{◌≡◌, ◌+◌, ◌<◌, ◌^◌, OnOk};
ghost use Rattle.text_lines.specs.Lines.{line_taken, closed, at_line};
ghost use Rattle.transcript.specs.Judging.{Gives, Takes, fault, lines_read, judged_said, follows, is_end, rounds_with, may_stand, past, opening, run_within, transcripts};

use crate::faults::{FaultKind, TextError, TextFault};
use crate::lines::Line;
use crate::phrases::said;
use crate::shape::{Progress, Said};
use crate::transcripts::Transcript;
use std::alloc::{AllocError, Global};
use text_lines::{is_line, line_over, next_line};

/// The lines of a text of at most `most` bytes.
pub(crate) fn read_within(alloc: Global, most: usize, bytes: &[u8]) -> Result<Transcript, TextError>
    requires { most + 2 < 2 ^ 32 }
    ensures { Gives result (run_within most bytes.now) }
{
    let over = line_over(most, bytes);
    let mut progress = Progress::opening(alloc);
    let mut number: u32 = 1;
    let mut rest = bytes;
    loop {
        let (text, behind) = next_line(rest);
        let Some(next) = behind else {
            return progress.close(over, number, text);
        };
        progress.take_line(over, number, text)?;
        rest = next;
        number += 1;
    }
}

/// The fault of a line.
fn refuse<T>(line: u32, kind: FaultKind) -> Result<T, TextError>
    ensures { result ≡ Err (TextError.Refused (fault (line, kind))) }
{
    Err(TextError::Refused(TextFault {
        line,
        kind: kind.number(),
    }))
}

impl Progress {
    /// Before the first line.
    fn opening(alloc: Global) -> Progress
        ensures { result ≡ opening }
    {
        Progress {
            begun: false,
            rounds: 0,
            ended: false,
            lines: Transcript::new(alloc),
        }
    }

    /// Takes a whole line, or answers its fault.
    #[tactic(auto, unfolding(text_lines::specs::Lines::line_taken))]
    fn take_line(&mut self, over: Option<u32>, number: u32, text: &[u8]) -> Result<(), TextError>
        requires { self.old.rounds < 2 ^ 32 }
        ensures { Takes result self.new (line_taken transcripts over number self.old text.now) }
    {
        if self.ended {
            return refuse(number, FaultKind::Order);
        }
        if is_line(over, number) {
            return refuse(number, FaultKind::LimitPassed);
        }
        match said(text) {
            Some(said) => self.take_said(number, &said),
            None => refuse(number, FaultKind::Line),
        }
    }

    /// Takes what a line says, or answers its fault.
    fn take_said(&mut self, number: u32, said: &Said) -> Result<(), TextError>
        requires { self.old.rounds < 2 ^ 32 }
        ensures { Takes result self.new (at_line number (judged_said self.old (Some said.now))) }
    {
        if !self.may_stand(said) {
            return refuse(number, FaultKind::Order);
        }
        self.add(said)?;
        Ok(())
    }

    /// Whether a line may stand next.
    fn may_stand(&self, said: &Said) -> bool
        ensures { result ≡ may_stand self.now said.now }
    {
        match said {
            Said::First => !self.begun,
            Said::Holds(line) => self.begun && follows(self.rounds, line),
        }
    }

    /// Adds what a good line says.
    fn add(&mut self, said: &Said) -> Result<(), AllocError>
        requires { self.old.rounds < 2 ^ 32 }
        ensures { OnOk result (self.new ≡ past self.old said.now) }
    {
        match said {
            Said::First => {
                self.begun = true;
                Ok(())
            }
            Said::Holds(line) => {
                self.lines.push(line)?;
                self.rounds = rounds_with(self.rounds, line);
                self.ended = is_end(line);
                Ok(())
            }
        }
    }

    /// The lines, where the end line has come and nothing stands behind it.
    #[tactic(auto, unfolding(text_lines::specs::Lines::closed))]
    fn close(self, over: Option<u32>, number: u32, piece: &[u8]) -> Result<Transcript, TextError>
        ensures { Gives result (lines_read (closed transcripts over number self piece.now)) }
    {
        if !self.ended {
            return refuse(
                number,
                if is_line(over, number) {
                    FaultKind::LimitPassed
                } else {
                    FaultKind::Truncated
                },
            );
        }
        if !piece.is_empty() {
            return refuse(number, FaultKind::Order);
        }
        Ok(self.lines)
    }
}

/// Whether a line of the run may follow so many rounds.
fn follows(rounds: u64, line: &Line) -> bool
    ensures { result ≡ follows rounds line.now }
{
    match line {
        Line::Round { number, .. } => u64::from(*number) == rounds,
        Line::Entry(_) => 0 < rounds,
        Line::End { last, .. } => u64::from(*last) + 1 == rounds,
    }
}

/// How many rounds there are with a line.
fn rounds_with(rounds: u64, line: &Line) -> u64
    requires { rounds < 2 ^ 32 }
    ensures { result ≡ rounds_with rounds line.now }
{
    match line {
        Line::Round { .. } => rounds + 1,
        Line::Entry(_) | Line::End { .. } => rounds,
    }
}

/// Whether a line is the end.
fn is_end(line: &Line) -> bool
    ensures { result ≡ is_end line.now }
{
    match line {
        Line::End { .. } => true,
        Line::Round { .. } | Line::Entry(_) => false,
    }
}
