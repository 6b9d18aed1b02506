//! Reading a script, line by line.

ghost use Rattle.std.specs.Prelude.{◌≡◌, ℕ, ◌<◌, ◌≤◌, ◌+◌, ◌^◌, length, Option, option_map, Ok, Err, Some, IfSome, IfOk, IsTrue, ◌-◌};
ghost use Rattle.step_tables.specs.declared.faults.ScriptError.TheVariants.{Refused};
ghost use Rattle.text_lines.specs.Lines.{line_taken, closed};
ghost use Rattle.step_tables.specs.Words.{words_of};
ghost use Rattle.step_tables.specs.Shapes.{setting_line, body_line};
ghost use Rattle.step_tables.specs.Judging.{judge_said, setting_at, said_in, said_of, judge, judge_header, version_of, version_in, scripts, fault, script_read, script_within, script_of};
ghost use Rattle.step_tables.specs.Sound.{is_sound};
ghost use Rattle.step_tables.specs.Views.{said_view, Judges, Takes, Gives, words_in};

use crate::faults::{FaultKind, ScriptError, ScriptFault};
use crate::limits::{Limits, NEWEST};
use crate::progress::{Progress, Refusal};
use crate::shapes::{Said, Setting, body_line, setting_line};
use crate::tables::Script;
use crate::words::words_of;
use std::alloc::{AllocError, Global};
use text_lines::{Words, is_line, line_over, next_line};

/// The version that a first line says.
#[tactic(auto, unfolding(crate::specs::Judging::version_of))]
fn version_of(line: &[u8]) -> Option<u32>
    ensures { result ≡ version_of line.now }
{
    if line == b"taskscript 1".as_slice() {
        Some(1)
    } else if line == b"taskscript 2".as_slice() {
        Some(2)
    } else {
        None
    }
}

/// The version that a text says in its first line, or the newest where it says none.
fn version_in(bytes: &[u8]) -> u32
    ensures { result ≡ version_in bytes.now }
{
    let (line, _) = next_line(&bytes[..bytes.len().min(13)]);
    version_of(line).unwrap_or(NEWEST)
}

/// The setting whose line this is.
#[tactic(auto, unfolding(crate::specs::Judging::setting_at))]
fn setting_at(number: u32) -> Option<Setting>
    requires { 1 < number }
    ensures { result ≡ setting_at number }
{
    match number {
        2 => Some(Setting::Workers),
        3 => Some(Setting::Depth),
        4 => Some(Setting::Start),
        5 => Some(Setting::Step),
        6 => Some(Setting::Rounds),
        _ => None,
    }
}

/// What the line says, by its number.
#[tactic(auto, unfolding(crate::specs::Judging::said_in))]
fn said_in<'a>(alloc: Global, number: u32, words: Words<'a>) -> Result<Option<Said<'a>>, AllocError>
    requires { 1 < number }
    ensures { IfOk result (λ said. option_map said_view said ≡ said_in (setting_at number) (words_in words.entry)) }
{
    match setting_at(number) {
        None => body_line(alloc, words),
        Some(setting) => Ok(setting_line(setting, words)),
    }
}

/// What the line says, where its words fit a shape.
#[tactic(auto, unfolding(crate::specs::Judging::said_of))]
fn said_of<'a>(alloc: Global, number: u32, line: &'a [u8]) -> Result<Option<Said<'a>>, AllocError>
    requires { 1 < number }
    ensures { IfOk result (λ said. option_map said_view said ≡ said_of number line.now) }
{
    match words_of(line) {
        None => Ok(None),
        Some(words) => said_in(alloc, number, words),
    }
}

impl Progress {
    /// Judges what a line says, and adds it where it has no fault.
    #[tactic(auto, unfolding(crate::specs::Judging::judge_said, crate::specs::Judging::judge_tested))]
    fn take_said(&mut self, alloc: Global, said: &Said<'_>) -> Result<(), Refusal>
        ensures { Judges result self.new (judge_said self.old (Some (said_view said.now))) }
    {
        if !self.may_come(said) {
            return Err(Refusal::Kind(FaultKind::Word));
        }
        match self.fault_of(said) {
            Some(kind) => Err(Refusal::Kind(kind)),
            None => {
                self.add(alloc, said)?;
                Ok(())
            }
        }
    }

    /// Judges the first line, and keeps its version.
    #[tactic(auto, unfolding(crate::specs::Judging::judge_header))]
    fn take_header(&mut self, line: &[u8]) -> Result<(), Refusal>
        ensures { Judges result self.new (judge_header self.old (version_of line.now)) }
    {
        match version_of(line) {
            None => Err(Refusal::Kind(FaultKind::Header)),
            Some(version) => {
                self.version = version;
                Ok(())
            }
        }
    }

    /// Judges a complete line, and adds it where it has no fault.
    #[tactic(auto, unfolding(crate::specs::Judging::judge, crate::specs::Judging::judge_said))]
    fn judge(&mut self, alloc: Global, number: u32, line: &[u8]) -> Result<(), Refusal>
        requires { 1 ≤ number }
        ensures { Judges result self.new (judge number self.old line.now) }
    {
        if number == 1 {
            return self.take_header(line);
        }
        match said_of(alloc, number, line)? {
            None => Err(Refusal::Kind(FaultKind::Word)),
            Some(said) => self.take_said(alloc, &said),
        }
    }

    /// Takes a complete line, or answers its fault.
    #[tactic(auto, unfolding(text_lines::specs::Lines::line_taken))]
    fn take_line(
        &mut self,
        alloc: Global,
        over: Option<u32>,
        number: u32,
        line: &[u8],
    ) -> Result<(), ScriptError>
        requires { 1 ≤ number }
        ensures { Takes result self.new (line_taken scripts over number self.old line.now) }
    {
        if self.ended {
            return refuse(number, FaultKind::Word);
        }
        if is_line(over, number) {
            return refuse(number, FaultKind::LimitPassed);
        }
        match self.judge(alloc, number, line) {
            Ok(()) => Ok(()),
            Err(Refusal::NoMemory) => Err(ScriptError::Memory),
            Err(Refusal::Kind(kind)) => refuse(number, kind),
        }
    }

    /// The script, where the line `end` has come and nothing stands behind it.
    #[tactic(auto, unfolding(text_lines::specs::Lines::closed, crate::specs::Judging::script_from))]
    fn close(self, over: Option<u32>, number: u32, piece: &[u8]) -> Result<Script, ScriptError>
        requires { IfOk (script_read (closed scripts over number self piece.now)) (λ s. IsTrue (is_sound s)) }
        ensures { Gives result (script_read (closed scripts over number self piece.now)) }
    {
        if !self.ended {
            return refuse(
                number,
                if is_line(over, number) {
                    FaultKind::LimitPassed
                } else {
                    FaultKind::Truncated
                },
            );
        }
        if !piece.is_empty() {
            return refuse(number, FaultKind::Word);
        }
        Ok(Script {
            version: self.version,
            workers: self.workers,
            depth: self.depth,
            start: self.start,
            step: self.step,
            rounds: self.rounds,
            tasks: self.tasks.into_tasks(),
            events: self.events,
        })
    }
}

/// The fault of a line.
fn refuse<T>(line: u32, kind: FaultKind) -> Result<T, ScriptError>
    ensures { result ≡ Err (Refused (fault (line, kind))) }
{
    Err(ScriptError::Refused(ScriptFault {
        line,
        kind: kind.number(),
    }))
}

/// The script of a text of at most so many bytes.
fn script_within(alloc: Global, limit: usize, bytes: &[u8]) -> Result<Script, ScriptError>
    requires short { limit + 2 < 2 ^ 32 }
    requires counted { length bytes.now < 2 ^ 32 - 1 }
    ensures { Gives result (script_within limit bytes.now) }
{
    let over = line_over(limit, bytes);
    let mut progress = Progress::new(alloc);
    let mut number: u32 = 1;
    let mut rest = bytes;
    'lines: loop {
        let (line, more) = next_line(rest);
        let Some(more) = more else {
            return progress.close(over, number, line);
        };
        progress.take_line(alloc, over, number, line)?;
        number += 1;
        rest = more;
    }
}

impl Script {
    /// The script of a text, or the line and the kind of the text's first fault (docs/SCRIPT.md).
    pub fn read(alloc: Global, bytes: &[u8]) -> Result<Script, ScriptError>
        ensures same { Gives result (script_of bytes.now) }
        ensures sound { IfOk result (λ s. IsTrue (is_sound s)) }
    {
        let most = Limits::of(version_in(bytes)).bytes;
        let end = bytes.len().min(most + 1);
        script_within(alloc, most, &bytes[..end])
    }
}
