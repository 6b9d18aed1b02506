//! Which fault a line has, beside what was read before it.

ghost use Rattle.std.specs.Prelude.{◌≡◌, ℕ, ◌<◌, ◌≤◌, map, length, Option, option_map, None};
ghost use Rattle.step_tables.specs.Judging.{setting_tests, task_tests, row_tests, event_tests, tests, first_fault, may_come, due, promised, rows_made, wrong_target, barred, is_timerless, is_expiry, last_round, all_rows, no_row, least, most};
ghost use Rattle.step_tables.specs.Limits.{limits_of};
ghost use Rattle.step_tables.specs.Views.{delay_view, task_view, row_view, event_view, said_view};

use crate::faults::FaultKind;
use crate::limits::{Limits, MOST_ACTIONS, MOST_ROWS};
use crate::names::{any_unknown, is_named, is_unknown, unknown};
use crate::progress::Progress;
use crate::shapes::{Delay, EventLine, RowLine, Said, Setting, TaskLine};
use crate::tables::{Event, Kind, TaskDef};
use crate::values::{
    delay_no_number, delay_outside, no_number, outside, place_no_number, place_outside, value,
};

/// The least that a setting may be.
pub(crate) fn least(setting: Setting) -> u32
    ensures { result ≡ least setting }
{
    match setting {
        Setting::Workers | Setting::Depth | Setting::Step | Setting::Rounds => 1,
        Setting::Start => 0,
    }
}

/// The most that a setting may be.
pub(crate) fn most(limits: Limits, setting: Setting) -> u32
    ensures { result ≡ most limits setting }
{
    match setting {
        Setting::Workers => limits.workers,
        Setting::Depth => limits.depth,
        Setting::Start => limits.start,
        Setting::Step => limits.step,
        Setting::Rounds => limits.rounds,
    }
}

/// The fault of a setting.
fn setting_fault(limits: Limits, setting: Setting, word: &[u8]) -> Option<FaultKind>
    ensures { result ≡ first_fault (setting_tests limits setting word.now) }
{
    if no_number(word) {
        Some(FaultKind::Number)
    } else if outside(least(setting), most(limits, setting), value(word)) {
        Some(FaultKind::LimitPassed)
    } else {
        None
    }
}

/// Whether the kind of task has no timer.
fn is_timerless(kind: Kind) -> bool
    ensures { result ≡ is_timerless kind }
{
    match kind {
        Kind::Pinned { .. } => false,
        Kind::Shared { .. } | Kind::Tasklet { .. } => true,
    }
}

/// Whether an expiry stands.
fn is_expiry(delay: Delay<'_>) -> bool
    ensures { result ≡ is_expiry (delay_view delay.entry) }
{
    match delay {
        Delay::Keeps => false,
        Delay::After(_) | Delay::Never => true,
    }
}

/// The round of the last event, or 0.
fn last_round(events: &[Event]) -> u32
    ensures { result ≡ last_round events.now }
{
    match events.last() {
        None => 0,
        Some(event) => event.round,
    }
}

impl Progress {
    /// The limits of the script's version.
    pub fn limits(&self) -> Limits
        ensures { result ≡ limits_of self.now.version }
    {
        Limits::of(self.version)
    }

    /// The task whose rows come now.
    pub fn due(&self) -> Option<&TaskDef>
        ensures { option_map (λ task. task.now) result ≡ due self.now }
    {
        self.tasks.as_slice().get(self.at)
    }

    /// How many rows its line promised.
    pub fn promised(&self) -> u32
        ensures { result ≡ promised self.now }
    {
        match self.counts.as_slice().get(self.at) {
            None => 0,
            Some(count) => *count,
        }
    }

    /// Whether each task has all its rows.
    fn all_rows(&self) -> bool
        ensures { result ≡ all_rows self.now }
    {
        self.at == self.tasks.len()
    }

    /// Whether no row has come.
    fn no_row(&self) -> bool
        ensures { result ≡ no_row self.now }
    {
        self.at == 0 && self.rows_made() == 0
    }

    /// How many rows have come of the task whose rows come now.
    fn rows_made(&self) -> usize
        ensures { result ≡ rows_made (due self.now) }
    {
        match self.due() {
            None => 0,
            Some(task) => task.rows.as_slice().len(),
        }
    }

    /// Whether what the line says may come now.
    pub fn may_come(&self, said: &Said<'_>) -> bool
        ensures { result ≡ may_come self.now (said_view said.now) }
    {
        match said {
            Said::Sets(_, _) => true,
            Said::Task(_) => self.no_row() && self.events.as_slice().is_empty(),
            Said::Row(_) => !self.all_rows(),
            Said::Event(_) | Said::Ends => self.all_rows(),
        }
    }

    /// The fault of a task line.
    fn task_fault(&self, line: &TaskLine<'_>) -> Option<FaultKind>
        ensures { result ≡ first_fault (task_tests self.now (task_view line.now)) }
    {
        if place_no_number(line.place) || no_number(line.rows) {
            Some(FaultKind::Number)
        } else if !unknown(&self.tasks, line.name) {
            Some(FaultKind::TwiceNamed)
        } else if place_outside(self.workers, line.place)
            || outside(1, MOST_ROWS, value(line.rows))
            || self.tasks.len() >= self.limits().tasks as usize
        {
            Some(FaultKind::LimitPassed)
        } else {
            None
        }
    }

    /// Whether the row is not the one that must come next, or its next row is none of its task's.
    fn is_wrong_target(&self, line: &RowLine<'_>) -> bool
        ensures { result ≡ wrong_target self.now (due self.now) (row_view line.now) }
    {
        match self.due() {
            None => true,
            Some(task) => {
                !is_named(task, line.name)
                    || value(line.number) != task.rows.as_slice().len() as u64
                    || self.promised() as u64 <= value(line.next)
            }
        }
    }

    /// Whether the row has an expiry that its task may not have.
    fn is_barred(&self, delay: Delay<'_>) -> bool
        ensures { result ≡ barred (due self.now) (delay_view delay.entry) }
    {
        match self.due() {
            None => false,
            Some(task) => is_timerless(task.kind) && is_expiry(delay),
        }
    }

    /// The fault of a row line.
    fn row_fault(&self, line: &RowLine<'_>) -> Option<FaultKind>
        ensures { result ≡ first_fault (row_tests self.now (row_view line.now)) }
    {
        let tasks = &self.tasks;
        if no_number(line.number) || delay_no_number(line.delay) || no_number(line.next) {
            Some(FaultKind::Number)
        } else if unknown(tasks, line.name) || any_unknown(tasks, &line.orders) {
            Some(FaultKind::UnknownTask)
        } else if self.is_wrong_target(line) {
            Some(FaultKind::RowTarget)
        } else if self.is_barred(line.delay) {
            Some(FaultKind::ExpiryBarred)
        } else if line.orders.len() > MOST_ACTIONS || delay_outside(line.delay) {
            Some(FaultKind::LimitPassed)
        } else {
            None
        }
    }

    /// The fault of an event line.
    fn event_fault(&self, line: &EventLine<'_>) -> Option<FaultKind>
        ensures { result ≡ first_fault (event_tests self.now (event_view line.now)) }
    {
        let events = self.events.as_slice();
        let round = value(line.round);
        if no_number(line.round) {
            Some(FaultKind::Number)
        } else if is_unknown(&self.tasks, &line.order) {
            Some(FaultKind::UnknownTask)
        } else if self.rounds as u64 <= round
            || events.len() >= self.limits().events as usize
            || round < last_round(events) as u64
        {
            Some(FaultKind::LimitPassed)
        } else {
            None
        }
    }

    /// The kind of the fault of a line that may come now.
    pub fn fault_of(&self, said: &Said<'_>) -> Option<FaultKind>
        ensures { result ≡ first_fault (tests self.now (said_view said.now)) }
    {
        match said {
            Said::Sets(setting, word) => setting_fault(self.limits(), *setting, word),
            Said::Task(line) => self.task_fault(line),
            Said::Row(line) => self.row_fault(line),
            Said::Event(line) => self.event_fault(line),
            Said::Ends => None,
        }
    }
}
