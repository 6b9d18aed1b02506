//! What a good line adds to what was read before it.

ghost use Rattle.std.specs.Prelude.{◌≡◌, ℕ, ◌<◌, ◌≤◌, ◌^◌, map, length, Option, option_map, None, OnOk, IfOk, IfSome, slice_get, false, ◌+◌, ◌==◌};
ghost use Rattle.step_tables.specs.Judging.{setting_tests, task_tests, row_tests, event_tests, tests, first_fault, may_come, due, promised, nothing, outside, least, most, value, with_setting, with_task, with_row, with_event, with_line, task_of, row_of, event_of, place_outside, delay_outside};
ghost use Rattle.step_tables.specs.Limits.{limits_of};
ghost use Rattle.step_tables.specs.Views.{place_view, delay_view, task_view, row_view, event_view, said_view};

use crate::judging::{least, most};
use crate::limits::MOST_ROWS;
use crate::lists::{Counts, Events, Name, Rows};
use crate::named_tasks::NamedTasks;
use crate::names::{action_of, actions_of};
use crate::progress::Progress;
use crate::shapes::{EventLine, RowLine, Said, Setting, TaskLine};
use crate::tables::{Event, Row, TaskDef};
use crate::values::{expiry_of, kind_of, number_within, value};
use std::alloc::{AllocError, Global};

/// The task that a good task line says, with no row so far.
#[tactic(auto, unfolding(crate::specs::Judging::task_of))]
fn task_of(alloc: Global, workers: u32, line: &TaskLine<'_>) -> Result<TaskDef, AllocError>
    requires { place_outside workers (place_view line.now.place) ≡ false }
    ensures { IfOk result (λ task. task ≡ task_of (task_view line.now)) }
{
    Ok(TaskDef {
        name: Name::from_vec(Vec::from_slice(alloc, line.name)?),
        kind: kind_of(workers, line.place),
        init: line.init,
        rows: Rows::new(alloc),
    })
}

/// The row that a good row line says; `count` is its task's number of rows.
#[tactic(auto, unfolding(crate::specs::Judging::row_of))]
fn row_of(
    alloc: Global,
    tasks: &NamedTasks,
    count: u32,
    line: &RowLine<'_>,
) -> Result<Row, AllocError>
    requires expiry { delay_outside (delay_view line.now.delay) ≡ false }
    requires next { value line.now.next.now < count }
    ensures { IfOk result (λ row. row ≡ row_of tasks.now (row_view line.now)) }
{
    Ok(Row {
        actions: actions_of(alloc, tasks, &line.orders)?,
        expiry: expiry_of(line.delay),
        next: value(line.next) as u32,
    })
}

/// The event that a good event line says, in a script of so many rounds.
#[tactic(auto, unfolding(crate::specs::Judging::event_of))]
fn event_of(tasks: &NamedTasks, rounds: u32, line: &EventLine<'_>) -> Event
    requires { value line.now.round.now < rounds }
    ensures { result ≡ event_of tasks.now (event_view line.now) }
{
    Event {
        round: value(line.round) as u32,
        action: action_of(tasks, &line.order),
    }
}

impl Progress {
    ghost use Rattle.step_tables.specs.declared.tables.TaskDef.{TaskDef};

    /// Nothing is read so far.
    pub fn new(alloc: Global) -> Progress
        ensures { result ≡ nothing }
    {
        Progress {
            version: 0,
            workers: 0,
            depth: 0,
            start: 0,
            step: 0,
            rounds: 0,
            tasks: NamedTasks::new(alloc),
            counts: Counts::new(alloc),
            at: 0,
            events: Events::new(alloc),
            ended: false,
        }
    }

    /// Adds a setting within its range.
    #[tactic(auto, unfolding(crate::specs::Judging::with_setting))]
    fn add_setting(&mut self, setting: Setting, value: u32)
        ensures { self.new ≡ with_setting self.old setting value }
    {
        match setting {
            Setting::Workers => self.workers = value,
            Setting::Depth => self.depth = value,
            Setting::Start => self.start = value,
            Setting::Step => self.step = value,
            Setting::Rounds => self.rounds = value,
        }
    }

    /// Adds a good task line.
    #[tactic(auto, unfolding(crate::specs::Judging::with_task))]
    fn add_task(&mut self, alloc: Global, line: &TaskLine<'_>) -> Result<(), AllocError>
        requires { first_fault (task_tests self.old (task_view line.now)) ≡ None }
        ensures { OnOk result (self.new ≡ with_task self.old (task_view line.now)) }
    {
        let task = task_of(alloc, self.workers, line)?;
        self.tasks.push(alloc, task)?;
        self.counts.push(number_within(1, MOST_ROWS, line.rows))
    }

    /// Whether one row more is the last of the task whose rows come now.
    fn is_last_row(&self) -> bool
        ensures { (task : TaskDef) → due self.now ≡ Some task
            → result ≡ (length task.rows + 1 == promised self.now) }
    {
        match self.due() {
            None => false,
            Some(task) => task.rows.as_slice().len() + 1 == self.promised() as usize,
        }
    }

    /// Adds a good row line.
    #[tactic(auto, unfolding(crate::specs::Judging::with_row))]
    fn add_row(&mut self, alloc: Global, line: &RowLine<'_>) -> Result<(), AllocError>
        requires { first_fault (row_tests self.old (row_view line.now)) ≡ None }
        ensures { OnOk result (self.new ≡ with_row self.old (due self.old) (row_of self.old.tasks (row_view line.now))) }
    {
        let is_last = self.is_last_row();
        let _count = self.tasks.len();
        let row = row_of(alloc, &self.tasks, self.promised(), line)?;
        self.tasks.add_row(self.at, row)?;
        if is_last {
            self.at += 1;
        }
        Ok(())
    }

    /// Adds a good event line.
    #[tactic(auto, unfolding(crate::specs::Judging::with_event))]
    fn add_event(&mut self, line: &EventLine<'_>) -> Result<(), AllocError>
        requires { first_fault (event_tests self.old (event_view line.now)) ≡ None }
        ensures { OnOk result (self.new ≡ with_event self.old (event_view line.now)) }
    {
        let event = event_of(&self.tasks, self.rounds, line);
        self.events.add(event)
    }

    /// Adds a line that may come and has no fault; a failure leaves some of it.
    #[tactic(auto, unfolding(crate::specs::Judging::with_line))]
    pub fn add(&mut self, alloc: Global, said: &Said<'_>) -> Result<(), AllocError>
        requires { first_fault (tests self.old (said_view said.now)) ≡ None }
        ensures { OnOk result (self.new ≡ with_line self.old (said_view said.now)) }
    {
        match said {
            Said::Sets(setting, word) => {
                self.add_setting(
                    *setting,
                    number_within(least(*setting), most(self.limits(), *setting), word),
                );
                Ok(())
            }
            Said::Task(line) => self.add_task(alloc, line),
            Said::Row(line) => self.add_row(alloc, line),
            Said::Event(line) => self.add_event(line),
            Said::Ends => {
                self.ended = true;
                Ok(())
            }
        }
    }
}
