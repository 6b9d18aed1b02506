//! Writing a script's text.

ghost use Rattle.std.specs.Prelude.{◌≡◌, ℕ, ◌++◌, ◌∷◌, [], map, flat_map, length, codes, decimal, OnOk, OnErr, if◌then◌else◌};
ghost use Rattle.step_tables.specs.Text.{class_name, order_words, delay_words, init_words, place_words, task_word, said_words, name_at, order_said, delay_said, place_said, task_said, row_said, rows_said, event_said, names_of, settings_said, body_said, spaced, line_text, lines_text, script_text, header_of};
ghost use Rattle.step_tables.specs.Shapes.{setting_name, sets};

use crate::shapes::{Setting, setting_name};
use crate::tables::{Action, Event, Expiry, Kind, Row, Script, TaskDef};
use sched_base::{Class, TaskId};
use std::alloc::AllocError;
use text_lines::{put_bytes, put_reasons, put_signed, put_word};

/// Appends a space and a number.
fn put_number(out: &mut Vec<u8>, number: u64) -> Result<(), AllocError>
    ensures { OnOk result (out.new.items ≡ out.old.items ++ 32 ∷ decimal number) }
{
    put_bytes(out, b" ")?;
    text_lines::put_number(out, number)
}

/// The name of a class.
fn class_name(class: Class) -> &'static [u8]
    ensures { result.now ≡ class_name class }
{
    match class {
        Class::Urgent => b"urgent",
        Class::Normal => b"normal",
        Class::Bulk => b"bulk",
        Class::Heavy => b"heavy",
    }
}

/// Appends where a task runs.
#[tactic(auto, unfolding(crate::specs::Text::place_said))]
fn put_place(out: &mut Vec<u8>, kind: Kind) -> Result<(), AllocError>
    ensures { OnOk result (out.new.items ≡ out.old.items ++ spaced (place_words (place_said kind))) }
{
    match kind {
        Kind::Pinned { home, nice } => {
            put_word(out, b"home")?;
            put_number(out, home as u64)?;
            put_word(out, b"nice")?;
            put_bytes(out, b" ")?;
            put_signed(out, nice)
        }
        Kind::Shared { nice } => {
            put_word(out, b"shared")?;
            put_word(out, b"nice")?;
            put_bytes(out, b" ")?;
            put_signed(out, nice)
        }
        Kind::Tasklet { home, class } => {
            put_word(out, b"home")?;
            put_number(out, home as u64)?;
            put_word(out, b"class")?;
            put_word(out, class_name(class))
        }
    }
}

/// Appends an expiry, where one stands.
#[tactic(auto, unfolding(crate::specs::Text::delay_said))]
fn put_expiry(out: &mut Vec<u8>, expiry: Expiry) -> Result<(), AllocError>
    ensures { OnOk result (out.new.items ≡ out.old.items ++ spaced (delay_words (delay_said expiry))) }
{
    match expiry {
        Expiry::Keep => Ok(()),
        Expiry::After(ticks) => {
            put_word(out, b"after")?;
            put_number(out, ticks as u64)
        }
        Expiry::Never => put_word(out, b"never"),
    }
}

/// The name of a task, or no byte where there is no such task.
#[tactic(auto, using(crate::proofs::NameAt::name_there, crate::proofs::NameAt::name_missing))]
fn name_at(tasks: &[TaskDef], id: TaskId) -> &[u8]
    ensures { result.now ≡ name_at (names_of tasks.now) id.0 }
{
    match tasks.get(id.0 as usize) {
        Some(task) => task.name.as_slice(),
        None => &[],
    }
}

/// Appends an action.
#[tactic(auto, unfolding(crate::specs::Text::order_said))]
fn put_action(out: &mut Vec<u8>, tasks: &[TaskDef], action: Action) -> Result<(), AllocError>
    ensures { OnOk result (out.new.items ≡ out.old.items ++ spaced (order_words (order_said (names_of tasks.now) action))) }
{
    match action {
        Action::Wake(id, reasons) => {
            put_word(out, b"wake")?;
            put_word(out, name_at(tasks, id))?;
            put_bytes(out, b" ")?;
            put_reasons(out, reasons)
        }
        Action::Kill(id) => {
            put_word(out, b"kill")?;
            put_word(out, name_at(tasks, id))
        }
    }
}

/// Appends actions.
fn put_actions(out: &mut Vec<u8>, tasks: &[TaskDef], actions: &[Action]) -> Result<(), AllocError>
    ensures { OnOk result (out.new.items ≡ out.old.items ++ flat_map (λ action. spaced (order_words (order_said (names_of tasks.now) action))) actions.now) }
{
    for action in actions {
        put_action(out, tasks, *action)?;
    }
    Ok(())
}

/// The first word of a task's line.
#[tactic(auto, unfolding(crate::specs::Text::place_said))]
fn first_word(kind: Kind) -> &'static [u8]
    ensures { result.now ≡ task_word (place_said kind) }
{
    match kind {
        Kind::Pinned { .. } | Kind::Shared { .. } => b"task",
        Kind::Tasklet { .. } => b"tasklet",
    }
}

/// Appends the end of a task's line.
fn put_task_end(out: &mut Vec<u8>, task: &TaskDef) -> Result<(), AllocError>
    ensures { OnOk result (out.new.items ≡ out.old.items
        ++ (spaced (codes "rows" ∷ decimal (length task.now.rows) ∷ init_words task.now.init) ++ 10 ∷ [])) }
{
    put_word(out, b"rows")?;
    put_number(out, task.rows.as_slice().len() as u64)?;
    if task.init {
        put_word(out, b"init")?;
    }
    put_bytes(out, b"\n")
}

/// Appends a task's line.
#[tactic(auto, using(crate::proofs::LineTexts::task_text))]
fn put_task(out: &mut Vec<u8>, task: &TaskDef) -> Result<(), AllocError>
    ensures { OnOk result (out.new.items ≡ out.old.items ++ line_text (said_words (task_said task.now (length task.now.rows)))) }
{
    put_bytes(out, first_word(task.kind))?;
    put_word(out, task.name.as_slice())?;
    put_place(out, task.kind)?;
    put_task_end(out, task)
}

/// Appends the line of a task's row with this number.
#[tactic(auto, using(crate::proofs::LineTexts::row_text))]
fn put_row(
    out: &mut Vec<u8>,
    tasks: &[TaskDef],
    name: &[u8],
    number: usize,
    row: &Row,
) -> Result<(), AllocError>
    ensures { OnOk result (out.new.items ≡ out.old.items ++ line_text (said_words (row_said (names_of tasks.now) name.now number row.now))) }
{
    put_bytes(out, b"row")?;
    put_word(out, name)?;
    put_number(out, number as u64)?;
    put_actions(out, tasks, row.actions.as_slice())?;
    put_expiry(out, row.expiry)?;
    put_word(out, b"next")?;
    put_number(out, row.next as u64)?;
    put_bytes(out, b"\n")
}

/// Appends the lines of a task's rows.
fn put_rows(out: &mut Vec<u8>, tasks: &[TaskDef], task: &TaskDef) -> Result<(), AllocError>
    ensures { OnOk result (out.new.items ≡ out.old.items ++ lines_text (rows_said (names_of tasks.now) task.now.name 0 task.now.rows)) }
{
    let name = task.name.as_slice();
    for (number, row) in task.rows.as_slice().iter().enumerate() {
        put_row(out, tasks, name, number, row)?;
    }
    Ok(())
}

/// Appends an event's line.
#[tactic(auto, using(crate::proofs::LineTexts::event_text))]
fn put_event(out: &mut Vec<u8>, tasks: &[TaskDef], event: &Event) -> Result<(), AllocError>
    ensures { OnOk result (out.new.items ≡ out.old.items ++ line_text (said_words (event_said (names_of tasks.now) event.now))) }
{
    put_bytes(out, b"event")?;
    put_number(out, event.round as u64)?;
    put_action(out, tasks, event.action)?;
    put_bytes(out, b"\n")
}

/// Appends a setting's line.
fn put_setting(out: &mut Vec<u8>, setting: Setting, value: u32) -> Result<(), AllocError>
    ensures { OnOk result (out.new.items ≡ out.old.items ++ line_text (said_words (sets setting (decimal value)))) }
{
    put_bytes(out, setting_name(setting))?;
    put_number(out, value as u64)?;
    put_bytes(out, b"\n")
}

/// Appends the lines of tasks.
fn put_tasks(out: &mut Vec<u8>, tasks: &[TaskDef]) -> Result<(), AllocError>
    ensures { OnOk result (out.new.items ≡ out.old.items
        ++ flat_map (λ task. line_text (said_words (task_said task (length task.rows)))) tasks.now) }
{
    for task in tasks {
        put_task(out, task)?;
    }
    Ok(())
}

/// Appends the lines of all rows.
fn put_all_rows(out: &mut Vec<u8>, tasks: &[TaskDef]) -> Result<(), AllocError>
    ensures { OnOk result (out.new.items ≡ out.old.items
        ++ flat_map (λ task. lines_text (rows_said (names_of tasks.now) task.name 0 task.rows)) tasks.now) }
{
    for task in tasks {
        put_rows(out, tasks, task)?;
    }
    Ok(())
}

/// Appends the lines of events.
fn put_events(out: &mut Vec<u8>, tasks: &[TaskDef], events: &[Event]) -> Result<(), AllocError>
    ensures { OnOk result (out.new.items ≡ out.old.items
        ++ flat_map (λ event. line_text (said_words (event_said (names_of tasks.now) event))) events.now) }
{
    for event in events {
        put_event(out, tasks, event)?;
    }
    Ok(())
}

/// Appends the first line.
#[tactic(auto, unfolding(crate::specs::Text::header_of))]
fn put_header(out: &mut Vec<u8>, script: &Script) -> Result<(), AllocError>
    ensures { OnOk result (out.new.items ≡ out.old.items ++ (header_of script.now.version ++ 10 ∷ [])) }
{
    if script.version() == 2 {
        put_bytes(out, b"taskscript 2\n")
    } else {
        put_bytes(out, b"taskscript 1\n")
    }
}

/// Appends the lines of the settings, behind the first line.
fn put_head(out: &mut Vec<u8>, script: &Script) -> Result<(), AllocError>
    ensures { OnOk result (out.new.items ≡ out.old.items ++ (header_of script.now.version ++ 10 ∷ lines_text (settings_said script.now))) }
{
    put_header(out, script)?;
    put_setting(out, Setting::Workers, script.workers())?;
    put_setting(out, Setting::Depth, script.depth())?;
    put_setting(out, Setting::Start, script.start())?;
    put_setting(out, Setting::Step, script.step())?;
    put_setting(out, Setting::Rounds, script.rounds())
}

/// Appends the whole text.
fn put_script(out: &mut Vec<u8>, script: &Script) -> Result<(), AllocError>
    ensures { OnOk result (out.new.items ≡ out.old.items ++ script_text script.now) }
{
    let tasks = script.tasks();
    put_head(out, script)?;
    put_tasks(out, tasks)?;
    put_all_rows(out, tasks)?;
    put_events(out, tasks, script.events())?;
    put_bytes(out, b"end\n")
}

impl Script {
    /// Appends the text of the script: the one that is read as this script.
    ///
    /// # Errors
    ///
    /// Where there is no memory; `out` is then as it was.
    pub fn write(&self, out: &mut Vec<u8>) -> Result<(), AllocError>
        ensures ok { OnOk result (out.new.items ≡ out.old.items ++ script_text self.now) }
        ensures err { OnErr result (out.new.items ≡ out.old.items) }
    {
        let mut text = Vec::new(*out.allocator());
        put_script(&mut text, self)?;
        out.extend_from_slice(&text)
    }
}
