//! The tasks of a generated script.

ghost use Rattle.std.specs.Prelude.{◌≡◌, ℕ, ◌<◌, ◌≤◌, ◌∷◌, [], IfOk, OnOk, IsTrue};
ghost use Rattle.step_tables.specs.Sound.{is_sound};
ghost use Rattle.script_gen.specs.Draws.{after_four, drawn_at};
ghost use Rattle.script_gen.specs.Generated.{name_of, rows_of, task_by, tasks_from, generated};

use crate::drawing::{Drawn, Draws};
use sched_base::{Reasons, TaskId};
use std::alloc::{AllocError, Global};
use step_tables::{
    Action, Actions, Events, Expiry, Kind, Name, Row, Rows, Script, Settings, TaskDef, Tasks,
};
use text_lines::put_number;

/// The script of this many tasks that follows from a seed (docs/SCRIPT.md, "Generated scripts").
///
/// The size is 1 to 4,096. The one error is want of memory.
pub fn generate(alloc: Global, seed: u64, size: u32) -> Result<Script, AllocError>
    requires { (1 ≤ size) × (size ≤ 4096) }
    ensures same { IfOk result (λ script. script ≡ generated seed size) }
    ensures sound { IfOk result (λ script. IsTrue (is_sound script)) }
{
    let settings = Settings {
        workers: 4,
        depth: 200,
        start: 4_294_967_000,
        step: 10,
        rounds: 1000,
    };
    let tasks = tasks(alloc, seed, size)?;
    let events = Events::from_vec(Vec::new(alloc));
    Ok(Script::of_tables(settings, tasks, events))
}

/// The tasks of the script.
fn tasks(alloc: Global, seed: u64, size: u32) -> Result<Tasks, AllocError>
    requires { size ≤ 4096 }
    ensures { IfOk result (λ tasks. tasks ≡ tasks_from size 0 seed size) }
{
    let mut draws = Draws::of(seed);
    let mut list = Vec::with_capacity(alloc, size as usize)?;
    for number in 0..size {
        let drawn = draws.of_task(size, number);
        list.push(task(alloc, number, &drawn)?)?;
    }
    Ok(Tasks::from_vec(list))
}

/// The task of this number.
fn task(alloc: Global, number: u32, drawn: &Drawn) -> Result<TaskDef, AllocError>
    ensures { IfOk result (λ task. task ≡ task_by number drawn.now) }
{
    Ok(TaskDef {
        name: name(alloc, number)?,
        kind: Kind::Pinned {
            home: number % 4,
            nice: drawn.nice,
        },
        init: true,
        rows: rows(alloc, number, drawn)?,
    })
}

/// The letter t, and the number.
fn name(alloc: Global, number: u32) -> Result<Name, AllocError>
    ensures { IfOk result (λ name. name ≡ name_of number) }
{
    let mut name = vec![in alloc; b't']?;
    put_number(&mut name, u64::from(number))?;
    Ok(Name::from_vec(name))
}

/// The three rows of the task of this number: it sets a timer, then wakes a friend and sets another,
/// then kills itself.
fn rows(alloc: Global, number: u32, drawn: &Drawn) -> Result<Rows, AllocError>
    ensures { IfOk result (λ rows. rows ≡ rows_of number drawn.now) }
{
    let waits = Row {
        actions: Actions::from_vec(Vec::new(alloc)),
        expiry: Expiry::After(drawn.delay),
        next: 1,
    };
    let wakes = Row {
        actions: alone(alloc, Action::Wake(TaskId(drawn.friend), Reasons::MSG))?,
        expiry: Expiry::After(drawn.timeout),
        next: 2,
    };
    let ends = Row {
        actions: alone(alloc, Action::Kill(TaskId(number)))?,
        expiry: Expiry::Keep,
        next: 2,
    };
    Ok(Rows::from_vec(vec![in alloc; waits, wakes, ends]?))
}

/// One action.
fn alone(alloc: Global, action: Action) -> Result<Actions, AllocError>
    ensures { IfOk result (λ actions. actions ≡ action ∷ []) }
{
    Ok(Actions::from_vec(vec![in alloc; action]?))
}
