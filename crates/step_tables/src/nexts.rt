//! The next rows of a script's tasks, for those who need nothing else of it.

ghost use Rattle.std.specs.Prelude.{◌≡◌, [], IfOk};
ghost use Rattle.step_tables.specs.Nexts.{next_rows, nexts_of};

use crate::tables::{Script, TaskDef};
use std::alloc::{AllocError, Global};
use std::marker::Model;

/// Which row comes after each row of each task. Contracts see one list of next rows per task.
#[derive(Debug, Drop)]
pub struct Nexts {
    lists: Vec<NextRows>,
}

/// The next rows of one task, from row 0 on.
#[derive(Debug, Drop)]
struct NextRows {
    rows: Vec<u32>,
}

impl Model for NextRows {
    ghost use Rattle.std.specs.Prelude.{List, ℕ};

    ghost Value = { List ℕ };

    ghost view = { λ l. l.rows.items };
}

impl Model for Nexts {
    ghost use Rattle.std.specs.Prelude.{List, ℕ};

    ghost Value = { List (List ℕ) };

    ghost view = { λ n. n.lists.items };
}

impl NextRows {
    /// Those of a task.
    fn of(alloc: Global, task: &TaskDef) -> Result<NextRows, AllocError>
        ensures { IfOk result (λ list. list ≡ next_rows task.now) }
    {
        let rows = task.rows.as_slice().iter().map(|row| row.next);
        Ok(NextRows {
            rows: rows.collect(alloc)?,
        })
    }
}

impl Nexts {
    /// No lists, for a board on which no task is shared.
    pub fn none(alloc: Global) -> Nexts
        ensures { result ≡ [] }
    {
        Nexts {
            lists: Vec::new(alloc),
        }
    }

    /// The next rows of all tasks of a script. The one error is want of memory.
    pub fn of(alloc: Global, script: &Script) -> Result<Nexts, AllocError>
        ensures { IfOk result (λ nexts. nexts ≡ nexts_of script.now) }
    {
        let mut lists = Vec::with_capacity(alloc, script.tasks().len())?;
        for task in script.tasks() {
            lists.push(NextRows::of(alloc, task)?)?;
        }
        Ok(Nexts { lists })
    }
}
