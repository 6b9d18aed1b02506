//! The tasks that were read so far, to be found by their names.

ghost use Rattle.std.specs.Prelude.{◌≡◌, List, [], ◌∷◌, ◌++◌, length, ◌<◌, ◌^◌, None, Some, OnOk, slice_get, slice_set};
ghost use Rattle.step_tables.specs.declared.tables.TaskDef.{TaskDef};
ghost use Rattle.step_tables.specs.Judging.{named, with_row_at_end};

use crate::lists::Tasks;
use crate::tables::{Row, TaskDef};
use std::alloc::{AllocError, Global};
use std::collections::BTreeMap;
use std::marker::Model;

/// The tasks from task 0 on, with an index by name. Contracts see the list of the tasks.
#[derive(Debug, Drop)]
pub(crate) struct NamedTasks {
    list: Vec<TaskDef>,
    /// The number of the first task of each name.
    numbers: BTreeMap<Vec<u8>, u32>,
}

impl Model for NamedTasks {
    ghost use Rattle.std.specs.Prelude.{List};
    ghost use Rattle.step_tables.specs.declared.tables.TaskDef.{TaskDef};

    ghost Value = { List TaskDef };

    ghost use Rattle.step_tables.specs.Index.{IsIndex};

    ghost view = { λ n. n.list.items };

    ghost invariant = { λ n. IsIndex n.list.items n.numbers };
}

impl NamedTasks {
    /// No tasks.
    pub fn new(alloc: Global) -> NamedTasks
        ensures { result ≡ [] }
    {
        NamedTasks {
            list: Vec::new(alloc),
            numbers: BTreeMap::new(alloc),
        }
    }

    /// The tasks as a slice.
    pub fn as_slice(&self) -> &[TaskDef]
        ensures { result.now ≡ self.now }
    {
        self.list.as_slice()
    }

    /// How many tasks there are.
    pub fn len(&self) -> usize
        ensures { result ≡ length self.now }
    {
        self.list.len()
    }

    /// The tasks, no longer to be found by name.
    pub fn into_tasks(self) -> Tasks
        ensures { result ≡ self }
    {
        Tasks::from_vec(self.list)
    }

    /// The number of the task of this name.
    #[tactic(auto, unfolding(crate::specs::Judging::named))]
    pub fn find(&self, name: &[u8]) -> Option<u32>
        ensures { result ≡ named self.now name.now }
    {
        self.numbers.get(name).copied()
    }

    /// One task more, of a name that no other has.
    #[tactic(auto, unfolding(crate::specs::Judging::named))]
    pub fn push(&mut self, alloc: Global, task: TaskDef) -> Result<(), AllocError>
        requires few { length self.old < 2 ^ 32 }
        requires new { named self.old task.name ≡ None }
        ensures { OnOk result (self.new ≡ self.old ++ task ∷ []) }
    {
        let name = Vec::from_slice(alloc, task.name.as_slice())?;
        let number = self.list.len();
        self.list.push(task)?;
        match self.numbers.insert(name, number as u32) {
            Ok(_) => Ok(()),
            Err(_) => {
                self.list.truncate(number);
                Err(AllocError)
            }
        }
    }

    /// One row more at the end of a task's rows.
    #[tactic(auto, unfolding(crate::specs::Judging::with_row_at_end))]
    pub fn add_row(&mut self, at: usize, row: Row) -> Result<(), AllocError>
        requires { at < length self.old }
        ensures { (task : TaskDef) → slice_get self.old at ≡ Some task
            → OnOk result (self.new ≡ slice_set self.old at (with_row_at_end task row)) }
    {
        let task = &mut self.list[at];
        task.rows.push(row)
    }
}
