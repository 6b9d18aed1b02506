//! The names of tasks in the lines of a script.

ghost use Rattle.std.specs.Prelude.{◌≡◌, map, bytes_eq, IfOk};
ghost use Rattle.std.specs.List.{list_any};
ghost use Rattle.step_tables.specs.Judging.{unknown, order_name, number_named, action_of};
ghost use Rattle.step_tables.specs.Views.{order_view};

use crate::lists::Actions;
use crate::named_tasks::NamedTasks;
use crate::shapes::Order;
use crate::tables::{Action, TaskDef};
use sched_base::TaskId;
use std::alloc::{AllocError, Global};

/// Whether this is the task's name.
pub(crate) fn is_named(task: &TaskDef, name: &[u8]) -> bool
    ensures { result ≡ bytes_eq task.now.name name.now }
{
    task.name.as_slice() == name
}

/// Whether no task has this name.
#[tactic(auto, unfolding(crate::specs::Judging::unknown))]
pub(crate) fn unknown(tasks: &NamedTasks, name: &[u8]) -> bool
    ensures { result ≡ unknown tasks.now name.now }
{
    tasks.find(name).is_none()
}

/// The number of the task of this name, where there is one, else 0.
#[tactic(auto, unfolding(crate::specs::Judging::number_named))]
fn number_named(tasks: &NamedTasks, name: &[u8]) -> u32
    ensures { result ≡ number_named tasks.now name.now }
{
    tasks.find(name).unwrap_or(0)
}

/// The name in an action.
fn order_name<'a>(order: &Order<'a>) -> &'a [u8]
    ensures { result.now ≡ order_name (order_view order.now) }
{
    match *order {
        Order::Wakes(name, _) => name,
        Order::Kills(name) => name,
    }
}

/// Whether the action's name is that of no task.
pub(crate) fn is_unknown(tasks: &NamedTasks, order: &Order<'_>) -> bool
    ensures { result ≡ unknown tasks.now (order_name (order_view order.now)) }
{
    unknown(tasks, order_name(order))
}

/// Whether some action's name is that of no task.
fn holds_unknown(tasks: &NamedTasks, orders: &[Order<'_>]) -> bool
    ensures { result ≡ list_any (λ order. unknown tasks.now (order_name (order_view order))) orders.now }
{
    orders.iter().any(|order| is_unknown(tasks, order))
}

/// Whether some action's name is that of no task.
pub(crate) fn any_unknown(tasks: &NamedTasks, orders: &[Order<'_>]) -> bool
    ensures { result ≡ list_any (λ order. unknown tasks.now (order_name order)) (map order_view orders.now) }
{
    holds_unknown(tasks, orders)
}

/// The action, with its task's number.
#[tactic(auto, unfolding(crate::specs::Judging::action_of))]
pub(crate) fn action_of(tasks: &NamedTasks, order: &Order<'_>) -> Action
    ensures { result ≡ action_of tasks.now (order_view order.now) }
{
    match *order {
        Order::Wakes(name, reasons) => Action::Wake(TaskId(number_named(tasks, name)), reasons),
        Order::Kills(name) => Action::Kill(TaskId(number_named(tasks, name))),
    }
}

/// The actions, with their tasks' numbers.
fn resolved(
    alloc: Global,
    tasks: &NamedTasks,
    orders: &[Order<'_>],
) -> Result<Vec<Action>, AllocError>
    ensures { IfOk result (λ actions. actions.items ≡ map (λ order. action_of tasks.now (order_view order)) orders.now) }
{
    orders
        .iter()
        .map(|order| action_of(tasks, order))
        .collect(alloc)
}

/// The actions, with their tasks' numbers.
pub(crate) fn actions_of(
    alloc: Global,
    tasks: &NamedTasks,
    orders: &[Order<'_>],
) -> Result<Actions, AllocError>
    ensures { IfOk result (λ actions. actions ≡ map (action_of tasks.now) (map order_view orders.now)) }
{
    let list = resolved(alloc, tasks, orders)?;
    Ok(Actions::from_vec(list))
}
