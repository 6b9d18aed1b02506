//! Scripts: the tables of tasks, rows and events that a run follows, and their text.
#![tactic(auto)]

mod adding;
mod faults;
mod judging;
pub mod laws;
mod limits;
mod lists;
mod named_tasks;
mod names;
mod nexts;
mod progress;
mod reading;
mod shapes;
mod tables;
mod values;
mod words;
mod writing;

pub use faults::{FaultKind, ScriptError, ScriptFault};
pub use lists::{Actions, Events, Listed, Name, Rows, Tasks};
pub use nexts::Nexts;
pub use tables::{Action, Event, Expiry, Kind, Row, Script, Settings, TaskDef};

#[cfg(test)]
mod tests;
