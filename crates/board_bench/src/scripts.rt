//! Scripts of shared tasks.

use std::alloc::{AllocError, Global};
use step_tables::{Script, ScriptError};

/// The text of a script of so many shared tasks, each of which goes round its three rows.
fn text(alloc: Global, tasks: u32) -> Result<String, AllocError> {
    let mut text = String::from_str(
        alloc,
        "taskscript 1\nworkers 2\ndepth 7\nstart 0\nstep 1\nrounds 1\n",
    )?;
    for i in 0..tasks {
        let task = format!(in alloc; "task t{i} shared nice 0 rows 3\n")?;
        text.push_str(task.as_str())?;
    }
    for i in 0..tasks {
        let rows = format!(in alloc; "row t{i} 0 next 2\nrow t{i} 1 next 0\nrow t{i} 2 next 1\n")?;
        text.push_str(rows.as_str())?;
    }
    text.push_str("end\n")?;
    Ok(text)
}

/// A script of so many shared tasks, each of which goes round its three rows: 0, 2, 1, and again.
pub(crate) fn round_script(alloc: Global, tasks: u32) -> Result<Script, ScriptError> {
    let text = text(alloc, tasks)?;
    Script::read(alloc, text.as_bytes())
}
