//! `taskpicture`: draws the run that a transcript tells.
#![tactic(auto)]

mod bars;
mod columns;
mod command_line;
mod complaints;
mod drawing;
mod inputs;
mod labels;
mod laws;
mod layout;
mod parts;
mod requests;
mod scans;
mod scenery;
mod status;
mod steps;
mod stretches;
mod terminal;
#[cfg(test)]
mod tests;
mod top;

pub use command_line::answer;
pub use laws::bars_are_takes;
use sched_base::{StdSink, StdSource};
pub use status::Status;
use std::env;
use std::process::ExitCode;
pub use top::taskpicture;

fn main(rt: HostRuntime) -> ExitCode {
    let status = answer(
        rt.alloc(),
        env::args(&rt),
        &mut StdSource::new(rt.stdin()),
        &mut StdSink::new(rt.stdout()),
        &mut StdSink::new(rt.stderr()),
    );
    ExitCode::from(status)
}
