//! `taskrun`: runs scripts of tasks, and writes every call on shared task state with its reply, or a
//! summary of the run.
#![tactic(auto)]

mod arguments;
mod counting;
mod courses;
mod error_lines;
mod inputs;
#[cfg(test)]
mod replay_tests;
mod replays;
mod rounds;
mod status;
mod summary;
#[cfg(test)]
mod tests;
#[cfg(test)]
mod threads;
mod top;
#[cfg(test)]
mod worked;

pub use arguments::answer;
use sched_base::{OpenGate, StdSink, StdSource};
pub use status::Status;
use std::env;
use std::process::ExitCode;
use thread_loop::ThreadCrew;
pub use top::taskrun;

fn main(rt: HostRuntime) -> ExitCode {
    let status = answer(
        &rt,
        rt.alloc(),
        env::args(&rt),
        &mut StdSource::new(rt.stdin()),
        &mut StdSink::new(rt.stdout()),
        &mut StdSink::new(rt.stderr()),
        &mut ThreadCrew::new(),
        &OpenGate,
    );
    ExitCode::from(status)
}
