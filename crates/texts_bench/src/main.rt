//! Times the reading and the writing of texts. The words of the command are the kind of a text,
//! `script` or `transcript`, and the name of its file, any number of times. For each it writes a
//! line with the microseconds that one reading and one writing take.
#![tactic(auto)]

mod scripts;
mod times;
mod transcripts;

use std::{env, fs, io};
use times::Times;

/// The times of the text of a file.
fn measure(rt: &HostRuntime, kind: &str, bytes: &[u8]) -> io::Result<Times> {
    match kind {
        "script" => scripts::measure(rt, bytes),
        "transcript" => transcripts::measure(rt, bytes),
        _ => Err(io::ErrorKind::InvalidInput.into()),
    }
}

fn main(rt: HostRuntime) -> io::Result<()> {
    let mut words = env::args(&rt)?.skip(1);
    while let Some(kind) = words.next() {
        let Some(file) = words.next() else {
            break;
        };
        let bytes = fs::read(&rt, file.as_str())?;
        let times = measure(&rt, kind.as_str(), &bytes)?;
        println!(rt; "{kind} {file} {times}")?;
    }
    Ok(())
}
