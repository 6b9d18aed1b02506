//! Times for a script.

use crate::times::{Times, check, since};
use std::io;
use std::time::Instant;
use step_tables::Script;

/// Reads a script and writes it again.
pub(crate) fn measure(rt: &HostRuntime, bytes: &[u8]) -> io::Result<Times> {
    let start = Instant::now(rt)?;
    let Ok(script) = Script::read(rt.alloc(), bytes) else {
        return Err(io::ErrorKind::InvalidData.into());
    };
    let read = since(rt, &start)?;
    let mut out = Vec::with_capacity(rt.alloc(), bytes.len())?;
    let start = Instant::now(rt)?;
    script.write(&mut out)?;
    let write = since(rt, &start)?;
    check(bytes, &out)?;
    Ok(Times {
        bytes: bytes.len(),
        read,
        write,
    })
}
