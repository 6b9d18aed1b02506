//! What is measured of a text.

use std::fmt::{self, Display, Formatter, Write};
use std::io;
use std::time::Instant;

/// The bytes of a text, and the nanoseconds that its reading and its writing take.
#[derive(Drop)]
pub(crate) struct Times {
    pub bytes: usize,
    pub read: u64,
    pub write: u64,
}

impl Display for Times {
    fn fmt<W: Write>(&self, f: &mut Formatter<W>) -> fmt::Result {
        write!(
            f,
            "bytes {} read {} write {}",
            self.bytes, self.read, self.write
        )
    }
}

/// The nanoseconds since then.
pub(crate) fn since(rt: &HostRuntime, start: &Instant) -> io::Result<u64> {
    Ok(u64::try_from(start.elapsed(rt)?.as_nanos()).unwrap_or(u64::MAX))
}

/// Asks that what was written is what was read.
pub(crate) fn check(read: &[u8], written: &[u8]) -> io::Result<()> {
    if read == written {
        Ok(())
    } else {
        Err(io::ErrorKind::InvalidData.into())
    }
}
