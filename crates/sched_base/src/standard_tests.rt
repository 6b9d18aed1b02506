//! Std's readers and writers that fail in the middle, and what is shared by threads.

use crate::gates::OpenGate;
use crate::standard::{StdSink, StdSource};
use crate::streams::{Failed, Sink, Source};
use std::io::{self, ErrorKind, Read, Write};
use std::test::Fail;

/// A reader of three bytes, one a call. It fails its second call.
#[derive(Drop)]
struct FailsOnce {
    calls: u8,
}

impl Read for FailsOnce {
    fn read(&mut self, buf: &mut [u8]) -> io::Result<usize> {
        self.calls = self.calls.saturating_add(1);
        match (self.calls, buf.first_mut()) {
            (2, _) => Err(io::Error::from(ErrorKind::Interrupted)),
            (1 | 3 | 4, Some(first)) => {
                *first = b'a' + self.calls;
                Ok(1)
            }
            _ => Ok(0),
        }
    }
}

/// A writer that keeps one byte a call. It fails its second call, and takes nothing in its third.
#[derive(Drop)]
struct KeepsOne {
    kept: Vec<u8>,
    calls: u8,
}

impl Write for KeepsOne {
    fn write(&mut self, buf: &[u8]) -> io::Result<usize> {
        self.calls = self.calls.saturating_add(1);
        match (self.calls, buf.first()) {
            (2, _) => Err(io::Error::from(ErrorKind::Interrupted)),
            (1 | 4, Some(first)) => {
                self.kept.push(*first)?;
                Ok(1)
            }
            _ => Ok(0),
        }
    }

    fn flush(&mut self) -> io::Result<()> {
        Ok(())
    }
}

#[test]
fn a_failed_read_is_no_end(rt: HostRuntime) -> Result<(), Fail> {
    let mut source = StdSource::new(FailsOnce { calls: 0 });
    let mut buf = [0; 2];
    let answers = [Ok(1), Err(Failed), Ok(1), Ok(1), Ok(0)];
    let bytes = [b'b', b'b', b'd', b'e', b'e'];
    for (answer, byte) in answers.into_iter().zip(bytes) {
        assert_eq!(rt; source.read(&mut buf), answer);
        assert_eq!(rt; buf, [byte, 0]);
    }
    Ok(())
}

#[test]
fn a_write_of_nothing_is_a_fault(rt: HostRuntime) -> Result<(), Fail> {
    let kept = Vec::new(rt.alloc());
    let mut sink = StdSink::new(KeepsOne { kept, calls: 0 });
    for answer in [Ok(1), Err(Failed), Err(Failed), Ok(1)] {
        assert_eq!(rt; sink.write(b"xy"), answer);
    }
    Ok(())
}

fn crosses_threads<T: Send + Sync>(_value: &T) {}

#[test]
fn an_open_gate_crosses_threads() {
    crosses_threads(&OpenGate);
}
