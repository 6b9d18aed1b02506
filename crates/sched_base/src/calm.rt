//! Streams in memory that never fail.

ghost use Rattle.std.specs.Prelude.{◌≡◌, ◌+◌, ◌-◌, ◌^◌, ◌<◌, ◌≤◌, length, min, drop, take, Ok, IfOk, OnErr, Some};
ghost use Rattle.sched_base.specs.Streams.{IsAtEnd, Reads, Rose};

use crate::memory_in::copy_front;
use crate::streams::{Failed, Sink, Source};
use std::marker::Model;

/// A source over bytes in memory that never fails. Contracts see the bytes that are left.
#[derive(Debug, Drop)]
pub struct CalmSource {
    bytes: Vec<u8>,
    at: usize,
}

impl Model for CalmSource {
    ghost use Rattle.std.specs.Prelude.{ℕ, ◌≤◌, List, drop, vec_len};

    ghost Value = { List ℕ };

    ghost view = { λ s. drop s.at s.bytes.items };

    ghost invariant = { λ s. s.at ≤ vec_len s.bytes };
}

impl CalmSource {
    /// A source of these bytes.
    pub fn new(bytes: Vec<u8>) -> CalmSource
        ensures { result ≡ bytes.items }
    {
        CalmSource { bytes, at: 0 }
    }
}

impl Source for CalmSource {
    ghost use Rattle.std.specs.Prelude.{Some};

    ghost left = { λ s. Some s };

    ghost faults = { λ _. 0 };

    fn read(&mut self, buf: &mut [u8]) -> Result<usize, Failed>
        requires { 0 < length buf.old }
        ensures fits { IfOk result (λ n. n ≤ length buf.old) }
        ensures taken { IfOk result (λ n. Reads (Some self.old) (Some self.new) (take n buf.new)) }
        ensures end { IfOk result (λ n. n ≡ 0 → IsAtEnd (Some self.old)) }
        ensures rose { OnErr result (Rose 0 0) }
        ensures kept { OnErr result (Some self.new ≡ Some self.old) }
        // It never fails, and gives as many bytes as it can.
        ensures amount { result ≡ Ok (min (length buf.old) (length self.old)) }
        ensures after { IfOk result (λ n. self.new ≡ drop n self.old) }
    {
        let left = &self.bytes.as_slice()[self.at..];
        let n = copy_front(left, buf, left.len());
        self.at += n;
        Ok(n)
    }
}

/// A sink that never fails, and keeps of what it takes only how many bytes it was. Contracts see that number, which
/// stops at 2^64 - 1.
#[derive(Debug, Drop)]
pub struct CalmSink {
    count: u64,
}

impl Model for CalmSink {
    ghost use Rattle.std.specs.Prelude.{ℕ};

    ghost Value = { ℕ };

    ghost view = { λ s. s.count };
}

impl CalmSink {
    /// A sink that took nothing.
    pub fn new() -> CalmSink
        ensures { result ≡ 0 }
    {
        CalmSink { count: 0 }
    }

    /// How many bytes it took.
    pub fn count(&self) -> u64
        ensures { result ≡ self.now }
    {
        self.count
    }
}

impl Sink for CalmSink {
    ghost use Rattle.std.specs.Prelude.{None};

    ghost held = { λ _. None };

    ghost faults = { λ _. 0 };

    fn write(&mut self, piece: &[u8]) -> Result<usize, Failed>
        requires { 0 < length piece.now }
        ensures some { IfOk result (λ n. 1 ≤ n) }
        ensures fits { IfOk result (λ n. n ≤ length piece.now) }
        ensures rose { OnErr result (Rose 0 0) }
        // It never fails, and takes the whole piece.
        ensures amount { result ≡ Ok (length piece.now) }
        ensures after { self.new ≡ min (self.old + length piece.now) (2 ^ 64 - 1) }
    {
        self.count = self.count.saturating_add(piece.len() as u64);
        Ok(piece.len())
    }
}
