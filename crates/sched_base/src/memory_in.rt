//! A source in memory that fails where it is told to.

ghost use Rattle.std.specs.Prelude.{◌≡◌, ◌<◌, ◌≤◌, length, take, min, IfOk, OnErr, Some, MatchResult, is_err};
ghost use Rattle.sched_base.specs.Streams.{IsAtEnd, Reads, Rose, is_failing, failed_in, gave};

use crate::streams::{Failed, Source};
use std::marker::Model;

/// A source over bytes in memory. It gives at most `piece` bytes a call, and fails the calls whose
/// numbers, counted from 0, are listed.
#[derive(Debug, Drop)]
pub struct MemSource {
    bytes: Vec<u8>,
    at: usize,
    piece: usize,
    fails: Vec<u64>,
    calls: u64,
    faults: u64,
}

impl Model for MemSource {
    ghost use Rattle.std.specs.Prelude.{◌≤◌, drop, vec_len};
    ghost use Rattle.sched_base.specs.Streams.{MemoryIn};

    ghost Value = { MemoryIn };

    ghost view = { λ s. record {
      left = drop s.at s.bytes.items;
      piece = s.piece;
      fails = s.fails.items;
      calls = s.calls;
      faults = s.faults;
    } };

    ghost invariant = { λ s. (s.at ≤ vec_len s.bytes) × (1 ≤ s.piece) };
}

impl MemSource {
    /// A source of these bytes, of which no call was made yet.
    pub fn new(bytes: Vec<u8>, piece: usize, fails: Vec<u64>) -> MemSource
        requires { 1 ≤ piece }
        ensures { result ≡ record { left = bytes.items; piece = piece; fails = fails.items; calls = 0; faults = 0 } }
    {
        MemSource {
            bytes,
            at: 0,
            piece,
            fails,
            calls: 0,
            faults: 0,
        }
    }
}

/// Copies the first bytes of `from` to the front of `to`, as many as both have and at most `most`.
pub(crate) fn copy_front(from: &[u8], to: &mut [u8], most: usize) -> usize
    ensures count { result ≡ min (min (length to.old) most) (length from.now) }
    ensures copied { take result to.new ≡ take result from.now }
    ensures same_len { length to.new ≡ length to.old }
{
    let n = to.len().min(most).min(from.len());
    to[..n].copy_from_slice(&from[..n]);
    n
}

impl Source for MemSource {
    ghost use Rattle.std.specs.Prelude.{Some};

    ghost left = { λ s. Some s.left };

    ghost faults = { λ s. s.faults };

    fn read(&mut self, buf: &mut [u8]) -> Result<usize, Failed>
        requires { 0 < length buf.old }
        ensures fits { IfOk result (λ n. n ≤ length buf.old) }
        ensures taken { IfOk result (λ n. Reads (Some self.old.left) (Some self.new.left) (take n buf.new)) }
        ensures end { IfOk result (λ n. n ≡ 0 → IsAtEnd (Some self.old.left)) }
        ensures rose { OnErr result (Rose self.old.faults self.new.faults) }
        ensures kept { OnErr result (Some self.new.left ≡ Some self.old.left) }
        ensures counted { self.old.faults ≤ self.new.faults }
        // It fails exactly where the call's number is listed, and gives as many bytes as it can.
        ensures cause { is_failing self.old.fails self.old.calls ≡ is_err result }
        ensures after { MatchResult result (λ n. self.new ≡ gave self.old n) (λ _. self.new ≡ failed_in self.old) }
        ensures amount { IfOk result (λ n. n ≡ min (min (length buf.old) self.old.piece) (length self.old.left)) }
    {
        let number = self.calls;
        self.calls = number.saturating_add(1);
        if self.fails.as_slice().contains(&number) {
            self.faults = self.faults.saturating_add(1);
            return Err(Failed);
        }
        let n = copy_front(&self.bytes.as_slice()[self.at..], buf, self.piece);
        self.at += n;
        Ok(n)
    }
}
