//! A sink in memory that fails where it is told to.

ghost use Rattle.std.specs.Prelude.{◌≡◌, ◌-◌, ◌<◌, ◌≤◌, [], ◌||◌, length, take, min, nat_le, IfOk, OnErr, Some, MatchResult, is_err};
ghost use Rattle.sched_base.specs.Streams.{Appends, Rose, is_failing, failed_out, took};

use crate::streams::{Failed, Sink};
use std::alloc::{AllocError, Global};
use std::marker::Model;

/// A sink in memory with a fixed room. It takes at most `piece` bytes a call, fails the calls whose
/// numbers, counted from 0, are listed, and fails each call once its room is full.
#[derive(Debug, Drop)]
pub struct MemSink {
    held: Vec<u8>,
    room: usize,
    piece: usize,
    fails: Vec<u64>,
    calls: u64,
    faults: u64,
}

impl Model for MemSink {
    ghost use Rattle.std.specs.Prelude.{◌≤◌, vec_len, vec_capacity};
    ghost use Rattle.sched_base.specs.Streams.{MemoryOut};

    ghost Value = { MemoryOut };

    ghost view = { λ s. record {
      held = s.held.items;
      room = s.room;
      piece = s.piece;
      fails = s.fails.items;
      calls = s.calls;
      faults = s.faults;
    } };

    ghost invariant = { λ s. (vec_len s.held ≤ s.room) × (s.room ≤ vec_capacity s.held) × (1 ≤ s.piece) };
}

impl MemSink {
    /// An empty sink with room for `room` bytes, which are reserved here.
    pub fn new(
        alloc: Global,
        room: usize,
        piece: usize,
        fails: Vec<u64>,
    ) -> Result<MemSink, AllocError>
        requires { 1 ≤ piece }
        ensures { IfOk result (λ sink. sink ≡ record { held = []; room = room; piece = piece; fails = fails.items; calls = 0; faults = 0 }) }
    {
        let held = Vec::with_capacity(alloc, room)?;
        Ok(MemSink {
            held,
            room,
            piece,
            fails,
            calls: 0,
            faults: 0,
        })
    }

    /// The bytes that it holds.
    pub fn held(&self) -> &[u8]
        ensures { result.now ≡ self.now.held }
    {
        self.held.as_slice()
    }
}

impl Sink for MemSink {
    ghost use Rattle.std.specs.Prelude.{Some};

    ghost held = { λ s. Some s.held };

    ghost faults = { λ s. s.faults };

    fn write(&mut self, piece: &[u8]) -> Result<usize, Failed>
        requires { 0 < length piece.now }
        ensures some { IfOk result (λ n. 1 ≤ n) }
        ensures fits { IfOk result (λ n. n ≤ length piece.now) }
        ensures appended { IfOk result (λ n. Appends (Some self.old.held) (Some self.new.held) (take n piece.now)) }
        ensures rose { OnErr result (Rose self.old.faults self.new.faults) }
        ensures kept { OnErr result (Some self.new.held ≡ Some self.old.held) }
        ensures counted { self.old.faults ≤ self.new.faults }
        // It fails exactly where the call's number is listed or the room is full, and else takes
        // as many bytes as it can.
        ensures cause { (is_failing self.old.fails self.old.calls || nat_le self.old.room (length self.old.held)) ≡ is_err result }
        ensures after { MatchResult result (λ n. self.new ≡ took self.old (take n piece.now)) (λ _. self.new ≡ failed_out self.old) }
        ensures amount { IfOk result (λ n. n ≡ min (min (length piece.now) self.old.piece) (self.old.room - length self.old.held)) }
    {
        let number = self.calls;
        self.calls = number.saturating_add(1);
        if self.fails.as_slice().contains(&number) || self.held.len() >= self.room {
            self.faults = self.faults.saturating_add(1);
            return Err(Failed);
        }
        let n = piece.len().min(self.piece).min(self.room - self.held.len());
        match self.held.extend_from_slice(&piece[..n]) {
            Ok(()) => Ok(n),
            Err(_) => unreachable!(),
        }
    }
}
