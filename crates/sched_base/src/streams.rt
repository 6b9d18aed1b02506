//! Streams of bytes that may tell what they hold, and that count their faults.

ghost use Rattle.std.specs.Prelude.{◌≡◌, ℕ, ◌<◌, ◌≤◌, List, Option, length, take, IfOk, OnErr};
ghost use Rattle.sched_base.specs.Streams.{Appends, IsAtEnd, Reads, Rose};

/// A read or a write failed. Nothing was read or written, and the stream's count of faults rose.
#[derive(Clone, Copy, Debug, PartialEq, Eq)]
pub struct Failed;

/// Something that gives bytes.
pub trait Source {
    /// The bytes that are left, where the source tells them.
    ghost left: { Self → Option (List ℕ) };

    /// How many reads failed so far; it never falls.
    ghost faults: { Self → ℕ };

    /// Reads at least one byte into the front of `buf`, and says how many; 0 is the end of input.
    fn read(&mut self, buf: &mut [u8]) -> Result<usize, Failed>
        requires { 0 < length buf.old }
        ensures fits { IfOk result (λ n. n ≤ length buf.old) }
        ensures taken { IfOk result (λ n. Reads (left self.old) (left self.new) (take n buf.new)) }
        ensures end { IfOk result (λ n. n ≡ 0 → IsAtEnd (left self.old)) }
        ensures rose { OnErr result (Rose (faults self.old) (faults self.new)) }
        ensures kept { OnErr result (left self.new ≡ left self.old) }
        ensures counted { faults self.old ≤ faults self.new };
}

/// Something that takes bytes.
pub trait Sink {
    /// The bytes that it holds, where the sink tells them.
    ghost held: { Self → Option (List ℕ) };

    /// How many writes failed so far; it never falls.
    ghost faults: { Self → ℕ };

    /// Appends the first bytes of `piece`, at least one, and says how many.
    fn write(&mut self, piece: &[u8]) -> Result<usize, Failed>
        requires { 0 < length piece.now }
        ensures some { IfOk result (λ n. 1 ≤ n) }
        ensures fits { IfOk result (λ n. n ≤ length piece.now) }
        ensures appended { IfOk result (λ n. Appends (held self.old) (held self.new) (take n piece.now)) }
        ensures rose { OnErr result (Rose (faults self.old) (faults self.new)) }
        ensures kept { OnErr result (held self.new ≡ held self.old) }
        ensures counted { faults self.old ≤ faults self.new };
}
