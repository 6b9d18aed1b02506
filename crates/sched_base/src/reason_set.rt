//! Why a task is to run.

ghost use Rattle.std.specs.Prelude.{◌≡◌, ℕ, ◌<◌, ◌==◌, [], ◌∷◌, bit_and, bit_or};
ghost use Rattle.std.specs.Option.{SomeIff};
ghost use Rattle.sched_base.specs.ReasonNames.{init, timer, io, signal, msg, res, other};

use std::marker::Model;

/// A set of reasons to run a task. Contracts see it as the number below 128 whose bits are the
/// reasons, from `init` at bit 0 to `other` at bit 6 (docs/MODEL.md, "Reasons").
#[derive(Clone, Copy, Debug, PartialEq, Eq)]
pub struct Reasons {
    bits: u8,
}

impl Model for Reasons {
    ghost use Rattle.std.specs.Prelude.{ℕ, ◌<◌};
    ghost use Rattle.std.specs.Coded.{coded_ℕ};

    ghost Value = { ℕ };

    ghost coded = { coded_ℕ };

    ghost view = { λ r. r.bits };

    ghost invariant = { λ r. r.bits < 128 };

    ghost inverse = { λ n. record { bits = n } };
}

impl Reasons {
    pub const EMPTY: Reasons = Reasons { bits: 0 };

    pub const INIT: Reasons = Reasons { bits: 1 };

    pub const TIMER: Reasons = Reasons { bits: 2 };

    pub const IO: Reasons = Reasons { bits: 4 };

    pub const SIGNAL: Reasons = Reasons { bits: 8 };

    pub const MSG: Reasons = Reasons { bits: 16 };

    pub const RES: Reasons = Reasons { bits: 32 };

    pub const OTHER: Reasons = Reasons { bits: 64 };

    /// The sets of one reason, in the order of their names.
    pub fn each() -> [Reasons; 7]
        ensures { result ≡ init ∷ timer ∷ io ∷ signal ∷ msg ∷ res ∷ other ∷ [] }
    {
        [
            Reasons::INIT,
            Reasons::TIMER,
            Reasons::IO,
            Reasons::SIGNAL,
            Reasons::MSG,
            Reasons::RES,
            Reasons::OTHER,
        ]
    }

    /// The set with these bits; none where bit 7 is set.
    pub fn from_bits(bits: u8) -> Option<Reasons>
        ensures { SomeIff result (bits < 128) bits }
    {
        if bits < 128 {
            Some(Reasons { bits })
        } else {
            None
        }
    }

    /// The bits of the set, below 128.
    pub fn bits(self) -> u8
        ensures same { result ≡ self }
        ensures below { result < 128 }
    {
        self.bits
    }

    /// What is in this set or in the other.
    pub fn union(self, other: Reasons) -> Reasons
        ensures { result ≡ bit_or self other }
    {
        Reasons {
            bits: self.bits | other.bits,
        }
    }

    /// Whether no reason is in the set.
    pub fn is_empty(self) -> bool
        ensures { result ≡ (self == 0) }
    {
        self.bits == 0
    }

    /// Whether all reasons of the other set are in this one.
    pub fn contains(self, other: Reasons) -> bool
        ensures { result ≡ (bit_and self other == other) }
    {
        self.bits & other.bits == other.bits
    }
}
