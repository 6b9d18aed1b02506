//! A transcript: the lines of a run. Contracts see the list.

ghost use Rattle.std.specs.Prelude.{◌≡◌, [], ◌∷◌, ◌++◌, IfOk, OnOk, List};
ghost use Rattle.std.specs.List.{All};
ghost use Rattle.transcript.specs.HasText.{HasTextLine};
ghost use Rattle.transcript.specs.Judging.{Gives, run_of};

use crate::faults::TextError;
use crate::lines::Line;
use crate::reader::read_within;
use std::alloc::{AllocError, Global};
use std::marker::Model;

/// The most bytes of a text that is read: 64 MiB.
const MOST_BYTES: usize = 67_108_864;

/// The lines of a transcript after the first, in order.
#[derive(Debug, Drop)]
pub struct Transcript {
    list: Vec<Line>,
}

impl Model for Transcript {
    ghost use Rattle.std.specs.Prelude.{List};
    ghost use Rattle.transcript.specs.declared.lines.Line.{Line};

    ghost Value = { List Line };

    ghost view = { λ t. t.list.items };
}

impl Transcript {
    /// These lines, in this order.
    pub fn from_vec(list: Vec<Line>) -> Transcript
        ensures { result ≡ list.items }
    {
        Transcript { list }
    }

    /// The vector that holds the lines.
    pub fn into_vec(self) -> Vec<Line>
        ensures { result.items ≡ self }
    {
        self.list
    }

    /// The lines as a slice.
    pub fn as_slice(&self) -> &[Line]
        ensures { result.now ≡ self.now }
    {
        self.list.as_slice()
    }

    /// No lines.
    pub(crate) fn new(alloc: Global) -> Transcript
        ensures { result ≡ [] }
    {
        Transcript {
            list: Vec::new(alloc),
        }
    }

    /// One line more.
    pub(crate) fn push(&mut self, line: &Line) -> Result<(), AllocError>
        ensures { OnOk result (self.new ≡ self.old ++ line.now ∷ []) }
    {
        self.list.extend_from_slice(&[*line])
    }

    /// Reads a text of at most 67,108,864 bytes.
    ///
    /// # Errors
    ///
    /// `Refused` exactly where the text is no transcript, with its first bad line; `Memory` where
    /// there is no memory.
    #[tactic(auto, unfolding(crate::specs::Judging::run_of))]
    pub fn read(alloc: Global, bytes: &[u8]) -> Result<Transcript, TextError>
        ensures given { Gives result (run_of bytes.now) }
        ensures texts { IfOk result (λ t. All HasTextLine t) }
    {
        read_within(alloc, MOST_BYTES, bytes)
    }
}
