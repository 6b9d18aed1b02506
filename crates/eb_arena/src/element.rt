//! The element of an arena: a leaf and a node in one record.

ghost use Rattle.std.specs.Prelude.{◌≡◌};
ghost use Rattle.eb_arena.specs.Parts.{child, is_negative};

use crate::links::{Link, Side, Up};

/// One entry's leaf, with its key, and one branching node, each with its link up. A node with a
/// bit of 0 or more branches at that bit of the keys; one with a negative bit holds equal keys.
#[derive(Clone, Copy, Debug, PartialEq, Eq)]
pub struct Element {
    /// What hangs at the left of the node.
    pub left: Link,
    /// What hangs at the right of the node.
    pub right: Link,
    /// Where the node hangs; none where the node is unused.
    pub node_p: Up,
    /// Where the leaf hangs; none where the entry is in no tree.
    pub leaf_p: Up,
    /// The key of the leaf.
    pub key: u32,
    /// The bit of the node.
    pub bit: i16,
}

impl Element {
    /// An element whose entry is in no tree and whose node is unused.
    pub const UNUSED: Element = Element {
        left: Link::NONE,
        right: Link::NONE,
        node_p: Up::NONE,
        leaf_p: Up::NONE,
        key: 0,
        bit: 0,
    };

    /// Whether the node holds equal keys: its bit is negative.
    pub fn has_equal_keys(&self) -> bool
        ensures { result ≡ is_negative self.now.bit }
    {
        self.bit < 0
    }

    /// What hangs at a side of the node.
    // Inlined at once, so that the compiler reads both sides before the side is known.
    #[inline(always)]
    pub fn child(&self, side: Side) -> Link
        ensures { result ≡ child side self.now }
    {
        match side {
            Side::Left => self.left,
            Side::Right => self.right,
        }
    }
}
