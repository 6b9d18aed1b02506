//! The arena: elements and roots, whose numbers are fixed when it is made.

ghost use Rattle.std.specs.Prelude.{◌≡◌, ◌≢◌, ◌+◌, ◌<◌, false, length, replicate, IfOk};
ghost use Rattle.eb_arena.specs.Parts.{element_at, link_at, unused, with_element, with_link};
ghost use Rattle.eb_arena.specs.Links.{is_leaf, index_of};
ghost use Rattle.eb_arena.specs.Halves.{bit_of};
ghost use Rattle.eb_arena.specs.declared.links.Target.TheVariants as targets;

use crate::element::Element;
use crate::links::{Link, StoredLink, StoredUp};
use std::alloc::{AllocError, Global};
use std::marker::Model;

/// Half of an element. The half with the number 2i has what hangs at the left of node i and where
/// leaf i hangs, the half with the number 2i + 1 what hangs at the right of node i and where node i
/// hangs. So a link's number is the number of a half, up as well as down.
#[derive(Clone, Copy, Debug)]
pub(crate) struct Half {
    pub(crate) down: StoredLink,
    pub(crate) up: StoredUp,
}

impl Half {
    /// A half of an element whose entry is in no tree and whose node is unused.
    const UNUSED: Half = Half {
        down: StoredLink::NONE,
        up: StoredUp::NONE,
    };
}

/// The bit of a node, out of its mark: the lower half of the mark, with its sign.
fn bit_in(mark: u32) -> i16
    ensures { result ≡ bit_of mark }
{
    ((mark % 65536) as u16).cast_signed()
}

/// The mark of a node with this bit.
fn mark_of(bit: i16) -> u32
    ensures { bit_of result ≡ bit }
{
    u32::from(bit.cast_unsigned())
}

/// Elements and roots in fixed room. Contracts see the list of the elements and the list of what
/// hangs on the roots.
#[derive(Debug, Drop)]
pub struct Arena {
    /// The halves of the elements and, behind them, of the roots. A root is stored as a node of which
    /// only the left side is used.
    pub(crate) halves: Vec<Half>,
    /// The marks of the elements: mark 2i is the key of leaf i, and mark 2i + 1 has the bit of node i.
    /// So a link's number is the number of a mark, too.
    pub(crate) marks: Vec<u32>,
    /// The number of roots.
    roots: u32,
}

impl Model for Arena {
    ghost use Rattle.eb_arena.specs.Parts.{Parts};

    ghost Value = { Parts };

    ghost use Rattle.eb_arena.specs.Halves.{parts_of, Fits};

    ghost view = { λ a. parts_of a.halves.items a.marks.items a.roots };

    ghost invariant = { λ a. Fits a.halves.items a.marks.items a.roots };
}

impl Arena {
    /// An arena with empty roots, whose entries are in no tree. Only here memory is taken. Roots and
    /// entries are fewer than 2,147,483,647 together.
    pub fn with_capacity(alloc: Global, roots: u32, entries: u32) -> Result<Arena, AllocError>
        requires { roots + entries < 2147483647 }
        ensures { IfOk result (λ a. a ≡ record { elements = replicate entries unused; links = replicate roots targets.Nothing }) }
    {
        let nodes = (roots + entries) as usize;
        let halves = vec![in alloc; Half::UNUSED; 2 * nodes]?;
        let marks = vec![in alloc; 0u32; 2 * entries as usize]?;
        Ok(Arena {
            halves,
            marks,
            roots,
        })
    }

    /// The number of entries, which number the elements from 0 on.
    pub fn entries(&self) -> u32
        ensures count { result ≡ length self.now.elements }
        ensures room { length self.now.links + length self.now.elements < 2147483647 }
    {
        (self.marks.len() / 2) as u32
    }

    /// The number of roots.
    pub fn roots(&self) -> u32
        ensures count { result ≡ length self.now.links }
        ensures room { length self.now.links + length self.now.elements < 2147483647 }
    {
        self.roots
    }

    /// The element with this index.
    pub fn element(&self, index: u32) -> Element
        requires { index < length self.now.elements }
        ensures { result ≡ element_at self.now index }
    {
        let key = self.marks[2 * index as usize];
        // Doubled before it is widened: then the compiled walk from leaf to leaf reads by the number of
        // the link that it came by, and neither halves nor doubles it.
        let first = (2 * index) as usize;
        Element {
            left: self.halves[first].down.link(),
            right: self.halves[first + 1].down.link(),
            node_p: self.halves[first + 1].up.up(),
            leaf_p: self.halves[first].up.up(),
            key,
            bit: bit_in(self.marks[first + 1]),
        }
    }

    /// The element of the node that a link leads to. It is read by the number of the link, which the
    /// way down neither halves nor doubles.
    pub fn node(&self, node: Link) -> Element
        requires some { node ≢ targets.Nothing }
        requires inner { is_leaf node ≡ false }
        requires exists { index_of node < length self.now.elements }
        ensures { result ≡ element_at self.now (index_of node) }
    {
        let number = node.half();
        Element {
            left: self.halves[number - 1].down.link(),
            right: self.halves[number].down.link(),
            node_p: self.halves[number].up.up(),
            leaf_p: self.halves[number - 1].up.up(),
            key: self.marks[number - 1],
            bit: bit_in(self.marks[number]),
        }
    }

    /// Puts an element in the place of the one with this index.
    pub fn set(&mut self, index: u32, element: Element)
        requires { index < length self.old.elements }
        ensures { self.new ≡ with_element self.old index element }
    {
        self.set_key(index, element.key);
        self.set_same_key(index, element);
    }

    /// Puts an element of the same key in the place of the one with this index. The key is not
    /// written.
    pub fn set_same_key(&mut self, index: u32, element: Element)
        requires exists { index < length self.old.elements }
        requires same { element.key ≡ (element_at self.old index).key }
        ensures { self.new ≡ with_element self.old index element }
    {
        let entry = index as usize;
        self.halves[2 * entry] = Half {
            down: element.left.stored(),
            up: element.leaf_p.stored(),
        };
        self.halves[2 * entry + 1] = Half {
            down: element.right.stored(),
            up: element.node_p.stored(),
        };
        self.marks[2 * entry + 1] = mark_of(element.bit);
    }

    /// Writes the key of an entry, and nothing else.
    pub fn set_key(&mut self, entry: u32, key: u32)
        requires { entry < length self.old.elements }
        ensures { self.new ≡ with_element self.old entry (record (element_at self.old entry) { key = key }) }
    {
        self.marks[2 * entry as usize] = key;
    }

    /// What hangs on a root.
    pub fn root(&self, root: u32) -> Link
        requires { root < length self.now.links }
        ensures { result ≡ link_at self.now root }
    {
        self.halves[self.marks.len() + 2 * root as usize]
            .down
            .link()
    }

    /// Hangs a part, or nothing, on a root.
    pub fn set_root(&mut self, root: u32, link: Link)
        requires { root < length self.old.links }
        ensures { self.new ≡ with_link self.old root link }
    {
        let half = self.marks.len() + 2 * root as usize;
        self.halves[half].down = link.stored();
    }
}
