//! Steps from part to part, and the moves of parts: where a part hangs, and what a place holds.

ghost use Rattle.std.specs.Prelude.{◌≡◌, ◌≢◌, ◌+◌, ◌<◌, ◌≤◌, nat_lt, false, length};
ghost use Rattle.eb_arena.specs.Links.{is_leaf, index_of, opposite, place_index, place_side};
ghost use Rattle.eb_arena.specs.Parts.{element_at, child, up_of, hung, linked};
ghost use Rattle.eb_arena.specs.declared.links.Side.TheVariants as sides;
ghost use Rattle.eb_arena.specs.declared.links.Target.TheVariants as targets;
ghost use Rattle.eb_arena.specs.declared.links.Place.TheVariants as places;

use crate::arena::Arena;
use crate::links::{Link, Side, Up};

impl Arena {
    /// What hangs at a side of the node that a link leads to.
    pub fn child(&self, node: Link, side: Side) -> Link
        requires some { node ≢ targets.Nothing }
        requires inner { is_leaf node ≡ false }
        requires exists { index_of node < length self.now.elements }
        ensures { result ≡ child side (element_at self.now (index_of node)) }
    {
        let number = node.half();
        let left = self.halves[number - 1].down.link();
        let right = self.halves[number].down.link();
        match side {
            Side::Left => left,
            Side::Right => right,
        }
    }

    /// What hangs at the other side of the node that a place is at.
    pub fn beside(&self, place: Up) -> Link
        requires some { place ≢ places.Nowhere }
        requires exists { place_index place < length self.now.elements }
        ensures { result ≡ child (opposite (place_side place)) (element_at self.now (place_index place)) }
    {
        let number = place.half();
        self.halves[number / 2 * 2 + (1 - number % 2)].down.link()
    }

    /// Whether a place is at a node of an element, and not on a root.
    pub fn is_at_node(&self, place: Up) -> bool
        requires { place ≢ places.Nowhere }
        ensures { result ≡ nat_lt (place_index place) (length self.now.elements) }
    {
        place.half() < self.marks.len()
    }

    /// Where the node that a place is at hangs.
    pub fn above(&self, place: Up) -> Up
        requires some { place ≢ places.Nowhere }
        requires exists { place_index place < length self.now.elements }
        ensures { result ≡ (element_at self.now (place_index place)).node_p }
    {
        self.halves[place.half() / 2 * 2 + 1].up.up()
    }

    /// Where the leaf or the node that a link leads to hangs.
    pub fn place_of(&self, part: Link) -> Up
        requires some { part ≢ targets.Nothing }
        requires exists { index_of part < length self.now.elements }
        ensures { result ≡ up_of self.now part }
    {
        self.halves[part.half()].up.up()
    }

    /// Writes where the leaf or the node that a link leads to hangs, and nothing else.
    pub fn hang(&mut self, part: Link, up: Up)
        requires some { part ≢ targets.Nothing }
        requires exists { index_of part < length self.old.elements }
        ensures { self.new ≡ hung self.old part up }
    {
        self.halves[part.half()].up = up.stored();
    }

    /// Writes what hangs at a place, which is a side of a node or the left side of a root, and nothing
    /// else.
    pub fn put_link(&mut self, up: Up, part: Link)
        requires some { up ≢ places.Nowhere }
        requires exists { place_index up < length self.old.elements + length self.old.links }
        requires left { length self.old.elements ≤ place_index up → place_side up ≡ sides.Left }
        ensures { self.new ≡ linked self.old up part }
    {
        self.halves[up.half()].down = part.stored();
    }
}
