//! The two loops of every walk: down to an end of a tree, and up to the next tree at a side.

ghost use Rattle.std.specs.Prelude.{◌≡◌, ◌≢◌, ℕ, ◌<◌, Some, IfSome};
ghost use Rattle.eb_arena.specs.Links.{opposite};
ghost use Rattle.eb_arena.specs.Parts.{element_at};
ghost use Rattle.eb_arena.specs.Shape.{list_below};
ghost use Rattle.eb32_walk.specs.Ends.{IsIn, IsTree, IsPlace, AtPlace, end_entry, beyond};

use eb_arena::{Arena, Link, Side, Up};

/// The entry at an end of the tree below a link.
pub(crate) fn end_below(arena: &Arena, link: Link, side: Side) -> u32
    requires { IsTree arena.now link }
    ensures answer { end_entry side (list_below arena.now link) ≡ Some result }
    ensures in_tree { IsIn arena.now result }
{
    if link.is_leaf() {
        return link.index();
    }
    // With the first step in front of it, the compiled loop is a load and a test.
    let mut part = arena.child(link, side);
    while !part.is_leaf() {
        part = arena.child(part, side);
    }
    part.index()
}

/// The entry next to a place on a side of it; none where the place is at that end of the tree.
pub(crate) fn neighbour(arena: &Arena, up: Up, side: Side) -> Option<u32>
    requires { IsPlace arena.now up }
    ensures answer { AtPlace arena.now up (λ w. result ≡ end_entry (opposite side) (beyond side w)) }
    ensures in_tree { IfSome result (IsIn arena.now) }
{
    let mut place = up;
    while arena.is_at_node(place) {
        if place.side() != side {
            return Some(end_below(arena, arena.beside(place), side.opposite()));
        }
        place = arena.above(place);
    }
    None
}
