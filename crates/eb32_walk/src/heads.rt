//! The climb from an entry to the head of its key.

ghost use Rattle.std.specs.Prelude.{◌≡◌, ◌≢◌, ◌<◌, length};
ghost use Rattle.eb_arena.specs.Shape.{HasShape};
ghost use Rattle.eb32_walk.specs.Ends.{IsIn, IsPlace, AtEntry};
ghost use Rattle.eb32_walk.specs.Heads.{IsHead};

use eb_arena::{Arena, Up};

/// The place of the whole tree of the entry's key.
pub(crate) fn head_place(arena: &Arena, entry: u32) -> Up
    requires shape { HasShape arena.now }
    requires in_tree { IsIn arena.now entry }
    ensures place { IsPlace arena.now result }
    ensures head { AtEntry arena.now entry (λ xs k ys. IsHead arena.now result xs k ys) }
{
    let mut place = arena.element(entry).leaf_p;
    while arena.is_at_node(place) {
        let node = arena.element(place.index());
        if !node.has_equal_keys() {
            return place;
        }
        place = node.node_p;
    }
    place
}
