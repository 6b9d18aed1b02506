//! The root in whose list an entry stands.

ghost use Rattle.std.specs.Prelude.{◌≡◌, ◌<◌, true, length};
ghost use Rattle.std.specs.List.{list_any};
ghost use Rattle.sched_base.specs.KeyedList.{is_entry};
ghost use Rattle.eb_arena.specs.Shape.{HasShape, list_of};
ghost use Rattle.eb32_walk.specs.Ends.{IsIn};

use eb_arena::Arena;

/// The root that the way up from an entry leads to.
pub(crate) fn root_above(arena: &Arena, entry: u32) -> u32
    requires shape { HasShape arena.now }
    requires in_tree { IsIn arena.now entry }
    ensures exists { result < length arena.now.links }
    ensures held { list_any (is_entry entry) (list_of arena.now result) ≡ true }
{
    let mut place = arena.element(entry).leaf_p;
    while arena.is_at_node(place) {
        place = arena.above(place);
    }
    place.index() - arena.entries()
}
