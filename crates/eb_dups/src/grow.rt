//! One new entry above a part of a tree.

ghost use Rattle.std.specs.Prelude.{◌≡◌, ◌≢◌, ◌+◌, ◌<◌, ◌≤◌, length};
ghost use Rattle.eb_arena.specs.Links.{index_of, place_index, place_side};
ghost use Rattle.eb_arena.specs.Parts.{up_of};
ghost use Rattle.eb_dups.specs.Grown.{attached};
ghost use Rattle.eb_arena.specs.declared.links.Side.TheVariants as sides;
ghost use Rattle.eb_arena.specs.declared.links.Target.TheVariants as targets;
ghost use Rattle.eb_arena.specs.declared.links.Place.TheVariants as places;

use eb_arena::{Arena, Element, Link, Side, Up};

/// Puts the node of an entry in above a part, with the leaf of the entry at this side of it.
pub fn attach(arena: &mut Arena, part: Link, entry: u32, side: Side, bit: i16)
    requires some { part ≢ targets.Nothing }
    requires part_exists { index_of part < length arena.old.elements }
    requires hangs { up_of arena.old part ≢ places.Nowhere }
    requires place_exists { place_index (up_of arena.old part) < length arena.old.elements + length arena.old.links }
    requires left { length arena.old.elements ≤ place_index (up_of arena.old part) → place_side (up_of arena.old part) ≡ sides.Left }
    requires fits { length arena.old.links + length arena.old.elements < 2147483647 }
    requires entry_exists { entry < length arena.old.elements }
    ensures { arena.new ≡ attached arena.old part (up_of arena.old part) entry side bit }
{
    let up = arena.place_of(part);
    let key = arena.element(entry).key;
    arena.hang(part, Up::new(entry, side.opposite()));
    let leaf = Link::leaf(entry);
    let left = match side {
        Side::Left => leaf,
        Side::Right => part,
    };
    let right = match side {
        Side::Left => part,
        Side::Right => leaf,
    };
    arena.set_same_key(
        entry,
        Element {
            left,
            right,
            node_p: up,
            leaf_p: Up::new(entry, side),
            key,
            bit,
        },
    );
    arena.put_link(up, Link::node(entry));
}
