//! Walks from a root and from an entry.

ghost use Rattle.std.specs.Prelude.{◌≡◌, ◌<◌, ◌==◌, not, filter, reverse, length, IfSome};
ghost use Rattle.eb_arena.specs.Shape.{HasShape, list_of};
ghost use Rattle.sched_base.specs.KeyedList.{first_entry};
ghost use Rattle.eb32_walk.specs.Ends.{IsIn, AtEntry, end_entry, last_entry, first_under, last_under};

use crate::ends::{end_below, neighbour};
use crate::heads::head_place;
use eb_arena::{Arena, Side};

/// The entry at an end of a root's list; none where the list is empty.
fn end_of(arena: &Arena, root: u32, side: Side) -> Option<u32>
    requires shape { HasShape arena.now }
    requires exists { root < length arena.now.links }
    ensures answer { result ≡ end_entry side (list_of arena.now root) }
    ensures in_tree { IfSome result (IsIn arena.now) }
{
    let link = arena.root(root);
    if link.is_none() {
        return None;
    }
    Some(end_below(arena, link, side))
}

/// The first entry of a root's list; none where the list is empty.
pub fn first(arena: &Arena, root: u32) -> Option<u32>
    requires shape { HasShape arena.now }
    requires exists { root < length arena.now.links }
    ensures answer { result ≡ first_entry (list_of arena.now root) }
    ensures in_tree { IfSome result (IsIn arena.now) }
{
    end_of(arena, root, Side::Left)
}

/// The last entry of a root's list; none where the list is empty.
pub fn last(arena: &Arena, root: u32) -> Option<u32>
    requires shape { HasShape arena.now }
    requires exists { root < length arena.now.links }
    ensures answer { result ≡ last_entry (list_of arena.now root) }
    ensures in_tree { IfSome result (IsIn arena.now) }
{
    end_of(arena, root, Side::Right)
}

/// The entry after this one; none where it is the last.
pub fn next(arena: &Arena, entry: u32) -> Option<u32>
    requires shape { HasShape arena.now }
    requires in_tree { IsIn arena.now entry }
    ensures answer { AtEntry arena.now entry (λ xs k ys. result ≡ first_entry ys) }
    ensures in_tree { IfSome result (IsIn arena.now) }
{
    neighbour(arena, arena.element(entry).leaf_p, Side::Right)
}

/// The entry before this one; none where it is the first.
pub fn prev(arena: &Arena, entry: u32) -> Option<u32>
    requires shape { HasShape arena.now }
    requires in_tree { IsIn arena.now entry }
    ensures answer { AtEntry arena.now entry (λ xs k ys. result ≡ last_entry xs) }
    ensures in_tree { IfSome result (IsIn arena.now) }
{
    neighbour(arena, arena.element(entry).leaf_p, Side::Left)
}

/// The entry after this one, if its key is equal; none where this is the last of its key.
pub fn next_dup(arena: &Arena, entry: u32) -> Option<u32>
    requires shape { HasShape arena.now }
    requires in_tree { IsIn arena.now entry }
    ensures answer { AtEntry arena.now entry (λ xs k ys. result ≡ first_under k ys) }
    ensures in_tree { IfSome result (IsIn arena.now) }
{
    let found = next(arena, entry)?;
    if arena.element(found).key == arena.element(entry).key {
        Some(found)
    } else {
        None
    }
}

/// The entry before this one, if its key is equal; none where this is the first of its key.
pub fn prev_dup(arena: &Arena, entry: u32) -> Option<u32>
    requires shape { HasShape arena.now }
    requires in_tree { IsIn arena.now entry }
    ensures answer { AtEntry arena.now entry (λ xs k ys. result ≡ last_under k xs) }
    ensures in_tree { IfSome result (IsIn arena.now) }
{
    let found = prev(arena, entry)?;
    if arena.element(found).key == arena.element(entry).key {
        Some(found)
    } else {
        None
    }
}

/// The first entry after this one that has another key; none where there is none.
pub fn next_unique(arena: &Arena, entry: u32) -> Option<u32>
    requires shape { HasShape arena.now }
    requires in_tree { IsIn arena.now entry }
    ensures answer { AtEntry arena.now entry (λ xs k ys. result ≡ first_entry (filter (λ y. not (y.key == k)) ys)) }
    ensures in_tree { IfSome result (IsIn arena.now) }
{
    neighbour(arena, head_place(arena, entry), Side::Right)
}

/// The last entry before this one that has another key; none where there is none.
pub fn prev_unique(arena: &Arena, entry: u32) -> Option<u32>
    requires shape { HasShape arena.now }
    requires in_tree { IsIn arena.now entry }
    ensures answer { AtEntry arena.now entry (λ xs k ys. result ≡ last_entry (filter (λ x. not (x.key == k)) xs)) }
    ensures in_tree { IfSome result (IsIn arena.now) }
{
    neighbour(arena, head_place(arena, entry), Side::Left)
}
