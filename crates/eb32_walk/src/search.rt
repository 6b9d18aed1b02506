//! Look-ups by key.

ghost use Rattle.std.specs.Prelude.{◌≡◌, ℕ, ◌<◌, ◌==◌, nat_le, [], filter, length, IfSome, MatchOption};
ghost use Rattle.eb_arena.specs.Shape.{HasShape, IsBit, list_of};
ghost use Rattle.sched_base.specs.KeyedList.{first_entry};
ghost use Rattle.eb32_walk.specs.Ends.{IsIn, IsTree, last_entry};
ghost use Rattle.eb32_walk.specs.Search.{IsBare, IsFound, Reaches, own_key, turn_of};

use crate::ends::{end_below, neighbour};
use eb_arena::{Arena, Element, Link, Side};
use sched_base::Steps;
use std::marker::Brand;
use std::sync::ledger::{Blank, Ledger};

/// The side of a node to which the key belongs; none where it differs from the node's keys above
/// the node's bit, or where the node's keys are equal.
fn turn(node: &Element, key: u32) -> Option<Side>
    requires { IsBit node.now.bit }
    ensures { result ≡ turn_of node.now.key node.now.bit key }
{
    if node.has_equal_keys() {
        return None;
    }
    let height = node.bit as u32;
    let here = key >> height;
    if here / 2 != (node.key >> height) / 2 {
        return None;
    }
    if here % 2 == 0 {
        Some(Side::Left)
    } else {
        Some(Side::Right)
    }
}

/// Goes down from a root as long as the key agrees with what is found. None where the root is empty.
/// One step is one element that is visited: those of the nodes on the way, and that of the part at
/// which the descent ends.
pub fn descend<L: Ledger>(arena: &Arena, root: u32, key: u32, steps: &mut Steps<L>) -> Option<Link>
    requires shape { HasShape arena.now }
    requires exists { root < length arena.now.links }
    ensures { MatchOption result (IsBare arena.now root steps.old steps.new) (Reaches arena.now root key steps.old steps.new) }
{
    let mut part = arena.root(root);
    if part.is_none() {
        return None;
    }
    while !part.is_leaf() {
        steps.tick();
        let node = arena.node(part);
        let Some(side) = turn(&node, key) else {
            return Some(part);
        };
        part = node.child(side);
    }
    steps.tick();
    Some(part)
}

/// The descent, with a counter of its own.
fn descend_uncounted<L: Ledger>(arena: &Arena, root: u32, key: u32, blank: Blank) -> Option<Link>
    requires name { blank.name ≡ L.name }
    requires parts { blank.parts ≡ L.parts }
    requires some { 0 < L.parts }
    requires shape { HasShape arena.now }
    requires exists { root < length arena.now.links }
    ensures found { MatchOption result (list_of arena.now root ≡ []) (IsFound arena.now root key) }
    ensures reached { IfSome result (λ part. (taken : ℕ) × Reaches arena.now root key 0 taken part) }
{
    let mut steps = Steps::<L>::new(blank);
    descend(arena, root, key, &mut steps)
}

/// The part at which the descent by a key ends. All items before it have smaller keys, and all items
/// after it have greater ones; none where the root's list is empty. Nothing is counted.
pub fn seek(arena: &Arena, root: u32, key: u32) -> Option<Link>
    requires shape { HasShape arena.now }
    requires exists { root < length arena.now.links }
    ensures found { MatchOption result (list_of arena.now root ≡ []) (IsFound arena.now root key) }
    ensures reached { IfSome result (λ part. (taken : ℕ) × Reaches arena.now root key 0 taken part) }
{
    descend_uncounted::<Brand>(arena, root, key, Blank::new(1))
}

/// The key of the entry whose leaf or node is the part.
fn key_at(arena: &Arena, part: Link) -> u32
    requires { IsTree arena.now part }
    ensures { result ≡ own_key arena.now part }
{
    arena.element(part.index()).key
}

/// The first entry with this key; none where no item has it.
pub fn lookup(arena: &Arena, root: u32, key: u32) -> Option<u32>
    requires shape { HasShape arena.now }
    requires exists { root < length arena.now.links }
    ensures answer { result ≡ first_entry (filter (λ x. x.key == key) (list_of arena.now root)) }
    ensures in_tree { IfSome result (IsIn arena.now) }
{
    let part = seek(arena, root, key)?;
    if key_at(arena, part) == key {
        Some(end_below(arena, part, Side::Left))
    } else {
        None
    }
}

/// The first entry with a key of at least this one; none where there is none.
// Inlined at once: among equal keys the call would be a good part of the time.
#[inline(always)]
pub fn lookup_ge(arena: &Arena, root: u32, key: u32) -> Option<u32>
    requires shape { HasShape arena.now }
    requires exists { root < length arena.now.links }
    ensures answer { result ≡ first_entry (filter (λ x. nat_le key x.key) (list_of arena.now root)) }
    ensures in_tree { IfSome result (IsIn arena.now) }
{
    let part = seek(arena, root, key)?;
    if key <= key_at(arena, part) {
        Some(end_below(arena, part, Side::Left))
    } else {
        neighbour(arena, arena.place_of(part), Side::Right)
    }
}

/// The last entry with a key of at most this one; none where there is none.
pub fn lookup_le(arena: &Arena, root: u32, key: u32) -> Option<u32>
    requires shape { HasShape arena.now }
    requires exists { root < length arena.now.links }
    ensures answer { result ≡ last_entry (filter (λ x. nat_le x.key key) (list_of arena.now root)) }
    ensures in_tree { IfSome result (IsIn arena.now) }
{
    let part = seek(arena, root, key)?;
    if key_at(arena, part) <= key {
        Some(end_below(arena, part, Side::Right))
    } else {
        neighbour(arena, arena.place_of(part), Side::Left)
    }
}
