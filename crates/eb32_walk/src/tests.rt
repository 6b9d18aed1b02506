//! The worked arenas, set by hand, with every walk and look-up.

ghost use Rattle.std.specs.Prelude.{◌≡◌, ◌<◌, length, IfOk};
ghost use Rattle.eb_arena.specs.Shape.{HasShape};
ghost use Rattle.eb32_walk.specs.Ends.{IsIn};
ghost use Rattle.eb32_walk.specs.Worked.{four_equal_keys, three_keys, two_twins};

use crate::{
    first, last, lookup, lookup_ge, lookup_le, next, next_dup, next_unique, prev, prev_dup,
    prev_unique,
};
use eb_arena::{Arena, Element, Link, Side, Up};
use std::alloc::{AllocError, Global};
use std::test::Fail;

/// Entries 0 to 3 under key 5.
fn make_four_equal(alloc: Global) -> Result<Arena, AllocError>
    ensures { IfOk result (λ a. a ≡ four_equal_keys) }
{
    let mut arena = Arena::with_capacity(alloc, 1, 4)?;
    arena.set_root(0, Link::node(2));
    arena.set(
        0,
        Element {
            left: Link::NONE,
            right: Link::NONE,
            node_p: Up::NONE,
            leaf_p: Up::new(1, Side::Left),
            key: 5,
            bit: 0,
        },
    );
    arena.set(
        1,
        Element {
            left: Link::leaf(0),
            right: Link::leaf(1),
            node_p: Up::new(2, Side::Left),
            leaf_p: Up::new(1, Side::Right),
            key: 5,
            bit: -1,
        },
    );
    arena.set(
        2,
        Element {
            left: Link::node(1),
            right: Link::node(3),
            node_p: Up::new(4, Side::Left),
            leaf_p: Up::new(3, Side::Left),
            key: 5,
            bit: -2,
        },
    );
    arena.set(
        3,
        Element {
            left: Link::leaf(2),
            right: Link::leaf(3),
            node_p: Up::new(2, Side::Right),
            leaf_p: Up::new(3, Side::Right),
            key: 5,
            bit: -1,
        },
    );
    Ok(arena)
}

/// Entries 0, 1 and 2 under keys 4, 6 and 5.
fn make_three_keys(alloc: Global) -> Result<Arena, AllocError>
    ensures { IfOk result (λ a. a ≡ three_keys) }
{
    let mut arena = Arena::with_capacity(alloc, 1, 3)?;
    arena.set_root(0, Link::node(1));
    arena.set(
        0,
        Element {
            left: Link::NONE,
            right: Link::NONE,
            node_p: Up::NONE,
            leaf_p: Up::new(2, Side::Left),
            key: 4,
            bit: 0,
        },
    );
    arena.set(
        1,
        Element {
            left: Link::node(2),
            right: Link::leaf(1),
            node_p: Up::new(3, Side::Left),
            leaf_p: Up::new(1, Side::Right),
            key: 6,
            bit: 1,
        },
    );
    arena.set(
        2,
        Element {
            left: Link::leaf(0),
            right: Link::leaf(2),
            node_p: Up::new(1, Side::Left),
            leaf_p: Up::new(2, Side::Right),
            key: 5,
            bit: 0,
        },
    );
    Ok(arena)
}

/// Entries 0 and 1 under key 5, and entry 2 under key 7.
fn make_two_twins(alloc: Global) -> Result<Arena, AllocError>
    ensures { IfOk result (λ a. a ≡ two_twins) }
{
    let mut arena = Arena::with_capacity(alloc, 1, 3)?;
    arena.set_root(0, Link::node(2));
    arena.set(
        0,
        Element {
            left: Link::NONE,
            right: Link::NONE,
            node_p: Up::NONE,
            leaf_p: Up::new(1, Side::Left),
            key: 5,
            bit: 0,
        },
    );
    arena.set(
        1,
        Element {
            left: Link::leaf(0),
            right: Link::leaf(1),
            node_p: Up::new(2, Side::Left),
            leaf_p: Up::new(1, Side::Right),
            key: 5,
            bit: -1,
        },
    );
    arena.set(
        2,
        Element {
            left: Link::node(1),
            right: Link::leaf(2),
            node_p: Up::new(3, Side::Left),
            leaf_p: Up::new(2, Side::Right),
            key: 7,
            bit: 1,
        },
    );
    Ok(arena)
}

/// The answers at an entry: next, previous, the same among twins, the same past twins.
fn around(arena: &Arena, entry: u32) -> [Option<u32>; 6]
    requires shape { HasShape arena.now }
    requires in_tree { IsIn arena.now entry }
{
    [
        next(arena, entry),
        prev(arena, entry),
        next_dup(arena, entry),
        prev_dup(arena, entry),
        next_unique(arena, entry),
        prev_unique(arena, entry),
    ]
}

/// The answers at a key of root 0: equal, at least, at most; and the ends of the root's list.
fn at_key(arena: &Arena, key: u32) -> [Option<u32>; 5]
    requires shape { HasShape arena.now }
    requires exists { 0 < length arena.now.links }
{
    [
        lookup(arena, 0, key),
        lookup_ge(arena, 0, key),
        lookup_le(arena, 0, key),
        first(arena, 0),
        last(arena, 0),
    ]
}

/// The answers at each entry of the four equal keys.
const FOUR_AROUND: [[Option<u32>; 6]; 4] = [
    [Some(1), None, Some(1), None, None, None],
    [Some(2), Some(0), Some(2), Some(0), None, None],
    [Some(3), Some(1), Some(3), Some(1), None, None],
    [None, Some(2), None, Some(2), None, None],
];

#[test]
fn walks_four_equal_keys(rt: HostRuntime) -> Result<(), Fail> {
    let arena = make_four_equal(rt.alloc())?;
    for entry in 0..4u32 {
        assert_eq!(rt; around(&arena, entry), FOUR_AROUND[entry as usize]);
    }
    assert_eq!(rt; at_key(&arena, 4), [None, Some(0), None, Some(0), Some(3)]);
    assert_eq!(rt;
        at_key(&arena, 5),
        [Some(0), Some(0), Some(3), Some(0), Some(3)]
    );
    assert_eq!(rt; at_key(&arena, 9), [None, None, Some(3), Some(0), Some(3)]);
    Ok(())
}

/// The answers at each entry of the three keys.
const THREE_AROUND: [[Option<u32>; 6]; 3] = [
    [Some(2), None, None, None, Some(2), None],
    [None, Some(2), None, None, None, Some(2)],
    [Some(1), Some(0), None, None, Some(1), Some(0)],
];

#[test]
fn walks_three_keys(rt: HostRuntime) -> Result<(), Fail> {
    let arena = make_three_keys(rt.alloc())?;
    for entry in 0..3u32 {
        assert_eq!(rt; around(&arena, entry), THREE_AROUND[entry as usize]);
    }
    assert_eq!(rt; at_key(&arena, 3), [None, Some(0), None, Some(0), Some(1)]);
    assert_eq!(rt;
        at_key(&arena, 5),
        [Some(2), Some(2), Some(2), Some(0), Some(1)]
    );
    assert_eq!(rt;
        at_key(&arena, 6),
        [Some(1), Some(1), Some(1), Some(0), Some(1)]
    );
    assert_eq!(rt; at_key(&arena, 7), [None, None, Some(1), Some(0), Some(1)]);
    Ok(())
}

/// The answers at each entry of the two twins and their neighbour.
const TWINS_AROUND: [[Option<u32>; 6]; 3] = [
    [Some(1), None, Some(1), None, Some(2), None],
    [Some(2), Some(0), None, Some(0), Some(2), None],
    [None, Some(1), None, None, None, Some(1)],
];

#[test]
fn walks_two_twins(rt: HostRuntime) -> Result<(), Fail> {
    let arena = make_two_twins(rt.alloc())?;
    for entry in 0..3u32 {
        assert_eq!(rt; around(&arena, entry), TWINS_AROUND[entry as usize]);
    }
    assert_eq!(rt;
        at_key(&arena, 6),
        [None, Some(2), Some(1), Some(0), Some(2)]
    );
    Ok(())
}

#[test]
fn finds_nothing_in_an_empty_root(rt: HostRuntime) -> Result<(), Fail> {
    let arena = Arena::with_capacity(rt.alloc(), 1, 2)?;
    assert_eq!(rt; at_key(&arena, 5), [None, None, None, None, None]);
    Ok(())
}
