//! Forests that are filled and emptied one entry after another.

ghost use Rattle.std.specs.Prelude.{◌≡◌, ℕ, ◌+◌, ◌^◌, ◌<◌, ◌≤◌, length, IfSome};
ghost use Rattle.sched_base.specs.KeyedList.{root_at};
ghost use Rattle.eb_arena.specs.Shape.{HasShape};
ghost use Rattle.eb32_walk.specs.Ends.{IsIn};

use crate::Forest;
use eb_arena::{Arena, Element, Link, Side, Target, Up};
use eb32_walk::{first, lookup, lookup_ge, lookup_le, next};
use sched_base::{KeyedLists, PlainLists, Steps};
use std::alloc::{AllocError, Global};
use std::marker::Brand;
use std::sync::ledger::{Blank, Ledger};
use std::test::Fail;

/// Inserts into a root, where that may be done.
fn put<L: Ledger>(
    forest: &mut Forest,
    root: u32,
    entry: u32,
    key: u32,
    steps: &mut Steps<L>,
) -> bool {
    let arena = forest.arena();
    if root >= arena.roots() || entry >= arena.entries() || forest.is_in(entry).is_some() {
        return false;
    }
    if forest.insertions(root) >= 1 << 62 {
        return false;
    }
    forest.insert(root, entry, key, steps);
    true
}

/// A forest of one root with these keys, whose entries are numbered in the order of insertion.
fn filled<L: Ledger>(
    alloc: Global,
    blank: Blank,
    keys: &[u32],
) -> Result<Option<Forest>, AllocError>
    requires name { blank.name ≡ L.name }
    requires parts { blank.parts ≡ L.parts }
    requires some { 0 < L.parts }
{
    if keys.len() > 5000 {
        return Ok(None);
    }
    let mut steps = Steps::<L>::new(blank);
    let mut forest = Forest::new(alloc, 1, keys.len() as u32)?;
    for (entry, key) in keys.iter().enumerate() {
        if !put(&mut forest, 0, entry as u32, *key, &mut steps) {
            return Ok(None);
        }
    }
    Ok(Some(forest))
}

/// The entries of a root in order.
fn order(alloc: Global, arena: &Arena, root: u32) -> Result<Vec<u32>, AllocError>
    requires { HasShape arena.now }
{
    let mut entries = Vec::new(alloc);
    if root >= arena.roots() {
        return Ok(entries);
    }
    let mut at = first(arena, root);
    for _ in 0..arena.entries() {
        let Some(entry) = at else {
            return Ok(entries);
        };
        entries.push(entry)?;
        at = next(arena, entry);
    }
    Ok(entries)
}

/// How many nodes the right spine below root 0 has, up to 100.
fn spine_nodes(arena: &Arena) -> u32 {
    let mut nodes = 0;
    if arena.roots() == 0 {
        return nodes;
    }
    let mut part = arena.root(0);
    for _ in 0..100u32 {
        let Target::Node(index) = part.target() else {
            return nodes;
        };
        if index >= arena.entries() {
            return nodes;
        }
        part = arena.element(index).right;
        nodes = nodes.saturating_add(1);
    }
    nodes
}

/// What the elements of the four equal keys are.
fn four_equal() -> [Element; 4] {
    let leaf = Element {
        leaf_p: Up::new(1, Side::Left),
        key: 5,
        ..Element::UNUSED
    };
    [
        leaf,
        Element {
            left: Link::leaf(0),
            right: Link::leaf(1),
            node_p: Up::new(2, Side::Left),
            leaf_p: Up::new(1, Side::Right),
            key: 5,
            bit: -1,
        },
        Element {
            left: Link::node(1),
            right: Link::node(3),
            node_p: Up::new(4, Side::Left),
            leaf_p: Up::new(3, Side::Left),
            key: 5,
            bit: -2,
        },
        Element {
            left: Link::leaf(2),
            right: Link::leaf(3),
            node_p: Up::new(2, Side::Right),
            leaf_p: Up::new(3, Side::Right),
            key: 5,
            bit: -1,
        },
    ]
}

#[test]
fn keeps_four_equal_keys(rt: HostRuntime) -> Result<(), Fail> {
    let forest = filled::<Brand>(rt.alloc(), Blank::new(1), &[5, 5, 5, 5])?.ok_or("filled")?;
    let arena = forest.arena();
    assert_eq!(rt; (arena.entries(), arena.roots()), (4, 1));
    assert_eq!(rt; arena.root(0).number(), 5);
    for (index, element) in four_equal().iter().enumerate() {
        assert_eq!(rt; arena.element(index as u32), *element);
    }
    assert_eq!(rt;
        order(rt.alloc(), arena, 0)?.as_slice(),
        [0, 1, 2, 3].as_slice()
    );
    Ok(())
}

#[test]
fn keeps_keys_in_order(rt: HostRuntime) -> Result<(), Fail> {
    let forest = filled::<Brand>(rt.alloc(), Blank::new(1), &[4, 6, 5])?.ok_or("filled")?;
    let arena = forest.arena();
    assert_eq!(rt;
        order(rt.alloc(), arena, 0)?.as_slice(),
        [0, 2, 1].as_slice()
    );
    assert_eq!(rt; arena.roots(), 1);
    assert_eq!(rt; arena.entries(), 3);
    let (upper, lower) = (arena.element(1), arena.element(2));
    assert_eq!(rt; (upper.bit, lower.bit), (1, 0));
    assert_eq!(rt; (upper.left, upper.right), (Link::node(2), Link::leaf(1)));
    assert_eq!(rt; (lower.left, lower.right), (Link::leaf(0), Link::leaf(2)));
    assert_eq!(rt; lookup_ge(arena, 0, 5), Some(2));
    assert_eq!(rt; lookup_ge(arena, 0, 7), None);
    assert_eq!(rt; lookup_le(arena, 0, 5), Some(2));
    assert_eq!(rt; lookup_le(arena, 0, 3), None);
    assert_eq!(rt; lookup(arena, 0, 6), Some(1));
    Ok(())
}

/// Four equal keys.
const FIVES: [u32; 4] = [5; 4];

/// A forest of one root with these keys, without one of the entries.
fn filled_without<L: Ledger>(
    alloc: Global,
    blank: Blank,
    keys: &[u32],
    entry: u32,
) -> Result<Option<Forest>, AllocError>
    requires name { blank.name ≡ L.name }
    requires parts { blank.parts ≡ L.parts }
    requires some { 0 < L.parts }
{
    let Some(mut forest) = filled::<L>(alloc, blank, keys)? else {
        return Ok(None);
    };
    if forest.is_in(entry).is_none() {
        return Ok(None);
    }
    KeyedLists::delete(&mut forest, entry);
    Ok(Some(forest))
}

#[test]
fn deletes_the_first_of_four_equal_keys(rt: HostRuntime) -> Result<(), Fail> {
    let forest = filled_without::<Brand>(rt.alloc(), Blank::new(1), &FIVES, 0)?.ok_or("filled")?;
    let arena = forest.arena();
    assert_eq!(rt; arena.entries(), 4);
    assert_eq!(rt; arena.element(2).left, Link::leaf(1));
    assert_eq!(rt; arena.element(1).leaf_p.number(), 4);
    assert!(rt; arena.element(1).node_p.is_none());
    assert_eq!(rt;
        order(rt.alloc(), arena, 0)?.as_slice(),
        [1, 2, 3].as_slice()
    );
    Ok(())
}

#[test]
fn deletes_the_second_of_four_equal_keys(rt: HostRuntime) -> Result<(), Fail> {
    let forest = filled_without::<Brand>(rt.alloc(), Blank::new(1), &FIVES, 1)?.ok_or("filled")?;
    let arena = forest.arena();
    assert_eq!(rt; arena.entries(), 4);
    assert!(rt; arena.element(1).node_p.is_none());
    assert_eq!(rt; arena.element(2).left.number(), 0);
    assert_eq!(rt;
        order(rt.alloc(), arena, 0)?.as_slice(),
        [0, 2, 3].as_slice()
    );
    Ok(())
}

#[test]
fn deletes_the_entry_of_the_top_node(rt: HostRuntime) -> Result<(), Fail> {
    let forest = filled_without::<Brand>(rt.alloc(), Blank::new(1), &FIVES, 2)?.ok_or("filled")?;
    let arena = forest.arena();
    assert_eq!(rt; (arena.entries(), arena.roots()), (4, 1));
    assert_eq!(rt; arena.root(0).number(), 7);
    let top = arena.element(3);
    assert_eq!(rt; top.bit, -2);
    assert_eq!(rt;
        (top.left.number(), top.right.number(), top.node_p.number()),
        (3, 6, 8)
    );
    assert_eq!(rt; arena.element(1).node_p.number(), 6);
    assert_eq!(rt; arena.element(3).leaf_p.number(), 7);
    assert_eq!(rt; forest.is_in(2), None);
    assert_eq!(rt;
        order(rt.alloc(), arena, 0)?.as_slice(),
        [0, 1, 3].as_slice()
    );
    Ok(())
}

#[test]
fn deletes_the_only_entry(rt: HostRuntime) -> Result<(), Fail> {
    let forest = filled_without::<Brand>(rt.alloc(), Blank::new(1), &[5], 0)?.ok_or("filled")?;
    let arena = forest.arena();
    assert_eq!(rt; arena.roots(), 1);
    assert!(rt; arena.root(0).is_none());
    assert_eq!(rt; forest.is_in(0), None);
    Ok(())
}

#[test]
fn keeps_eight_equal_keys_in_order_of_insertion(rt: HostRuntime) -> Result<(), Fail> {
    let forest = filled::<Brand>(rt.alloc(), Blank::new(1), &[7; 8])?.ok_or("filled")?;
    assert_eq!(rt;
        order(rt.alloc(), forest.arena(), 0)?.as_slice(),
        [0, 1, 2, 3, 4, 5, 6, 7].as_slice()
    );
    Ok(())
}

/// What the calls of keyed lists answer; of an entry that stands in no root neither the next nor
/// the key is asked.
#[derive(Clone, Copy, Debug, PartialEq, Eq)]
struct Answers {
    first: Option<u32>,
    at_least: Option<u32>,
    root: Option<u32>,
    next: Option<u32>,
    key: Option<u32>,
}

/// Asks for all that keyed lists answer.
fn asked<K: KeyedLists>(lists: &K, root: u32, entry: u32, key: u32) -> Answers
    requires { root < length (K.seen lists.now).roots }
{
    let mut answers = Answers {
        first: lists.first(root),
        at_least: lists.lookup_ge(root, key),
        root: lists.root_of(entry),
        next: None,
        key: None,
    };
    if lists.root_of(entry).is_some() {
        answers.next = lists.next(entry);
        answers.key = Some(lists.key_of(entry));
    }
    answers
}

/// Puts an entry into a root, or takes it out where it stands in one.
fn toggle<K: KeyedLists>(lists: &mut K, root: u32, entry: u32, key: u32)
    requires root { root < length (K.seen lists.old).roots }
    requires entry { entry < (K.seen lists.old).entries }
    requires room { (root_at root (K.seen lists.old)).insertions + 1 < 2 ^ 63 }
    ensures roots { length (K.seen lists.new).roots ≡ length (K.seen lists.old).roots }
    ensures entries { (K.seen lists.new).entries ≡ (K.seen lists.old).entries }
    ensures insertions { (r : ℕ) → (root_at r (K.seen lists.new)).insertions ≤ (root_at r (K.seen lists.old)).insertions + 1 }
{
    if lists.root_of(entry).is_some() {
        lists.delete(entry);
    } else {
        lists.insert(root, entry, key);
    }
}

/// The same for rows of a root, an entry and a key.
fn toggle_all(forest: &mut Forest, rows: &[(u32, u32, u32)]) {
    for (root, entry, key) in rows {
        let arena = forest.arena();
        if *root >= arena.roots() || *entry >= arena.entries() {
            return;
        }
        if forest.insertions(*root) >= 1 << 62 {
            return;
        }
        toggle(forest, *root, *entry, *key);
    }
}

/// The next of a row of numbers that looks random.
fn shuffled(number: u64) -> u64 {
    let mut next = number;
    next ^= next << 13;
    next ^= next >> 7;
    next ^= next << 17;
    next
}

/// What two roots over 128 entries answer in so many rounds, each of which puts an entry in or
/// takes it out. The keys are below a bound.
fn history<K: KeyedLists>(
    alloc: Global,
    lists: &mut K,
    rounds: u32,
    bound: u32,
) -> Result<Vec<Answers>, AllocError>
    requires bound { 0 < bound }
    requires roots { length (K.seen lists.old).roots ≡ 2 }
    requires entries { (K.seen lists.old).entries ≡ 128 }
    requires insertions { (r : ℕ) → (root_at r (K.seen lists.old)).insertions ≤ 0 }
{
    let mut answers = Vec::new(alloc);
    let mut number = 88172645463325252u64;
    for _ in 0..rounds {
        number = shuffled(number);
        let root = (number % 2) as u32;
        let entry = (number / 2 % 128) as u32;
        let other = (number / 256 % 128) as u32;
        let key = (number / 32768 % 4294967296) as u32 % bound;
        toggle(lists, root, entry, key);
        answers.push(asked(lists, root, other, key))?;
    }
    Ok(answers)
}

#[test]
fn keeps_two_roots_apart(rt: HostRuntime) -> Result<(), Fail> {
    let mut forest = Forest::new(rt.alloc(), 2, 6)?;
    let rows = [
        (0, 0, 7),
        (1, 1, 3),
        (0, 2, 7),
        (1, 3, 9),
        (0, 4, 1),
        (1, 1, 3),
    ];
    toggle_all(&mut forest, rows.as_slice());
    assert_eq!(rt; forest.arena().roots(), 2);
    for (root, entries) in [(0, [4, 0, 2].as_slice()), (1, [3].as_slice())] {
        assert_eq!(rt;
            order(rt.alloc(), forest.arena(), root)?.as_slice(),
            entries
        );
    }
    let of_four = Answers {
        first: Some(3),
        at_least: Some(3),
        root: Some(0),
        next: Some(0),
        key: Some(1),
    };
    assert_eq!(rt; asked(&forest, 1, 4, 9), of_four);
    for entry in [1, 5, 6] {
        assert_eq!(rt; forest.is_in(entry), None);
    }
    Ok(())
}

#[test]
fn answers_as_plain_lists_do(rt: HostRuntime) -> Result<(), Fail> {
    for bound in [5, u32::MAX] {
        let mut forest = Forest::new(rt.alloc(), 2, 128)?;
        let mut plain = PlainLists::new(rt.alloc(), 2, 128)?;
        let left = history(rt.alloc(), &mut forest, 50000, bound)?;
        let right = history(rt.alloc(), &mut plain, 50000, bound)?;
        assert_eq!(rt; left.len(), 50000);
        assert!(rt; left == right);
    }
    Ok(())
}

/// The elements of an arena.
fn elements(alloc: Global, arena: &Arena) -> Result<Vec<Element>, AllocError> {
    let mut elements = Vec::new(alloc);
    for index in 0..arena.entries() {
        elements.push(arena.element(index))?;
    }
    Ok(elements)
}

/// How many elements are other than they were, and brings these up to date.
fn renewed(arena: &Arena, before: &mut [Element]) -> u32 {
    let mut changed = 0u32;
    for index in 0..arena.entries() {
        let now = arena.element(index);
        if (index as usize) < before.len() && before[index as usize] != now {
            before[index as usize] = now;
            changed = changed.saturating_add(1);
        }
    }
    changed
}

/// Puts entries into root 0 under key 7, or takes them out. Whether each time the right spine has at
/// most 10 nodes, and at most so many elements changed.
fn are_brief(forest: &mut Forest, before: &mut [Element], entries: &[u32], most: u32) -> bool {
    let mut brief = true;
    for entry in entries {
        toggle_all(forest, &[(0, *entry, 7)]);
        let changed = renewed(forest.arena(), before);
        brief = brief && changed <= most && spine_nodes(forest.arena()) <= 10;
    }
    brief
}

#[test]
fn half_of_many_equal_keys_go_and_come_back(rt: HostRuntime) -> Result<(), Fail> {
    let alloc = rt.alloc();
    let mut forest = Forest::new(alloc, 1, 1024)?;
    let mut before = elements(alloc, forest.arena())?;
    let mut all = Vec::new(alloc);
    let mut even = Vec::new(alloc);
    let mut wanted = Vec::new(alloc);
    for half in 0..512 {
        all.push(half)?;
        even.push(2 * half)?;
        wanted.push(2 * half + 1)?;
    }
    for half in 0..512 {
        all.push(512 + half)?;
        wanted.push(2 * half)?;
    }
    assert!(rt; are_brief(&mut forest, before.as_mut_slice(), all.as_slice(), 3));
    assert!(rt; are_brief(&mut forest, before.as_mut_slice(), even.as_slice(), 8));
    assert!(rt; are_brief(&mut forest, before.as_mut_slice(), even.as_slice(), 3));
    assert_eq!(rt;
        order(alloc, forest.arena(), 0)?.as_slice(),
        wanted.as_slice()
    );
    Ok(())
}
