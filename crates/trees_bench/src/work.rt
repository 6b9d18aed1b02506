//! The work that is timed, over root 0 of a forest.

ghost use Rattle.std.specs.Prelude.{◌≡◌, ◌+◌, ◌^◌, ◌<◌, length, slice_index, IfSome};
ghost use Rattle.eb_arena.specs.Shape.{HasShape};
ghost use Rattle.eb32_walk.specs.Ends.{IsIn};
ghost use Rattle.trees_bench.specs.Filled.{HasOneRoot, AllFree, AllPlaced, Grows};

use eb_arena::Arena;
use eb32_core::Forest;
use eb32_core::laws::trees_stand_in_roots;
use eb32_walk::{first, lookup_ge, next};
use sched_base::Steps;
use std::sync::ledger::Ledger;

/// A linear congruential generator of 64 bits, of which the upper half is drawn.
#[derive(Drop)]
pub(crate) struct Draws {
    state: u64,
}

impl Draws {
    /// The draws of every round.
    pub(crate) fn new() -> Draws {
        Draws { state: 42 }
    }

    /// The next number.
    fn draw(&mut self) -> u32 {
        self.state = self
            .state
            .wrapping_mul(6364136223846793005)
            .wrapping_add(1442695040888963407);
        (self.state >> 32) as u32
    }
}

/// Each root of a forest has its count of insertions. This does nothing: its contract is the law.
fn roots_are_counted(forest: &Forest)
    ensures { length forest.now.made ≡ length forest.now.parts.links }
{
    let _arena = forest.arena();
}

/// Inserts all entries under drawn keys.
pub(crate) fn fill<L: Ledger>(
    forest: &mut Forest,
    mask: u32,
    draws: &mut Draws,
    steps: &mut Steps<L>,
)
    requires root { HasOneRoot forest.old }
    requires free { AllFree forest.old }
    requires room { slice_index forest.old.made 0 + length forest.old.parts.elements < 2 ^ 63 }
    ensures placed { AllPlaced forest.new }
    ensures grows { Grows (length forest.old.parts.elements) forest.old forest.new }
{
    for entry in 0..forest.arena().entries() {
        let key = draws.draw() & mask;
        roots_are_counted(forest);
        forest.insert(0, entry, key, steps);
    }
}

/// Goes over all entries and adds their keys up.
pub(crate) fn walk(arena: &Arena) -> u32
    requires shape { HasShape arena.now }
    requires root { 0 < length arena.now.links }
{
    let mut sum = 0u32;
    let mut at = first(arena, 0);
    for _ in 0..arena.entries() {
        let Some(entry) = at else {
            return sum;
        };
        sum = sum.wrapping_add(arena.element(entry).key);
        at = next(arena, entry);
    }
    sum
}

/// Looks drawn keys up, once for each entry, and adds up the keys that are found.
pub(crate) fn look_up(arena: &Arena, mask: u32, draws: &mut Draws) -> u32
    requires shape { HasShape arena.now }
    requires root { 0 < length arena.now.links }
{
    let mut sum = 0u32;
    for _ in 0..arena.entries() {
        if let Some(entry) = lookup_ge(arena, 0, draws.draw() & mask) {
            sum = sum.wrapping_add(arena.element(entry).key);
        }
    }
    sum
}

/// The first entry with at least this key, or else the first of all.
fn at_or_after(arena: &Arena, key: u32) -> Option<u32>
    requires shape { HasShape arena.now }
    requires root { 0 < length arena.now.links }
    ensures { IfSome result (IsIn arena.now) }
{
    match lookup_ge(arena, 0, key) {
        Some(entry) => Some(entry),
        None => first(arena, 0),
    }
}

/// Like timers: takes the first entry at or after a moving point, and puts it back a little later,
/// once for each entry.
pub(crate) fn churn<L: Ledger>(
    forest: &mut Forest,
    mask: u32,
    draws: &mut Draws,
    steps: &mut Steps<L>,
)
    requires root { HasOneRoot forest.old }
    requires placed { AllPlaced forest.old }
    requires room { slice_index forest.old.made 0 + length forest.old.parts.elements < 2 ^ 63 }
    ensures placed { AllPlaced forest.new }
    ensures grows { Grows (length forest.old.parts.elements) forest.old forest.new }
{
    let mut point = 0u32;
    for _ in 0..forest.arena().entries() {
        let Some(entry) = at_or_after(forest.arena(), point & mask) else {
            return;
        };
        point = forest.arena().element(entry).key;
        trees_stand_in_roots(forest, entry);
        forest.delete(entry, steps);
        let later = point.wrapping_add(draws.draw() & 0xffff) & mask;
        roots_are_counted(forest);
        forest.insert(0, entry, later, steps);
    }
}

/// Deletes all entries in the order of their numbers.
pub(crate) fn clear<L: Ledger>(forest: &mut Forest, steps: &mut Steps<L>)
    requires root { HasOneRoot forest.old }
    requires placed { AllPlaced forest.old }
    ensures free { AllFree forest.new }
    ensures grows { Grows 0 forest.old forest.new }
{
    for entry in 0..forest.arena().entries() {
        forest.delete(entry, steps);
    }
}
