//! Equal keys: where the node of one more goes in.

ghost use Rattle.std.specs.Prelude.{◌≡◌, ◌+◌, ◌<◌, ℤ, negsuc, length};
ghost use Rattle.eb_arena.specs.Parts.{element_at};
ghost use Rattle.eb_arena.specs.declared.links.Place.TheVariants as places;
ghost use Rattle.eb_dups.specs.Spine.{KeyHead, MayRise, IsTwinTree, IsSlot, depth_of};
ghost use Rattle.eb_dups.specs.Added.{AddsTwin, HasHeadAfter, VisitsSpine};
ghost use Rattle.eb_dups.specs.Cost.{ChangesFew};

use crate::grow::attach;
use eb_arena::{Arena, Link, Side};
use sched_base::Steps;
use std::sync::ledger::Ledger;

/// A part of a right spine, and its depth.
#[derive(Clone, Copy)]
struct Slot {
    part: Link,
    depth: u32,
}

/// Visits an element of a right spine: minus the bit of the node; 0 for a leaf.
fn visit<L: Ledger>(arena: &Arena, part: Link, steps: &mut Steps<L>) -> u32
    requires { IsTwinTree arena.now part }
    ensures depth { result ≡ depth_of arena.now part }
    ensures step { steps.new ≡ steps.old + 1 }
{
    steps.tick();
    if part.is_leaf() {
        return 0;
    }
    -i32::from(arena.element(part.index()).bit) as u32
}

/// The bit of a node just above one of this depth.
fn bit_above(depth: u32) -> i16
    requires { depth < 32768 }
    ensures { result ≡ negsuc depth }
{
    -1 - depth as i16
}

/// The lowest part of a right spine above which there is room for a node, since below it each
/// depth is taken. One step is one element of the spine that is visited.
fn slot_below<L: Ledger>(arena: &Arena, head: Link, steps: &mut Steps<L>) -> Slot
    requires { IsTwinTree arena.now head }
    ensures slot { IsSlot arena.now head result.part }
    ensures depth { result.depth ≡ depth_of arena.now result.part }
    ensures steps { VisitsSpine arena.now head steps.old steps.new }
{
    let mut here = head;
    let mut depth = visit(arena, head, steps);
    let mut slot = Slot { part: head, depth };
    while !here.is_leaf() {
        let down = arena.child(here, Side::Right);
        let below = visit(arena, down, steps);
        if below + 1 < depth {
            slot = Slot {
                part: down,
                depth: below,
            };
        }
        depth = below;
        here = down;
    }
    slot
}

/// Puts an entry at the end of all entries of its key, with the entry's own node. The head is the
/// leaf or the node above all of that key, the entry is in no tree and has the key, and the spine
/// value of the head is below 2^63 - 1. One step is one element of the right spine that is visited.
pub fn insert_dup<L: Ledger>(arena: &mut Arena, head: Link, entry: u32, steps: &mut Steps<L>)
    requires head { KeyHead arena.old head (element_at arena.old entry).key }
    requires room { MayRise arena.old head }
    requires exists { entry < length arena.old.elements }
    requires free { (element_at arena.old entry).leaf_p ≡ places.Nowhere }
    ensures adds { AddsTwin arena.old arena.new head entry }
    ensures head { HasHeadAfter arena.old arena.new head entry }
    ensures few { ChangesFew 3 entry arena.old arena.new }
    ensures steps { VisitsSpine arena.old head steps.old steps.new }
{
    let slot = slot_below(arena, head, steps);
    let bit = bit_above(slot.depth);
    attach(arena, slot.part, entry, Side::Right, bit);
}
