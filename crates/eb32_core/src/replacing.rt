//! One node of a tree in the place of another.

ghost use Rattle.std.specs.Prelude.{◌≡◌, ◌≢◌, ◌+◌};
ghost use Rattle.eb_arena.specs.Parts.{element_at};
ghost use Rattle.eb_arena.specs.declared.links.Place.TheVariants as places;
ghost use Rattle.eb_dups.specs.Cost.{ChangesFew};
ghost use Rattle.eb32_core.specs.Removal.{MayReplace, Replaces};

use eb_arena::{Arena, Link, Side, Up};
use sched_base::Steps;
use std::sync::ledger::Ledger;

/// Puts the unused node of the heir in the place of the node of an entry that was taken out, which
/// is free afterwards. One step is one element that is visited beside that of the entry: both sides
/// of its node, the heir, and what is above the node.
pub(crate) fn replace<L: Ledger>(arena: &mut Arena, entry: u32, heir: u32, steps: &mut Steps<L>)
    requires may { MayReplace arena.old entry heir }
    requires used { (element_at arena.old entry).node_p ≢ places.Nowhere }
    ensures replaces { Replaces arena.old arena.new entry heir }
    ensures few { ChangesFew 5 entry arena.old arena.new }
    ensures visits { steps.new ≡ steps.old + 4 }
{
    let node = arena.element(entry);
    steps.tick();
    arena.hang(node.left, Up::new(heir, Side::Left));
    steps.tick();
    arena.hang(node.right, Up::new(heir, Side::Right));
    arena.hang(Link::node(entry), Up::NONE);
    let mut element = node;
    steps.tick();
    let own = arena.element(heir);
    element.leaf_p = own.leaf_p;
    element.key = own.key;
    arena.set_same_key(heir, element);
    steps.tick();
    arena.put_link(node.node_p, Link::node(heir));
}
