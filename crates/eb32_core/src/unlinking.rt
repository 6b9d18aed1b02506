//! Taking a leaf out of a tree, with the node above it.

ghost use Rattle.std.specs.Prelude.{◌≡◌, ◌+◌, ◌<◌, ◌==◌, ◌||◌, length};
ghost use Rattle.eb_arena.specs.Links.{is_nowhere, place_index};
ghost use Rattle.eb_arena.specs.Parts.{element_at};
ghost use Rattle.eb_arena.specs.Shape.{HasShape};
ghost use Rattle.eb32_walk.specs.Ends.{IsIn};
ghost use Rattle.eb_dups.specs.Cost.{ChangesFew};
ghost use Rattle.eb32_core.specs.Removal.{Unlinks};

use eb_arena::{Arena, Link, Up};
use sched_base::Steps;
use std::sync::ledger::Ledger;

/// Takes the leaf of an entry that has a node above it out of its tree, and this node too: the
/// other side of the node takes its place. Answers the index of the freed node. One step is one
/// element that is visited beside that of the entry: the node above it, the node's other side, and
/// what is above the node.
pub(crate) fn unlink<L: Ledger>(arena: &mut Arena, entry: u32, steps: &mut Steps<L>) -> u32
    requires shape { HasShape arena.old }
    requires in_tree { IsIn arena.old entry }
    requires below_node { place_index (element_at arena.old entry).leaf_p < length arena.old.elements }
    ensures exists { result < length arena.old.elements }
    ensures unlinks { Unlinks arena.old arena.new entry result }
    ensures own { is_nowhere (element_at arena.new entry).node_p ≡ (is_nowhere (element_at arena.old entry).node_p || (place_index (element_at arena.old entry).leaf_p == entry)) }
    ensures few { ChangesFew 4 entry arena.old arena.new }
    ensures visits { steps.new ≡ steps.old + 3 }
{
    let up = arena.element(entry).leaf_p;
    steps.tick();
    let freed = up.index();
    let sibling = arena.beside(up);
    let above = arena.above(up);
    arena.hang(Link::leaf(entry), Up::NONE);
    arena.hang(Link::node(freed), Up::NONE);
    steps.tick();
    arena.hang(sibling, above);
    steps.tick();
    arena.put_link(above, sibling);
    freed
}
