//! An entry leaves the tree of its root.

ghost use Rattle.std.specs.Prelude.{◌≡◌, ◌+◌, ◌≤◌, length};
ghost use Rattle.eb_arena.specs.Links.{place_index};
ghost use Rattle.eb_arena.specs.Parts.{element_at};
ghost use Rattle.eb_arena.specs.Shape.{HasShape};
ghost use Rattle.eb32_walk.specs.Ends.{IsIn};
ghost use Rattle.eb_dups.specs.Cost.{ChangesFew};
ghost use Rattle.eb32_core.specs.Removal.{Uproots, visits_of};

use crate::replacing::replace;
use crate::unlinking::unlink;
use eb_arena::{Arena, Link, Up};
use sched_base::Steps;
use std::sync::ledger::Ledger;

/// Takes the only entry out of its root.
fn clear(arena: &mut Arena, entry: u32)
    requires shape { HasShape arena.old }
    requires in_tree { IsIn arena.old entry }
    requires alone { length arena.old.elements ≤ place_index (element_at arena.old entry).leaf_p }
    ensures uproots { Uproots arena.old arena.new entry }
    ensures few { ChangesFew 2 entry arena.old arena.new }
{
    let up = arena.element(entry).leaf_p;
    arena.hang(Link::leaf(entry), Up::NONE);
    arena.put_link(up, Link::NONE);
}

/// Takes an entry out of its root. It starts at the entry, and changes a number of elements that
/// does not depend on how many there are. The node above the entry's leaf is free afterwards, and so
/// is the entry's own: where that was still used, the other takes its place. One step is one element
/// that is visited: that of the entry once, and then those that `unlink` and `replace` visit.
// Inlined at once, as `Forest::delete` is.
#[inline(always)]
pub fn uproot<L: Ledger>(arena: &mut Arena, entry: u32, steps: &mut Steps<L>)
    requires shape { HasShape arena.old }
    requires in_tree { IsIn arena.old entry }
    ensures uproots { Uproots arena.old arena.new entry }
    ensures few { ChangesFew 8 entry arena.old arena.new }
    ensures visits { steps.new ≡ steps.old + visits_of arena.old entry }
{
    steps.tick();
    if arena.element(entry).leaf_p.index() >= arena.entries() {
        clear(arena, entry);
        return;
    }
    let freed = unlink(arena, entry, steps);
    if !arena.element(entry).node_p.is_none() {
        replace(arena, entry, freed, steps);
    }
}
