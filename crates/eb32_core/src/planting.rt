//! A new entry in the tree of a root.

ghost use Rattle.std.specs.Prelude.{◌≡◌, ◌≢◌, ◌<◌, length};
ghost use Rattle.eb_arena.specs.Parts.{element_at, link_at};
ghost use Rattle.eb_arena.specs.Shape.{HasShape};
ghost use Rattle.eb_arena.specs.declared.links.Target.TheVariants as targets;
ghost use Rattle.eb_arena.specs.declared.links.Place.TheVariants as places;
ghost use Rattle.eb32_walk.specs.Search.{own_key};
ghost use Rattle.eb_dups.specs.Cost.{ChangesFew};
ghost use Rattle.eb32_core.specs.Landing.{IsLanding};
ghost use Rattle.eb32_core.specs.Planted.{IsRoomy, Plants, Visits};

use crate::branching::{side_of, top_bit};
use eb_arena::{Arena, Link, Side, Up};
use eb_dups::{attach, insert_dup};
use eb32_walk::descend;
use sched_base::Steps;
use std::sync::ledger::Ledger;

/// Puts the first entry into a root.
fn plant_first(arena: &mut Arena, root: u32, entry: u32)
    requires shape { HasShape arena.old }
    requires root_exists { root < length arena.old.links }
    requires entry_exists { entry < length arena.old.elements }
    requires empty { link_at arena.old root ≡ targets.Nothing }
    requires free { (element_at arena.old entry).leaf_p ≡ places.Nowhere }
    ensures plants { Plants arena.old arena.new root entry }
    ensures few { ChangesFew 1 entry arena.old arena.new }
{
    let leaf = Link::leaf(entry);
    let up = Up::new(arena.entries() + root, Side::Left);
    arena.hang(leaf, up);
    arena.set_root(root, leaf);
}

/// Puts an entry of a new key in above the part from which the key branches off.
fn branch_off(arena: &mut Arena, root: u32, part: Link, entry: u32)
    requires shape { HasShape arena.old }
    requires root_exists { root < length arena.old.links }
    requires entry_exists { entry < length arena.old.elements }
    requires lands { IsLanding arena.old root (element_at arena.old entry).key part }
    requires differs { own_key arena.old part ≢ (element_at arena.old entry).key }
    requires free { (element_at arena.old entry).leaf_p ≡ places.Nowhere }
    ensures plants { Plants arena.old arena.new root entry }
    ensures few { ChangesFew 3 entry arena.old arena.new }
{
    let own = arena.element(part.index()).key;
    let key = arena.element(entry).key;
    attach(
        arena,
        part,
        entry,
        side_of(own, key),
        top_bit(own, key) as i16,
    );
}

/// Puts an entry into a root, behind all items of at most its key, with the entry's own node. One
/// step is one element that is visited: those on the way down to where the key stands or branches
/// off, and then those of the right spine of the key.
// Inlined at once, as `Forest::insert` is.
#[inline(always)]
pub fn plant<L: Ledger>(arena: &mut Arena, root: u32, entry: u32, steps: &mut Steps<L>)
    requires roomy { IsRoomy arena.old root }
    requires root_exists { root < length arena.old.links }
    requires entry_exists { entry < length arena.old.elements }
    requires free { (element_at arena.old entry).leaf_p ≡ places.Nowhere }
    ensures plants { Plants arena.old arena.new root entry }
    ensures few { ChangesFew 3 entry arena.old arena.new }
    ensures visits { Visits arena.old root (element_at arena.old entry).key steps.old steps.new }
{
    let key = arena.element(entry).key;
    let Some(part) = descend(arena, root, key, steps) else {
        plant_first(arena, root, entry);
        return;
    };
    if arena.element(part.index()).key == key {
        insert_dup(arena, part, entry, steps);
        return;
    }
    branch_off(arena, root, part, entry);
}
