//! The forest: ordered lists of entries in one arena.

ghost use Rattle.std.specs.Prelude.{◌≡◌, ◌≢◌, ℕ, ◌+◌, ◌^◌, ◌<◌, ◌≤◌, length, slice_index, replicate, IfNone, IfOk, IfSome};
ghost use Rattle.sched_base.specs.KeyedList.{blank, root_at, inserted_into, deleted_from, StandsIn, IsPlaced, IsFree, key_of_entry};
ghost use Rattle.eb_arena.specs.Parts.{unused, element_at};
ghost use Rattle.eb_arena.specs.declared.links.Place.TheVariants.{Nowhere};
ghost use Rattle.eb_arena.specs.Shape.{HasShape, list_of};
ghost use Rattle.eb_arena.specs.declared.links.Target.TheVariants as targets;
ghost use Rattle.eb_dups.specs.Cost.{ChangesFew};
ghost use Rattle.eb32_walk.specs.Ends.{IsIn};
ghost use Rattle.eb32_core.specs.Removal.{visits_of};
ghost use Rattle.eb32_core.specs.Forest.{AreShort, Gains, InTrees, IsBrief, Lost, seen_of};

use crate::planting::plant;
use crate::removal::uproot;
use crate::roots::root_above;
use eb_arena::Arena;
use sched_base::Steps;
use std::alloc::{AllocError, Global};
use std::marker::Model;
use std::sync::ledger::Ledger;

/// Ordered lists, one for each root, over the entries from 0 on, as trees in one arena. Contracts
/// see the arena and how many insertions were made into each root.
#[derive(Drop)]
pub struct Forest {
    arena: Arena,
    made: Vec<u64>,
}

impl Model for Forest {
    ghost use Rattle.eb32_core.specs.Forest.{Grove, IsTended};

    ghost Value = { Grove };

    ghost view = { λ f. record { parts = f.arena; made = f.made.items } };

    ghost invariant = { λ f. IsTended (record { parts = f.arena; made = f.made.items }) };
}

impl Forest {
    /// A forest of empty roots. Only here memory is taken. Roots and entries are fewer than
    /// 2,147,483,647 together.
    pub fn new(alloc: Global, roots: u32, entries: u32) -> Result<Forest, AllocError>
        requires { roots + entries < 2147483647 }
        ensures parts { IfOk result (λ f. f ≡ record { parts = record { elements = replicate entries unused; links = replicate roots targets.Nothing }; made = replicate roots 0 }) }
        ensures empty { IfOk result (λ f. seen_of f ≡ record { roots = replicate roots blank; entries = entries }) }
    {
        let arena = Arena::with_capacity(alloc, roots, entries)?;
        let made = vec![in alloc; 0u64; roots as usize]?;
        Ok(Forest { arena, made })
    }

    /// The arena, over which all walks go. The list of each of its roots is the keyed list of that
    /// root, and an entry that stands in a root is in a tree of the arena.
    pub fn arena(&self) -> &Arena
        ensures same { result.now ≡ self.now.parts }
        ensures shape { HasShape result.now }
        ensures counts { length self.now.made ≡ length self.now.parts.links }
        ensures roots { length (seen_of self.now).roots ≡ length result.now.links }
        ensures entries { (seen_of self.now).entries ≡ length result.now.elements }
        ensures lists { (root : ℕ) → root < length result.now.links → (root_at root (seen_of self.now)).items ≡ list_of result.now root }
        ensures placed { (entry : ℕ) → IsPlaced entry (seen_of self.now) → IsIn result.now entry }
        ensures exists { (root entry : ℕ) → StandsIn root entry (seen_of self.now) → entry < length result.now.elements }
        ensures hangs { (root entry : ℕ) → StandsIn root entry (seen_of self.now) → (element_at result.now entry).leaf_p ≢ Nowhere }
    {
        &self.arena
    }

    /// What holds of the spines of each forest.
    pub(crate) fn stay_short(&self)
        ensures { AreShort self.now }
    {
        let _ = &self.arena;
    }

    /// How many insertions were made into a root so far.
    pub fn insertions(&self, root: u32) -> u64
        requires { root < length self.now.parts.links }
        ensures made { result ≡ slice_index self.now.made root }
        ensures seen { result ≡ (root_at root (seen_of self.now)).insertions }
    {
        self.made[root as usize]
    }

    /// Puts an entry into a root, behind all items of at most its key, with the entry's own node. The
    /// entry is in no root, and the insertions so far into the root are below 2^63 - 1. One step is
    /// one element that is visited: at most 33 on the way down, and then at most 1 + k of the right
    /// spine of the key, where 2^k is at most one more than the insertions so far.
    // Inlined at once: among equal keys the call would be a good part of the time.
    #[inline(always)]
    pub fn insert<L: Ledger>(&mut self, root: u32, entry: u32, key: u32, steps: &mut Steps<L>)
        requires root_exists { root < length self.old.parts.links }
        requires entry_exists { entry < length self.old.parts.elements }
        requires free { IsFree entry (seen_of self.old) }
        requires room { slice_index self.old.made root + 1 < 2 ^ 63 }
        ensures inserts { seen_of self.new ≡ inserted_into root entry key (seen_of self.old) }
        ensures trees { InTrees self.old.parts self.new.parts (Gains (length self.old.parts.links) root entry key) }
        ensures few { ChangesFew 3 entry self.old.parts self.new.parts }
        ensures steps { IsBrief (slice_index self.old.made root) steps.old steps.new }
    {
        self.arena.set_key(entry, key);
        plant(&mut self.arena, root, entry, steps);
        self.made[root as usize] += 1;
    }

    /// Takes an entry out of its root, and frees the node above its leaf: where the entry's own node is
    /// still used, the freed one takes its place. One step is one element that is visited, at most 8.
    // Inlined at once, as `insert` is.
    #[inline(always)]
    pub fn delete<L: Ledger>(&mut self, entry: u32, steps: &mut Steps<L>)
        requires { IsPlaced entry (seen_of self.old) }
        ensures deletes { (root : ℕ) → StandsIn root entry (seen_of self.old) → seen_of self.new ≡ deleted_from root entry (seen_of self.old) }
        ensures trees { (root : ℕ) → StandsIn root entry (seen_of self.old) → InTrees self.old.parts self.new.parts (Lost (length self.old.parts.links) root entry) }
        ensures few { ChangesFew 8 entry self.old.parts self.new.parts }
        ensures visits { steps.new ≡ steps.old + visits_of self.old.parts entry }
        ensures steps { steps.new ≤ steps.old + 8 }
    {
        uproot(&mut self.arena, entry, steps);
    }

    /// The root in which an entry stands; none where it stands in none, or is no entry.
    pub fn is_in(&self, entry: u32) -> Option<u32>
        ensures found { IfSome result (λ root. StandsIn root entry (seen_of self.now)) }
        ensures one { (root : ℕ) → StandsIn root entry (seen_of self.now) → result ≡ Some root }
        ensures free { IfNone result (IsFree entry (seen_of self.now)) }
    {
        if entry >= self.arena.entries() || self.arena.element(entry).leaf_p.is_none() {
            return None;
        }
        Some(root_above(&self.arena, entry))
    }

    /// The key under which an entry stands.
    pub fn key_of(&self, entry: u32) -> u32
        requires { IsPlaced entry (seen_of self.now) }
        ensures { (root : ℕ) → StandsIn root entry (seen_of self.now) → key_of_entry entry (root_at root (seen_of self.now)).items ≡ Some result }
    {
        self.arena.element(entry).key
    }
}
