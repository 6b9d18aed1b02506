//! The forest as keyed lists.

ghost use Rattle.std.specs.Prelude.{◌≡◌, ℕ, ◌+◌, ◌^◌, ◌<◌, length, slice_index};
ghost use Rattle.sched_base.specs.KeyedList.{inserted_into, deleted_from, StandsIn, IsPlaced, IsFree};
ghost use Rattle.eb32_core.specs.Forest.{seen_of};

use crate::forest::Forest;
use eb32_walk::{first, lookup_ge, next};
use sched_base::{KeyedLists, Steps};
use std::marker::Brand;
use std::sync::ledger::{Blank, Ledger};

/// Puts an entry into a root, with a counter of its own.
fn put<L: Ledger>(forest: &mut Forest, root: u32, entry: u32, key: u32, blank: Blank)
    requires name { blank.name ≡ L.name }
    requires parts { blank.parts ≡ L.parts }
    requires some { 0 < L.parts }
    requires root_exists { root < length forest.old.parts.links }
    requires entry_exists { entry < length forest.old.parts.elements }
    requires free { IsFree entry (seen_of forest.old) }
    requires room { slice_index forest.old.made root + 1 < 2 ^ 63 }
    ensures { seen_of forest.new ≡ inserted_into root entry key (seen_of forest.old) }
{
    let mut steps = Steps::<L>::new(blank);
    forest.insert(root, entry, key, &mut steps);
}

/// Takes an entry out of its root, with a counter of its own.
fn take_out<L: Ledger>(forest: &mut Forest, entry: u32, blank: Blank)
    requires name { blank.name ≡ L.name }
    requires parts { blank.parts ≡ L.parts }
    requires some { 0 < L.parts }
    requires placed { IsPlaced entry (seen_of forest.old) }
    ensures { (root : ℕ) → StandsIn root entry (seen_of forest.old) → seen_of forest.new ≡ deleted_from root entry (seen_of forest.old) }
{
    let mut steps = Steps::<L>::new(blank);
    forest.delete(entry, &mut steps);
}

impl KeyedLists for Forest {
    ghost seen = { seen_of };

    fn stay_keyed(&self) {
        let _arena = self.arena();
    }

    fn insert(&mut self, root: u32, entry: u32, key: u32) {
        let roots = self.arena().roots();
        prove!(root < roots);
        put::<Brand>(self, root, entry, key, Blank::new(1));
    }

    fn delete(&mut self, entry: u32) {
        take_out::<Brand>(self, entry, Blank::new(1));
    }

    fn first(&self, root: u32) -> Option<u32> {
        first(self.arena(), root)
    }

    fn next(&self, entry: u32) -> Option<u32> {
        next(self.arena(), entry)
    }

    fn lookup_ge(&self, root: u32, key: u32) -> Option<u32> {
        lookup_ge(self.arena(), root, key)
    }

    fn root_of(&self, entry: u32) -> Option<u32> {
        self.is_in(entry)
    }

    fn key_of(&self, entry: u32) -> u32 {
        Forest::key_of(self, entry)
    }
}
