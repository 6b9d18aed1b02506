//! Keyed lists as plain as can be, as a yardstick for others.

ghost use Rattle.std.specs.Prelude.{◌≡◌, ◌<◌, ◌==◌, ◌&&◌, length, nat_le, nat_lt, replicate, find, IfOk};
ghost use Rattle.std.specs.Option.{option_map};
ghost use Rattle.std.specs.List.{position};
ghost use Rattle.sched_base.specs.KeyedList.{KeyedRoots, blank, root_at};

use crate::keyed_lists::KeyedLists;
use std::alloc::{AllocError, Global};
use std::marker::Model;

/// One entry that stands in a root, and the key under which it stands.
#[derive(Clone, Copy, Debug)]
struct Row {
    root: u32,
    key: u32,
    entry: u32,
}

/// Keyed lists in one vector of rows, which is reserved once. The rows of a root stand in the order
/// of its list. Each call takes time linear in the number of rows.
#[derive(Drop)]
pub struct PlainLists {
    rows: Vec<Row>,
    insertions: Vec<u64>,
    entries: u32,
}

impl Model for PlainLists {
    ghost use Rattle.std.specs.Prelude.{◌≤◌, length, vec_capacity};
    ghost use Rattle.sched_base.specs.KeyedList.{KeyedRoots};

    ghost Value = { KeyedRoots };

    ghost use Rattle.sched_base.specs.PlainRows.{lists_from, AreSound};

    ghost view = { λ p. record { roots = lists_from 0 p.rows.items p.insertions.items; entries = p.entries } };

    ghost invariant = { λ p. (AreSound (length p.insertions.items) p.entries p.rows.items) × (p.entries ≤ vec_capacity p.rows) };
}

impl PlainLists {
    /// Empty lists for these numbers of roots and entries.
    pub fn new(alloc: Global, roots: u32, entries: u32) -> Result<PlainLists, AllocError>
        ensures { IfOk result (λ lists. lists ≡ record { roots = replicate roots blank; entries = entries }) }
    {
        let rows = Vec::with_capacity(alloc, entries as usize)?;
        let mut insertions = Vec::with_capacity(alloc, roots as usize)?;
        insertions.resize(roots as usize, 0)?;
        Ok(PlainLists {
            rows,
            insertions,
            entries,
        })
    }

    /// How many insertions were made into a root so far.
    pub fn insertions(&self, root: u32) -> u64
        requires { root < length self.now.roots }
        ensures { result ≡ (root_at root self.now).insertions }
    {
        self.insertions[root as usize]
    }
}

/// The entry of the first row of a root.
fn first_entry(rows: &[Row], root: u32) -> Option<u32>
    ensures { result ≡ option_map (λ y. y.entry) (find (λ y. y.root == root) rows.now) }
{
    rows.iter()
        .find(|row| row.root == root)
        .map(|row| row.entry)
}

/// The entry of the first row of a root whose key is at least this one.
fn first_entry_from(rows: &[Row], root: u32, key: u32) -> Option<u32>
    ensures { result ≡ option_map (λ y. y.entry) (find (λ y. y.root == root && nat_le key y.key) rows.now) }
{
    rows.iter()
        .find(|row| row.root == root && row.key >= key)
        .map(|row| row.entry)
}

/// The row of an entry.
fn row_of(rows: &[Row], entry: u32) -> Option<Row>
    ensures { result ≡ find (λ y. y.entry == entry) rows.now }
{
    rows.iter().copied().find(|row| row.entry == entry)
}

/// The root in the row of an entry.
fn root_in(rows: &[Row], entry: u32) -> Option<u32>
    ensures { result ≡ option_map (λ y. y.root) (find (λ y. y.entry == entry) rows.now) }
{
    rows.iter()
        .find(|row| row.entry == entry)
        .map(|row| row.root)
}

/// Where the row of an entry stands.
fn place_of(rows: &[Row], entry: u32) -> Option<usize>
    ensures { result ≡ position (λ y. y.entry == entry) rows.now }
{
    rows.iter().position(|row| row.entry == entry)
}

/// Where the first row of a root stands whose key is above this one.
fn place_above(rows: &[Row], root: u32, key: u32) -> Option<usize>
    ensures { result ≡ position (λ y. y.root == root && nat_lt key y.key) rows.now }
{
    rows.iter()
        .position(|row| row.root == root && row.key > key)
}

impl KeyedLists for PlainLists {
    ghost seen = { λ p. p };

    fn stay_keyed(&self) {
        let _ = &self.rows;
    }

    fn insert(&mut self, root: u32, entry: u32, key: u32) {
        let above = place_above(self.rows.as_slice(), root, key);
        let place = above.unwrap_or(self.rows.len());
        let row = Row { root, key, entry };
        self.rows.insert(place, row).unwrap();
        self.insertions[root as usize] += 1;
    }

    fn delete(&mut self, entry: u32) {
        let place = place_of(self.rows.as_slice(), entry).unwrap();
        self.rows.remove(place);
    }

    fn first(&self, root: u32) -> Option<u32> {
        first_entry(self.rows.as_slice(), root)
    }

    fn next(&self, entry: u32) -> Option<u32> {
        let place = place_of(self.rows.as_slice(), entry).unwrap();
        let root = self.rows[place].root;
        first_entry(&self.rows[place + 1..], root)
    }

    fn lookup_ge(&self, root: u32, key: u32) -> Option<u32> {
        first_entry_from(self.rows.as_slice(), root, key)
    }

    fn root_of(&self, entry: u32) -> Option<u32> {
        root_in(self.rows.as_slice(), entry)
    }

    fn key_of(&self, entry: u32) -> u32 {
        row_of(self.rows.as_slice(), entry).unwrap().key
    }
}
