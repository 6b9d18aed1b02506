//! A table of places in logs.

ghost use Rattle.std.specs.Prelude.{◌≡◌, ℕ, ◌*◌, ◌^◌, ◌<◌, ◌&&◌, ◌==◌, if◌then◌else◌, IfOk};
ghost use Rattle.history_weave.specs.Places.{place_at, none};

use std::alloc::{AllocError, Global};
use std::marker::Model;

/// The place that stands where a log has no such entry.
pub(crate) const NONE: usize = usize::MAX;

/// A table of places, with the same number of columns in each row.
#[derive(Drop)]
pub(crate) struct Places {
    rows: usize,
    columns: usize,
    cells: Vec<usize>,
}

impl Model for Places {
    ghost use Rattle.std.specs.Prelude.{◌≡◌, ◌*◌, length};
    ghost use Rattle.history_weave.specs.Places.{PlaceTable};

    ghost Value = { PlaceTable };

    ghost view = { λ t. record { rows = t.rows; columns = t.columns; cells = t.cells.items } };

    ghost invariant = { λ t. length t.cells.items ≡ t.rows * t.columns };
}

impl Places {
    /// A table in which no place stands.
    pub fn new(alloc: Global, rows: usize, columns: usize) -> Result<Places, AllocError>
        requires { rows * columns < 2 ^ 64 }
        ensures rows { IfOk result (λ t. t.rows ≡ rows) }
        ensures columns { IfOk result (λ t. t.columns ≡ columns) }
        ensures empty { IfOk result (λ t. (r c : ℕ) → r < rows → c < columns → place_at t r c ≡ none) }
    {
        let mut cells = Vec::new(alloc);
        cells.resize(rows * columns, NONE)?;
        Ok(Places {
            rows,
            columns,
            cells,
        })
    }

    /// The place in a cell.
    pub fn at(&self, row: usize, column: usize) -> usize
        requires row { row < self.now.rows }
        requires column { column < self.now.columns }
        ensures { result ≡ place_at self.now row column }
    {
        self.cells[row * self.columns + column]
    }

    /// Puts a place into a cell.
    pub fn set(&mut self, row: usize, column: usize, place: usize)
        requires row { row < self.old.rows }
        requires column { column < self.old.columns }
        ensures rows { self.new.rows ≡ self.old.rows }
        ensures columns { self.new.columns ≡ self.old.columns }
        ensures same { place_at self.new row column ≡ place }
        ensures others { (r c : ℕ) → r < self.old.rows → c < self.old.columns → (r ≡ row → c ≡ column → ⊥) → place_at self.new r c ≡ place_at self.old r c }
    {
        let cell = row * self.columns + column;
        self.cells[cell] = place;
    }
}
