//! Where everything stands in a picture, in pixels.

ghost use Rattle.std.specs.Prelude.{◌≡◌};
ghost use Rattle.run_picture.specs.Drawing.{top_of};

use crate::bars::Spot;
use crate::columns::Board;
use std::alloc::{AllocError, Global};

/// The width of the names of the lanes.
pub(crate) const LEFT: u64 = 92;

/// From the top to the first lane.
pub(crate) const TOP: u64 = 96;

/// From one lane to the next.
pub(crate) const LANE: u64 = 68;

/// The height of a bar.
pub(crate) const BAR: u64 = 38;

/// The width that the number and the tick of a round need.
const ROUND_LABEL: u64 = 104;

/// The room between the bars of one round and those of the next.
const GAP: u64 = 12;

/// The least width of a picture, for its legend.
const LEAST_WIDTH: u64 = 860;

/// Where each round begins, and how wide an entry is.
#[derive(Debug, Drop)]
pub(crate) struct Layout {
    /// The width of an entry.
    pub unit: u64,
    /// The number of the first round.
    pub first: u32,
    /// Where each round begins, and where the last one ends.
    pub edges: Vec<u64>,
    /// The end of the last round.
    pub right: u64,
    pub width: u64,
    /// The bottom of the last lane.
    pub bottom: u64,
}

/// The top of a lane's bars.
pub(crate) fn top_of(lane: u32) -> u64
    ensures { result ≡ top_of lane }
{
    TOP + LANE * u64::from(lane)
}

/// The width of an entry, where all rounds together have so many.
fn unit_of(entries: u64) -> u64 {
    (12_000 / entries.max(1)).clamp(2, 34)
}

impl Layout {
    /// The layout of a board.
    pub fn of(alloc: Global, board: &Board) -> Result<Layout, AllocError> {
        let mut entries: u64 = 0;
        for column in board.columns.as_slice() {
            entries = entries.saturating_add(column.entries);
        }
        let unit = unit_of(entries);
        let least = if board.columns.len() <= 100 {
            ROUND_LABEL
        } else {
            GAP
        };
        let mut edges = Vec::with_capacity(alloc, board.columns.len())?;
        let mut right = LEFT;
        for column in board.columns.as_slice() {
            edges.push(right)?;
            let width = unit.saturating_mul(column.entries).saturating_add(GAP);
            right = right.saturating_add(width.max(least));
        }
        let first = match board.columns.as_slice() {
            [first, ..] => first.round,
            [] => 0,
        };
        Ok(Layout {
            unit,
            first,
            edges,
            right,
            width: right.saturating_add(80).max(LEAST_WIDTH),
            bottom: LANE
                .saturating_mul(u64::from(board.lanes))
                .saturating_add(TOP),
        })
    }

    /// The left edge of an entry.
    pub fn left_of(&self, spot: &Spot) -> u64 {
        let place = spot.round.saturating_sub(self.first) as usize;
        let edge = match self.edges.get(place) {
            Some(edge) => *edge,
            None => self.right,
        };
        edge.saturating_add(self.unit.saturating_mul(spot.slot))
            .saturating_add(GAP / 2)
    }
}
