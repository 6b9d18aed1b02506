//! The rounds that a picture shows, and how much room each needs.

use crate::bars::Rounds;
use crate::steps::lane_of;
use sched_base::CallerId;
use std::alloc::{AllocError, Global};
use task_machine::Call;
use transcript::Line;

/// A round that is shown.
#[derive(Clone, Copy, Debug, PartialEq, Eq)]
pub struct Column {
    pub round: u32,
    /// Its tick in milliseconds.
    pub tick: u32,
    /// How many entries the lane has that has the most in it.
    pub entries: u64,
}

/// How a run ended.
#[derive(Clone, Copy, Debug, PartialEq, Eq)]
pub struct Ending {
    /// Whether at rest, and else at its limit.
    pub is_rest: bool,
    /// The number of the last round.
    pub last: u32,
}

/// What a picture shows beside its bars.
#[derive(Debug, Drop)]
pub struct Board {
    pub columns: Vec<Column>,
    /// How many workers there are, as far as their calls tell.
    pub workers: u32,
    /// How many lanes there are.
    pub lanes: u32,
    pub ending: Option<Ending>,
}

/// The lanes of the open round.
#[derive(Clone, Copy)]
struct Open {
    round: u32,
    slots: [u64; 18],
}

impl Board {
    /// The board of a transcript's lines, with at least so many workers.
    pub fn of(
        alloc: Global,
        rounds: &Rounds,
        lines: &[Line],
        workers: u32,
    ) -> Result<Board, AllocError> {
        let mut board = Board {
            columns: Vec::new(alloc),
            workers,
            lanes: 0,
            ending: None,
        };
        let mut open = Open {
            round: 0,
            slots: [0; 18],
        };
        for line in lines {
            board.pass(rounds, &mut open, line)?;
        }
        board.lanes = board.lanes.max(board.workers.saturating_add(1)).min(18);
        Ok(board)
    }

    /// Goes on with a line.
    fn pass(&mut self, rounds: &Rounds, open: &mut Open, line: &Line) -> Result<(), AllocError> {
        match line {
            Line::Round { number, tick } => {
                *open = Open {
                    round: *number,
                    slots: [0; 18],
                };
                if rounds.contains(*number) {
                    self.columns.push(Column {
                        round: *number,
                        tick: *tick,
                        entries: 0,
                    })?;
                }
            }
            Line::Entry(entry) => self.pass_entry(rounds, open, entry.caller, &entry.call),
            Line::End { rest, last } => {
                self.ending = Some(Ending {
                    is_rest: *rest,
                    last: *last,
                });
            }
        }
        Ok(())
    }

    /// Goes on with an entry.
    fn pass_entry(&mut self, rounds: &Rounds, open: &mut Open, caller: CallerId, call: &Call) {
        let lane = lane_of(caller);
        self.lanes = self.lanes.max(lane + 1);
        if matches!(call, Call::Get(_) | Call::Take(_) | Call::Draw(_)) {
            self.workers = self.workers.max(lane.min(15) + 1);
        }
        if !rounds.contains(open.round) {
            return;
        }
        let slot = &mut open.slots[lane as usize];
        *slot = slot.saturating_add(1);
        if let Some(column) = self.columns.last_mut() {
            column.entries = column.entries.max(*slot);
        }
    }
}
