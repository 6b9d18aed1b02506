//! How long the runs of a transcript are: its lines are gone through from the last to the first.

ghost use Rattle.std.specs.Prelude.{◌≡◌, ◌<◌, ◌^◌, ◌∷◌, List, length, IfOk};
ghost use Rattle.transcript.specs.declared.lines.Line.{Line};
ghost use Rattle.run_picture.specs.Bars.{stretch_by};
ghost use Rattle.run_picture.specs.Stretches.{stretches_of, AreStretches, stretch_at};

use crate::steps::{Step, lane_of, step_of};
use std::alloc::{AllocError, Global};
use transcript::Line;

/// How a run goes on.
#[derive(Clone, Copy, Debug, PartialEq, Eq)]
pub(crate) struct Stretch {
    /// How many entries it has from here on.
    pub entries: u64,
    /// Whether its task is retired in it.
    pub is_retired: bool,
}

impl Stretch {
    /// A run that is over.
    pub(crate) const OVER: Stretch = Stretch {
        entries: 0,
        is_retired: false,
    };
}

/// How a run goes on with an entry of its lane.
fn stretch_by(step: Step, behind: Stretch) -> Stretch
    requires { behind.entries < 2 ^ 63 }
    ensures { result ≡ stretch_by step behind }
{
    match step {
        Step::Takes(_) => Stretch::OVER,
        Step::Drops | Step::Retires => Stretch {
            entries: 1,
            is_retired: step == Step::Retires,
        },
        Step::Raises(_) | Step::Goes => Stretch {
            entries: behind.entries + 1,
            is_retired: behind.is_retired,
        },
    }
}

/// How the runs of all lanes go on.
#[derive(Clone, Copy, Debug)]
struct Stretches {
    of_lanes: [Stretch; 18],
}

impl Stretches {
    const OVER: Stretches = Stretches {
        of_lanes: [Stretch::OVER; 18],
    };

    /// How the run of a line's lane goes on behind it.
    fn behind(&self, line: &Line) -> Stretch
        ensures { (ls : List Line) → AreStretches ls self.now → result ≡ stretch_at line.now ls }
    {
        match line {
            Line::Entry(entry) => self.of_lanes[lane_of(entry.caller) as usize],
            Line::Round { .. } | Line::End { .. } => Stretch::OVER,
        }
    }

    /// Goes on to the line in front.
    fn go_on(&mut self, line: &Line)
        requires { (ls : List Line) × AreStretches ls self.old × (length ls < 2 ^ 63) }
        ensures { (ls : List Line) → AreStretches ls self.old → AreStretches (line.now ∷ ls) self.new }
    {
        match line {
            Line::Entry(entry) => {
                let lane = lane_of(entry.caller) as usize;
                self.of_lanes[lane] = stretch_by(step_of(entry), self.of_lanes[lane]);
            }
            Line::Round { .. } | Line::End { .. } => *self = Stretches::OVER,
        }
    }
}

/// For each line how the run of its lane goes on behind it.
pub(crate) fn stretches_of(alloc: Global, lines: &[Line]) -> Result<Vec<Stretch>, AllocError>
    requires { length lines.now < 2 ^ 63 }
    ensures { IfOk result (λ s. s.items ≡ stretches_of lines.now) }
{
    let mut stretches = Vec::with_capacity(alloc, lines.len())?;
    let mut lanes = Stretches::OVER;
    for place in (0..lines.len()).rev() {
        let line = lines[place];
        stretches.push(lanes.behind(&line))?;
        lanes.go_on(&line);
    }
    stretches.as_mut_slice().reverse();
    Ok(stretches)
}
