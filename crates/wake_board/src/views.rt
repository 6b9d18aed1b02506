//! What the seats of a board's table know, and the rule of the table.

use crate::body::Body;
use crate::words::Words;
use atomic_table::{Join, Play, Split, TableRule};
use std::collections::LinkedList;
use std::marker::{Brand, PhantomData};
use std::snapshot::Snapshot;
use step_tables::Nexts;
use task_machine::Entry;

/// With what a board is opened. It is there while the board is made, and after that in proofs alone.
#[derive(Drop)]
pub struct Opening {
    pub words: Snapshot<Words>,
    pub homes: Vec<u32>,
    pub holders: Vec<u32>,
    pub nexts: Snapshot<Nexts>,
}

/// A body that is out, with the takes of its task when it went out. No value of it is made.
pub struct Out {
    pub task: u32,
    pub takes: u64,
}

/// What a seat knows: the logs of the callers from `first` on, the tasks that were found absent from the
/// shared box, and the bodies that are out. No value of it is made.
pub struct View {
    pub start: Option<Opening>,
    pub first: u32,
    pub logs: LinkedList<LinkedList<Entry>>,
    pub misses: LinkedList<u32>,
    pub outs: LinkedList<Out>,
}

/// The rule of the table.
pub struct Ruling;

impl TableRule<Body, View, Opening> for Ruling {
    ghost use Rattle.wake_board.specs.Rule.{IsKept, first_view};

    ghost holds = { IsKept };

    ghost first = { first_view };
}

/// A wake.
pub struct Wakes;

impl Play<Body, View> for Wakes {
    ghost use Rattle.wake_board.specs.Seen.{TellsWake};

    ghost then = { TellsWake };
}

/// A kill.
pub struct Kills;

impl Play<Body, View> for Kills {
    ghost use Rattle.task_machine.specs.declared.calls.Call.TheVariants as calls;
    ghost use Rattle.wake_board.specs.Seen.{TellsCall};

    ghost then = { TellsCall calls.Kill };
}

/// A look at a task's word, before the task is taken.
pub struct Looks;

impl Play<Body, View> for Looks {
    ghost use Rattle.wake_board.specs.Bodies.{TellsLook};

    ghost then = { TellsLook };
}

/// A take.
pub struct Takes;

impl Play<Body, View> for Takes {
    ghost use Rattle.wake_board.specs.Seen.{TellsTake};

    ghost then = { TellsTake };
}

/// The end of a run.
pub struct Drops;

impl Play<Body, View> for Drops {
    ghost use Rattle.task_machine.specs.declared.calls.Call.TheVariants as calls;
    ghost use Rattle.wake_board.specs.Seen.{TellsCall};

    ghost then = { TellsCall calls.DropRun };
}

/// A retirement.
pub struct Retires;

impl Play<Body, View> for Retires {
    ghost use Rattle.task_machine.specs.declared.calls.Call.TheVariants as calls;
    ghost use Rattle.wake_board.specs.Seen.{TellsCall};

    ghost then = { TellsCall calls.Retire };
}

/// A post.
pub struct Posts;

impl Play<Body, View> for Posts {
    ghost use Rattle.wake_board.specs.Seen.{TellsPost};

    ghost then = { TellsPost };
}

/// A get.
pub struct Gets;

impl Play<Body, View> for Gets {
    ghost use Rattle.wake_board.specs.Seen.{TellsGet};

    ghost then = { TellsGet };
}

/// A draw.
pub struct Draws;

impl Play<Body, View> for Draws {
    ghost use Rattle.wake_board.specs.Seen.{TellsDraw};

    ghost then = { TellsDraw };
}

/// A look into the shared box.
pub struct Peeps;

impl Play<Body, View> for Peeps {
    ghost use Rattle.wake_board.specs.Seen.{TellsPeep};

    ghost then = { TellsPeep };
}

/// The task that a step on word 0 is about, which neither the word nor the operand tells. It is there in proofs alone.
pub trait Named {
    ghost use Rattle.std.specs.Prelude.{ℕ};

    ghost task: { ℕ };
}

impl Named for Brand {
    ghost task = { 0 };
}

/// The slot of a task leaves its place.
pub struct GoesOut<J: Named> {
    named: PhantomData<J>,
}

impl<J: Named> Play<Body, View> for GoesOut<J> {
    ghost use Rattle.wake_board.specs.Seen.{TellsOut};

    ghost then = { TellsOut J.task };
}

/// The slot of a task comes before the others that a seat has.
pub struct ComesFirst<J: Named> {
    named: PhantomData<J>,
}

impl<J: Named> Play<Body, View> for ComesFirst<J> {
    ghost use Rattle.wake_board.specs.Seen.{TellsFront};

    ghost then = { TellsFront J.task };
}

/// The first slot of a seat comes back to its place.
pub struct GoesIn;

impl Play<Body, View> for GoesIn {
    ghost use Rattle.wake_board.specs.Seen.{TellsBack};

    ghost then = { TellsBack };
}

/// The first caller's pass leaves the seat that has those of all that follow.
pub struct Leaves;

impl Split<View> for Leaves {
    ghost use Rattle.wake_board.specs.Seen.{view_left, view_right};

    ghost left = { view_left };

    ghost right = { view_right };
}

/// The pass of the caller right before those of a seat comes back to it.
pub struct Returns;

impl Join<View> for Returns {
    ghost use Rattle.wake_board.specs.Seen.{view_both, view_spent};

    ghost both = { view_both };

    ghost spent = { view_spent };
}
