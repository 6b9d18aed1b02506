//! The shared box in a round: whether all that was in it as the round began was drawn.

ghost use Rattle.std.specs.Prelude.{◌≡◌, ◌<◌, ◌==◌, ℕ, List, ◌++◌, ◌∷◌, [], IfOk, length, IsTrue};
ghost use Rattle.step_tables.specs.declared.tables.Script.{Script};
ghost use Rattle.task_machine.specs.declared.calls.Entry.{Entry};
ghost use Rattle.task_machine.specs.Step.{State, Allowed};
ghost use Rattle.task_machine.specs.History.{stepped};
ghost use Rattle.run_replay.specs.SharedBoxes.{Counts, CountsBetween, tally, is_shared_at};

use std::alloc::{AllocError, Global};
use step_tables::Script;
use task_machine::{Call, Entry};

/// How many tasks are in the shared box, and how many of them wait there since before the round.
#[derive(Drop)]
pub(crate) struct SharedBox {
    inside: u32,
    waiting: u32,
    /// For each task the number after that of the round in which it was last posted there, or 0.
    posted: Vec<u32>,
}

impl SharedBox {
    /// The box before round 0, with so many tasks in it.
    pub(crate) fn new(alloc: Global, script: &Script, inside: u32) -> Result<SharedBox, AllocError>
        ensures { IfOk result (λ b. (state : State) → inside ≡ tally (is_shared_at script.now state) (length script.now.tasks) → CountsBetween script.now 0 state b) }
    {
        Ok(SharedBox {
            inside,
            waiting: inside,
            posted: vec![in alloc; 0u32; script.tasks().len()]?,
        })
    }

    /// Goes on to round `round`: what is in the box waits there since before it.
    pub(crate) fn open(&mut self, round: u32)
        ensures { (s : Script) (state : State) → CountsBetween s round state self.old → Counts s round state state [] self.new }
    {
        self.waiting = self.inside;
    }

    /// Goes on with an entry of round `round` that the machine allows.
    pub(crate) fn note(&mut self, script: &Script, round: u32, entry: &Entry)
        requires counts { (opened : State) × (state : State) × (es : List Entry) × Counts script.now round opened state es self.old × Allowed state entry.now × (state.workers ≡ script.now.workers) × (length state.tasks ≡ length script.now.tasks) }
        requires round { round < script.now.rounds }
        ensures { (opened state : State) (es : List Entry) → Counts script.now round opened state es self.old → Allowed state entry.now → state.workers ≡ script.now.workers → length state.tasks ≡ length script.now.tasks → Counts script.now round opened (stepped state entry.now) (es ++ entry.now ∷ []) self.new }
    {
        match entry.call {
            Call::Post(id, boxno) => {
                if boxno == script.workers() {
                    self.inside += 1;
                    self.posted[id.0 as usize] = round + 1;
                }
            }
            Call::Draw(id) => {
                self.inside -= 1;
                if self.posted[id.0 as usize] <= round {
                    self.waiting -= 1;
                }
            }
            _ => {}
        }
    }

    /// Whether no task waits in the box since before the round.
    pub(crate) fn is_empty(&self) -> bool
        ensures { result ≡ (self.now.waiting == 0) }
    {
        self.waiting == 0
    }
}
