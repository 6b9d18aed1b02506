//! The injector in a round: which of its calls comes next.

ghost use Rattle.std.specs.Prelude.{◌≡◌, ◌==◌, ◌↔◌, ◌<◌, ◌+◌, ◌^◌, ℕ, IfSome, length, drop, None, Some, IsTrue};
ghost use Rattle.turn_steps.specs.Left.{asked, heard};
ghost use Rattle.turn_steps.specs.Has.{caller};
ghost use Rattle.run_replay.specs.Injections.{AtEvents, HoldsTask, first_of, stage_in};

use sched_base::TaskId;
use step_tables::{Event, Script};
use task_machine::{Call, Reply};
use thread_loop::{call_of, home_of, is_rest, target};

/// How many events were made, and the task that a post is owed for.
#[derive(Drop)]
pub(crate) struct Injection {
    next: usize,
    held: Option<TaskId>,
}

impl Injection {
    /// Before the first event.
    pub(crate) fn new() -> Injection
        ensures { result ≡ record { next = 0; held = None } }
    {
        Injection {
            next: 0,
            held: None,
        }
    }

    /// The next call in a round; none exactly where its part of the round is over.
    pub(crate) fn next_call(&self, script: &Script, round: u32) -> Option<Call>
        requires events { AtEvents script.now round self.now }
        requires held { HoldsTask script.now self.now }
        ensures { result ≡ asked script.now (stage_in script.now round self.now) }
    {
        match self.held {
            Some(id) => Some(Call::Post(id, home_of(script, id))),
            None => match self.event(script, round) {
                Some(event) => Some(call_of(&event.action)),
                None => None,
            },
        }
    }

    /// Whether a call is the next one in a round.
    pub(crate) fn asks_for(&self, script: &Script, round: u32, call: &Call) -> bool
        requires events { AtEvents script.now round self.now }
        requires held { HoldsTask script.now self.now }
        ensures { IsTrue result ↔ (asked script.now (stage_in script.now round self.now) ≡ Some call.now) }
    {
        self.next_call(script, round) == Some(*call)
    }

    /// The next event, if it is one of the round.
    fn event(&self, script: &Script, round: u32) -> Option<Event>
        ensures first { result ≡ first_of round (drop self.now.next script.now.events) }
        ensures few { IfSome result (λ _. self.now.next + 1 < 2 ^ 64) }
    {
        let events = script.events();
        if self.next >= events.len() {
            return None;
        }
        let event = events[self.next];
        if event.round == round {
            Some(event)
        } else {
            None
        }
    }

    /// Goes on with the reply to the next call.
    pub(crate) fn heard(&mut self, script: &Script, round: u32, reply: &Reply)
        requires { AtEvents script.now round self.old }
        ensures stage { (k tick : ℕ) → stage_in script.now round self.new ≡ heard script.now (caller k) tick reply.now (stage_in script.now round self.old) }
        ensures events { AtEvents script.now round self.new }
    {
        match self.held {
            Some(_) => self.held = None,
            None => {
                if let Some(event) = self.event(script, round) {
                    self.next += 1;
                    if is_rest(reply) {
                        self.held = Some(target(&event.action));
                    }
                }
            }
        }
    }

    /// Whether no event is left.
    pub(crate) fn is_last(&self, script: &Script) -> bool
        requires { (r : ℕ) × AtEvents script.now r self.now }
        ensures { result ≡ (self.now.next == length script.now.events) }
    {
        self.next == script.events().len()
    }
}
