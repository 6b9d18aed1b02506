//! The injector: it makes the actions of a round's events on a board.

ghost use Rattle.std.specs.Prelude.{◌≡◌, ℕ, ◌+◌, ◌*◌, ◌<◌, ◌≤◌, [], ◌∷◌, ◌++◌, length, List, IfOk, OnOk, OnErr, IsTrue};
ghost use Rattle.run_model.specs.Lawful.{Injects};
ghost use Rattle.run_model.specs.Tables.{actions_in};
ghost use Rattle.task_machine.specs.Own.{away};
ghost use Rattle.wake_board.specs.Seen.{IsPassOf};
ghost use Rattle.wake_board.specs.Ends.{own_by};
ghost use Rattle.thread_loop.specs.Events.{actions_all};
ghost use Rattle.step_tables.specs.Sound.{is_sound};
ghost use Rattle.step_tables.specs.declared.tables.Action.{Action};
ghost use Rattle.turn_steps.specs.Has.{caller, said};
ghost use Rattle.thread_loop.specs.Boards.{round_room, IsBoardOf};
ghost use Rattle.thread_loop.specs.BoardTurns.{AtActions, HasActed};
ghost use Rattle.thread_loop.specs.Calls.{MayMake, IsMade};

use crate::calls::{make, note};
use crate::lookups::{call_of, home_of, is_rest, target};
use sched_base::{CallerId, Gate};
use std::alloc::{AllocError, Global};
use std::marker::Model;
use std::mem;
use step_tables::{Action, Event, Script};
use task_machine::{Call, Log, Reply};
use wake_board::{Board, Pass};

/// The injector of a script. Contracts see its log: the calls of the last round that it made.
#[derive(Drop)]
pub struct Injector {
    log: Log,
}

impl Model for Injector {
    ghost use Rattle.task_machine.specs.Logged.{Logged};

    ghost Value = { Logged };

    ghost view = { λ i. i.log };
}

/// The events of a round.
pub(crate) fn events_of(script: &Script, round: u32) -> &[Event]
    ensures actions { actions_all result.now ≡ actions_in script.now round }
    ensures sound { IsTrue (is_sound script.now) }
{
    let events = script.events();
    let first = events.partition_point(|event| event.round < round);
    let end = events.partition_point(|event| event.round <= round);
    &events[first..end]
}

impl Injector {
    /// An injector that has made no call.
    pub fn new(alloc: Global, _script: &Script) -> Result<Injector, AllocError>
        ensures { IfOk result (λ i. i.entries ≡ []) }
    {
        Ok(Injector {
            log: Log::new(alloc),
        })
    }

    /// Makes room in the log for the calls of a round. The one error is want of memory.
    pub fn reserve_round(&mut self, script: &Script, round: u32) -> Result<(), AllocError>
        ensures entries { self.new.entries ≡ self.old.entries }
        ensures reserved { OnOk result (round_room script.now round ≤ self.new.room) }
        ensures refused { OnErr result (self.new ≡ self.old) }
    {
        let kept = self.log.as_slice().len();
        let calls = 2 * events_of(script, round).len();
        self.log.reserve(calls.saturating_sub(kept))
    }

    /// Makes the actions of a round's events on a board, through the injector's pass, and logs each call; a task that an
    /// action saw at rest is posted home as the next call. Before each call it passes the gate, with the call's number in
    /// the round, from 1 on.
    pub fn inject<G: Gate>(
        &mut self,
        script: &Script,
        board: &Board,
        pass: &mut Pass,
        round: u32,
        gate: &G,
    )
        requires reserved { round_room script.now round ≤ self.old.room }
        requires board { IsBoardOf script.now board.now }
        requires pass { IsPassOf board.now pass.old }
        requires number { pass.old.who ≡ script.now.workers }
        requires outs { pass.old.outs ≡ [] }
        requires free { (i : ℕ) → own_by pass.old i ≡ away }
        ensures injects { Injects script.now round self.new.entries }
        ensures grown { pass.new ≡ record pass.old { entries = pass.old.entries ++ self.new.entries } }
        ensures free { (i : ℕ) → own_by pass.new i ≡ away }
        ensures room { self.new.room ≡ self.old.room }
    {
        self.log.clear();
        let events = events_of(script, round);
        for event in events {
            self.act(script, board, pass, &event.action, gate);
        }
    }

    /// Makes an action; a task that it saw at rest is posted home.
    fn act<G: Gate>(
        &mut self,
        script: &Script,
        board: &Board,
        pass: &mut Pass,
        action: &Action,
        gate: &G,
    )
        requires at { (more : List Action) × AtActions script.now board.now (action.now ∷ more) pass.old }
        requires spare { length self.old.entries + 2 ≤ self.old.room }
        ensures at { (more : List Action) → AtActions script.now board.now (action.now ∷ more) pass.old → AtActions script.now board.now more pass.new }
        ensures acted { HasActed script.now action.now self.old pass.old self.new pass.new }
    {
        let reply = self.make_call(script, board, pass, &call_of(action), gate);
        if is_rest(&reply) {
            let id = target(action);
            self.make_call(
                script,
                board,
                pass,
                &Call::Post(id, home_of(script, id)),
                gate,
            );
        }
    }

    /// Makes one call, and logs it.
    fn make_call<G: Gate>(
        &mut self,
        script: &Script,
        board: &Board,
        pass: &mut Pass,
        call: &Call,
        gate: &G,
    ) -> Reply
        requires board { IsPassOf board.now pass.old }
        requires outs { pass.old.outs ≡ [] }
        requires may { MayMake board.now.start pass.old call.now }
        requires spare { length self.old.entries < self.old.room }
        ensures made { IsMade board.now.start pass.old call.now result pass.new }
        ensures logged { self.new.entries ≡ self.old.entries ++ said (caller script.now.workers) call.now result ∷ [] }
        ensures room { self.new.room ≡ self.old.room }
    {
        let who = CallerId(script.workers());
        let nth = self.log.as_slice().len() as u64 + 1;
        gate.at(who, nth);
        let reply = make(board, pass, call);
        note(&mut self.log, who, call, &reply);
        reply
    }

    /// The calls of the last round that it made.
    pub fn log(&self) -> &Log
        ensures { result.now ≡ self.now }
    {
        &self.log
    }

    /// Gives its log for another one.
    pub fn swap_log(&mut self, log: &mut Log)
        ensures taken { self.new ≡ log.old }
        ensures given { log.new ≡ self.old }
    {
        mem::swap(&mut self.log, log);
    }
}
