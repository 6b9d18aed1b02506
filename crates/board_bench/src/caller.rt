//! One caller, which knows what it has of each task and makes only the calls that it may make.

ghost use Rattle.std.specs.Prelude.{◌≡◌, ◌≢◌, ℕ, ◌+◌, ◌-◌, ◌*◌, ◌^◌, ◌<◌, ◌≤◌, ◌==◌, if◌then◌else◌, true, length, slice_index, slice_index_or, IfOk, IfSome, IfNone};
ghost use Rattle.std.specs.Int.{bit_at};
ghost use Rattle.task_machine.specs.declared.calls.Call.TheVariants as calls;
ghost use Rattle.task_machine.specs.declared.calls.Reply.TheVariants as replies;
ghost use Rattle.task_machine.specs.Own.{holding, own_next};
ghost use Rattle.task_machine.specs.Event.{event_of};
ghost use Rattle.task_machine.specs.Step.{subject};
ghost use Rattle.wake_board.specs.Seen.{Calls};
ghost use Rattle.wake_board.specs.Own.{known_takes};
ghost use Rattle.wake_board.specs.Ends.{own_by, fresh};
ghost use Rattle.wake_board.specs.Start.{home_of};
ghost use Rattle.board_bench.specs.Callers.{own_in, IsUsed, IsListed, IsLook, AreHomes, IsAtRest};
ghost use Rattle.board_bench.specs.declared.has.Has.TheVariants as kinds;

use crate::has::{Has, is_busy, rests};
use sched_base::TaskId;
use std::alloc::{AllocError, Global};
use task_machine::{Call, Seen};
use wake_board::{Board, Pass};

/// So many takes a caller makes at most.
const ROOM: u64 = 1 << 40;

/// The task of a call that looks at one.
fn looked(call: &Call) -> Option<TaskId>
    ensures { IfSome result (λ id. IsLook call.now × (subject call.now ≡ id.0)) }
{
    match *call {
        Call::Wake(id, _)
        | Call::Kill(id)
        | Call::Take(id)
        | Call::DropRun(id)
        | Call::Retire(id) => { Some(id) }
        _ => None,
    }
}

/// What a caller has of a task after a call that looked at it.
fn next(has: Has, call: &Call, seen: &Seen) -> Has
    requires { IsLook call.now }
    ensures { own_in result ≡ own_next (own_in has) (event_of (subject call.now) call.now (replies.Task seen.now)) }
{
    match *call {
        Call::Wake(..) | Call::Kill(_) if rests(seen) => Has::Hands,
        Call::Wake(..) | Call::Kill(_) => has,
        Call::Take(_) => Has::Run,
        Call::DropRun(_) if is_busy(seen) => Has::Hands,
        _ => Has::Nothing,
    }
}

/// Takes a task of the caller's own, which is in its hands.
fn take_own(board: &Board, pass: &mut Pass, id: TaskId) -> Seen
    requires used { IsUsed board.now pass.old }
    requires exists { id.0 < length board.now.start.state.tasks }
    requires held { own_by pass.old id.0 ≡ holding }
    requires home { home_of board.now.start id.0 ≡ pass.old.who }
    requires worker { pass.old.who < board.now.start.state.workers }
    requires room { known_takes board.now.start pass.old.entries id.0 < 2 ^ 40 }
    ensures { Calls pass.old (calls.Take id) (replies.Task result) pass.new }
{
    board.take(pass, id)
}

/// A call that looks at a task, where it may be made.
fn look(board: &Board, pass: &mut Pass, call: &Call, has: Has, home: u32) -> Option<Seen>
    requires used { IsUsed board.now pass.old }
    requires exists { subject call.now < length board.now.start.state.tasks }
    requires own { own_by pass.old (subject call.now) ≡ own_in has }
    requires home { home_of board.now.start (subject call.now) ≡ home }
    requires worker { home < board.now.start.state.workers }
    requires room { known_takes pass.old.start pass.old.entries (subject call.now) < 2 ^ 40 }
    ensures called { IfSome result (λ seen. Calls pass.old call.now (replies.Task seen) pass.new) }
    ensures not { IfNone result (pass.new ≡ pass.old) }
{
    let seen = match *call {
        Call::Wake(id, reasons) if !reasons.is_empty() => board.wake(pass, id, reasons),
        Call::Kill(id) => board.kill(pass, id),
        Call::Take(id) if has == Has::Hands && pass.who().0 == home => take_own(board, pass, id),
        Call::DropRun(id) if has == Has::Run => board.drop_run(pass, id),
        Call::Retire(id) if has != Has::Nothing => board.retire(pass, id),
        _ => return None,
    };
    Some(seen)
}

/// What a caller has of a task after a get whose bit for the task is this.
fn gathered(has: Has, bit: u64) -> Has
    ensures { result ≡ (if bit == 1 then kinds.Hands else has) }
{
    if bit == 1 { Has::Hands } else { has }
}

/// Puts the tasks of a word into hands.
fn gather(has: &mut Vec<Has>, word: u64)
    requires { length has.old.items ≤ 64 }
    ensures count { length has.new.items ≡ length has.old.items }
    ensures each { (i : ℕ) → i < length has.old.items → slice_index_or has.new.items i kinds.Nothing ≡ (if bit_at word i == 1 then kinds.Hands else slice_index_or has.old.items i kinds.Nothing) }
{
    for i in 0..has.len() {
        has[i] = gathered(has[i], (word >> i) & 1);
    }
}

/// A pass, what it has of each task, and how many takes it made.
#[derive(Drop)]
pub(crate) struct Caller {
    pub(crate) pass: Pass,
    pub(crate) has: Vec<Has>,
    pub(crate) takes: u64,
}

impl Caller {
    /// A caller that has made no call.
    pub(crate) fn new(
        alloc: Global,
        board: &Board,
        pass: Pass,
        tasks: usize,
    ) -> Result<Caller, AllocError>
        requires fresh { pass ≡ fresh board.now pass.who }
        requires rest { IsAtRest board.now tasks }
        ensures { IfOk result (λ c. (c.pass ≡ pass) × IsListed board.now c.pass c.has.items c.takes) }
    {
        Ok(Caller {
            pass,
            has: vec![in alloc; Has::Nothing; tasks]?,
            takes: 0,
        })
    }

    /// Makes a call that looks at a task; none where it may not be made.
    pub(crate) fn look(&mut self, board: &Board, homes: &[u32], call: &Call) -> Option<Seen>
        requires listed { IsListed board.now self.old.pass self.old.has.items self.old.takes }
        requires homes { AreHomes board.now homes.now }
        ensures listed { IsListed board.now self.new.pass self.new.has.items self.new.takes }
        ensures who { self.new.pass.who ≡ self.old.pass.who }
    {
        let id = looked(call)?;
        let index = id.0 as usize;
        if index >= self.has.len() || index >= homes.len() || self.takes >= ROOM {
            return None;
        }
        let has = self.has[index];
        let home = homes[index];
        let Some(seen) = look(board, &mut self.pass, call, has, home) else {
            return None;
        };
        self.has[index] = next(has, call, &seen);
        self.takes += 1;
        Some(seen)
    }

    /// Posts a task that is in the caller's hands to its home; whether there was such a task.
    pub(crate) fn post(&mut self, board: &Board, homes: &[u32], id: TaskId) -> bool
        requires listed { IsListed board.now self.old.pass self.old.has.items self.old.takes }
        requires homes { AreHomes board.now homes.now }
        ensures listed { IsListed board.now self.new.pass self.new.has.items self.new.takes }
        ensures who { self.new.pass.who ≡ self.old.pass.who }
    {
        let index = id.0 as usize;
        if index >= self.has.len() || index >= homes.len() || self.has[index] != Has::Hands {
            return false;
        }
        board.post(&mut self.pass, id, homes[index]);
        self.has[index] = Has::Nothing;
        true
    }

    /// Gets the first group of the caller's box; none where the caller is no worker.
    pub(crate) fn get(&mut self, board: &Board, workers: u32) -> Option<u64>
        requires listed { IsListed board.now self.old.pass self.old.has.items self.old.takes }
        requires workers { board.now.start.state.workers ≡ workers }
        ensures listed { IsListed board.now self.new.pass self.new.has.items self.new.takes }
        ensures who { self.new.pass.who ≡ self.old.pass.who }
    {
        if self.pass.who().0 >= workers || self.has.is_empty() || self.has.len() > 64 {
            return None;
        }
        let word = board.get(&mut self.pass, 0);
        gather(&mut self.has, word);
        Some(word)
    }

    /// Whether the caller runs no task.
    pub(crate) fn is_idle(&self) -> bool
        ensures { result ≡ true → (i : ℕ) → i < length self.now.has.items → slice_index_or self.now.has.items i kinds.Nothing ≢ kinds.Run }
    {
        self.has.iter().all(|has| *has != Has::Run)
    }
}
