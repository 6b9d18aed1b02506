//! A round on threads: the turns of all workers and the injector's part side by side, each through its pass.

ghost use Rattle.std.specs.Prelude.{◌≡◌, ℕ, List, suc, ◌<◌, ◌≤◌, [], None, Some, IsSome, length, map, replicate, slice_index_or, vec_capacity};
ghost use Rattle.std.specs.Thread.{IsSync};
ghost use Rattle.step_tables.specs.Nexts.{nexts_of};
ghost use Rattle.wake_board.specs.Seen.{Held};
ghost use Rattle.thread_loop.specs.Boards.{IsBoardOf};
ghost use Rattle.thread_loop.specs.Plants.{AllCanTurn, AllTurned};
ghost use Rattle.thread_loop.specs.Rounds.{CanInject, HasInjected, AreNumbered, AllIdle, AreSwapped, CanMake, HasMade};

use crate::injector::{Injector, events_of};
use crate::worker::Worker;
use eb32_core::Forest;
use sched_base::{CallerId, Gate};
use shared_queue::SharedQueue;
use std::thread::{Threads, join_mut};
use step_tables::Script;
use task_machine::Log;
use wake_board::{Board, Pass, Passes};

/// Makes the turns of some workers, each through the pass at the same place, the halves on threads of their own.
#[cycle(turns)]
pub(crate) fn turns<R: Threads + Sync, G: Gate + Sync>(
    rt: &R,
    script: &Script,
    board: &Board,
    queue: &SharedQueue<Forest>,
    tick: u32,
    gate: &G,
    workers: &mut [Worker],
    passes: &mut [Pass],
)
    requires board { IsBoardOf script.now board.now }
    requires nexts { board.now.start.nexts ≡ nexts_of script.now }
    requires queue { length queue.now.ranks ≡ length script.now.tasks }
    requires can { AllCanTurn script.now tick board.now workers.old passes.old }
    ensures turned { AllTurned script.now tick workers.old passes.old workers.new passes.new }
{
    if workers.len() > 1 {
        let half = workers.len() / 2;
        let (front, back) = workers.split_at_mut(half);
        let (left, right) = passes.split_at_mut(half);
        both(
            rt, script, board, queue, tick, gate, front, left, back, right,
        );
    } else if !workers.is_empty() {
        workers[0].keep_book(script, tick);
        workers[0].turn(script, board, &mut passes[0], queue, tick, gate);
    }
}

/// Makes the turns of two runs of workers side by side.
#[cycle(turns)]
fn both<R: Threads + Sync, G: Gate + Sync>(
    rt: &R,
    script: &Script,
    board: &Board,
    queue: &SharedQueue<Forest>,
    tick: u32,
    gate: &G,
    front: &mut [Worker],
    left: &mut [Pass],
    back: &mut [Worker],
    right: &mut [Pass],
)
    requires board { IsBoardOf script.now board.now }
    requires nexts { board.now.start.nexts ≡ nexts_of script.now }
    requires queue { length queue.now.ranks ≡ length script.now.tasks }
    requires some_front { 0 < length front.old }
    requires some_back { 0 < length back.old }
    requires can_front { AllCanTurn script.now tick board.now front.old left.old }
    requires can_back { AllCanTurn script.now tick board.now back.old right.old }
    ensures front { AllTurned script.now tick front.old left.old front.new left.new }
    ensures back { AllTurned script.now tick back.old right.old back.new right.new }
{
    join_mut(
        rt,
        &mut ||
            requires { IsSync R.row × IsSync G.row × IsBoardOf script.now board.now × (board.now.start.nexts ≡ nexts_of script.now) × (length queue.now.ranks ≡ length script.now.tasks) × AllCanTurn script.now tick board.now front.now left.now }
            ensures { AllTurned script.entry.now tick front.entry.now left.entry.now front.exit.now left.exit.now }
        { turns(rt, script, board, queue, tick, gate, front, left) },
        &mut ||
            requires { IsSync R.row × IsSync G.row × IsBoardOf script.now board.now × (board.now.start.nexts ≡ nexts_of script.now) × (length queue.now.ranks ≡ length script.now.tasks) × AllCanTurn script.now tick board.now back.now right.now }
            ensures { AllTurned script.entry.now tick back.entry.now right.entry.now back.exit.now right.exit.now }
        { turns(rt, script, board, queue, tick, gate, back, right) },
    );
}

/// Makes the turns of all workers and the injector's part side by side. An injector that has no event makes no call, and
/// gets no thread.
pub(crate) fn all_calls<R: Threads + Sync, G: Gate + Sync>(
    rt: &R,
    script: &Script,
    board: &Board,
    queue: &SharedQueue<Forest>,
    tick: u32,
    round: u32,
    gate: &G,
    injector: &mut Injector,
    last: &mut Pass,
    workers: &mut [Worker],
    passes: &mut [Pass],
)
    requires board { IsBoardOf script.now board.now }
    requires nexts { board.now.start.nexts ≡ nexts_of script.now }
    requires queue { length queue.now.ranks ≡ length script.now.tasks }
    requires can_inject { CanInject script.now round board.now injector.old last.old }
    requires can_turn { AllCanTurn script.now tick board.now workers.old passes.old }
    ensures injected { HasInjected script.now round last.old injector.new last.new }
    ensures turned { AllTurned script.now tick workers.old passes.old workers.new passes.new }
{
    if events_of(script, round).is_empty() {
        injector.inject(script, board, last, round, gate);
        turns(rt, script, board, queue, tick, gate, workers, passes);
        return;
    }
    join_mut(
        rt,
        &mut ||
            requires { IsSync G.row × IsBoardOf script.now board.now × CanInject script.now round board.now injector.now last.now }
            ensures { HasInjected script.entry.now round last.entry.now injector.exit.now last.exit.now }
        { injector.inject(script, board, last, round, gate) },
        &mut ||
            requires { IsSync R.row × IsSync G.row × IsBoardOf script.now board.now × (board.now.start.nexts ≡ nexts_of script.now) × (length queue.now.ranks ≡ length script.now.tasks) × AllCanTurn script.now tick board.now workers.now passes.now }
            ensures { AllTurned script.entry.now tick workers.entry.now passes.entry.now workers.exit.now passes.exit.now }
        { turns(rt, script, board, queue, tick, gate, workers, passes) },
    );
}

/// Takes the passes of all callers out, in their order, into memory that is reserved.
pub(crate) fn take_out(passes: &mut Passes, out: &mut Vec<Pass>, callers: u32)
    requires count { length passes.old ≡ callers }
    requires back { (k : ℕ) → k < callers → IsSome (slice_index_or passes.old k None) }
    requires empty { out.old.items ≡ [] }
    requires room { callers ≤ vec_capacity out.old }
    ensures out { map Some out.new.items ≡ passes.old }
    ensures places { passes.new ≡ replicate callers None }
    ensures room { vec_capacity out.new ≡ vec_capacity out.old }
{
    for who in 0..callers {
        if let Some(pass) = passes.take(CallerId(who)) {
            out.push_reserved(pass);
        }
    }
}

/// Puts the passes of all callers back into their places.
pub(crate) fn put_back(passes: &mut Passes, out: &mut Vec<Pass>)
    requires places { passes.old ≡ replicate (length out.old.items) None }
    requires numbers { AreNumbered 0 out.old.items }
    requires idle { AllIdle out.old.items }
    ensures places { passes.new ≡ map Some out.old.items }
    ensures out { out.new.items ≡ [] }
{
    while let Some(pass) = out.pop() {
        passes.put(pass);
    }
}

/// Gives each caller's log to the list of logs, the injector's last, for the one that is there.
pub(crate) fn swap_logs(workers: &mut [Worker], injector: &mut Injector, logs: &mut [Log])
    requires { length logs.old ≡ suc (length workers.old) }
    ensures { AreSwapped workers.old injector.old logs.old workers.new injector.new logs.new }
{
    for number in 0..workers.len() {
        workers[number].swap_log(&mut logs[number]);
    }
    let last = workers.len();
    injector.swap_log(&mut logs[last]);
}

/// Makes the turns of all workers and the injector's part on a board, with the passes out of their places meanwhile.
pub(crate) fn make_round<R: Threads + Sync, G: Gate + Sync>(
    rt: &R,
    script: &Script,
    board: &Board,
    queue: &SharedQueue<Forest>,
    tick: u32,
    round: u32,
    gate: &G,
    passes: &mut Passes,
    out: &mut Vec<Pass>,
    injector: &mut Injector,
    workers: &mut [Worker],
)
    requires board { IsBoardOf script.now board.now }
    requires nexts { board.now.start.nexts ≡ nexts_of script.now }
    requires queue { length queue.now.ranks ≡ length script.now.tasks }
    requires parts { (ps : List Held) × (p : Held) × CanMake script.now tick round board.now workers.old injector.old passes.old ps p }
    requires empty { out.old.items ≡ [] }
    requires room { suc script.now.workers ≤ vec_capacity out.old }
    ensures made { (ps : List Held) (p : Held) → CanMake script.now tick round board.now workers.old injector.old passes.old ps p → HasMade script.now tick round workers.old ps p workers.new injector.new passes.new }
    ensures empty { out.new.items ≡ [] }
{
    take_out(passes, out, script.workers() + 1);
    let Some(mut last) = out.pop() else {
        unreachable!()
    };
    all_calls(
        rt,
        script,
        board,
        queue,
        tick,
        round,
        gate,
        injector,
        &mut last,
        workers,
        out.as_mut_slice(),
    );
    out.push_reserved(last);
    put_back(passes, out);
}
