//! Worked rows of calls, the two sides of a join, and two threads.

ghost use Rattle.std.specs.Prelude.{◌≡◌, ℕ, ◌<◌, ◌≤◌, length, IfSome};
ghost use Rattle.step_tables.specs.Nexts.{nexts_of};
ghost use Rattle.board_bench.specs.Callers.{IsListed, AreHomes, IsDriven};
ghost use Rattle.board_bench.specs.Drawn.{IsClear, HasDrawn, IsSharedTask};
ghost use Rattle.board_bench.specs.Pairs.{IsPair, IsNewPair};

use crate::caller::Caller;
use crate::drawn::{Run, draw_and_run, draws, next_row, peep_and_draw, run_drawn, spread};
use crate::drive::{driven, ended};
use crate::driven::Driven;
use crate::has::Has;
use crate::laid::{all_shared, shared};
use crate::pair::{Pair, paired, parted};
use crate::scripts::round_script;
use sched_base::{Reasons, TaskId};
use std::alloc::AllocError;
use std::test::Fail;
use std::thread::{Threads, join_mut};
use step_tables::{Nexts, Script};
use task_machine::{Call, Reply, Seen, Stand};
use wake_board::{Board, Body, Pass, Words};

/// A call of a table: by which caller, which, and the reply.
type Row = (u32, Call, Reply);

/// What is seen of a live task, as a reply.
fn live(stand: Stand, pending: Reasons, killed: bool, takes: u64) -> Reply {
    Reply::Task(Seen::Live {
        stand,
        pending,
        killed,
        takes,
    })
}

/// Makes a call; none where it may not be made.
fn made(
    board: &Board,
    homes: &[u32],
    workers: u32,
    caller: &mut Caller,
    call: &Call,
) -> Option<Reply>
    requires listed { IsListed board.now caller.old.pass caller.old.has.items caller.old.takes }
    requires homes { AreHomes board.now homes.now }
    requires workers { board.now.start.state.workers ≡ workers }
    ensures listed { IsListed board.now caller.new.pass caller.new.has.items caller.new.takes }
    ensures who { caller.new.pass.who ≡ caller.old.pass.who }
{
    match *call {
        Call::Post(id, _) => {
            if caller.post(board, homes, id) {
                Some(Reply::Done)
            } else {
                None
            }
        }
        Call::Get(_) => match caller.get(board, workers) {
            Some(word) => Some(Reply::Group(word)),
            None => None,
        },
        _ => match caller.look(board, homes, call) {
            Some(seen) => Some(Reply::Task(seen)),
            None => None,
        },
    }
}

/// Makes a call by one of the two callers.
fn act(driven: &mut Driven, homes: &[u32], workers: u32, who: u32, call: &Call) -> Option<Reply>
    requires { IsDriven driven.old homes.now workers }
    ensures { IsDriven driven.new homes.now workers }
{
    if who == 0 {
        made(&driven.board, homes, workers, &mut driven.first, call)
    } else {
        made(&driven.board, homes, workers, &mut driven.second, call)
    }
}

/// The word of a task; none where there is no such task.
fn word_of(words: &Words, id: TaskId) -> Option<u64> {
    if id.0 < words.tasks() {
        Some(words.task(id))
    } else {
        None
    }
}

/// Plays the first rows on a board of one task and one worker; the task's word after them, in a copy of the words, none where a
/// reply is another.
fn played(rt: &HostRuntime, rows: &[Row], count: usize) -> Result<Option<u64>, AllocError> {
    let homes = [0];
    let Some(driven) = driven(rt.alloc(), 1, &homes)? else {
        return Ok(None);
    };
    let mut driven = driven;
    for (who, call, reply) in rows.iter().take(count) {
        if act(&mut driven, &homes, 1, *who, call) != Some(*reply) {
            return Ok(None);
        }
    }
    match ended(driven, &homes, 1) {
        Some(words) => Ok(word_of(&words.try_clone()?, TaskId(0))),
        None => Ok(None),
    }
}

/// Whether the calls' replies are what is seen of these words; a call that finds no task's word has none.
fn found(rows: &[Row], words: &[Option<u64>]) -> bool {
    for (row, word) in rows.iter().zip(words.iter()) {
        if let Some(word) = *word
            && row.2 != Reply::Task(task_word::seen_of(word))
        {
            return false;
        }
    }
    true
}

#[test]
fn one_task_goes_its_way(rt: HostRuntime) -> Result<(), Fail> {
    let task = TaskId(0);
    let (none, io, signal) = (Reasons::EMPTY, Reasons::IO, Reasons::SIGNAL);
    let rows: [Row; 8] = [
        (
            1,
            Call::Wake(task, signal),
            live(Stand::Rest, none, false, 0),
        ),
        (1, Call::Post(task, 0), Reply::Done),
        (0, Call::Get(0), Reply::Group(1)),
        (0, Call::Take(task), live(Stand::Queued, signal, false, 0)),
        (1, Call::Wake(task, io), live(Stand::Runs, none, false, 1)),
        (0, Call::DropRun(task), live(Stand::Runs, io, false, 1)),
        (0, Call::Take(task), live(Stand::Queued, io, false, 1)),
        (0, Call::DropRun(task), live(Stand::Runs, none, false, 2)),
    ];
    for (count, word) in [(1, 2050), (6, 66562), (8, 131072)] {
        assert!(rt; played(&rt, &rows, count)? == Some(word));
    }
    let words = [
        Some(0),
        None,
        None,
        Some(2050),
        Some(65537),
        Some(66563),
        Some(66562),
        Some(131_073),
    ];
    assert!(rt; found(&rows, &words));
    let rows: [Row; 9] = [
        (
            1,
            Call::Wake(task, signal),
            live(Stand::Rest, none, false, 0),
        ),
        (1, Call::Post(task, 0), Reply::Done),
        (0, Call::Get(0), Reply::Group(1)),
        (0, Call::Take(task), live(Stand::Queued, signal, false, 0)),
        (1, Call::Kill(task), live(Stand::Runs, none, false, 1)),
        (1, Call::Wake(task, io), live(Stand::Runs, none, true, 1)),
        (0, Call::DropRun(task), live(Stand::Runs, io, true, 1)),
        (0, Call::Retire(task), live(Stand::Queued, io, true, 1)),
        (1, Call::Wake(task, io), Reply::Task(Seen::Gone)),
    ];
    for (count, word) in [(7, 66566), (8, 8), (9, 1034)] {
        assert!(rt; played(&rt, &rows, count)? == Some(word));
    }
    let words = [
        Some(0),
        None,
        None,
        Some(2050),
        Some(65537),
        Some(65543),
        Some(66567),
        Some(66566),
        Some(8),
    ];
    assert!(rt; found(&rows, &words));
    assert!(rt; task_word::seen_of(1034) == Seen::Gone);
    Ok(())
}

/// One round of a worker: wakes the other's task, posts it where it rested, and takes its own where it came; whether it did.
fn round(caller: &mut Caller, board: &Board, homes: &[u32], mine: TaskId, other: TaskId) -> bool
    requires listed { IsListed board.now caller.old.pass caller.old.has.items caller.old.takes }
    requires homes { AreHomes board.now homes.now }
    requires workers { board.now.start.state.workers ≡ 2 }
    ensures listed { IsListed board.now caller.new.pass caller.new.has.items caller.new.takes }
    ensures who { caller.new.pass.who ≡ caller.old.pass.who }
{
    caller.look(board, homes, &Call::Wake(other, Reasons::MSG));
    caller.post(board, homes, other);
    caller.get(board, 2);
    let taken = caller.look(board, homes, &Call::Take(mine)).is_some();
    caller.look(board, homes, &Call::DropRun(mine));
    taken
}

/// So many rounds; how often the worker's own task was taken.
fn rounds(
    caller: &mut Caller,
    board: &Board,
    homes: &[u32],
    mine: TaskId,
    other: TaskId,
    times: u32,
) -> u64
    requires listed { IsListed board.now caller.old.pass caller.old.has.items caller.old.takes }
    requires homes { AreHomes board.now homes.now }
    requires workers { board.now.start.state.workers ≡ 2 }
    ensures listed { IsListed board.now caller.new.pass caller.new.has.items caller.new.takes }
    ensures who { caller.new.pass.who ≡ caller.old.pass.who }
{
    let mut taken = 0u64;
    for _ in 0..times {
        if round(caller, board, homes, mine, other) {
            taken = taken.wrapping_add(1);
        }
    }
    taken
}

/// In how many of the two callers' hands a task is, and in its home's box.
fn places(driven_hands: u64, words: &Words, id: TaskId) -> u64 {
    if id.0 < 64 && id.0 < words.tasks() && id.0 <= words.workers() {
        driven_hands.wrapping_add((words.box_word(id.0, 0) >> id.0) & 1)
    } else {
        driven_hands
    }
}

/// Whether a caller has a task in its hands, as a number.
fn held(caller: &Caller, id: TaskId) -> u64 {
    match caller.has.get(id.0 as usize) {
        Some(Has::Hands) => 1,
        _ => 0,
    }
}

#[test]
fn two_threads_wake_and_take(rt: HostRuntime) -> Result<(), Fail> {
    let homes = [0, 1];
    let (left, right) = (TaskId(0), TaskId(1));
    let Some(mut driven) = driven(rt.alloc(), 2, &homes)? else {
        panic!(rt; "no passes");
    };
    let wake = Call::Wake(left, Reasons::IO);
    let queued = live(Stand::Queued, Reasons::IO, false, 0);
    let rest = live(Stand::Rest, Reasons::EMPTY, false, 0);
    let (a, b) = {
        let Driven {
            board,
            first,
            second,
            ..
        } = &mut driven;
        join_mut(
            &rt,
            &mut || made(board, &homes, 2, first, &wake),
            &mut || made(board, &homes, 2, second, &wake),
        )
    };
    assert!(rt; (a == Some(rest) && b == Some(queued)) || (a == Some(queued) && b == Some(rest)));
    assert!(rt; held(&driven.first, left) == u64::from(a == Some(rest)));
    assert!(rt; held(&driven.second, left) == u64::from(b == Some(rest)));
    let (a, b) = {
        let Driven {
            board,
            first,
            second,
            ..
        } = &mut driven;
        join_mut(
            &rt,
            &mut || rounds(first, board, &homes, left, right, 10_000),
            &mut || rounds(second, board, &homes, right, left, 10_000),
        )
    };
    let hands = [left, right].map(|id| held(&driven.first, id).wrapping_add(held(
        &driven.second,
        id,
    )));
    let Some(words) = ended(driven, &homes, 2) else {
        panic!(rt; "a run is left");
    };
    for (id, taken, hands) in [(left, a, hands[0]), (right, b, hands[1])] {
        let word = word_of(&words, id).unwrap_or(0);
        assert!(rt; word >> 16 == taken);
        assert!(rt; (word >> 1) & 1 == places(hands, &words, id));
    }
    Ok(())
}

/// What two callers saw that look into the shared box and draw one task, each on a thread; and the runs after that, of the
/// one that drew it, and then of the other.
#[derive(Clone, Copy, Debug)]
struct Turns {
    words: (u64, u64),
    drawn: (bool, bool),
    run: Run,
    next: Option<Run>,
}

/// Lets a caller run a task that it has drawn, and then another caller draw and run it.
fn run_in_turn(
    board: &Board,
    drawer: &mut Pass,
    other: &mut Pass,
    script: &Script,
    id: TaskId,
    workers: u32,
) -> (Run, Option<Run>)
    requires drawn { HasDrawn board.now drawer.old id.0 }
    requires clear { IsClear board.now other.old }
    requires task { IsSharedTask board.now id.0 workers }
    requires nexts { board.now.start.nexts ≡ nexts_of script.now }
    requires few { length drawer.old.entries ≤ 1 }
    requires few_other { length other.old.entries ≤ 1 }
    ensures drawer { IsClear board.now drawer.new }
    ensures other { IsClear board.now other.new }
    ensures who_drawer { drawer.new.who ≡ drawer.old.who }
    ensures who_other { other.new.who ≡ other.old.who }
{
    let run = run_drawn(board, drawer, script, id, workers);
    (run, draw_and_run(board, other, script, id, workers))
}

/// Lets two callers draw a task at once, and run it one after the other; none where not just one of them drew it.
fn drawn_in_turn(
    threads: &impl Threads,
    pair: &mut Pair,
    script: &Script,
    id: TaskId,
    workers: u32,
) -> Option<Turns>
    requires pair { IsNewPair pair.old }
    requires task { IsSharedTask pair.old.board id.0 workers }
    requires nexts { pair.old.board.start.nexts ≡ nexts_of script.now }
    ensures { IfSome result (λ turns. IsPair pair.new) }
{
    let Pair {
        board,
        first,
        second,
        ..
    } = pair;
    let (a, b) = join_mut(
        threads,
        &mut || peep_and_draw(board, first, id),
        &mut || peep_and_draw(board, second, id),
    );
    let words = (a.0, b.0);
    let drawn = (a.1, b.1);
    if a.1 && !b.1 {
        let (run, next) = run_in_turn(board, first, second, script, id, workers);
        return Some(Turns {
            words,
            drawn,
            run,
            next,
        });
    }
    if b.1 && !a.1 {
        let (run, next) = run_in_turn(board, second, first, script, id, workers);
        return Some(Turns {
            words,
            drawn,
            run,
            next,
        });
    }
    None
}

/// How often a task was taken, by its body; none where the body does not fit the task's word.
fn taken_by_body(words: &Words, script: &Script, id: TaskId) -> Option<u64> {
    if id.0 >= words.tasks() {
        return None;
    }
    let body = words.body(id);
    let mut row = 0;
    for _ in 0..body.takes {
        row = next_row(script, id, row);
    }
    if body.takes == words.task(id) >> 16 && body.row == row {
        Some(body.takes)
    } else {
        None
    }
}

#[test]
fn a_body_goes_from_caller_to_caller(rt: HostRuntime) -> Result<(), Fail> {
    let id = TaskId(0);
    let Ok(script) = round_script(rt.alloc(), 1) else {
        panic!(rt; "no script");
    };
    let nexts = Nexts::of(rt.alloc(), &script)?;
    let (board, passes) = shared(rt.alloc(), &nexts)?;
    let Some(mut pair) = paired(board, passes) else {
        panic!(rt; "no passes");
    };
    let Some(turns) = drawn_in_turn(&rt, &mut pair, &script, id, 2) else {
        panic!(rt; "not just one drew");
    };
    assert!(rt; turns.words.0 == 1 || turns.words.1 == 1);
    assert!(rt; turns.drawn.0 != turns.drawn.1);
    let seen = |pending, takes| Seen::Live {
        stand: Stand::Queued,
        pending,
        killed: false,
        takes,
    };
    assert!(rt; turns.run.body == Body { row: 0, takes: 0 });
    assert!(rt; turns.run.seen == seen(Reasons::INIT, 0));
    let Some(next) = turns.next else {
        panic!(rt; "no second run");
    };
    assert!(rt; next.body == Body { row: 2, takes: 1 });
    assert!(rt; next.seen == seen(Reasons::MSG, 1));
    let words = parted(pair);
    assert_eq!(rt; taken_by_body(&words, &script, id), Some(2));
    Ok(())
}

/// Wakes all tasks, and lets two callers draw and run them at once; how many runs each made.
fn drawn_by_two(
    threads: &impl Threads,
    pair: &mut Pair,
    script: &Script,
    tasks: u32,
    workers: u32,
    times: u32,
) -> (u64, u64)
    requires pair { IsNewPair pair.old }
    requires tasks { (i : ℕ) → i < tasks → IsSharedTask pair.old.board i workers }
    requires some_tasks { 1 ≤ tasks }
    requires few_tasks { tasks ≤ 4096 }
    requires nexts { pair.old.board.start.nexts ≡ nexts_of script.now }
    ensures { IsPair pair.new }
{
    let Pair {
        board,
        first,
        second,
        ..
    } = pair;
    spread(board, first, tasks, workers);
    join_mut(
        threads,
        &mut || draws(board, first, script, tasks, workers, times),
        &mut || draws(board, second, script, tasks, workers, times),
    )
}

#[test]
fn two_threads_draw_shared_tasks(rt: HostRuntime) -> Result<(), Fail> {
    let Ok(script) = round_script(rt.alloc(), 64) else {
        panic!(rt; "no script");
    };
    let nexts = Nexts::of(rt.alloc(), &script)?;
    let (board, passes) = all_shared(rt.alloc(), 64, &nexts)?;
    let Some(mut pair) = paired(board, passes) else {
        panic!(rt; "no passes");
    };
    let (a, b) = drawn_by_two(&rt, &mut pair, &script, 64, 2, 10_000);
    let words = parted(pair);
    let mut taken = 0u64;
    for i in 0..64 {
        let Some(takes) = taken_by_body(&words, &script, TaskId(i)) else {
            panic!(rt; "a body does not fit");
        };
        taken = taken.wrapping_add(takes);
    }
    assert!(rt; taken == a.wrapping_add(b) && taken >= 10_000);
    Ok(())
}
