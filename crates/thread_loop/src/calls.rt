//! A call as data, made on a board.

ghost use Rattle.std.specs.Prelude.{◌≡◌, [], ◌∷◌, ◌++◌, ◌<◌, length};
ghost use Rattle.turn_steps.specs.Has.{said};
ghost use Rattle.wake_board.specs.Seen.{IsPassOf};
ghost use Rattle.thread_loop.specs.Calls.{MayMake, IsMade};

use sched_base::CallerId;
use task_machine::{Call, Entry, Log, Reply};
use wake_board::{Board, Pass};

/// Makes a call on a board through a pass that has no body out, and gives its reply. A draw is not made so.
pub(crate) fn make(board: &Board, pass: &mut Pass, call: &Call) -> Reply
    requires board { IsPassOf board.now pass.old }
    requires outs { pass.old.outs ≡ [] }
    requires may { MayMake board.now.start pass.old call.now }
    ensures { IsMade board.now.start pass.old call.now result pass.new }
{
    match *call {
        Call::Wake(id, reasons) => Reply::Task(board.wake(pass, id, reasons)),
        Call::Kill(id) => Reply::Task(board.kill(pass, id)),
        Call::Post(id, boxno) => {
            board.post(pass, id, boxno);
            Reply::Done
        }
        Call::Get(group) => Reply::Group(board.get(pass, group)),
        Call::Draw(_) => unreachable!(),
        Call::Take(id) => Reply::Task(board.take(pass, id)),
        Call::DropRun(id) => Reply::Task(board.drop_run(pass, id)),
        Call::Retire(id) => Reply::Task(board.retire(pass, id)),
    }
}

/// Adds a call to a log with its reply.
pub(crate) fn note(log: &mut Log, who: CallerId, call: &Call, reply: &Reply)
    requires { length log.old.entries < log.old.room }
    ensures entries { log.new.entries ≡ log.old.entries ++ said who call.now reply.now ∷ [] }
    ensures spare { log.new.room ≡ log.old.room }
{
    let entry = Entry {
        caller: who,
        call: *call,
        reply: *reply,
    };
    log.push(entry);
}
