//! Histories to merge again.

ghost use Rattle.std.specs.Prelude.{◌≡◌, ◌+◌, ◌<◌, ◌≤◌, ℕ, MatchOption, length};
ghost use Rattle.task_machine.specs.Step.{AllRoom, Step};
ghost use Rattle.merge_bench.specs.Histories.{IsShape, TakenAtMost};

use sched_base::{CallerId, Reasons, TaskId};
use std::alloc::{AllocError, Global};
use task_machine::{Call, Entry, Log, Machine, NotLegal, Place, Reply, Seen, Stand};

/// How many tasks and workers a machine has, of how many ends of a run one is for good, and whether
/// tasks are posted into the shared box alone.
#[derive(Clone, Copy)]
pub(crate) struct Shape {
    pub tasks: u32,
    pub workers: u32,
    pub one_in: u32,
    pub shared: bool,
}

/// A linear congruential generator of 64 bits, of which the upper half is drawn.
#[derive(Drop)]
struct Draws {
    state: u64,
}

impl Draws {
    /// A number below this one.
    fn below(&mut self, end: u32) -> u32
        requires { 0 < end }
        ensures { result < end }
    {
        self.state = self
            .state
            .wrapping_mul(6364136223846793005)
            .wrapping_add(1442695040888963407);
        (self.state >> 32) as u32 % end
    }

    /// Some reason.
    fn reasons(&mut self) -> Reasons {
        let bits = [1, 2, 4, 8, 16, 32, 64];
        Reasons::from_bits(bits[self.below(7) as usize]).unwrap_or(Reasons::IO)
    }
}

/// A call that gives a task something to run for.
fn stirring(draws: &mut Draws, id: TaskId) -> Call {
    if draws.below(8) == 0 {
        Call::Kill(id)
    } else {
        Call::Wake(id, draws.reasons())
    }
}

/// A call by which a task that the caller has in its hands goes on.
fn passing(draws: &mut Draws, shape: Shape, id: TaskId) -> Call
    requires { IsShape shape }
{
    if draws.below(2) == 0 {
        Call::Take(id)
    } else {
        let boxno = draws.below(shape.workers + 1);
        Call::Post(id, if shape.shared { shape.workers } else { boxno })
    }
}

/// A call by which a task goes on from where it is, and who makes it.
fn leading(draws: &mut Draws, shape: Shape, id: TaskId, place: Place) -> (CallerId, Call)
    requires { IsShape shape }
{
    match place {
        Place::Rest | Place::Gone => {
            let anyone = CallerId(draws.below(shape.workers + 1));
            (anyone, stirring(draws, id))
        }
        Place::Hands(k) => (k, passing(draws, shape, id)),
        Place::Boxed(b) => {
            if b < shape.workers {
                (CallerId(b), Call::Get(id.0 / 64))
            } else {
                (CallerId(draws.below(shape.workers)), Call::Draw(id))
            }
        }
        Place::Drawn(k) => (k, Call::Take(id)),
        Place::Runs(k) => {
            if draws.below(shape.one_in) == 0 {
                (k, Call::Retire(id))
            } else {
                (k, Call::DropRun(id))
            }
        }
    }
}

/// A random call, and who makes it. Half of the calls wake or kill some task, and half lead some task
/// on.
fn any_call(machine: &Machine, draws: &mut Draws, shape: Shape) -> (CallerId, Call)
    requires shape { IsShape shape }
    requires tasks { length machine.now.tasks ≡ shape.tasks }
{
    let id = TaskId(draws.below(shape.tasks));
    if draws.below(2) == 0 {
        let anyone = CallerId(draws.below(shape.workers + 1));
        (anyone, stirring(draws, id))
    } else {
        leading(draws, shape, id, machine.place(id))
    }
}

/// Makes a call on the machine, if it allows it, and gives the entry with the right reply.
fn answered(machine: &mut Machine, caller: CallerId, call: Call) -> Option<Entry>
    requires { AllRoom machine.old }
    ensures { MatchOption result (machine.new ≡ machine.old) (λ e. Step machine.old e machine.new) }
{
    let mut entry = Entry {
        caller,
        call,
        reply: Reply::Done,
    };
    match machine.apply(&entry) {
        Ok(()) => return Some(entry),
        Err(NotLegal::Reply(right)) => entry.reply = right,
        Err(NotLegal::Name | NotLegal::Place(_)) => return None,
    }
    match machine.apply(&entry) {
        Ok(()) => Some(entry),
        Err(_) => None,
    }
}

/// Makes a random call on the machine, and adds its entry to the history, if the machine allows it.
fn play(machine: &mut Machine, draws: &mut Draws, shape: Shape, history: &mut Log)
    requires takes { AllRoom machine.old }
    requires shape { IsShape shape }
    requires tasks { length machine.old.tasks ≡ shape.tasks }
    requires room { length history.old.entries < history.old.room }
    ensures taken { (n : ℕ) → TakenAtMost n machine.old → TakenAtMost (n + 1) machine.new }
    ensures tasks { length machine.new.tasks ≡ length machine.old.tasks }
    ensures entries { length history.new.entries ≤ length history.old.entries + 1 }
    ensures room { history.new.room ≡ history.old.room }
{
    let (caller, call) = any_call(machine, draws, shape);
    if let Some(entry) = answered(machine, caller, call) {
        history.push(entry);
    }
}

/// A history with this many random calls of tasks that rest at first.
pub(crate) fn random_history(
    alloc: Global,
    shape: Shape,
    seed: u64,
    count: u32,
) -> Result<Log, AllocError>
    requires { IsShape shape }
{
    let mut machine = Machine::new(alloc, shape.tasks, shape.workers)?;
    let mut draws = Draws { state: seed };
    let mut history = Log::new(alloc);
    history.reserve(count as usize)?;
    for _i in 0..count {
        play(&mut machine, &mut draws, shape, &mut history);
    }
    Ok(history)
}

/// An entry of a wake of a task that was never taken.
pub(crate) fn wake(
    caller: u32,
    task: u32,
    reasons: Reasons,
    stand: Stand,
    pending: Reasons,
) -> Entry {
    Entry {
        caller: CallerId(caller),
        call: Call::Wake(TaskId(task), reasons),
        reply: Reply::Task(Seen::Live {
            stand,
            pending,
            killed: false,
            takes: 0,
        }),
    }
}

/// A history of one task that rests at first: caller 0 wakes it, then callers 1 and 0 wake it in turn
/// with the same reason, this often, and then caller 2 with another one.
pub(crate) fn woken_by_three(alloc: Global, count: u32) -> Result<Log, AllocError> {
    let mut history = Log::new(alloc);
    history.reserve(count as usize + 2)?;
    history.push(wake(0, 0, Reasons::IO, Stand::Rest, Reasons::EMPTY));
    for i in 0..count {
        history.push(wake(1 - i % 2, 0, Reasons::IO, Stand::Queued, Reasons::IO));
    }
    history.push(wake(2, 0, Reasons::MSG, Stand::Queued, Reasons::IO));
    Ok(history)
}
