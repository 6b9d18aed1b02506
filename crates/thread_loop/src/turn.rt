//! A worker's turn: the phase in which it stands, over the worker's queues.

ghost use Rattle.std.specs.Prelude.{◌≡◌, ℕ, ◌+◌, ◌*◌, ◌-◌, ◌^◌, ◌<◌, ◌≤◌, ◌==◌, ◌∷◌, true, length, IsTrue, None};
ghost use Rattle.step_tables.specs.Sound.{is_sound};
ghost use Rattle.std.specs.List.{range_with_len};
ghost use Rattle.queue_model.specs.Classes.{spent};
ghost use Rattle.queue_model.specs.Sweep.{fired, swept};
ghost use Rattle.run_model.specs.Book.{queued_all, taken_from, untimed};
ghost use Rattle.run_model.specs.Replies.{is_rest, is_killed, has_reasons, takes_in, members};
ghost use Rattle.run_model.specs.Tables.{groups, home_of, row_number};
ghost use Rattle.turn_steps.specs.Times.{times, listed};
ghost use Rattle.turn_steps.specs.Left.{stage, runs, asked, at_acts, at_gets, at_runs, at_sweep, at_wakes, acted, begun, draws_if, draws_in, draws_now, drew, dropped_as, handed, heard, next_in, returned, run_begun, spent_in, take_call, taken, waked};
ghost use Rattle.turn_steps.specs.Has.{caller};
ghost use Rattle.thread_loop.specs.Queues.{Fits, Grows, book_of, made_of, next_of, quotas_of};
ghost use Rattle.run_model.specs.Standing.{turn_ended};
ghost use Rattle.thread_loop.specs.Turns.{unsettled, ended, onward_of, row_of, actions_from, stage_in, book_now, HasRow, TurnFits, Steps, take_of, drawn_run, NamesTasks, IsGiven, KnowsRow};

use crate::lookups::{call_of, groups, has_reasons, home_of, is_killed, is_rest, row_at, target};
use crate::queues::{NextRun, Queues, Quotas};
use sched_base::{Class, Reasons, TaskId};
use step_tables::{Action, Row, Script};
use task_machine::{Call, Reply};

/// What comes after a run: runs with these quotas, or at most so many draws.
#[derive(Clone, Copy, Debug)]
pub(crate) enum Onward {
    ByClass(Quotas),
    ByDraw(u32),
}

/// A run of a task by one of its rows.
#[derive(Clone, Copy, Debug)]
pub(crate) struct Run {
    pub(crate) task: TaskId,
    pub(crate) row: u32,
    pub(crate) onward: Onward,
}

/// Which call comes next.
#[derive(Clone, Copy, Debug)]
pub(crate) enum Phase {
    /// The get of a group.
    Gets(u32),
    /// The wake of a task whose timer fired.
    Wakes(TaskId),
    /// The take of the task that comes next; where none does, draws may come.
    Runs(Onward),
    /// An action of a run, by its number.
    Acts {
        run: Run,
        next: u32,
    },
    /// The post of a task that came into hand, and then an action by its number.
    Posts {
        run: Run,
        next: u32,
        task: TaskId,
    },
    /// The end of a run.
    Drops {
        task: TaskId,
        onward: Onward,
    },
    /// The retirement of a task in hand, or else of one that still runs.
    Retires {
        held: bool,
        task: TaskId,
        onward: Onward,
    },
    /// The post of a shared task back to the shared box.
    Returns {
        task: TaskId,
        onward: Onward,
    },
    /// The take of a task that was drawn, with so many draws after it.
    Drawn {
        task: TaskId,
        draws: u32,
    },
}

/// A turn of a worker at a tick.
#[derive(Drop)]
pub(crate) struct Turn {
    pub(crate) tick: u32,
    pub(crate) queues: Queues,
    pub(crate) phase: Phase,
}

impl Quotas {
    /// The quotas once one run of a class is spent.
    fn spent(&self, class: Class) -> Quotas
        ensures { quotas_of result ≡ spent class (quotas_of self.now) }
    {
        let mut rest = *self;
        match class {
            Class::Urgent => rest.urgent = rest.urgent.saturating_sub(1),
            Class::Normal => rest.normal = rest.normal.saturating_sub(1),
            Class::Bulk => rest.bulk = rest.bulk.saturating_sub(1),
            Class::Heavy => rest.heavy = rest.heavy.saturating_sub(1),
        }
        rest
    }
}

impl Onward {
    /// What comes after a run of a class.
    fn spent(&self, class: Class) -> Onward
        ensures { onward_of result ≡ spent_in class (onward_of self.now) }
    {
        match *self {
            Onward::ByClass(quotas) => Onward::ByClass(quotas.spent(class)),
            Onward::ByDraw(draws) => Onward::ByDraw(draws),
        }
    }
}

/// The row of a run.
fn row_of<'a>(script: &'a Script, run: &Run) -> &'a Row
    requires exists { run.now.task.0 < length script.now.tasks }
    requires row { HasRow script.now run.now }
    ensures { result.now ≡ row_of script.now run.now }
{
    row_at(script, run.task, run.row)
}

/// An action of a run, by its number.
fn action_of<'a>(script: &'a Script, run: &Run, next: u32) -> &'a Action
    requires exists { run.now.task.0 < length script.now.tasks }
    requires row { HasRow script.now run.now }
    requires next { next < length (row_of script.now run.now).actions }
    ensures { actions_from next script.now run.now ≡ result.now ∷ actions_from (next + 1) script.now run.now }
{
    &row_of(script, run).actions.as_slice()[next as usize]
}

impl Turn {
    /// A turn that is over, with its queues.
    pub(crate) fn over(queues: Queues) -> Turn
        ensures { result ≡ record { tick = 0; queues = queues; phase = Phase.Runs (Onward.ByDraw 0) } }
    {
        Turn {
            tick: 0,
            queues,
            phase: Phase::Runs(Onward::ByDraw(0)),
        }
    }

    /// The task that runs next by the quotas.
    fn next_in(&self, onward: &Onward) -> Option<NextRun>
        ensures { next_of result ≡ next_in (onward_of onward.now) (book_now self.now) }
    {
        match onward {
            Onward::ByClass(quotas) => self.queues.next(quotas),
            Onward::ByDraw(_) => None,
        }
    }

    /// The next call; none where the turn is over.
    pub(crate) fn next_call(&self, script: &Script) -> Option<Call>
        requires fits { TurnFits script.now self.now }
        requires tasks { NamesTasks script.now (stage_in script.now self.now) }
        ensures { result ≡ asked script.now (stage_in script.now self.now) }
    {
        match self.phase {
            Phase::Gets(group) => Some(Call::Get(group)),
            Phase::Wakes(task) => Some(Call::Wake(task, Reasons::TIMER)),
            Phase::Runs(onward) => self.take_call(&onward),
            Phase::Acts { run, next } => Some(call_of(action_of(script, &run, next))),
            Phase::Posts { task, .. } => Some(Call::Post(task, home_of(script, task))),
            Phase::Drops { task, .. } => Some(Call::DropRun(task)),
            Phase::Retires { task, .. } => Some(Call::Retire(task)),
            Phase::Returns { task, .. } => Some(Call::Post(task, home_of(script, task))),
            Phase::Drawn { task, .. } => Some(Call::Take(task)),
        }
    }

    /// The take of the task that comes next.
    fn take_call(&self, onward: &Onward) -> Option<Call>
        ensures { result ≡ take_call (next_in (onward_of onward.now) (book_now self.now)) }
    {
        match self.next_in(onward) {
            Some(next) => Some(Call::Take(next.task)),
            None => None,
        }
    }

    /// The task that the next call takes, if it takes one.
    pub(crate) fn to_take(&self, script: &Script) -> Option<TaskId>
        ensures { result ≡ take_of (asked script.now (stage_in script.now self.now)) }
    {
        match self.phase {
            Phase::Runs(onward) => match self.next_in(&onward) {
                Some(next) => Some(next.task),
                None => None,
            },
            Phase::Drawn { task, .. } => Some(task),
            _ => None,
        }
    }

    /// How many shared tasks may be drawn now.
    pub(crate) fn draws(&self, script: &Script) -> u32
        ensures { result ≡ draws_now script.now (stage_in script.now self.now) }
    {
        match self.phase {
            Phase::Runs(onward) => self.draws_in(script, &onward),
            _ => 0,
        }
    }

    /// How many shared tasks may be drawn before a run: none while a task comes next.
    fn draws_in(&self, script: &Script, onward: &Onward) -> u32
        ensures { result ≡ draws_if (next_in (onward_of onward.now) (book_now self.now)) (draws_in script.now.depth (onward_of onward.now)) }
    {
        if self.next_in(onward).is_some() {
            return 0;
        }
        match *onward {
            Onward::ByClass(_) => script.depth(),
            Onward::ByDraw(draws) => draws,
        }
    }

    /// Begins a turn at a tick.
    pub(crate) fn begin(&mut self, script: &Script, now: u32)
        requires fits { TurnFits script.now self.old }
        requires room { made_of self.old.queues + 2 ^ 13 < 2 ^ 63 }
        ensures stage { stage_in script.now self.new ≡ begun script.now now (book_of now self.old.queues) }
        ensures fits { TurnFits script.now self.new }
        ensures tick { self.new.tick ≡ now }
        ensures grows { Grows (2 ^ 13) self.old.queues self.new.queues }
    {
        self.tick = now;
        self.to_gets(script, 0);
    }

    /// Ends a turn that asks for no call any more: from version 2 on its timers are settled at its tick.
    pub(crate) fn end(&mut self, script: &Script)
        requires fits { TurnFits script.now self.old }
        requires over { asked script.now (stage_in script.now self.old) ≡ None }
        requires room { made_of self.old.queues + length script.now.tasks < 2 ^ 63 }
        ensures stage { stage_in script.now self.new ≡ ended script.now self.old.tick (stage_in script.now self.old) }
        ensures book { book_now self.new ≡ turn_ended script.now self.old.tick (book_now self.old) }
        ensures over { asked script.now (stage_in script.now self.new) ≡ None }
        ensures fits { TurnFits script.now self.new }
        ensures tick { self.new.tick ≡ self.old.tick }
        ensures room { made_of self.new.queues + 2 ^ 13 * unsettled (book_now self.new).wait ≤ made_of self.old.queues + 2 ^ 13 * unsettled (book_now self.old).wait }
    {
        if script.version() < 2 {
            return;
        }
        self.queues.settle(script, self.tick);
    }

    /// Goes on to the get of a group, or after the last one to the sweep.
    fn to_gets(&mut self, script: &Script, group: u32)
        requires fits { Fits script.now self.old.queues }
        requires room { made_of self.old.queues + 4096 < 2 ^ 63 }
        ensures stage { stage_in script.now self.new ≡ at_gets script.now self.old.tick (range_with_len group (groups script.now - group)) (book_now self.old) }
        ensures fits { TurnFits script.now self.new }
        ensures steps { Steps 4096 self.old self.new }
    {
        if group < groups(script) {
            self.phase = Phase::Gets(group);
        } else {
            self.to_sweep(script);
        }
    }

    /// Goes on with the sweep to the next task whose timer fires, or after the last one to the runs.
    fn to_sweep(&mut self, script: &Script)
        requires fits { Fits script.now self.old.queues }
        requires room { made_of self.old.queues + 4096 < 2 ^ 63 }
        ensures stage { stage_in script.now self.new ≡ at_sweep script.now self.old.tick (book_now self.old) }
        ensures fits { TurnFits script.now self.new }
        ensures steps { Steps 4096 self.old self.new }
    {
        match self.queues.sweep(script, self.tick) {
            Some(task) => self.phase = Phase::Wakes(task),
            None => self.to_runs(script),
        }
    }

    /// Goes on to the runs: the normal list is filled, and then the quotas are fixed.
    fn to_runs(&mut self, script: &Script)
        requires { Fits script.now self.old.queues }
        ensures stage { stage_in script.now self.new ≡ at_runs script.now (book_now self.old) }
        ensures fits { TurnFits script.now self.new }
        ensures steps { Steps 0 self.old self.new }
    {
        self.queues.fill(script);
        let quotas = self.queues.quotas(script);
        self.phase = Phase::Runs(Onward::ByClass(quotas));
    }

    /// Goes on to an action of a run, or after the last one to the end of the run.
    fn to_acts(&mut self, script: &Script, run: &Run, next: u32)
        requires fits { Fits script.now self.old.queues }
        requires exists { run.now.task.0 < length script.now.tasks }
        requires row { HasRow script.now run.now }
        requires next { next ≤ length (row_of script.now run.now).actions }
        requires room { made_of self.old.queues + 1 < 2 ^ 63 }
        ensures stage { stage_in script.now self.new ≡ at_acts self.old.tick (actions_from next script.now run.now) run.now.task.0 (row_of script.now run.now) (onward_of run.now.onward) (book_now self.old) }
        ensures fits { TurnFits script.now self.new }
        ensures steps { Steps 1 self.old self.new }
    {
        let row = row_of(script, run);
        if (next as usize) < row.actions.as_slice().len() {
            self.phase = Phase::Acts { run: *run, next };
            return;
        }
        self.queues
            .set_timer(script, run.task, self.tick, &row.expiry);
        self.phase = Phase::Drops {
            task: run.task,
            onward: run.onward,
        };
    }

    /// Begins the run of a task that was taken: by its row, or where it was killed by retiring it.
    fn begin_run(&mut self, script: &Script, run: &Run, reply: &Reply)
        requires sound { IsTrue (is_sound script.now) }
        requires fits { Fits script.now self.old.queues }
        requires exists { run.now.task.0 < length script.now.tasks }
        requires row { run.now.row ≡ row_number script.now run.now.task.0 (takes_in reply.now) }
        requires room { made_of self.old.queues + 1 < 2 ^ 63 }
        ensures stage { stage_in script.now self.new ≡ run_begun script.now self.old.tick reply.now (is_killed reply.now) run.now.task.0 (onward_of run.now.onward) (book_now self.old) }
        ensures fits { TurnFits script.now self.new }
        ensures steps { Steps 1 self.old self.new }
    {
        if is_killed(reply) {
            self.phase = Phase::Retires {
                held: false,
                task: run.task,
                onward: run.onward,
            };
        } else {
            self.to_acts(script, run, 0);
        }
    }

    /// Goes on with the reply to a get.
    fn heard_get(&mut self, script: &Script, group: u32, reply: &Reply)
        requires fits { Fits script.now self.old.queues }
        requires group { group < groups script.now }
        requires exist { (i : ℕ) → 0 < times i (members group reply.now) → i < length script.now.tasks }
        requires absent { (i : ℕ) → times i (members group reply.now) + listed i (book_now self.old) ≤ 1 }
        requires room { made_of self.old.queues + 4224 < 2 ^ 63 }
        ensures stage { stage_in script.now self.new ≡ at_gets script.now self.old.tick (range_with_len (group + 1) (groups script.now - (group + 1))) (queued_all script.now (members group reply.now) (book_now self.old)) }
        ensures fits { TurnFits script.now self.new }
        ensures steps { Steps 4224 self.old self.new }
    {
        self.collect(script, group, reply);
        self.to_gets(script, group + 1);
    }

    /// Queues the tasks that a get took.
    fn collect(&mut self, script: &Script, group: u32, reply: &Reply)
        requires fits { Fits script.now self.old.queues }
        requires exist { (i : ℕ) → 0 < times i (members group reply.now) → i < length script.now.tasks }
        requires absent { (i : ℕ) → times i (members group reply.now) + listed i (book_now self.old) ≤ 1 }
        requires room { made_of self.old.queues + 128 < 2 ^ 63 }
        ensures book { book_now self.new ≡ queued_all script.now (members group reply.now) (book_now self.old) }
        ensures fits { Fits script.now self.new.queues }
        ensures steps { Steps 128 self.old self.new }
    {
        if let Reply::Group(mask) = *reply {
            self.queues.collect(script, group, mask);
        }
    }

    /// Goes on with the reply to the wake of a task whose timer fired.
    fn heard_wake(&mut self, script: &Script, task: TaskId, reply: &Reply)
        requires fits { Fits script.now self.old.queues }
        requires exists { is_rest reply.now ≡ true → task.0 < length script.now.tasks }
        requires absent { is_rest reply.now ≡ true → listed task.0 (book_now self.old) ≡ 0 }
        requires room { made_of self.old.queues + 4098 < 2 ^ 63 }
        ensures stage { stage_in script.now self.new ≡ at_wakes script.now (fired self.old.tick (book_now self.old).wait) (waked script.now (is_rest reply.now) task.0 (record (book_now self.old) { wait = swept self.old.tick (book_now self.old).wait })) }
        ensures fits { TurnFits script.now self.new }
        ensures steps { Steps 4098 self.old self.new }
    {
        self.queue_rested(script, task, reply);
        self.to_sweep(script);
    }

    /// Queues a task whose wake saw it at rest.
    fn queue_rested(&mut self, script: &Script, task: TaskId, reply: &Reply)
        requires fits { Fits script.now self.old.queues }
        requires exists { is_rest reply.now ≡ true → task.0 < length script.now.tasks }
        requires absent { is_rest reply.now ≡ true → listed task.0 (book_now self.old) ≡ 0 }
        requires room { made_of self.old.queues + 2 < 2 ^ 63 }
        ensures book { book_now self.new ≡ waked script.now (is_rest reply.now) task.0 (book_now self.old) }
        ensures fits { Fits script.now self.new.queues }
        ensures steps { Steps 2 self.old self.new }
    {
        if is_rest(reply) {
            self.queues.queue(script, task);
        }
    }

    /// Goes on with the reply to the take of the task that comes next.
    fn heard_take(
        &mut self,
        script: &Script,
        next: &NextRun,
        onward: &Onward,
        row: u32,
        reply: &Reply,
    )
        requires sound { IsTrue (is_sound script.now) }
        requires fits { Fits script.now self.old.queues }
        requires exists { next.now.task.0 < length script.now.tasks }
        requires row { row ≡ row_number script.now next.now.task.0 (takes_in reply.now) }
        requires room { made_of self.old.queues + 1 < 2 ^ 63 }
        ensures stage { stage_in script.now self.new ≡ run_begun script.now self.old.tick reply.now (is_killed reply.now) next.now.task.0 (spent_in next.now.class (onward_of onward.now)) (taken_from next.now.class (book_now self.old)) }
        ensures fits { TurnFits script.now self.new }
        ensures steps { Steps 1 self.old self.new }
    {
        self.queues.take_first(script, next.class);
        let run = Run {
            task: next.task,
            row,
            onward: onward.spent(next.class),
        };
        self.begin_run(script, &run, reply);
    }

    /// Goes on with the reply to an action that names a task, to the next action of the run.
    fn heard_act(
        &mut self,
        script: &Script,
        number: u32,
        run: &Run,
        next: u32,
        task: TaskId,
        reply: &Reply,
    )
        requires fits { Fits script.now self.old.queues }
        requires exists { run.now.task.0 < length script.now.tasks }
        requires row { HasRow script.now run.now }
        requires next { next ≤ length (row_of script.now run.now).actions }
        requires known { is_rest reply.now ≡ true → task.0 < length script.now.tasks }
        requires absent { is_rest reply.now ≡ true → listed task.0 (book_now self.old) ≡ 0 }
        requires room { made_of self.old.queues + 3 < 2 ^ 63 }
        ensures stage { stage_in script.now self.new ≡ acted script.now (caller number) self.old.tick (is_rest reply.now) task.0 (actions_from next script.now run.now) run.now.task.0 (row_of script.now run.now) (onward_of run.now.onward) (book_now self.old) }
        ensures fits { TurnFits script.now self.new }
        ensures steps { Steps 3 self.old self.new }
    {
        if is_rest(reply) {
            self.hand(script, number, run, next, task);
        } else {
            self.to_acts(script, run, next);
        }
    }

    /// Goes on with a task that came into hand: the worker's own is queued, another one is to be posted.
    fn hand(&mut self, script: &Script, number: u32, run: &Run, next: u32, task: TaskId)
        requires fits { Fits script.now self.old.queues }
        requires exists { run.now.task.0 < length script.now.tasks }
        requires row { HasRow script.now run.now }
        requires next { next ≤ length (row_of script.now run.now).actions }
        requires known { task.0 < length script.now.tasks }
        requires absent { listed task.0 (book_now self.old) ≡ 0 }
        requires room { made_of self.old.queues + 3 < 2 ^ 63 }
        ensures stage { stage_in script.now self.new ≡ handed script.now self.old.tick (home_of script.now task.0 == number) task.0 (actions_from next script.now run.now) run.now.task.0 (row_of script.now run.now) (onward_of run.now.onward) (book_now self.old) }
        ensures fits { TurnFits script.now self.new }
        ensures steps { Steps 3 self.old self.new }
    {
        if home_of(script, task) == number {
            self.queues.queue(script, task);
            self.to_acts(script, run, next);
        } else {
            self.phase = Phase::Posts {
                run: *run,
                next,
                task,
            };
        }
    }

    /// Goes on with the reply to the end of a run.
    fn heard_drop(&mut self, script: &Script, task: TaskId, onward: &Onward, reply: &Reply)
        requires fits { Fits script.now self.old.queues }
        requires exists { task.0 < length script.now.tasks }
        requires absent { listed task.0 (book_now self.old) ≡ 0 }
        requires room { made_of self.old.queues + 2 < 2 ^ 63 }
        ensures stage { stage_in script.now self.new ≡ dropped_as script.now (is_killed reply.now) (has_reasons reply.now) task.0 (onward_of onward.now) (book_now self.old) }
        ensures fits { TurnFits script.now self.new }
        ensures steps { Steps 2 self.old self.new }
    {
        if is_killed(reply) {
            self.phase = Phase::Retires {
                held: true,
                task,
                onward: *onward,
            };
        } else if has_reasons(reply) {
            self.give_back(script, task, onward);
        } else {
            self.phase = Phase::Runs(*onward);
        }
    }

    /// Goes on with a task that has reasons after its run: it is queued again, or a shared one is to be posted.
    fn give_back(&mut self, script: &Script, task: TaskId, onward: &Onward)
        requires fits { Fits script.now self.old.queues }
        requires exists { task.0 < length script.now.tasks }
        requires absent { listed task.0 (book_now self.old) ≡ 0 }
        requires room { made_of self.old.queues + 2 < 2 ^ 63 }
        ensures stage { stage_in script.now self.new ≡ returned script.now (home_of script.now task.0 == script.now.workers) task.0 (onward_of onward.now) (book_now self.old) }
        ensures fits { TurnFits script.now self.new }
        ensures steps { Steps 2 self.old self.new }
    {
        if home_of(script, task) == script.workers() {
            self.phase = Phase::Returns {
                task,
                onward: *onward,
            };
        } else {
            self.queues.queue(script, task);
            self.phase = Phase::Runs(*onward);
        }
    }

    /// Goes on with the reply to a retirement.
    fn heard_retire(&mut self, script: &Script, task: TaskId, onward: &Onward)
        requires fits { Fits script.now self.old.queues }
        requires exists { task.0 < length script.now.tasks }
        ensures stage { stage_in script.now self.new ≡ stage (runs (onward_of onward.now)) (untimed task.0 (book_now self.old)) }
        ensures fits { TurnFits script.now self.new }
        ensures steps { Steps 0 self.old self.new }
    {
        self.queues.drop_timer(script, task);
        self.phase = Phase::Runs(*onward);
    }

    /// Goes on with the reply to the next call. A take is given the row of its task.
    pub(crate) fn heard(&mut self, script: &Script, number: u32, row: u32, reply: &Reply)
        requires sound { IsTrue (is_sound script.now) }
        requires fits { TurnFits script.now self.old }
        requires tasks { NamesTasks script.now (stage_in script.now self.old) }
        requires given { IsGiven script.now (stage_in script.now self.old) reply.now }
        requires row { KnowsRow script.now row (stage_in script.now self.old) reply.now }
        requires room { made_of self.old.queues + 2 ^ 13 < 2 ^ 63 }
        ensures stage { stage_in script.now self.new ≡ heard script.now (caller number) self.old.tick reply.now (stage_in script.now self.old) }
        ensures fits { TurnFits script.now self.new }
        ensures steps { Steps (2 ^ 13) self.old self.new }
    {
        match self.phase {
            Phase::Gets(group) => self.heard_get(script, group, reply),
            Phase::Wakes(task) => self.heard_wake(script, task, reply),
            Phase::Runs(onward) => self.heard_next(script, &onward, row, reply),
            Phase::Acts { run, next } => {
                let task = target(action_of(script, &run, next));
                self.heard_act(script, number, &run, next + 1, task, reply);
            }
            Phase::Posts { run, next, .. } => self.to_acts(script, &run, next),
            Phase::Drops { task, onward } => self.heard_drop(script, task, &onward, reply),
            Phase::Retires { task, onward, .. } => self.heard_retire(script, task, &onward),
            Phase::Returns { onward, .. } => self.phase = Phase::Runs(onward),
            Phase::Drawn { task, draws } => {
                let onward = Onward::ByDraw(draws);
                self.begin_run(script, &Run { task, row, onward }, reply);
            }
        }
    }

    /// Goes on with the reply to the take of the task that comes next, if one does.
    fn heard_next(&mut self, script: &Script, onward: &Onward, row: u32, reply: &Reply)
        requires sound { IsTrue (is_sound script.now) }
        requires fits { Fits script.now self.old.queues }
        requires phase { self.old.phase ≡ Phase.Runs onward.now }
        requires tasks { (i : ℕ) → 0 < listed i (book_now self.old) → i < length script.now.tasks }
        requires row { KnowsRow script.now row (stage_in script.now self.old) reply.now }
        requires room { made_of self.old.queues + 1 < 2 ^ 63 }
        ensures stage { stage_in script.now self.new ≡ taken script.now self.old.tick reply.now (onward_of onward.now) (next_in (onward_of onward.now) (book_now self.old)) (book_now self.old) }
        ensures fits { TurnFits script.now self.new }
        ensures steps { Steps 1 self.old self.new }
    {
        if let Some(next) = self.next_in(onward) {
            self.heard_take(script, &next, onward, row, reply);
        }
    }

    /// Goes on with a shared task that was drawn.
    pub(crate) fn drew(&mut self, script: &Script, task: TaskId)
        requires fits { TurnFits script.now self.old }
        requires may_draw { 0 < draws_now script.now (stage_in script.now self.old) }
        ensures stage { stage_in script.now self.new ≡ drew script.now task.0 (stage_in script.now self.old) }
        ensures fits { TurnFits script.now self.new }
        ensures steps { Steps 0 self.old self.new }
    {
        let draws = self.draws(script) - 1;
        self.phase = Phase::Drawn { task, draws };
    }

    /// The shared task that runs after a draw, if one does.
    pub(crate) fn drawn_run(&self, script: &Script) -> Option<TaskId>
        requires { NamesTasks script.now (stage_in script.now self.now) }
        ensures { result ≡ drawn_run script.now (stage_in script.now self.now).left }
    {
        let task = match self.phase {
            Phase::Acts { run, .. } => run.task,
            Phase::Posts { run, .. } => run.task,
            Phase::Drops { task, .. } => task,
            Phase::Retires {
                held: false,
                task,
                ..
            } => task,
            _ => return None,
        };
        if home_of(script, task) == script.workers() {
            Some(task)
        } else {
            None
        }
    }
}
