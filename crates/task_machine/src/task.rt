//! The state of one task, and what a call sees of it.

ghost use Rattle.std.specs.Prelude.{◌≡◌, ◌<◌, ◌-◌, ◌^◌};
ghost use Rattle.task_machine.specs.Task.{is_busy, in_hands, in_draw, in_run, is_boxed, seen_of, woken, flagged, got, taken, dropped, put, gone, resting, raised};
ghost use Rattle.task_machine.specs.Step.{HasRoom};
ghost use Rattle.task_machine.specs.declared.task.Place.TheVariants as places;

use sched_base::{CallerId, Reasons};

/// Where a task is: at rest, in a caller's hands, in the box of a worker (or the shared box, whose
/// number is that of workers), drawn from the shared box by a caller, run by a caller, or gone for
/// good.
#[derive(Clone, Copy, Debug, PartialEq, Eq)]
pub enum Place {
    Rest,
    Hands(CallerId),
    Boxed(u32),
    Drawn(CallerId),
    Runs(CallerId),
    Gone,
}

/// What a call can tell of a place: queued stands for in hands, for boxed and for drawn.
#[derive(Clone, Copy, Debug, PartialEq, Eq)]
pub enum Stand {
    Rest,
    Queued,
    Runs,
}

/// What a call sees of a task.
#[derive(Clone, Copy, Debug, PartialEq, Eq)]
pub enum Seen {
    Gone,
    Live {
        stand: Stand,
        pending: Reasons,
        killed: bool,
        takes: u64,
    },
}

/// The state of one task: its place, the reasons that are pending, whether it was killed since it
/// was last taken, and how often it was taken.
#[derive(Clone, Copy, Debug, PartialEq, Eq)]
pub struct TaskState {
    pub place: Place,
    pub pending: Reasons,
    pub killed: bool,
    pub takes: u64,
}

impl Place {
    /// Whether the task is in the hands of this caller.
    pub(crate) fn is_in_hands_of(self, caller: CallerId) -> bool
        ensures { result ≡ in_hands caller self }
    {
        match self {
            Place::Hands(holder) => caller == holder,
            _ => false,
        }
    }

    /// Whether this caller has drawn the task.
    pub(crate) fn is_drawn_by(self, caller: CallerId) -> bool
        ensures { result ≡ in_draw caller self }
    {
        match self {
            Place::Drawn(drawer) => caller == drawer,
            _ => false,
        }
    }

    /// Whether this caller runs the task.
    pub(crate) fn is_run_by(self, caller: CallerId) -> bool
        ensures { result ≡ in_run caller self }
    {
        match self {
            Place::Runs(runner) => caller == runner,
            _ => false,
        }
    }

    /// Whether the task is in this box.
    pub(crate) fn is_in_box(self, boxno: u32) -> bool
        ensures { result ≡ is_boxed boxno self }
    {
        match self {
            Place::Boxed(other) => boxno == other,
            _ => false,
        }
    }

    /// Where the task is once this caller has given it something to run for.
    fn raised_by(self, caller: CallerId) -> Place
        ensures { result ≡ raised caller self }
    {
        match self {
            Place::Rest => Place::Hands(caller),
            other => other,
        }
    }
}

impl TaskState {
    /// A task at rest that was never taken.
    pub(crate) const RESTING: TaskState = TaskState {
        place: Place::Rest,
        pending: Reasons::EMPTY,
        killed: false,
        takes: 0,
    };

    /// A task that is gone.
    const GONE: TaskState = TaskState {
        place: Place::Gone,
        pending: Reasons::EMPTY,
        killed: false,
        takes: 0,
    };

    /// Whether the task has something to run for.
    fn is_busy(&self) -> bool
        ensures { result ≡ is_busy self.now }
    {
        !self.pending.is_empty() || self.killed
    }

    /// What a call sees of the task.
    pub(crate) fn seen(&self) -> Seen
        ensures { result ≡ seen_of self.now }
    {
        let stand = match self.place {
            Place::Gone => return Seen::Gone,
            Place::Rest => Stand::Rest,
            Place::Hands(_) | Place::Boxed(_) | Place::Drawn(_) => Stand::Queued,
            Place::Runs(_) => Stand::Runs,
        };
        Seen::Live {
            stand,
            pending: self.pending,
            killed: self.killed,
            takes: self.takes,
        }
    }

    /// Adds reasons, and puts a task that rests into the caller's hands.
    pub(crate) fn wake(&mut self, caller: CallerId, reasons: Reasons)
        ensures { self.new ≡ woken caller reasons self.old }
    {
        if self.place != Place::Gone {
            self.place = self.place.raised_by(caller);
            self.pending = self.pending.union(reasons);
        }
    }

    /// Sets the killed flag, and puts a task that rests into the caller's hands.
    pub(crate) fn kill(&mut self, caller: CallerId)
        ensures { self.new ≡ flagged caller self.old }
    {
        if self.place != Place::Gone {
            self.place = self.place.raised_by(caller);
            self.killed = true;
        }
    }

    /// Puts the task into a box.
    pub(crate) fn post(&mut self, boxno: u32)
        ensures { self.new ≡ put (places.Boxed boxno) self.old }
    {
        self.place = Place::Boxed(boxno);
    }

    /// Takes the task out of the caller's box into its hands, if it is there.
    pub(crate) fn get(&mut self, caller: CallerId)
        ensures { self.new ≡ got caller self.old }
    {
        if self.place.is_in_box(caller.0) {
            self.place = Place::Hands(caller);
        }
    }

    /// Takes the task out of the shared box, for the caller to take it next.
    pub(crate) fn draw(&mut self, caller: CallerId)
        ensures { self.new ≡ put (places.Drawn caller) self.old }
    {
        self.place = Place::Drawn(caller);
    }

    /// Begins a run by the caller: what was pending is taken.
    pub(crate) fn take(&mut self, caller: CallerId)
        requires { HasRoom self.old }
        ensures { self.new ≡ taken caller self.old }
    {
        self.place = Place::Runs(caller);
        self.pending = Reasons::EMPTY;
        self.killed = false;
        self.takes += 1;
    }

    /// Ends the caller's run: the task rests, or stays in the caller's hands where it has something
    /// to run for.
    pub(crate) fn drop_run(&mut self, caller: CallerId)
        ensures { self.new ≡ dropped caller self.old }
    {
        self.place = if self.is_busy() {
            Place::Hands(caller)
        } else {
            Place::Rest
        };
    }

    /// Removes the task for good.
    pub(crate) fn retire(&mut self)
        ensures { self.new ≡ gone }
    {
        *self = TaskState::GONE;
    }
}
