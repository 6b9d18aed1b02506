//! Numbers drawn from a seed, and what they say of a task.

ghost use Rattle.std.specs.Prelude.{◌≡◌, ℕ, ◌+◌, ◌*◌, ◌/◌, ◌^◌, ◌<◌, ◌≤◌};
ghost use Rattle.script_gen.specs.Draws.{next_state, after_four, drawn_at, homed};

/// Numbers below 2^31 that follow from a seed (docs/SCRIPT.md, "Generated scripts").
#[derive(Drop)]
pub(crate) struct Draws {
    pub(crate) state: u64,
}

/// What is drawn for a task.
#[derive(Clone, Copy, Drop)]
pub(crate) struct Drawn {
    /// The ticks of its first timer, 1 to 500.
    pub delay: u32,
    /// The ticks of its second timer, 100 to 499.
    pub timeout: u32,
    /// The number of the task that it wakes.
    pub friend: u32,
    /// From -1,024 to 1,024.
    pub nice: i32,
}

impl Draws {
    /// The draws of a seed.
    pub fn of(seed: u64) -> Draws
        ensures { result.state ≡ seed }
    {
        Draws { state: seed }
    }

    /// The next number, below 2^31.
    pub fn next(&mut self) -> u32
        ensures state { self.new.state ≡ next_state self.old.state }
        ensures value { result ≡ self.new.state / 2 ^ 33 }
        ensures small { result < 2 ^ 31 }
    {
        self.state = self
            .state
            .wrapping_mul(6_364_136_223_846_793_005)
            .wrapping_add(1_442_695_040_888_963_407);
        (self.state >> 33) as u32
    }

    /// What is drawn next for a task of a script of this size.
    pub fn of_task(&mut self, size: u32, number: u32) -> Drawn
        requires { (number < size) × (size ≤ 4096) }
        ensures state { self.new.state ≡ after_four self.old.state }
        ensures value { result ≡ drawn_at size number self.old.state }
    {
        let home = number % 4;
        let delay = 1 + self.next() % 500;
        let timeout = 100 + self.next() % 400;
        let friend = 4 * (self.next() % homed(size, home)) + home;
        let nice = (self.next() % 2049) as i32 - 1024;
        Drawn {
            delay,
            timeout,
            friend,
            nice,
        }
    }
}

/// How many tasks of a script of this size have this home.
fn homed(size: u32, home: u32) -> u32
    requires { (home < 4) × (home < size) × (size ≤ 4096) }
    ensures count { result ≡ homed size home }
    ensures some { 1 ≤ result }
    ensures few { result ≤ 1024 }
{
    (size + 3 - home) / 4
}
