//! What a script may have at most.

ghost use Rattle.std.specs.Prelude.{◌≡◌};
ghost use Rattle.step_tables.specs.Limits.{limits_of};

/// The newest version.
pub(crate) const NEWEST: u32 = 2;

/// The most rows of a task.
pub(crate) const MOST_ROWS: u32 = 64;

/// The most actions of a row.
pub(crate) const MOST_ACTIONS: usize = 16;

/// The most ticks of an expiry.
pub(crate) const MOST_DELAY: u32 = 1_073_741_824;

/// What a script of a version may have at most (docs/SCRIPT.md, "Limits").
#[derive(Clone, Copy)]
pub(crate) struct Limits {
    pub bytes: usize,
    pub workers: u32,
    pub depth: u32,
    pub start: u32,
    pub step: u32,
    pub rounds: u32,
    pub tasks: u32,
    pub events: u32,
}

impl Limits {
    /// The limits of a version. Versions 1 and 2 have the same.
    pub fn of(_version: u32) -> Limits
        ensures { result ≡ limits_of _version }
    {
        Limits {
            bytes: 4_194_304,
            workers: 16,
            depth: 1000,
            start: 4_294_967_295,
            step: 1_048_576,
            rounds: 100_000,
            tasks: 4096,
            events: 65_536,
        }
    }
}
