//! Scripts with the lines of their runs, which were worked out apart from the program.

/// A timer across the wrap of ticks.
pub(crate) const TIMER: &str =
    "taskscript 1\nworkers 1\ndepth 200\nstart 4294967290\nstep 4\nrounds 10\ntask a home 0 nice 0 rows 2 init\nrow a 0 after 10 next 1\nrow a 1 kill a next 1\nend\n";

pub(crate) const TIMER_LINES: [&str; 17] = [
    "taskrun 1",
    "round 0 tick 4294967290",
    "c0 get 0 0000000000000001",
    "c0 take 0 queued init live 0",
    "c0 drop 0 runs - live 1",
    "round 1 tick 4294967294",
    "c0 get 0 0000000000000000",
    "round 2 tick 2",
    "c0 get 0 0000000000000000",
    "round 3 tick 6",
    "c0 get 0 0000000000000000",
    "c0 wake 0 timer rest - live 1",
    "c0 take 0 queued timer live 1",
    "c0 kill 0 runs - live 2",
    "c0 drop 0 runs - killed 2",
    "c0 retire 0 queued - killed 2",
    "end rest 3",
];

/// The same timer in version 2, to which the tick jumps.
pub(crate) const JUMP: &str =
    "taskscript 2\nworkers 1\ndepth 200\nstart 4294967290\nstep 4\nrounds 10\ntask a home 0 nice 0 rows 2 init\nrow a 0 after 10 next 1\nrow a 1 kill a next 1\nend\n";

pub(crate) const JUMP_LINES: [&str; 13] = [
    "taskrun 1",
    "round 0 tick 4294967290",
    "c0 get 0 0000000000000001",
    "c0 take 0 queued init live 0",
    "c0 drop 0 runs - live 1",
    "round 1 tick 4",
    "c0 get 0 0000000000000000",
    "c0 wake 0 timer rest - live 1",
    "c0 take 0 queued timer live 1",
    "c0 kill 0 runs - live 2",
    "c0 drop 0 runs - killed 2",
    "c0 retire 0 queued - killed 2",
    "end rest 1",
];

/// A task that wakes itself at each run.
pub(crate) const SELF_WAKE: &str =
    "taskscript 1\nworkers 1\ndepth 200\nstart 1\nstep 1\nrounds 3\ntask a home 0 nice 0 rows 1 init\nrow a 0 wake a other next 0\nend\n";

pub(crate) const SELF_WAKE_LINES: [&str; 17] = [
    "taskrun 1",
    "round 0 tick 1",
    "c0 get 0 0000000000000001",
    "c0 take 0 queued init live 0",
    "c0 wake 0 other runs - live 1",
    "c0 drop 0 runs other live 1",
    "round 1 tick 2",
    "c0 get 0 0000000000000000",
    "c0 take 0 queued other live 1",
    "c0 wake 0 other runs - live 2",
    "c0 drop 0 runs other live 2",
    "round 2 tick 3",
    "c0 get 0 0000000000000000",
    "c0 take 0 queued other live 2",
    "c0 wake 0 other runs - live 3",
    "c0 drop 0 runs other live 3",
    "end limit 2",
];

/// Three shared tasks, drawn by nice.
pub(crate) const SHARED: &str =
    "taskscript 1\nworkers 1\ndepth 200\nstart 0\nstep 1\nrounds 5\ntask a shared nice 0 rows 1 init\ntask b shared nice 1 rows 1 init\ntask c shared nice -1 rows 1 init\nrow a 0 kill a next 0\nrow b 0 kill b next 0\nrow c 0 kill c next 0\nend\n";

pub(crate) const SHARED_LINES: [&str; 19] = [
    "taskrun 1",
    "round 0 tick 0",
    "c0 get 0 0000000000000000",
    "c0 draw 2",
    "c0 take 2 queued init live 0",
    "c0 kill 2 runs - live 1",
    "c0 drop 2 runs - killed 1",
    "c0 retire 2 queued - killed 1",
    "c0 draw 0",
    "c0 take 0 queued init live 0",
    "c0 kill 0 runs - live 1",
    "c0 drop 0 runs - killed 1",
    "c0 retire 0 queued - killed 1",
    "c0 draw 1",
    "c0 take 1 queued init live 0",
    "c0 kill 1 runs - live 1",
    "c0 drop 1 runs - killed 1",
    "c0 retire 1 queued - killed 1",
    "end rest 0",
];

/// A task that an event wakes.
pub(crate) const WOKEN: &str =
    "taskscript 1\nworkers 1\ndepth 200\nstart 0\nstep 1\nrounds 5\ntask a home 0 nice 0 rows 1\nrow a 0 kill a next 0\nevent 0 wake a io\nend\n";

pub(crate) const WOKEN_LINES: [&str; 12] = [
    "taskrun 1",
    "round 0 tick 0",
    "c0 get 0 0000000000000000",
    "c1 wake 0 io rest - live 0",
    "c1 post 0 0",
    "round 1 tick 1",
    "c0 get 0 0000000000000001",
    "c0 take 0 queued io live 0",
    "c0 kill 0 runs - live 1",
    "c0 drop 0 runs - killed 1",
    "c0 retire 0 queued - killed 1",
    "end rest 1",
];
