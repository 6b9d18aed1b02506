//! Scripts with the texts of their runs, which were worked out apart from the program.

/// One task that kills itself.
pub(crate) const FIRST: &str =
    "taskscript 1\nworkers 1\ndepth 200\nstart 0\nstep 1\nrounds 5\ntask a home 0 nice 0 rows 1 init\nrow a 0 kill a next 0\nend\n";

pub(crate) const FIRST_TEXT: &str =
    "taskrun 1\nround 0 tick 0\nc0 get 0 0000000000000001\nc0 take 0 queued init live 0\nc0 kill 0 runs - live 1\nc0 drop 0 runs - killed 1\nc0 retire 0 queued - killed 1\nend rest 0\n";

/// No task.
pub(crate) const EMPTY: &str =
    "taskscript 1\nworkers 1\ndepth 200\nstart 0\nstep 1\nrounds 5\nend\n";

pub(crate) const EMPTY_TEXT: &str = "taskrun 1\nround 0 tick 0\nend rest 0\n";

/// A task that wakes itself at each run.
pub(crate) const SELF_WAKE: &str =
    "taskscript 1\nworkers 1\ndepth 200\nstart 1\nstep 1\nrounds 3\ntask a home 0 nice 0 rows 1 init\nrow a 0 wake a other next 0\nend\n";

pub(crate) const SELF_WAKE_TEXT: &str =
    "taskrun 1\nround 0 tick 1\nc0 get 0 0000000000000001\nc0 take 0 queued init live 0\nc0 wake 0 other runs - live 1\nc0 drop 0 runs other live 1\nround 1 tick 2\nc0 get 0 0000000000000000\nc0 take 0 queued other live 1\nc0 wake 0 other runs - live 2\nc0 drop 0 runs other live 2\nround 2 tick 3\nc0 get 0 0000000000000000\nc0 take 0 queued other live 2\nc0 wake 0 other runs - live 3\nc0 drop 0 runs other live 3\nend limit 2\n";

/// A timer across the wrap of ticks.
pub(crate) const TIMER: &str =
    "taskscript 1\nworkers 1\ndepth 200\nstart 4294967290\nstep 4\nrounds 10\ntask a home 0 nice 0 rows 2 init\nrow a 0 after 10 next 1\nrow a 1 kill a next 1\nend\n";

pub(crate) const TIMER_TEXT: &str =
    "taskrun 1\nround 0 tick 4294967290\nc0 get 0 0000000000000001\nc0 take 0 queued init live 0\nc0 drop 0 runs - live 1\nround 1 tick 4294967294\nc0 get 0 0000000000000000\nround 2 tick 2\nc0 get 0 0000000000000000\nround 3 tick 6\nc0 get 0 0000000000000000\nc0 wake 0 timer rest - live 1\nc0 take 0 queued timer live 1\nc0 kill 0 runs - live 2\nc0 drop 0 runs - killed 2\nc0 retire 0 queued - killed 2\nend rest 3\n";

/// The same script in version 2: its ticks jump to the timer.
pub(crate) const JUMP: &str =
    "taskscript 2\nworkers 1\ndepth 200\nstart 4294967290\nstep 4\nrounds 10\ntask a home 0 nice 0 rows 2 init\nrow a 0 after 10 next 1\nrow a 1 kill a next 1\nend\n";

pub(crate) const JUMP_TEXT: &str =
    "taskrun 1\nround 0 tick 4294967290\nc0 get 0 0000000000000001\nc0 take 0 queued init live 0\nc0 drop 0 runs - live 1\nround 1 tick 4\nc0 get 0 0000000000000000\nc0 wake 0 timer rest - live 1\nc0 take 0 queued timer live 1\nc0 kill 0 runs - live 2\nc0 drop 0 runs - killed 2\nc0 retire 0 queued - killed 2\nend rest 1\n";

/// Two workers with a timer each, of which the second one's comes first; a jump that is shorter than a step; and an event
/// that stops a jump.
pub(crate) const SECOND_FIRST: &str =
    "taskscript 2\nworkers 2\ndepth 200\nstart 1000\nstep 10\nrounds 20\ntask a home 0 nice 0 rows 2 init\ntask b home 1 nice 0 rows 2 init\nrow a 0 after 50 next 1\nrow a 1 kill a next 1\nrow b 0 after 30 next 1\nrow b 1 kill b next 1\nend\n";

pub(crate) const SHORT_JUMP: &str =
    "taskscript 2\nworkers 1\ndepth 200\nstart 1000\nstep 100\nrounds 20\ntask a home 0 nice 0 rows 2 init\nrow a 0 after 50 next 1\nrow a 1 kill a next 1\nend\n";

pub(crate) const STOPPED_JUMP: &str =
    "taskscript 2\nworkers 1\ndepth 200\nstart 1000\nstep 10\nrounds 20\ntask a home 0 nice 0 rows 2 init\ntask b home 0 nice 0 rows 1\nrow a 0 after 50 next 1\nrow a 1 kill a next 1\nrow b 0 kill b next 0\nevent 1 wake b other\nend\n";

/// The first of its lines.
pub(crate) const TIMER_CUT: &str =
    "taskscript 1\nworkers 1\ndepth 200\nstart 4294967290\nstep 4\nrounds 10\ntask a home 0 nice 0 rows 2 init\nrow a 0 after 10 next 1\n";

/// The summaries of the generated scripts of seed 0 with one task and of seed 7 with 64.
pub(crate) const SMALLEST_SUMMARY: &str = "tasks 1\nrounds 33\ntakes 3\nwakes 2\nend rest 32\n";

pub(crate) const SUMMARY_OF_64: &str = "tasks 64\nrounds 100\ntakes 192\nwakes 139\nend rest 99\n";

/// A check with a timer, and a tasklet that is killed while it is queued.
pub(crate) const CHECK: &str =
    "taskscript 1\nworkers 1\ndepth 200\nstart 1000\nstep 10\nrounds 20\ntask check home 0 nice 0 rows 2 init\ntasklet conn home 0 class urgent rows 1\nrow check 0 wake conn io after 20 next 1\nrow check 1 kill conn kill check next 1\nrow conn 0 next 0\nend\n";

pub(crate) const CHECK_TEXT: &str =
    "taskrun 1\nround 0 tick 1000\nc0 get 0 0000000000000001\nc0 take 0 queued init live 0\nc0 wake 1 io rest - live 0\nc0 drop 0 runs - live 1\nround 1 tick 1010\nc0 get 0 0000000000000000\nc0 take 1 queued io live 0\nc0 drop 1 runs - live 1\nround 2 tick 1020\nc0 get 0 0000000000000000\nc0 wake 0 timer rest - live 1\nc0 take 0 queued timer live 1\nc0 kill 1 rest - live 1\nc0 kill 0 runs - live 2\nc0 drop 0 runs - killed 2\nc0 retire 0 queued - killed 2\nround 3 tick 1030\nc0 get 0 0000000000000000\nc0 take 1 queued - killed 1\nc0 retire 1 runs - live 2\nend rest 3\n";

/// Two tasks of one worker.
pub(crate) const TOGETHER: &str =
    "taskscript 1\nworkers 1\ndepth 200\nstart 0\nstep 1\nrounds 5\ntask a home 0 nice 0 rows 1 init\ntask b home 0 nice 0 rows 1\nrow a 0 wake b io kill a next 0\nrow b 0 kill b next 0\nend\n";

pub(crate) const TOGETHER_TEXT: &str =
    "taskrun 1\nround 0 tick 0\nc0 get 0 0000000000000001\nc0 take 0 queued init live 0\nc0 wake 1 io rest - live 0\nc0 kill 0 runs - live 1\nc0 drop 0 runs - killed 1\nc0 retire 0 queued - killed 1\nround 1 tick 1\nc0 get 0 0000000000000000\nc0 take 1 queued io live 0\nc0 kill 1 runs - live 1\nc0 drop 1 runs - killed 1\nc0 retire 1 queued - killed 1\nend rest 1\n";

/// Two tasks of two workers, and an event.
pub(crate) const APART: &str =
    "taskscript 1\nworkers 2\ndepth 200\nstart 0\nstep 1\nrounds 5\ntask a home 0 nice 0 rows 1 init\ntask b home 1 nice 0 rows 1\nrow a 0 wake b io kill a next 0\nrow b 0 kill b next 0\nevent 2 wake b io\nend\n";

/// The calls of its first worker.
pub(crate) const APART_FIRST: &str =
    "c0 get 0 0000000000000001\nc0 take 0 queued init live 0\nc0 wake 1 io rest - live 0\nc0 post 1 1\nc0 kill 0 runs - live 1\nc0 drop 0 runs - killed 1\nc0 retire 0 queued - killed 1\nc0 get 0 0000000000000000\nc0 get 0 0000000000000000\n";

/// Two tasks of two workers, each of which kills itself.
pub(crate) const TWO_ALONE: &str =
    "taskscript 1\nworkers 2\ndepth 200\nstart 0\nstep 1\nrounds 1\ntask a home 0 nice 0 rows 1 init\ntask b home 1 nice 0 rows 1 init\nrow a 0 kill a next 0\nrow b 0 kill b next 0\nend\n";

/// Three shared tasks, drawn by nice.
pub(crate) const SHARED: &str =
    "taskscript 1\nworkers 1\ndepth 200\nstart 0\nstep 1\nrounds 5\ntask a shared nice 0 rows 1 init\ntask b shared nice 1 rows 1 init\ntask c shared nice -1 rows 1 init\nrow a 0 kill a next 0\nrow b 0 kill b next 0\nrow c 0 kill c next 0\nend\n";

pub(crate) const SHARED_TEXT: &str =
    "taskrun 1\nround 0 tick 0\nc0 get 0 0000000000000000\nc0 draw 2\nc0 take 2 queued init live 0\nc0 kill 2 runs - live 1\nc0 drop 2 runs - killed 1\nc0 retire 2 queued - killed 1\nc0 draw 0\nc0 take 0 queued init live 0\nc0 kill 0 runs - live 1\nc0 drop 0 runs - killed 1\nc0 retire 0 queued - killed 1\nc0 draw 1\nc0 take 1 queued init live 0\nc0 kill 1 runs - live 1\nc0 drop 1 runs - killed 1\nc0 retire 1 queued - killed 1\nend rest 0\n";

/// The same tasks and two workers.
pub(crate) const SHARED_BY_TWO: &str =
    "taskscript 1\nworkers 2\ndepth 200\nstart 0\nstep 1\nrounds 5\ntask a shared nice 0 rows 1 init\ntask b shared nice 1 rows 1 init\ntask c shared nice -1 rows 1 init\nrow a 0 kill a next 0\nrow b 0 kill b next 0\nrow c 0 kill c next 0\nend\n";

/// A shared task that wakes itself, which is drawn as often as a turn allows.
pub(crate) const DRAWN_AGAIN: &str =
    "taskscript 1\nworkers 1\ndepth 2\nstart 0\nstep 1\nrounds 3\ntask a shared nice 0 rows 1 init\nrow a 0 wake a io next 0\nend\n";

pub(crate) const DRAWN_AGAIN_TEXT: &str =
    "taskrun 1\nround 0 tick 0\nc0 get 0 0000000000000000\nc0 draw 0\nc0 take 0 queued init live 0\nc0 wake 0 io runs - live 1\nc0 drop 0 runs io live 1\nc0 post 0 1\nc0 draw 0\nc0 take 0 queued io live 1\nc0 wake 0 io runs - live 2\nc0 drop 0 runs io live 2\nc0 post 0 1\nround 1 tick 1\nc0 get 0 0000000000000000\nc0 draw 0\nc0 take 0 queued io live 2\nc0 wake 0 io runs - live 3\nc0 drop 0 runs io live 3\nc0 post 0 1\nc0 draw 0\nc0 take 0 queued io live 3\nc0 wake 0 io runs - live 4\nc0 drop 0 runs io live 4\nc0 post 0 1\nround 2 tick 2\nc0 get 0 0000000000000000\nc0 draw 0\nc0 take 0 queued io live 4\nc0 wake 0 io runs - live 5\nc0 drop 0 runs io live 5\nc0 post 0 1\nc0 draw 0\nc0 take 0 queued io live 5\nc0 wake 0 io runs - live 6\nc0 drop 0 runs io live 6\nc0 post 0 1\nend limit 2\n";

/// The same task and two workers.
pub(crate) const DRAWN_BY_TWO: &str =
    "taskscript 1\nworkers 2\ndepth 5\nstart 0\nstep 1\nrounds 3\ntask a shared nice 0 rows 1 init\nrow a 0 wake a io next 0\nend\n";

/// A tasklet that wakes itself and has runs left, beside a task that waits for the next turn.
pub(crate) const PUSHED_AGAIN: &str =
    "taskscript 1\nworkers 1\ndepth 5\nstart 0\nstep 1\nrounds 2\ntasklet a home 0 class urgent rows 3 init\ntask b home 0 nice 0 rows 1\nrow a 0 wake a io wake b msg next 1\nrow a 1 wake a io next 2\nrow a 2 next 2\nrow b 0 next 0\nend\n";

pub(crate) const PUSHED_AGAIN_TEXT: &str =
    "taskrun 1\nround 0 tick 0\nc0 get 0 0000000000000001\nc0 take 0 queued init live 0\nc0 wake 0 io runs - live 1\nc0 wake 1 msg rest - live 0\nc0 drop 0 runs io live 1\nc0 take 0 queued io live 1\nc0 wake 0 io runs - live 2\nc0 drop 0 runs io live 2\nc0 take 0 queued io live 2\nc0 drop 0 runs - live 3\nround 1 tick 1\nc0 get 0 0000000000000000\nc0 take 1 queued msg live 0\nc0 drop 1 runs - live 1\nend rest 1\n";

/// A timer set later, one set earlier, one unset, and one whose task is killed.
pub(crate) const MOVED_TIMERS: &str =
    "taskscript 1\nworkers 1\ndepth 200\nstart 1\nstep 5\nrounds 8\ntask later home 0 nice 0 rows 3 init\ntask earlier home 0 nice 0 rows 3 init\ntask unset home 0 nice 0 rows 2 init\ntask killed home 0 nice 0 rows 1 init\ntask other home 0 nice 2 rows 2 init\nrow later 0 after 6 next 1\nrow later 1 after 20 next 2\nrow later 2 next 2\nrow earlier 0 after 30 next 1\nrow earlier 1 after 3 next 2\nrow earlier 2 next 2\nrow unset 0 after 12 next 1\nrow unset 1 never next 1\nrow killed 0 after 15 next 0\nrow other 0 wake later res wake earlier res wake unset res kill killed next 1\nrow other 1 next 1\nend\n";

pub(crate) const MOVED_TIMERS_TEXT: &str =
    "taskrun 1\nround 0 tick 1\nc0 get 0 000000000000001f\nc0 take 0 queued init live 0\nc0 drop 0 runs - live 1\nc0 take 1 queued init live 0\nc0 drop 1 runs - live 1\nc0 take 2 queued init live 0\nc0 drop 2 runs - live 1\nc0 take 3 queued init live 0\nc0 drop 3 runs - live 1\nc0 take 4 queued init live 0\nc0 wake 0 res rest - live 1\nc0 wake 1 res rest - live 1\nc0 wake 2 res rest - live 1\nc0 kill 3 rest - live 1\nc0 drop 4 runs - live 1\nround 1 tick 6\nc0 get 0 0000000000000000\nc0 take 0 queued res live 1\nc0 drop 0 runs - live 2\nc0 take 1 queued res live 1\nc0 drop 1 runs - live 2\nc0 take 2 queued res live 1\nc0 drop 2 runs - live 2\nc0 take 3 queued - killed 1\nc0 retire 3 runs - live 2\nround 2 tick 11\nc0 get 0 0000000000000000\nc0 wake 1 timer rest - live 2\nc0 take 1 queued timer live 2\nc0 drop 1 runs - live 3\nround 3 tick 16\nc0 get 0 0000000000000000\nround 4 tick 21\nc0 get 0 0000000000000000\nround 5 tick 26\nc0 get 0 0000000000000000\nc0 wake 0 timer rest - live 2\nc0 take 0 queued timer live 2\nc0 drop 0 runs - live 3\nend rest 5\n";
