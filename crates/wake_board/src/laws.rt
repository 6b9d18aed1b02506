//! What holds of all words and boards, as functions that do nothing and whose contracts are the laws.

ghost use Rattle.wake_board.specs.Laws.{WordsStandForOneState, NewWordsStand, SeatedWordsStand, DealtWordsStand, TasksAreInOnePlace, BodiesAreInOnePlace, CallsTellOwn, SharedTasksHaveRoom};

/// Words and holders stand for one state at most.
pub fn words_stand_for_one_state()
    ensures { WordsStandForOneState }
{}

/// New words stand for the state in which all tasks rest.
pub fn new_words_stand()
    ensures { NewWordsStand }
{}

/// Words that stand for a state still do after `Words::seat_init`, for the state in which the task is seated.
pub fn seated_words_stand()
    ensures { SeatedWordsStand }
{}

/// Words that stand for a state still do after `Words::deal`, for the state in which the task is in the worker's box.
pub fn dealt_words_stand()
    ensures { DealtWordsStand }
{}

/// At every moment a task with something to run for is in one pass's hands, drawn by one pass, run by one pass or in one
/// box, and no task is in two places.
pub fn tasks_are_in_one_place()
    ensures { TasksAreInOnePlace }
{}

/// At every moment the body of a shared task that is not gone is at home, with the task's takes and the row that comes after
/// so many, or out with the pass that has drawn the task or runs it; and it is not in two places.
pub fn bodies_are_in_one_place()
    ensures { BodiesAreInOnePlace }
{}

/// After a call, what the pass has of each task follows from what it had, from the call and from the reply, and nothing else.
pub fn calls_tell_own()
    ensures { CallsTellOwn }
{}

/// A shared task that is not gone has room to be taken once more, since no caller takes shared tasks more than 2^40 times.
pub fn shared_tasks_have_room()
    ensures { SharedTasksHaveRoom }
{}
