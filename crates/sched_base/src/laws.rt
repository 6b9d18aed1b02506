//! Laws of keyed lists: each function does nothing, and its contract is the law.

ghost use Rattle.sched_base.specs.Laws.{DeletionsKeepKeyed, InsertionsKeepKeyed};

/// After an insertion keys still never fall along the list, and no entry stands there twice.
pub fn insertions_keep_keyed()
    ensures { InsertionsKeepKeyed }
{}

/// And so it is after a deletion.
pub fn deletions_keep_keyed()
    ensures { DeletionsKeepKeyed }
{}
