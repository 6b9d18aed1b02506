//! What holds of all legal merges, as functions that do nothing and whose contracts are the laws.

ghost use Rattle.history_weave.specs.Merge.{MergesAgree};
ghost use Rattle.history_weave.specs.InWords.{RuleIsInWords};

/// All legal merges of the same logs from the same state lead to one state.
pub fn merges_agree()
    ensures { MergesAgree }
{}

/// Where the entries that are left have a legal merge, the rule by which a merge goes on is the one
/// that can be said in words: it asks all entries that are left, and not the next ones alone.
pub fn rule_is_in_words()
    ensures { RuleIsInWords }
{}
