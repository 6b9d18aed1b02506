//! What holds of every forest, as functions that do nothing and whose contracts are the laws.

ghost use Rattle.sched_base.specs.KeyedList.{IsPlaced};
ghost use Rattle.eb32_walk.specs.Ends.{IsIn};
ghost use Rattle.eb32_core.specs.Forest.{AreShort, seen_of};

use crate::forest::Forest;

/// What is in a tree of the arena stands in a root, so an entry that a walk found may be deleted.
pub fn trees_stand_in_roots(forest: &Forest, entry: u32)
    requires { IsIn forest.now.parts entry }
    ensures { IsPlaced entry (seen_of forest.now) }
{
    let _arena = forest.arena();
}

/// The right spine of each key has at most k nodes, where 2^k is at most one more than the insertions
/// so far into the root, whatever was deleted in between.
pub fn spines_are_short(forest: &Forest)
    ensures { AreShort forest.now }
{
    forest.stay_short();
}
