//! Draws from the shared box of a board.

ghost use Rattle.std.specs.Prelude.{◌≡◌, ◌≤◌, MatchOption, length};
ghost use Rattle.wake_board.specs.Rows.{groups};
ghost use Rattle.wake_board.specs.Seen.{Held, IsPassOf};
ghost use Rattle.shared_queue.specs.Drawing.{FindsNone, Draws};
ghost use Rattle.shared_queue.specs.Looking.{Looked};

use crate::ranking::Ranking;
use crate::shared_queue::SharedQueue;
use sched_base::{KeyedLists, TaskId};
use wake_board::{Board, Pass};

/// How many tasks a group has.
const GROUP: usize = 64;

/// How many groups there are at most.
const GROUPS: usize = 1024;

/// For so many groups a small array is enough.
const FEW: usize = 64;

impl<K: KeyedLists> SharedQueue<K> {
    /// Draws the first task, by nice and then by number, of those that are in the shared box of a board. It looks at each
    /// word of the box once, and tries the tasks that it saw there one after another; those that it does not find are
    /// misses of the pass. None exactly where these misses name every task. It takes no memory. The look takes time linear
    /// in the number of groups of 64 tasks, and each try in the number of spans, one for each nice in each group.
    pub fn draw_for(&self, board: &Board, pass: &mut Pass) -> Option<TaskId>
        requires board { IsPassOf board.now pass.old }
        requires tasks { length board.now.start.state.tasks ≡ length self.now.ranks }
        ensures board { IsPassOf board.now pass.new }
        ensures drawn { MatchOption result (FindsNone self.now.ranks pass.old pass.new) (λ id. Draws self.now.ranks pass.old id.0 pass.new) }
    {
        let groups = (self.ranks.len() + GROUP - 1) / GROUP;
        if groups <= FEW {
            let mut words = [0; FEW];
            draw_over(&self.ranks, board, pass, &mut words[..groups])
        } else {
            let mut words = [0; GROUPS];
            draw_over(&self.ranks, board, pass, &mut words[..groups])
        }
    }
}

/// Draws the first task, with a word for each group to keep what was seen.
fn draw_over(ranking: &Ranking, board: &Board, pass: &mut Pass, words: &mut [u64]) -> Option<TaskId>
    requires board { IsPassOf board.now pass.old }
    requires tasks { length board.now.start.state.tasks ≡ length ranking.now }
    requires few { length ranking.now ≤ 65536 }
    requires sized { length words.old ≡ groups (length ranking.now) }
    ensures board { IsPassOf board.now pass.new }
    ensures drawn { MatchOption result (FindsNone ranking.now pass.old pass.new) (λ id. Draws ranking.now pass.old id.0 pass.new) }
{
    look(board, pass, words);
    try_seen(ranking, board, pass, words)
}

/// Looks at all words of the shared box.
fn look(board: &Board, pass: &mut Pass, words: &mut [u64])
    requires board { IsPassOf board.now pass.old }
    requires sized { length words.old ≡ groups (length board.now.start.state.tasks) }
    requires few { length words.old ≤ 1024 }
    ensures { Looked (length board.now.start.state.tasks) (length words.old) words.new pass.old pass.new }
{
    'looks: for (group, word) in words.iter_mut().enumerate() {
        *word = board.peep(pass, group as u32);
    }
}

/// Tries to draw the tasks that are set in the words, the first of them first.
fn try_seen(ranking: &Ranking, board: &Board, pass: &mut Pass, words: &mut [u64]) -> Option<TaskId>
    requires board { IsPassOf board.now pass.old }
    requires tasks { length board.now.start.state.tasks ≡ length ranking.now }
    requires few { length ranking.now ≤ 65536 }
    requires sized { length words.old ≡ groups (length ranking.now) }
    ensures board { IsPassOf board.now pass.new }
    ensures drawn { (p : Held) → Looked (length ranking.now) (length words.old) words.old p pass.old → MatchOption result (FindsNone ranking.now p pass.new) (λ id. Draws ranking.now p id.0 pass.new) }
{
    'tries: while let Some(task) = ranking.first_seen(words) {
        if board.draw(pass, TaskId(task)) {
            return Some(TaskId(task));
        }
        words[task as usize / GROUP] &= !(1 << (task % 64));
    }
    None
}
