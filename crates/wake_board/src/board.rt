//! The board and its calls.

ghost use Rattle.std.specs.Prelude.{◌≡◌, ◌≢◌, [], ◌∷◌, true, false, ℕ, ◌+◌, ◌-◌, ◌*◌, ◌^◌, ◌<◌, ◌≤◌, length, IfOk};
ghost use Rattle.std.specs.Int.{bit_at};
ghost use Rattle.task_machine.specs.Own.{away, holding, drawing, running};
ghost use Rattle.task_machine.specs.Step.{State};
ghost use Rattle.task_machine.specs.declared.calls.Call.TheVariants as calls;
ghost use Rattle.task_machine.specs.declared.calls.Reply.TheVariants as replies;
ghost use Rattle.wake_board.specs.Between.{StandBetween, FewTakes};
ghost use Rattle.wake_board.specs.Start.{home_of};
ghost use Rattle.step_tables.specs.Nexts.{row_after};
ghost use Rattle.wake_board.specs.Outs.{NoBody, out_of, without};
ghost use Rattle.wake_board.specs.Bodies.{with_outs, IsOutWith, MayTake};
ghost use Rattle.wake_board.specs.Ends.{Opens, AllBack, Finishes, own_by};
ghost use Rattle.wake_board.specs.Seen.{Calls, Misses, WasTaken, takes_seen, clear_in, IsPassOf};

use crate::body::Body;
use crate::open::{deal_passes, gather, lay, opening_of};
use crate::pass::Pass;
use crate::passes::Passes;
use crate::slots::{slot_in, slot_out};
use crate::views::{
    Draws, Drops, Gets, Kills, Looks, Opening, Peeps, Posts, Retires, Ruling, Takes, View, Wakes,
};
use crate::words::Words;
use atomic_table::Table;
use sched_base::{Reasons, TaskId};
use std::alloc::{AllocError, Global};
use std::marker::{Brand, Model};
use step_tables::Nexts;
use task_machine::Seen;
use task_word::{DROP_MASK, GONE, KILL_BITS, after_take, seen_of, takes_of, wake_bits_of};

/// How many tasks a group has.
const GROUP: u32 = 64;

/// The words of all tasks and boxes, which all callers change at once. Contracts see which board it is, and with what it
/// was opened.
#[derive(Drop)]
pub struct Board {
    table: Table<Body, View, Opening, Ruling, Global>,
    words: Words,
}

impl Model for Board {
    ghost use Rattle.wake_board.specs.Seen.{Laid};
    ghost use Rattle.wake_board.specs.Start.{start_of};
    ghost use Rattle.wake_board.specs.Sized.{IsSized};

    ghost Value = { Laid };

    ghost view = { λ b. record { board = b.table.shared.table_id; start = start_of b.table.shared.key } };

    ghost invariant = { λ b. IsSized b.table.shared.table_id (start_of b.table.shared.key) b.words };
}

impl Board {
    /// A board on these words, and one pass for each caller: the workers and the injector. Words and holders stand for a
    /// state, in which the takes of shared tasks are below 2^47. Want of memory is the one error, and drops the words.
    pub fn from_words(
        alloc: Global,
        words: Words,
        homes: &[u32],
        holders: &[u32],
        nexts: &Nexts,
    ) -> Result<(Board, Passes), AllocError>
        requires { (m : State) × StandBetween words homes.now holders.now nexts.now m × FewTakes homes.now m }
        ensures { IfOk result (λ r. Opens words homes.now holders.now nexts.now r.0 r.1) }
    {
        let opening = opening_of(alloc, &words, homes, holders, nexts)?;
        let (table, seat) = lay(alloc, &words, &opening)?;
        let places = deal_passes(alloc, &table.shared, seat, words.workers() + 1)?;
        Ok((Board { table, words }, Passes { places }))
    }

    /// The words that are left when all passes are back, in the memory of those with which the board was made.
    pub fn finish(self, passes: Passes) -> Words
        requires { AllBack self passes }
        ensures { Finishes self passes result }
    {
        let Board { table, words } = self;
        let Passes { places } = passes;
        let seat = gather(&table.shared, places);
        words.filled(table.close_with(seat))
    }

    /// Adds reasons to a task, and says what was seen of it. Where it rested it is in the caller's hands from now on.
    pub fn wake(&self, pass: &mut Pass, id: TaskId, reasons: Reasons) -> Seen
        requires board { IsPassOf self.now pass.old }
        requires exists { id.0 < length self.now.start.state.tasks }
        requires some { reasons ≢ 0 }
        ensures { Calls pass.old (calls.Wake id reasons) (replies.Task result) pass.new }
    {
        let bits = wake_bits_of(reasons);
        let word = self
            .table
            .shared
            .fetch_or::<Wakes>(&mut pass.seat, id.0 as usize + 1, bits);
        seen_of(word)
    }

    /// Marks a task as killed, and says what was seen of it. Where it rested it is in the caller's hands from now on.
    pub fn kill(&self, pass: &mut Pass, id: TaskId) -> Seen
        requires board { IsPassOf self.now pass.old }
        requires exists { id.0 < length self.now.start.state.tasks }
        ensures { Calls pass.old (calls.Kill id) (replies.Task result) pass.new }
    {
        let word = self
            .table
            .shared
            .fetch_or::<Kills>(&mut pass.seat, id.0 as usize + 1, KILL_BITS);
        seen_of(word)
    }

    /// Puts a task that is in the caller's hands into the box that is its home.
    pub fn post(&self, pass: &mut Pass, id: TaskId, boxno: u32)
        requires board { IsPassOf self.now pass.old }
        requires exists { id.0 < length self.now.start.state.tasks }
        requires box_exists { boxno ≤ self.now.start.state.workers }
        requires held { own_by pass.old id.0 ≡ holding }
        requires home { home_of self.now.start id.0 ≡ boxno }
        ensures { Calls pass.old (calls.Post id boxno) replies.Done pass.new }
    {
        let at = self.words.box_place(boxno, id.0 / GROUP);
        let bit = 1u64 << (id.0 % GROUP);
        self.table.shared.fetch_or::<Posts>(&mut pass.seat, at, bit);
    }

    /// Takes the tasks of a group out of the caller's own box into its hands: bit j stands for task `64 * group + j`.
    /// The caller is a worker.
    pub fn get(&self, pass: &mut Pass, group: u32) -> u64
        requires board { IsPassOf self.now pass.old }
        requires worker { pass.old.who < self.now.start.state.workers }
        requires exists { 64 * group < length self.now.start.state.tasks }
        ensures calls { Calls pass.old (calls.Get group) (replies.Group result) pass.new }
        ensures homes { (j : ℕ) → j < 64 → bit_at result j ≡ 1 → home_of self.now.start (64 * group + j) ≡ pass.old.who }
        ensures fresh { (j : ℕ) → j < 64 → bit_at result j ≡ 1 → own_by pass.old (64 * group + j) ≡ away }
    {
        let at = self.words.box_place(pass.who.0, group);
        self.table.shared.swap::<Gets>(&mut pass.seat, at, 0)
    }

    /// The word of a group of the shared box: bit j stands for task `64 * group + j`. The tasks that are not in it are
    /// misses of the pass from now on.
    pub fn peep(&self, pass: &mut Pass, group: u32) -> u64
        requires board { IsPassOf self.now pass.old }
        requires exists { 64 * group < length self.now.start.state.tasks }
        ensures { Misses pass.old (clear_in (length self.now.start.state.tasks) group result) pass.new }
    {
        let at = self.words.box_place(self.words.workers(), group);
        self.table.shared.load::<Peeps>(&mut pass.seat, at)
    }

    /// Draws a task out of the shared box, if it is there, and says whether it was. A task that was not is a miss of the
    /// pass from now on.
    pub fn draw(&self, pass: &mut Pass, id: TaskId) -> bool
        requires board { IsPassOf self.now pass.old }
        requires exists { id.0 < length self.now.start.state.tasks }
        ensures drawn { result ≡ true → Calls pass.old (calls.Draw id) replies.Done pass.new }
        ensures missed { result ≡ false → Misses pass.old (id.0 ∷ []) pass.new }
    {
        let at = self.words.box_place(self.words.workers(), id.0 / GROUP);
        let bit = 1u64 << (id.0 % GROUP);
        let word = self
            .table
            .shared
            .fetch_and::<Draws>(&mut pass.seat, at, !bit);
        (word >> (id.0 % GROUP)) & 1 == 1
    }

    /// Takes the body of a task that the caller has drawn out of its place. From now on the pass knows how often the task
    /// was taken.
    pub fn body_out(&self, pass: &mut Pass, id: TaskId) -> Body
        requires board { IsPassOf self.now pass.old }
        requires exists { id.0 < length self.now.start.state.tasks }
        requires drawn { own_by pass.old id.0 ≡ drawing }
        requires home { NoBody pass.old.outs id.0 }
        ensures out { pass.new ≡ with_outs pass.old (out_of id.0 result.takes ∷ pass.old.outs) }
        ensures row { result.row ≡ row_after self.now.start.nexts id.0 result.takes }
        ensures room { result.takes < 2 ^ 48 - 1 }
        ensures shared { home_of self.now.start id.0 ≡ self.now.start.state.workers }
        ensures taken { WasTaken pass.old.start pass.old.who pass.old.entries id.0 result.takes }
    {
        slot_out::<Brand>(&self.table.shared, &mut pass.seat, id.0)
    }

    /// Puts the body of a task, which is out with the pass, back into its place, with the takes that the pass knows and the
    /// row that comes after so many takes. From now on the pass does not know the takes of this task.
    pub fn body_in(&self, pass: &mut Pass, id: TaskId, body: Body)
        requires board { IsPassOf self.now pass.old }
        requires out { IsOutWith pass.old id.0 body.takes }
        requires row { body.row ≡ row_after self.now.start.nexts id.0 body.takes }
        ensures back { pass.new ≡ with_outs pass.old (without id.0 pass.old.outs) }
        ensures home { NoBody pass.new.outs id.0 }
    {
        slot_in::<Brand>(&self.table.shared, &mut pass.seat, id.0, body);
    }

    /// Takes a task to run it: one of the caller's own, which is in its hands, or one that it has drawn and whose body is
    /// out with it. The reply has the takes that the pass knows. The task's word is looked at first, since it has these takes
    /// until the task is taken.
    pub fn take(&self, pass: &mut Pass, id: TaskId) -> Seen
        requires board { IsPassOf self.now pass.old }
        requires exists { id.0 < length self.now.start.state.tasks }
        requires may { (t : ℕ) × MayTake pass.old id.0 t × t < 2 ^ 48 - 1 }
        ensures calls { Calls pass.old (calls.Take id) (replies.Task result) pass.new }
        ensures takes { (t : ℕ) → MayTake pass.old id.0 t → takes_seen result ≡ t }
    {
        let at = id.0 as usize + 1;
        let before = self.table.shared.load::<Looks>(&mut pass.seat, at);
        let taken = after_take(takes_of(before));
        let word = self.table.shared.swap::<Takes>(&mut pass.seat, at, taken);
        seen_of(word)
    }

    /// Ends the caller's run of a task: where reasons or the killed flag were seen, the task is in its hands from now on.
    pub fn drop_run(&self, pass: &mut Pass, id: TaskId) -> Seen
        requires board { IsPassOf self.now pass.old }
        requires exists { id.0 < length self.now.start.state.tasks }
        requires runs { own_by pass.old id.0 ≡ running }
        requires body { NoBody pass.old.outs id.0 }
        ensures { Calls pass.old (calls.DropRun id) (replies.Task result) pass.new }
    {
        let word = self
            .table
            .shared
            .fetch_and::<Drops>(&mut pass.seat, id.0 as usize + 1, DROP_MASK);
        seen_of(word)
    }

    /// Removes a task for good that the caller has in its hands, has drawn, or runs.
    pub fn retire(&self, pass: &mut Pass, id: TaskId) -> Seen
        requires board { IsPassOf self.now pass.old }
        requires exists { id.0 < length self.now.start.state.tasks }
        requires has { own_by pass.old id.0 ≢ away }
        requires body { NoBody pass.old.outs id.0 }
        ensures { Calls pass.old (calls.Retire id) (replies.Task result) pass.new }
    {
        let word = self
            .table
            .shared
            .swap::<Retires>(&mut pass.seat, id.0 as usize + 1, GONE);
        seen_of(word)
    }
}
