//! The shapes of a script's lines, with numbers still as words and tasks by name.

ghost use Rattle.std.specs.Prelude.{◌≡◌, ℕ, ◌≤◌, List, map, option_map, length, IfOk};
ghost use Rattle.text_lines.specs.Slots.{slots_of, values_of};
ghost use Rattle.text_lines.specs.Shapes.{value_count};
ghost use Rattle.step_tables.specs.Words.{Word};
ghost use Rattle.step_tables.specs.Shapes.{setting_name, class_at, pinned_slots, shared_slots, tasklet_slots, init_at, task_at, pinned_line, shared_line, tasklet_line, task_line, order_at, orders_at, closing, row_said, event_said, end_said, setting_line, body_line};
ghost use Rattle.step_tables.specs.Views.{words_in, order_and_rest, order_view, task_view, delay_view, said_view};

use sched_base::{Class, Reasons};
use std::alloc::{AllocError, Global};
use text_lines::{Slot, Values, Words, front, index_at, reasons_at, text_at, whole};

/// The settings at the head of a script.
#[derive(Clone, Copy, PartialEq, Eq)]
pub(crate) enum Setting {
    Workers,
    Depth,
    Start,
    Step,
    Rounds,
}

/// An action, with its task by name.
#[derive(Clone, Copy)]
pub(crate) enum Order<'a> {
    Wakes(&'a [u8], Reasons),
    Kills(&'a [u8]),
}

/// An expiry, or none.
#[derive(Clone, Copy)]
pub(crate) enum Delay<'a> {
    Keeps,
    After(&'a [u8]),
    Never,
}

/// Where a task runs, with home and nice as words.
#[derive(Clone, Copy)]
pub(crate) enum Place<'a> {
    Pinned { home: &'a [u8], nice: &'a [u8] },
    Shared { nice: &'a [u8] },
    Tasklet { home: &'a [u8], class: Class },
}

/// A task line.
#[derive(Clone, Copy)]
pub(crate) struct TaskLine<'a> {
    pub name: &'a [u8],
    pub place: Place<'a>,
    pub rows: &'a [u8],
    pub init: bool,
}

/// A row line.
#[derive(Drop)]
pub(crate) struct RowLine<'a> {
    pub name: &'a [u8],
    pub number: &'a [u8],
    pub orders: Vec<Order<'a>>,
    pub delay: Delay<'a>,
    pub next: &'a [u8],
}

/// An event line.
#[derive(Clone, Copy)]
pub(crate) struct EventLine<'a> {
    pub round: &'a [u8],
    pub order: Order<'a>,
}

/// What a line says, where its words fit a shape.
#[derive(Drop)]
pub(crate) enum Said<'a> {
    Sets(Setting, &'a [u8]),
    Task(TaskLine<'a>),
    Row(RowLine<'a>),
    Event(EventLine<'a>),
    Ends,
}

/// The slots of a task of one worker.
fn pinned_slots() -> &'static [Slot]
    ensures same { slots_of result.now ≡ pinned_slots }
    ensures few { value_count (slots_of result.now) ≤ 4 }
{
    static SLOTS: [Slot; 8] = [
        Slot::Word(b"task"),
        Slot::Name,
        Slot::Word(b"home"),
        Slot::Any,
        Slot::Word(b"nice"),
        Slot::Any,
        Slot::Word(b"rows"),
        Slot::Any,
    ];
    &SLOTS
}

/// The slots of a task of the shared box.
fn shared_slots() -> &'static [Slot]
    ensures same { slots_of result.now ≡ shared_slots }
    ensures few { value_count (slots_of result.now) ≤ 4 }
{
    static SLOTS: [Slot; 7] = [
        Slot::Word(b"task"),
        Slot::Name,
        Slot::Word(b"shared"),
        Slot::Word(b"nice"),
        Slot::Any,
        Slot::Word(b"rows"),
        Slot::Any,
    ];
    &SLOTS
}

/// The slots of a tasklet.
fn tasklet_slots() -> &'static [Slot]
    ensures same { slots_of result.now ≡ tasklet_slots }
    ensures few { value_count (slots_of result.now) ≤ 4 }
{
    static SLOTS: [Slot; 8] = [
        Slot::Word(b"tasklet"),
        Slot::Name,
        Slot::Word(b"home"),
        Slot::Any,
        Slot::Word(b"class"),
        Slot::Choice(&[b"urgent", b"normal", b"bulk", b"heavy"]),
        Slot::Word(b"rows"),
        Slot::Any,
    ];
    &SLOTS
}

/// Nothing, or `init`: whether it stands there.
#[tactic(auto, unfolding(crate::specs::Shapes::init_at))]
fn init_at(words: Words<'_>) -> Option<bool>
    ensures { result ≡ init_at (words_in words.entry) }
{
    if words.is_at_end() {
        Some(false)
    } else {
        match whole(&[Slot::Word(b"init")], words) {
            Some(_) => Some(true),
            None => None,
        }
    }
}

/// The values of a task's line, and whether it is to run from the start on.
#[tactic(auto, unfolding(crate::specs::Shapes::task_at))]
fn task_at<'a>(slots: &[Slot], words: Words<'a>) -> Option<(Values<'a>, bool)>
    requires { value_count (slots_of slots.now) ≤ 4 }
    ensures { option_map (λ r. (values_of r.0.items, r.1)) result ≡ task_at (slots_of slots.now) (words_in words.entry) }
{
    match front(slots, words) {
        Some((values, rest)) => match init_at(rest) {
            Some(init) => Some((values, init)),
            None => None,
        },
        None => None,
    }
}

/// The class at a place among the names of the classes.
fn class_at(place: usize) -> Class
    ensures { result ≡ class_at place }
{
    match place {
        0 => Class::Urgent,
        1 => Class::Normal,
        2 => Class::Bulk,
        _ => Class::Heavy,
    }
}

/// The line of a task of one worker.
fn pinned_line<'a>(words: Words<'a>) -> Option<TaskLine<'a>>
    ensures { option_map task_view result ≡ option_map (λ r. pinned_line r.0 r.1) (task_at pinned_slots (words_in words.entry)) }
{
    match task_at(pinned_slots(), words) {
        Some((values, init)) => Some(TaskLine {
            name: text_at(&values, 0),
            place: Place::Pinned {
                home: text_at(&values, 1),
                nice: text_at(&values, 2),
            },
            rows: text_at(&values, 3),
            init,
        }),
        None => None,
    }
}

/// The line of a task of the shared box.
fn shared_line<'a>(words: Words<'a>) -> Option<TaskLine<'a>>
    ensures { option_map task_view result ≡ option_map (λ r. shared_line r.0 r.1) (task_at shared_slots (words_in words.entry)) }
{
    match task_at(shared_slots(), words) {
        Some((values, init)) => Some(TaskLine {
            name: text_at(&values, 0),
            place: Place::Shared {
                nice: text_at(&values, 1),
            },
            rows: text_at(&values, 2),
            init,
        }),
        None => None,
    }
}

/// The line of a tasklet.
fn tasklet_line<'a>(words: Words<'a>) -> Option<TaskLine<'a>>
    ensures { option_map task_view result ≡ option_map (λ r. tasklet_line r.0 r.1) (task_at tasklet_slots (words_in words.entry)) }
{
    match task_at(tasklet_slots(), words) {
        Some((values, init)) => Some(TaskLine {
            name: text_at(&values, 0),
            place: Place::Tasklet {
                home: text_at(&values, 1),
                class: class_at(index_at(&values, 2)),
            },
            rows: text_at(&values, 3),
            init,
        }),
        None => None,
    }
}

/// The line of a task or a tasklet.
#[tactic(auto, unfolding(crate::specs::Shapes::task_line))]
fn task_line<'a>(words: Words<'a>) -> Option<TaskLine<'a>>
    ensures { option_map task_view result ≡ task_line (words_in words.entry) }
{
    if let Some(line) = pinned_line(words) {
        return Some(line);
    }
    if let Some(line) = shared_line(words) {
        return Some(line);
    }
    tasklet_line(words)
}

/// An action, and the words after it.
#[tactic(auto, unfolding(crate::specs::Shapes::order_at))]
fn order_at<'a>(words: Words<'a>) -> Option<(Order<'a>, Words<'a>)>
    ensures { option_map order_and_rest result ≡ order_at (words_in words.entry) }
{
    if let Some((values, rest)) = front(&[Slot::Word(b"wake"), Slot::Name, Slot::Reasons], words) {
        return Some((
            Order::Wakes(text_at(&values, 0), reasons_at(&values, 1)),
            rest,
        ));
    }
    match front(&[Slot::Word(b"kill"), Slot::Name], words) {
        Some((values, rest)) => Some((Order::Kills(text_at(&values, 0)), rest)),
        None => None,
    }
}

/// An expiry or nothing, then `next` number.
#[tactic(auto, unfolding(crate::specs::Shapes::closing))]
fn closing<'a>(words: Words<'a>) -> Option<(Delay<'a>, &'a [u8])>
    ensures { option_map (λ x. (delay_view x.0, x.1.now)) result ≡ closing (words_in words.entry) }
{
    if let Some(values) = whole(&[Slot::Word(b"next"), Slot::Any], words) {
        return Some((Delay::Keeps, text_at(&values, 0)));
    }
    if let Some(values) = whole(
        &[
            Slot::Word(b"after"),
            Slot::Any,
            Slot::Word(b"next"),
            Slot::Any,
        ],
        words,
    ) {
        return Some((Delay::After(text_at(&values, 0)), text_at(&values, 1)));
    }
    match whole(
        &[Slot::Word(b"never"), Slot::Word(b"next"), Slot::Any],
        words,
    ) {
        Some(values) => Some((Delay::Never, text_at(&values, 0))),
        None => None,
    }
}

/// The actions that stand first, and the words after them.
fn orders_at<'a>(alloc: Global, words: Words<'a>) -> Result<(Vec<Order<'a>>, Words<'a>), AllocError>
    ensures { IfOk result (λ x. (map order_view x.0.items, words_in x.1)
        ≡ orders_at (length (words_in words.entry)) (words_in words.entry)) }
{
    let mut orders = Vec::new(alloc);
    let mut rest = words;
    while let Some((order, more)) = order_at(rest) {
        orders.extend_from_slice(&[order])?;
        rest = more;
    }
    Ok((orders, rest))
}

/// A line that begins with `row`.
#[tactic(auto, unfolding(crate::specs::Shapes::row_said))]
fn row_said<'a>(alloc: Global, words: Words<'a>) -> Result<Option<Said<'a>>, AllocError>
    ensures { IfOk result (λ said. option_map said_view said ≡ row_said (words_in words.entry)) }
{
    let Some((values, rest)) = front(&[Slot::Word(b"row"), Slot::Name, Slot::Any], words) else {
        return Ok(None);
    };
    let (orders, rest) = orders_at(alloc, rest)?;
    match closing(rest) {
        None => Ok(None),
        Some((delay, next)) => Ok(Some(Said::Row(RowLine {
            name: text_at(&values, 0),
            number: text_at(&values, 1),
            orders,
            delay,
            next,
        }))),
    }
}

/// A line that begins with `event`.
#[tactic(auto, unfolding(crate::specs::Shapes::event_said))]
fn event_said<'a>(words: Words<'a>) -> Option<Said<'a>>
    ensures { option_map said_view result ≡ event_said (words_in words.entry) }
{
    match front(&[Slot::Word(b"event"), Slot::Any], words) {
        Some((values, rest)) => match order_at(rest) {
            Some((order, rest)) => {
                if rest.is_at_end() {
                    Some(Said::Event(EventLine {
                        round: text_at(&values, 0),
                        order,
                    }))
                } else {
                    None
                }
            }
            None => None,
        },
        None => None,
    }
}

/// The line `end`.
#[tactic(auto, unfolding(crate::specs::Shapes::end_said))]
fn end_said<'a>(words: Words<'a>) -> Option<Said<'a>>
    ensures { option_map said_view result ≡ end_said (words_in words.entry) }
{
    match whole(&[Slot::Word(b"end")], words) {
        Some(_) => Some(Said::Ends),
        None => None,
    }
}

/// The name of a setting.
pub(crate) fn setting_name(setting: Setting) -> &'static [u8]
    ensures { result.now ≡ setting_name setting }
{
    match setting {
        Setting::Workers => b"workers",
        Setting::Depth => b"depth",
        Setting::Start => b"start",
        Setting::Step => b"step",
        Setting::Rounds => b"rounds",
    }
}

/// The line of a setting.
#[tactic(auto, unfolding(crate::specs::Shapes::setting_line))]
pub(crate) fn setting_line<'a>(setting: Setting, words: Words<'a>) -> Option<Said<'a>>
    ensures { option_map said_view result ≡ setting_line setting (words_in words.entry) }
{
    match whole(&[Slot::Word(setting_name(setting)), Slot::Any], words) {
        Some(values) => Some(Said::Sets(setting, text_at(&values, 0))),
        None => None,
    }
}

/// A line after the settings.
#[tactic(auto, unfolding(crate::specs::Shapes::body_line))]
pub(crate) fn body_line<'a>(alloc: Global, words: Words<'a>) -> Result<Option<Said<'a>>, AllocError>
    ensures { IfOk result (λ said. option_map said_view said ≡ body_line (words_in words.entry)) }
{
    if let Some(said) = row_said(alloc, words)? {
        return Ok(Some(said));
    }
    if let Some(line) = task_line(words) {
        return Ok(Some(Said::Task(line)));
    }
    if let Some(said) = event_said(words) {
        return Ok(Some(said));
    }
    Ok(end_said(words))
}
