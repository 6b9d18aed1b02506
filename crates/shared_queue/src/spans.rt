//! Spans: the tasks of one group that have one nice, in the order of nice and then group.

ghost use Rattle.std.specs.Prelude.{◌≡◌, ℕ, ◌<◌, ◌≤◌, ◌⊎◌, length, MatchOption, vec_len, vec_capacity};
ghost use Rattle.std.specs.List.Sorted.{IsSorted};
ghost use Rattle.shared_queue.specs.Spans.{by_nice, span_at, AreLaid, Joins, Opens, IsFirstIn, NoneIn};

/// How many tasks a group has.
const GROUP: u32 = 64;

/// Tasks of one nice in a group, as the bits of a mask.
#[derive(Clone, Copy, Drop)]
pub(crate) struct Span {
    pub(crate) nice: i32,
    pub(crate) group: u32,
    pub(crate) mask: u64,
}

/// Lays the spans of tasks that come in the order of nice and then number, in time linear in their number.
pub(crate) fn lay(order: &[(i32, u32)], spans: &mut Vec<Span>)
    requires sorted { IsSorted by_nice order.now }
    requires room { length order.now ≤ vec_capacity spans.old }
    ensures laid { AreLaid (length order.now) order.now spans.new.items }
    ensures capacity { vec_capacity spans.new ≡ vec_capacity spans.old }
{
    spans.clear();
    for place in order {
        put(spans, place.0, place.1);
    }
}

/// Puts a task into the last span, where that is of its nice and group, and else into a span of its own.
fn put(spans: &mut Vec<Span>, nice: i32, task: u32)
    requires room { vec_len spans.old < vec_capacity spans.old }
    ensures put { Joins spans.old.items nice task spans.new.items ⊎ Opens spans.old.items nice task spans.new.items }
    ensures capacity { vec_capacity spans.new ≡ vec_capacity spans.old }
{
    let group = task / GROUP;
    let bit = 1u64 << (task % GROUP);
    let count = spans.len();
    if count > 0 && spans[count - 1].nice == nice && spans[count - 1].group == group {
        let last = &mut spans[count - 1];
        last.mask |= bit;
    } else {
        let mask = bit;
        spans.push_reserved(Span { nice, group, mask });
    }
}

/// The first task of the spans that is set in the words.
pub(crate) fn first_set(spans: &[Span], words: &[u64]) -> Option<u32>
    requires within { (k : ℕ) → k < length spans.now → (span_at spans.now k).group < length words.now }
    requires few { length words.now ≤ 1024 }
    ensures { MatchOption result (NoneIn spans.now words.now) (IsFirstIn spans.now words.now) }
{
    for span in spans {
        let seen = span.mask & words[span.group as usize];
        if seen != 0 {
            return Some(GROUP * span.group + seen.trailing_zeros());
        }
    }
    None
}
