//! Plain keyed lists and calm streams on small examples.

ghost use Rattle.std.specs.Prelude.{◌≡◌, ℕ, ◌+◌, ◌^◌, ◌<◌, ◌≤◌, length, IfOk};
ghost use Rattle.sched_base.specs.KeyedList.{root_at};

use crate::calm::{CalmSink, CalmSource};
use crate::keyed_lists::KeyedLists;
use crate::plain_lists::PlainLists;
use crate::streams::{Sink, Source};
use std::alloc::{AllocError, Global};
use std::test::Fail;

/// Puts an entry in, where no root has it.
fn put(lists: &mut PlainLists, root: u32, entry: u32, key: u32)
    requires root { root < length lists.old.roots }
    requires entry { entry < lists.old.entries }
    requires room { (root_at root lists.old).insertions + 1 < 2 ^ 63 }
    ensures roots { length lists.new.roots ≡ length lists.old.roots }
    ensures entries { lists.new.entries ≡ lists.old.entries }
    ensures insertions { (r : ℕ) → (root_at r lists.new).insertions ≤ (root_at r lists.old).insertions + 1 }
{
    if lists.root_of(entry).is_none() {
        lists.insert(root, entry, key);
    }
}

/// The entry behind this one, where a root has it.
fn behind(lists: &PlainLists, entry: u32) -> Option<u32> {
    if lists.root_of(entry).is_none() {
        return None;
    }
    lists.next(entry)
}

/// The lists of two roots into which these rows were put.
fn filled(alloc: Global, rows: &[(u32, u32, u32)]) -> Result<PlainLists, AllocError>
    requires { length rows.now ≤ 100 }
    ensures { IfOk result (λ lists. length lists.roots ≡ 2) }
{
    let mut lists = PlainLists::new(alloc, 2, 8)?;
    for (root, entry, key) in rows {
        if *root < 2 && *entry < 8 {
            put(&mut lists, *root, *entry, *key);
        }
    }
    Ok(lists)
}

#[test]
fn items_stand_by_key_and_then_by_arrival(rt: HostRuntime) -> Result<(), Fail> {
    let rows = [(0, 0, 7), (0, 1, 3), (1, 3, 1), (0, 2, 7), (0, 4, 9)];
    let lists = filled(rt.alloc(), rows.as_slice())?;
    assert_eq!(rt; lists.first(0), Some(1));
    let followed = [
        (1, Some(0)),
        (0, Some(2)),
        (2, Some(4)),
        (4, None),
        (3, None),
        (5, None),
    ];
    for (entry, next) in followed {
        assert_eq!(rt; behind(&lists, entry), next);
    }
    for (key, entry) in [(0, Some(1)), (4, Some(0)), (8, Some(4)), (10, None)] {
        assert_eq!(rt; lists.lookup_ge(0, key), entry);
    }
    assert_eq!(rt; lists.first(1), Some(3));
    assert_eq!(rt; lists.root_of(3), Some(1));
    assert_eq!(rt; lists.root_of(5), None);
    assert_eq!(rt; (lists.insertions(0), lists.insertions(1)), (4, 1));
    Ok(())
}

#[test]
fn calm_streams_give_and_take_all(rt: HostRuntime) -> Result<(), Fail> {
    let mut source = CalmSource::new(vec![in rt.alloc(); 1, 2, 3, 4, 5]?);
    let mut buffer = [0; 3];
    for (count, held) in [(3, [1, 2, 3]), (2, [4, 5, 3]), (0, [4, 5, 3])] {
        assert_eq!(rt; source.read(&mut buffer), Ok(count));
        assert_eq!(rt; buffer, held);
    }
    let mut sink = CalmSink::new();
    assert_eq!(rt; sink.write(&buffer), Ok(3));
    assert_eq!(rt; sink.write(&buffer[..1]), Ok(1));
    assert_eq!(rt; sink.count(), 4);
    Ok(())
}
