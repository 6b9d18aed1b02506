//! A row of every kind of slot that no format of a run has, and the words beside it.

use super::*;
use std::test::Fail;

/// A name, one of two words, any word, and a mask.
static SLOTS: [Slot; 4] = [
    Slot::Name,
    Slot::Choice(&[b"up", b"down"]),
    Slot::Any,
    Slot::Mask,
];

#[test]
fn a_row_is_read_as_it_is_written(rt: HostRuntime) -> Result<(), Fail> {
    let line: &[u8] = b" go a_1 down x,Y 00000000000000ff";
    let words = Words::of(&line[4..]);
    match front(&SLOTS, words) {
        Some((values, rest)) => {
            let mut out = Vec::new(rt.alloc());
            let row = Row {
                name: b"go",
                slots: &SLOTS,
            };
            put_row(&mut out, &row, &values)?;
            assert!(rt; rest.is_at_end());
            assert!(rt; out.as_slice() == line);
            assert_eq!(rt; text_at(&values, 0).len(), 3);
        }
        None => assert!(rt; false),
    }
    Ok(())
}

#[test]
fn signed_numbers_are_read_as_they_are_written(rt: HostRuntime) -> Result<(), Fail> {
    let mut out = Vec::new(rt.alloc());
    put_signed(&mut out, -1024)?;
    assert_eq!(rt; signed(out.as_slice(), 9_999_999_999), Some(-1024));
    assert_eq!(rt; signed(b"-0", 9_999_999_999), None);
    assert_eq!(rt; signed(b"-", 9_999_999_999), None);
    Ok(())
}
