//! Texts through streams in memory.

use crate::{ReadError, read_all, write_all};
use sched_base::{MemSink, MemSource};
use std::alloc::{AllocError, Global};
use std::test::Fail;

const TEXT: &[u8] = b"in pieces of any length";

fn listed(alloc: Global, number: Option<u64>) -> Result<Vec<u64>, AllocError> {
    let mut list = Vec::new(alloc);
    if let Some(number) = number {
        list.push(number)?;
    }
    Ok(list)
}

#[test]
fn texts_are_read_up_to_a_length(rt: HostRuntime) -> Result<(), Fail> {
    let alloc = rt.alloc();
    for (piece, most, length) in [(1, 100, 23), (7, 23, 23), (100, 22, 22), (5, 0, 0)] {
        let bytes = Vec::from_slice(alloc, TEXT)?;
        let mut src = MemSource::new(bytes, piece, listed(alloc, None)?);
        match read_all(alloc, &mut src, most) {
            Ok(text) => assert_eq!(rt; text.as_slice(), &TEXT[..length]),
            Err(_) => assert!(rt; false),
        }
    }
    let bytes = Vec::from_slice(alloc, TEXT)?;
    let mut src = MemSource::new(bytes, 5, listed(alloc, Some(2))?);
    match read_all(alloc, &mut src, 100) {
        Ok(_) => assert!(rt; false),
        Err(error) => assert_eq!(rt; error, ReadError::Fault),
    }
    Ok(())
}

#[test]
fn texts_are_written_in_pieces(rt: HostRuntime) -> Result<(), Fail> {
    let alloc = rt.alloc();
    for (piece, room, fails, length) in [
        (1, 100, None, 23),
        (7, 23, None, 23),
        (100, 20, None, 20),
        (5, 100, Some(2), 10),
    ] {
        let mut out = MemSink::new(alloc, room, piece, listed(alloc, fails)?)?;
        let is_whole = write_all(&mut out, TEXT).is_ok();
        assert_eq!(rt; is_whole, length == 23);
        assert_eq!(rt; out.held(), &TEXT[..length]);
    }
    Ok(())
}
