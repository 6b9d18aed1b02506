//! A whole text from a source, in whatever pieces it comes.

ghost use Rattle.std.specs.Prelude.{◌≡◌, ℕ, ◌+◌, ◌<◌, ◌≤◌, [], take, length, vec_len, IfOk, IfErr, IfSome, Some};
ghost use Rattle.sched_base.specs.Streams.{IsAtEnd, Reads, Rose};
ghost use Rattle.program_edges.specs.Texts.{ReadsAtMost};

use sched_base::{Failed, Source};
use std::alloc::Global;

/// How many bytes are asked of a source at once.
const PIECE: usize = 16_384;

/// Why a text was not read.
#[derive(Clone, Copy, Debug, PartialEq, Eq)]
pub enum ReadError {
    /// A read failed.
    Fault,
    /// There is no memory.
    Memory,
}

/// Reads a source to its end, or up to `most` bytes where it has more.
///
/// # Errors
///
/// `Fault` where a read fails, and then the source's count of faults rose; `Memory` where there is no
/// memory. In both cases the bytes that were read are lost.
pub fn read_all<S: Source>(alloc: Global, src: &mut S, most: usize) -> Result<Vec<u8>, ReadError>
    ensures read { IfOk result (λ bytes. IfSome (S.left src.old) (λ all. bytes.items ≡ take most all)) }
    ensures end { IfOk result (λ bytes. IfSome (S.left src.old) (λ _. length bytes.items < most → S.left src.new ≡ Some [])) }
    ensures bound { IfOk result (λ bytes. vec_len bytes ≤ most) }
    ensures few { ReadsAtMost most (S.left src.old) (S.left src.new) }
    ensures fault { IfErr result (λ e. e ≡ ReadError.Fault → Rose (S.faults src.old) (S.faults src.new)) }
    ensures counted { S.faults src.old ≤ S.faults src.new }
{
    let mut bytes = Vec::new(alloc);
    let mut piece = [0u8; PIECE];
    while bytes.len() < most {
        let room = PIECE.min(most - bytes.len());
        match src.read(&mut piece[..room]) {
            Err(Failed) => return Err(ReadError::Fault),
            Ok(0) => break,
            Ok(n) => match bytes.extend_from_slice(&piece[..n]) {
                Ok(()) => {}
                Err(_) => return Err(ReadError::Memory),
            },
        }
    }
    Ok(bytes)
}
