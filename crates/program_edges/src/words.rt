//! The words of a command line.

ghost use Rattle.std.specs.Prelude.{◌≡◌, drop, IfOk};
ghost use Rattle.std.specs.Vec.Iter.{into_iter_items};

use std::alloc::{AllocError, Global};
use std::env::Args;

/// The arguments behind the first one, which is the program's own name.
///
/// # Errors
///
/// Where there is no memory for them.
pub fn behind_first(alloc: Global, args: Args) -> Result<Vec<String>, AllocError>
    ensures { IfOk result (λ words. words.items ≡ drop 1 (into_iter_items args)) }
{
    args.skip(1).collect(alloc)
}
