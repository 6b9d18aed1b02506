//! The head of all entries of a key.

ghost use Rattle.std.specs.Prelude.{◌≡◌, ◌<◌, false, length, MatchOption};
ghost use Rattle.eb_arena.specs.Shape.{HasShape, list_of};
ghost use Rattle.eb_dups.specs.Spine.{KeyHead};
ghost use Rattle.eb32_core.specs.Planted.{has_key};

use eb_arena::{Arena, Link};
use eb32_walk::seek;

/// The leaf or the node above all entries of a key in a root, under which `insert_dup` puts one more;
/// none where no item of the root has the key.
pub fn head_of_key(arena: &Arena, root: u32, key: u32) -> Option<Link>
    requires shape { HasShape arena.now }
    requires exists { root < length arena.now.links }
    ensures { MatchOption result (has_key key (list_of arena.now root) ≡ false) (λ head. (h : KeyHead arena.now head key) × (h.root ≡ root)) }
{
    let part = seek(arena, root, key)?;
    if arena.element(part.index()).key == key {
        Some(part)
    } else {
        None
    }
}
