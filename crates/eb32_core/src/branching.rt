//! Where a new key branches off from another.

ghost use Rattle.std.specs.Prelude.{◌≡◌, ◌≢◌};
ghost use Rattle.eb32_core.specs.Landing.{IsTopBit, SideIs};

use eb_arena::Side;

/// The highest bit in which two keys differ.
pub(crate) fn top_bit(own: u32, key: u32) -> u32
    requires { own ≢ key }
    ensures { IsTopBit own key result }
{
    31 - (own ^ key).leading_zeros()
}

/// The side of a new key beside another.
pub(crate) fn side_of(own: u32, key: u32) -> Side
    requires { own ≢ key }
    ensures { SideIs own key result }
{
    if key < own { Side::Left } else { Side::Right }
}
