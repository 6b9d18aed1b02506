//! Links down to a part of an element and up to the place where a part hangs, as tagged numbers.

ghost use Rattle.std.specs.Prelude.{◌≡◌, ◌≢◌, ◌<◌, Bool};
ghost use Rattle.eb_arena.specs.Links.{opposite, is_nothing, is_leaf, index_of, link_number, is_nowhere, place_index, place_side, up_number};
ghost use Rattle.eb_arena.specs.declared.links.Target.TheVariants as targets;
ghost use Rattle.eb_arena.specs.declared.links.Place.TheVariants as places;

use std::marker::Model;

/// The number of a link that leads nowhere.
const NO_NUMBER: usize = 4294967295;

/// The two sides of a node.
#[derive(Clone, Copy, Debug, PartialEq, Eq)]
pub enum Side {
    Left,
    Right,
}

impl Side {
    /// The other side.
    pub fn opposite(self) -> Side
        ensures { result ≡ opposite self }
    {
        match self {
            Side::Left => Side::Right,
            Side::Right => Side::Left,
        }
    }
}

/// What a link leads down to: nothing, or the leaf or the node of the element with this index.
#[derive(Clone, Copy, Debug, PartialEq, Eq)]
pub enum Target {
    Nothing,
    Leaf(u32),
    Node(u32),
}

/// Where a part hangs: nowhere, or at a side of the node with this index. A root counts as a node
/// behind all elements, of which only the left side is used.
#[derive(Clone, Copy, Debug, PartialEq, Eq)]
pub enum Place {
    Nowhere,
    Under(u32, Side),
}

/// A link down, which contracts see as its target. The leaf of index i has the number 2i, the node
/// 2i + 1, and no link 4,294,967,295. The number is as wide as an index of a slice, so that a step
/// from link to link is one load; a link is stored as a `StoredLink`.
#[derive(Clone, Copy, Debug, PartialEq, Eq)]
pub struct Link {
    number: usize,
}

impl Model for Link {
    ghost use Rattle.eb_arena.specs.declared.links.Target.{Target};
    ghost use Rattle.eb_arena.specs.Links.{target_of, link_number};
    ghost use Rattle.std.specs.Prelude.{◌≡◌, ◌≤◌};
    ghost use Rattle.std.proofs.Common.{ap};
    ghost use Rattle.eb_arena.specs.LinkNumbers.{link_number-target};

    ghost Value = { Target };

    ghost view = { λ l. target_of l.number };

    ghost invariant = { λ l. l.number ≤ 4294967295 };

    ghost inverse = { λ t. record { number = link_number t } };

    ghost inverse_ok = { λ a h. ap (λ n. record { number = n }) (link_number-target a.number) };
}

impl Link {
    /// The link to nothing.
    pub const NONE: Link = Link { number: NO_NUMBER };

    /// The link to a leaf, by an index below 2,147,483,647.
    pub fn leaf(index: u32) -> Link
        requires { index < 2147483647 }
        ensures { result ≡ targets.Leaf index }
    {
        Link {
            number: 2 * index as usize,
        }
    }

    /// The link to a node, by an index below 2,147,483,647.
    pub fn node(index: u32) -> Link
        requires { index < 2147483647 }
        ensures { result ≡ targets.Node index }
    {
        Link {
            number: 2 * index as usize + 1,
        }
    }

    /// Whether the link leads to nothing.
    pub fn is_none(self) -> bool
        ensures { result ≡ is_nothing self }
    {
        self.number == NO_NUMBER
    }

    /// Whether the link leads to a leaf, and not to a node.
    pub fn is_leaf(self) -> bool
        requires { self ≢ targets.Nothing }
        ensures { result ≡ is_leaf self }
    {
        self.number % 2 == 0
    }

    /// The index of the element that the link leads to.
    pub fn index(self) -> u32
        requires { self ≢ targets.Nothing }
        ensures { result ≡ index_of self }
    {
        (self.number / 2) as u32
    }

    /// The number that the link is stored as.
    pub fn number(self) -> u32
        ensures { result ≡ link_number self }
    {
        self.number as u32
    }

    /// The number of the half of an element in which the part's own link up stands.
    pub(crate) fn half(self) -> usize
        ensures { result ≡ link_number self }
    {
        self.number
    }

    /// The link as it is stored.
    pub(crate) fn stored(self) -> StoredLink
        ensures { result ≡ self }
    {
        StoredLink {
            number: self.number as u32,
        }
    }

    /// What the link leads to.
    pub fn target(self) -> Target
        ensures { result ≡ self }
    {
        if self.number == NO_NUMBER {
            Target::Nothing
        } else if self.number % 2 == 0 {
            Target::Leaf((self.number / 2) as u32)
        } else {
            Target::Node((self.number / 2) as u32)
        }
    }
}

/// A link up, which contracts see as the place it leads to. The left side of node i has the number
/// 2i, its right side 2i + 1, and no link 4,294,967,295. It is as wide as a `Link`, and stored as a
/// `StoredUp`.
#[derive(Clone, Copy, Debug, PartialEq, Eq)]
pub struct Up {
    number: usize,
}

impl Model for Up {
    ghost use Rattle.eb_arena.specs.declared.links.Place.{Place};
    ghost use Rattle.eb_arena.specs.Links.{place_of, up_number};
    ghost use Rattle.std.specs.Prelude.{◌≡◌, ◌≤◌};
    ghost use Rattle.std.proofs.Common.{ap};
    ghost use Rattle.eb_arena.specs.LinkNumbers.{up_number-place};

    ghost Value = { Place };

    ghost view = { λ u. place_of u.number };

    ghost invariant = { λ u. u.number ≤ 4294967295 };

    ghost inverse = { λ p. record { number = up_number p } };

    ghost inverse_ok = { λ a h. ap (λ n. record { number = n }) (up_number-place a.number) };
}

impl Up {
    /// The link to no place.
    pub const NONE: Up = Up { number: NO_NUMBER };

    /// The link to a side of a node, by an index below 2,147,483,647.
    pub fn new(index: u32, side: Side) -> Up
        requires { index < 2147483647 }
        ensures { result ≡ places.Under index side }
    {
        match side {
            Side::Left => Up {
                number: 2 * index as usize,
            },
            Side::Right => Up {
                number: 2 * index as usize + 1,
            },
        }
    }

    /// Whether the link leads to no place.
    pub fn is_none(self) -> bool
        ensures { result ≡ is_nowhere self }
    {
        self.number == NO_NUMBER
    }

    /// The index of the node that the link leads to.
    pub fn index(self) -> u32
        requires { self ≢ places.Nowhere }
        ensures { result ≡ place_index self }
    {
        (self.number / 2) as u32
    }

    /// The side of the node that the link leads to.
    pub fn side(self) -> Side
        requires { self ≢ places.Nowhere }
        ensures { result ≡ place_side self }
    {
        if self.number % 2 == 0 {
            Side::Left
        } else {
            Side::Right
        }
    }

    /// The number that the link is stored as.
    pub fn number(self) -> u32
        ensures { result ≡ up_number self }
    {
        self.number as u32
    }

    /// The number of the half of an element in which the link down at the place stands.
    pub(crate) fn half(self) -> usize
        ensures { result ≡ up_number self }
    {
        self.number
    }

    /// The link as it is stored.
    pub(crate) fn stored(self) -> StoredUp
        ensures { result ≡ self }
    {
        StoredUp {
            number: self.number as u32,
        }
    }

    /// The place that the link leads to.
    pub fn place(self) -> Place
        ensures { result ≡ self }
    {
        if self.number == NO_NUMBER {
            Place::Nowhere
        } else if self.number % 2 == 0 {
            Place::Under((self.number / 2) as u32, Side::Left)
        } else {
            Place::Under((self.number / 2) as u32, Side::Right)
        }
    }
}

/// A link down as it is stored, in 32 bits.
#[derive(Clone, Copy, Debug)]
pub(crate) struct StoredLink {
    number: u32,
}

impl Model for StoredLink {
    ghost use Rattle.eb_arena.specs.declared.links.Target.{Target};
    ghost use Rattle.eb_arena.specs.Links.{target_of, link_number};
    ghost use Rattle.std.specs.Prelude.{◌≡◌};
    ghost use Rattle.std.proofs.Common.{ap};
    ghost use Rattle.eb_arena.specs.LinkNumbers.{link_number-target};

    ghost Value = { Target };

    ghost view = { λ l. target_of l.number };

    ghost inverse = { λ t. record { number = link_number t } };

    ghost inverse_ok = { λ a h. ap (λ n. record { number = n }) (link_number-target a.number) };
}

impl StoredLink {
    /// The link to nothing.
    pub(crate) const NONE: StoredLink = StoredLink { number: u32::MAX };

    /// The link that is stored.
    pub(crate) fn link(self) -> Link
        ensures { result ≡ self }
    {
        Link {
            number: self.number as usize,
        }
    }
}

/// A link up as it is stored, in 32 bits.
#[derive(Clone, Copy, Debug)]
pub(crate) struct StoredUp {
    number: u32,
}

impl Model for StoredUp {
    ghost use Rattle.eb_arena.specs.declared.links.Place.{Place};
    ghost use Rattle.eb_arena.specs.Links.{place_of, up_number};
    ghost use Rattle.std.specs.Prelude.{◌≡◌};
    ghost use Rattle.std.proofs.Common.{ap};
    ghost use Rattle.eb_arena.specs.LinkNumbers.{up_number-place};

    ghost Value = { Place };

    ghost view = { λ u. place_of u.number };

    ghost inverse = { λ t. record { number = up_number t } };

    ghost inverse_ok = { λ a h. ap (λ n. record { number = n }) (up_number-place a.number) };
}

impl StoredUp {
    /// The link to no place.
    pub(crate) const NONE: StoredUp = StoredUp { number: u32::MAX };

    /// The link that is stored.
    pub(crate) fn up(self) -> Up
        ensures { result ≡ self }
    {
        Up {
            number: self.number as usize,
        }
    }
}
