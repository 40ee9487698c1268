// Components of a block, as data.

ghost use Rattle.std.specs.Prelude.{◌≡◌};
ghost use Rattle.pair_split.specs.Kinds.{has_choices};

use crate::lists::{CompList, PieceList};

/// The kind of a component.
#[derive(Clone, Copy, Debug, Drop, PartialEq, Eq)]
pub enum Kind {
    /// A polygon: connected, of at least three vertices, two pieces at each.
    S,
    /// A bond: two vertices and at least three pieces.
    P,
    /// A triconnected graph.
    R,
    /// One or two edges, alone.
    B,
}

impl Kind {
    /// Whether nodes of this kind have choices, which are independent of each other: bonds and triconnected nodes do.
    pub fn has_choices(self) -> bool
        ensures { result ≡ has_choices self }
    {
        match self {
            Kind::P | Kind::R => true,
            Kind::S | Kind::B => false,
        }
    }
}

/// What a piece represents.
#[derive(Clone, Copy, Debug, Drop, PartialEq, Eq)]
pub enum What {
    /// This edge of the block.
    Real(u32),
    /// A link to the component of this number.
    Link(u32),
}

/// An edge of a component, with its two ends.
#[derive(Clone, Copy, Debug, Drop, PartialEq, Eq)]
pub struct Piece {
    /// One end.
    pub a: u32,
    /// The other end.
    pub b: u32,
    /// What it represents.
    pub what: What,
}

/// An edge of a node of the tree, with its two ends, the lesser first.
#[derive(Clone, Copy, Debug, Drop, PartialEq, Eq)]
pub struct Item {
    /// The least edge of the block that it represents.
    pub key: u32,
    /// The lesser end.
    pub a: u32,
    /// The greater end.
    pub b: u32,
    /// What it represents.
    pub what: What,
}

/// A component: its kind and its pieces.
#[derive(Debug, Drop)]
pub struct Comp {
    /// The kind.
    pub kind: Kind,
    /// The pieces.
    pub items: PieceList,
}

/// The components of a block, numbered from 0.
#[derive(Debug, Drop)]
pub struct Comps {
    /// The components, in order of their numbers.
    pub list: CompList,
}
