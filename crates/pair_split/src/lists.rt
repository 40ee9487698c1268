// Lists of pieces, of components and of edges under names.

use crate::components::{Comp, Piece};
use crate::family::NamedEdge;
use multigraph::Sequence;

/// A list of pieces.
pub type PieceList = Sequence<Piece>;

/// A list of components.
pub type CompList = Sequence<Comp>;

/// A list of edges under names.
pub type EdgeList = Sequence<NamedEdge>;
