// The blocks of a graph.

use multigraph::Part;
use skel_embed::PlaneBlock;

/// A block of a graph: as a part of it, and where it is planar with its tree, its present rotation system and its locks.
#[derive(Debug, Drop)]
pub struct Member {
    pub part: Part,
    pub plane: Option<PlaneBlock>,
}
