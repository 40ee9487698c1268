// The steps from one rotation system of a component to another.

use multigraph::Numbers;
use skel_embed::Move;

/// A step from one plane rotation system of a component to another.
#[derive(Debug, Drop)]
pub enum WholeMove {
    /// A move of this block. The cut vertices of the block get their first arrangements for its new rotation system.
    Block(u32, Move),
    /// At this cut vertex the edges are arranged in this cyclic order, given from the least edge on.
    Regroup(u32, Numbers),
}
