// A block in the plane, or why it has no plane rotation system.

ghost use Rattle.std.specs.Prelude.{IfOk};
ghost use Rattle.skeletons.specs.Items.{IsBlockTree};
ghost use Rattle.skel_embed.specs.Planes.{IsOutcome};

use crate::blocks_in_plane::{BySkeletons, embed_by_skeletons};
use crate::nonplanar::NonplanarBlock;
use crate::state::PlaneBlock;
use block_obstruct::obstruct_block;
use multigraph::Graph;
use planarity::Embedder;
use spqr_tree::Tree;
use std::alloc::{AllocError, Global};

/// A block in the plane, or why it has no plane rotation system.
#[derive(Debug, Drop)]
pub enum Outcome {
    /// The block, at its first plane rotation system.
    Plane(PlaneBlock),
    /// The block with a subdivision of K5 or K3,3 in it.
    Not(NonplanarBlock),
}

/// Embeds a block, or finds what makes it nonplanar. The rotation system of the block is then a plane one that no plane rotation
/// system of the block precedes, in the order by the first node at which the choices differ (Di Battista and Tamassia 1996), and no
/// node is locked. Or graph and tree are returned with a subdivision of K5 or K3,3 in its written form (Kuratowski 1930), whose edges
/// are edges of the block: that of a skeleton, with a path of the block instead of each item.
///
/// The embedder is asked once for each triconnected node. Fails only if memory runs out; graph and tree are then dropped.
pub fn plane_block<E: Embedder>(
    alloc: Global,
    g: Graph,
    t: Tree,
    embedder: &mut E,
) -> Result<Outcome, AllocError>
    requires { IsBlockTree g t }
    ensures { IfOk result (IsOutcome g t) }
{
    match embed_by_skeletons(alloc, g, t, embedder)? {
        BySkeletons::Plane(block) => Ok(Outcome::Plane(block)),
        BySkeletons::Not {
            graph,
            tree,
            node,
            skeleton,
            subdivision,
        } => {
            let found = obstruct_block(alloc, &graph, &tree, node, &skeleton, &subdivision)?;
            Ok(Outcome::Not(NonplanarBlock::new(alloc, graph, tree, found)?))
        }
    }
}
