// The first plane rotation system of a block, or why none exists.

ghost use Rattle.std.specs.Prelude.{◌≡◌, false, length, replicate, IfOk};
ghost use Rattle.skeletons.specs.Items.{IsBlockTree};
ghost use Rattle.skel_embed.specs.First.{IsFirst};
ghost use Rattle.skel_embed.specs.Members.{HaveFirst};
ghost use Rattle.skel_embed.specs.Outcomes.{IsFoundBySkeletons};

use crate::members::{FirstMembers, Members, members_of};
use crate::state::{Frame, PlaneBlock};
use kuratowski::Subdivision;
use multigraph::Graph;
use planarity::Embedder;
use skel_compose::compose;
use spqr_tree::Tree;
use std::alloc::{AllocError, Global};
use std::rc::Rc;

/// A block in the plane, or why it has no plane rotation system: a skeleton that has none.
#[derive(Debug, Drop)]
pub enum BySkeletons {
    /// The block, at its first plane rotation system.
    Plane(PlaneBlock),
    /// The block has none: a subdivision of K5 or K3,3 in the skeleton of a node.
    Not {
        /// The block.
        graph: Graph,
        /// Its tree.
        tree: Tree,
        /// The number of the node.
        node: u32,
        /// The skeleton of the node.
        skeleton: Graph,
        /// The subdivision, in the numbers of the skeleton.
        subdivision: Subdivision,
    },
}

// The block at the rotation system that is composed of first members, with no locks.
fn in_plane(alloc: Global, g: Graph, t: Tree, first: FirstMembers) -> Result<PlaneBlock, AllocError>
    requires block { IsBlockTree g t }
    requires members { HaveFirst t (length t) first.table first.keys.items first.ends.items }
    ensures graph { IfOk result (λ p. p.graph ≡ g) }
    ensures tree { IfOk result (λ p. p.tree ≡ t) }
    ensures first { IfOk result (λ p. IsFirst g t p.rotation) }
    ensures locks { IfOk result (λ p. p.locks ≡ replicate (length t) false) }
{
    let FirstMembers { table, keys, ends } = first;
    let rotation = compose(alloc, &g, &t, &table)?;
    let locks = vec![in alloc; false; t.node_count() as usize]?;
    let frame = Rc::new(
        alloc,
        Frame {
            graph: g,
            tree: t,
            ends,
        },
    )?;
    Ok(PlaneBlock::of(frame, rotation, keys, locks))
}

/// Embeds a block by the skeletons of its tree. Its rotation system is then the first plane one, in the order by the first
/// node at which the choices differ, and no node is locked. Or returns the skeleton of a triconnected node, and in it a
/// subdivision of K5 or K3,3 in its written form.
///
/// The embedder is asked once for each triconnected node. Fails only if memory runs out; graph and tree are then dropped.
pub fn embed_by_skeletons<E: Embedder>(
    alloc: Global,
    g: Graph,
    t: Tree,
    embedder: &mut E,
) -> Result<BySkeletons, AllocError>
    requires { IsBlockTree g t }
    ensures { IfOk result (IsFoundBySkeletons g t) }
{
    g.keeps_limits();
    match members_of(alloc, &g, &t, embedder)? {
        Members::Plane(first) => Ok(BySkeletons::Plane(in_plane(alloc, g, t, first)?)),
        Members::Not(node, skeleton, subdivision) => Ok(BySkeletons::Not {
            graph: g,
            tree: t,
            node,
            skeleton,
            subdivision,
        }),
    }
}
