// Whether a graph has a plane rotation system: by its blocks, their trees and the skeletons of these.

ghost use Rattle.std.specs.Prelude.{◌<◌, ℕ, length, IfOk, IfSome, MatchOption};
ghost use Rattle.multigraph.specs.Graph.{Multigraph, IsWithinLimits};
ghost use Rattle.faces.specs.Euler.{IsPlaneSystem};
ghost use Rattle.graph_theory.specs.Block.{IsOneBlock};
ghost use Rattle.graph_theory.specs.Triconnected.{IsTriconnected};
ghost use Rattle.blocks.specs.Blocks.{IsBlockStructure, block_at};
ghost use Rattle.pair_split.specs.declared.components.Kind.TheVariants.{R};
ghost use Rattle.skeletons.specs.Items.{IsBlockTree};
ghost use Rattle.skeletons.specs.Moves.{IsNodeOfKind};
ghost use Rattle.path_embed.specs.Planar.{HasPlaneSystem, HasNoPlaneSystem, IsPlanarNode, IsNonplanarNode, IsPlanarPart, HasPlanarBlocks};
ghost use Rattle.path_embed.specs.Found.{IsPartOf, IsObstacle, IsObstacleIn};

use blocks::{Blocks, split};
use multigraph::{Graph, Part};
use pair_split::{Kind, Splitter};
use path_rotation::{Drawn, draw};
use rotations::Rotation;
use split_comp::SearchSplitter;
use spqr_tree::Tree;
use std::alloc::{AllocError, Global};

/// Why a graph has no plane rotation system: a block of it, the tree of the block, and a triconnected node whose skeleton has none.
#[derive(Debug, Drop)]
pub struct Obstacle {
    /// The block, as a part of the graph.
    pub block: Part,
    /// Its tree.
    pub tree: Tree,
    /// The number of the node.
    pub node: u32,
    /// The skeleton of the node.
    pub skeleton: Graph,
}

// A plane rotation system of a triconnected graph, if it has one.
pub(crate) fn plane_system(alloc: Global, g: &Graph) -> Result<Option<Rotation>, AllocError>
    requires { IsTriconnected g.now }
    ensures { IfOk result (λ answer. MatchOption answer (HasNoPlaneSystem g.now)
        (IsPlaneSystem g.now)) }
{
    let drawn = draw(alloc, g)?;
    match drawn {
        Drawn::Plane(r) => Ok(Some(r)),
        Drawn::NotPlanar => Ok(None),
        Drawn::Stuck => unreachable!(),
    }
}

// The skeleton of the triconnected node k, if it has no plane rotation system.
fn nonplanar_skeleton(alloc: Global, tree: &Tree, k: u32) -> Result<Option<Graph>, AllocError>
    requires node { IsNodeOfKind tree.now k R }
    requires block { (g : Multigraph) × IsBlockTree g tree.now × IsWithinLimits g }
    ensures { IfOk result (λ answer. MatchOption answer (IsPlanarNode tree.now k)
        (IsNonplanarNode tree.now k)) }
{
    let skeleton = tree.skeleton(alloc, k)?;
    let system = plane_system(alloc, &skeleton)?;
    match system {
        Some(_) => Ok(None),
        None => Ok(Some(skeleton)),
    }
}

// The skeleton of node k, if the node is triconnected and the skeleton has no plane rotation system.
fn skeleton_if_nonplanar(alloc: Global, tree: &Tree, k: u32) -> Result<Option<Graph>, AllocError>
    requires node { k < length tree.now }
    requires block { (g : Multigraph) × IsBlockTree g tree.now × IsWithinLimits g }
    ensures { IfOk result (λ answer. MatchOption answer (IsPlanarNode tree.now k)
        (IsNonplanarNode tree.now k)) }
{
    match tree.kind(k) {
        Kind::R => nonplanar_skeleton(alloc, tree, k),
        Kind::S | Kind::P | Kind::B => Ok(None),
    }
}

// The first triconnected node whose skeleton has no plane rotation system, and the skeleton.
fn nonplanar_node(alloc: Global, tree: &Tree) -> Result<Option<(u32, Graph)>, AllocError>
    requires block { (g : Multigraph) × IsBlockTree g tree.now × IsWithinLimits g }
    ensures { IfOk result (λ answer. MatchOption answer
        ((k : ℕ) → k < length tree.now → IsPlanarNode tree.now k)
        (λ found. IsNonplanarNode tree.now found.0 found.1)) }
{
    for k in 0..tree.node_count() {
        let answer = skeleton_if_nonplanar(alloc, tree, k)?;
        match answer {
            Some(skeleton) => return Ok(Some((k, skeleton))),
            None => {}
        }
    }
    Ok(None)
}

// The block, its tree and a node, if it has no plane rotation system.
pub(crate) fn obstacle_in(
    alloc: Global,
    g: &Graph,
    block: Part,
) -> Result<Option<Obstacle>, AllocError>
    requires part { IsPartOf g.now block }
    requires one { IsOneBlock block.graph }
    ensures { IfOk result (λ answer. MatchOption answer (HasPlaneSystem block.graph)
        (IsObstacleIn g.now block)) }
{
    let _ = g; // for the contract alone
    let comps = SearchSplitter::new().split(alloc, block.graph())?;
    let tree = Tree::assemble(alloc, block.graph(), comps)?;
    let answer = nonplanar_node(alloc, &tree)?;
    match answer {
        Some(found) => Ok(Some(Obstacle {
            block,
            tree,
            node: found.0,
            skeleton: found.1,
        })),
        None => Ok(None),
    }
}

// Block b of the graph, if it has no plane rotation system.
fn nonplanar_block(
    alloc: Global,
    g: &Graph,
    blocks: &Blocks,
    b: u32,
) -> Result<Option<Obstacle>, AllocError>
    requires structure { IsBlockStructure g.now blocks.now }
    requires block { b < length blocks.now.blocks }
    ensures { IfOk result (λ answer. MatchOption answer
        (IsPlanarPart g.now (block_at blocks.now.blocks b)) (IsObstacle g.now)) }
{
    let block = g.part(alloc, blocks.edges(b))?;
    let answer = obstacle_in(alloc, g, block)?;
    Ok(answer)
}

// The first of the blocks that has no plane rotation system.
fn first_nonplanar(
    alloc: Global,
    g: &Graph,
    blocks: &Blocks,
) -> Result<Option<Obstacle>, AllocError>
    requires { IsBlockStructure g.now blocks.now }
    ensures { IfOk result (λ answer. MatchOption answer
        ((b : ℕ) → b < length blocks.now.blocks → IsPlanarPart g.now (block_at blocks.now.blocks b))
        (IsObstacle g.now)) }
{
    for b in 0..blocks.block_count() {
        let answer = nonplanar_block(alloc, g, blocks, b)?;
        match answer {
            Some(found) => return Ok(Some(found)),
            None => {}
        }
    }
    Ok(None)
}

/// Decides whether a graph, which may be any, has a plane rotation system, block by block: a block has one exactly where the
/// triconnected skeletons of its tree have (Di Battista and Tamassia 1996), and each of these is drawn. Returns the first block that
/// has none, with such a skeleton; the graph then has none. `None`: each block has one.
///
/// Fails only if memory runs out.
pub fn obstacle_of(alloc: Global, g: &Graph) -> Result<Option<Obstacle>, AllocError>
    ensures decided { IfOk result (λ answer. MatchOption answer (HasPlanarBlocks g.now)
        (IsObstacle g.now)) }
    ensures nonplanar { IfOk result (λ answer. IfSome answer (λ _. HasNoPlaneSystem g.now)) }
{
    g.keeps_limits();
    let blocks = split(alloc, g)?;
    let answer = first_nonplanar(alloc, g, &blocks)?;
    Ok(answer)
}
