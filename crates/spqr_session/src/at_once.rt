// Many moves of one block made in one pass over its skeletons, where that is sooner done than one move after the other.
ghost use Rattle.std.specs.Prelude.{◌≡◌, ◌<◌, length, map, IfOk, MatchOption, All, ⊤};
ghost use Rattle.multigraph.specs.Graph.{Multigraph, IsWithinLimits};
ghost use Rattle.skeletons.specs.Items.{IsBlockTree};
ghost use Rattle.skel_embed.specs.Block.{choices_by};
ghost use Rattle.embed_moves.specs.Made.{Fits};
ghost use Rattle.spqr_session.specs.AtOnce.{moves_of, AreOfBlock, IsMadeOf, IsMadeForth, IsMadeBack};
ghost use Rattle.spqr_session.specs.Embedded.{view_tree, IsInPlane};
ghost use Rattle.spqr_session.specs.History.{as_pairs, IsMoveOf, IsStepOf};
ghost use Rattle.spqr_session.specs.Moved.{all_moved};

use crate::embedded::EmbeddedBlock;
use multigraph::Graph;
use pair_split::What;
use skel_decompose::{Order, order_from};
use skel_embed::{Draft, Move, Outcome, PlaneBlock};
use spqr_tree::Tree;
use std::alloc::{AllocError, Global};
use undo_log::{BlockMove, BlockMoves, Step};

// For fewer moves nothing is weighed: they are made one after the other.
const MANY: usize = 64;

// A pass over the skeletons takes as long as so many steps along edges for each edge.
const STEPS_OF_A_PASS: u64 = 32;

/// A block in the plane that is to stand in the place of a block.
#[derive(Debug, Drop)]
pub(crate) struct MadeBlock {
    pub(crate) block: u32,
    pub(crate) plane: PlaneBlock,
}

// ---- what moves cost one after the other

// The parents of the nodes of a tree that hangs from node 0, and the number of items of each node and all nodes below it.
#[derive(Drop)]
struct Sizes {
    parents: Vec<u32>,
    below: Vec<u64>,
}

// Adds the items of node k to its number, and that to the number of its parent.
fn add_up(tree: &Tree, k: u32, parents: &[u32], below: &mut [u64])
    requires { length below.old ≡ length tree.now }
    ensures { length below.new ≡ length below.old }
{
    if k >= tree.node_count() {
        return;
    }
    let sum = below[k as usize].saturating_add(tree.items(k).len() as u64);
    below[k as usize] = sum;
    if let Some(parent) = parents.get(k as usize) {
        if *parent < tree.node_count() {
            below[*parent as usize] = below[*parent as usize].saturating_add(sum);
        }
    }
}

// The sizes of the parts of a tree.
fn sizes_of(alloc: Global, tree: &Tree) -> Result<Sizes, AllocError>
    requires { (g : Multigraph) × IsBlockTree g tree.now × IsWithinLimits g }
{
    let n = tree.node_count() as usize;
    let Order { parents, nodes } = order_from(alloc, tree, 0)?;
    let mut below = vec![in alloc; 0; n]?;
    for i in 0..nodes.len() {
        add_up(tree, nodes[nodes.len() - 1 - i], &parents, &mut below);
    }
    Ok(Sizes { parents, below })
}

// How many items there are beyond an item of node k.
fn beyond(sizes: &Sizes, k: u32, what: What) -> u64 {
    match what {
        What::Real(_) => 1,
        What::Link(j) => {
            let own = sizes.below.get(k as usize);
            if sizes.parents.get(k as usize) == Some(&j) {
                return match (sizes.below.first(), own) {
                    (Some(all), Some(own)) => all.saturating_sub(*own),
                    _ => 0,
                };
            }
            match sizes.below.get(j as usize) {
                Some(number) => *number,
                None => 0,
            }
        }
    }
}

// The number of edges at the vertices of node k.
fn edges_at(graph: &Graph, tree: &Tree, k: u32) -> u64
    requires { k < length tree.now }
{
    let mut sum: u64 = 0;
    for v in tree.vertices(k) {
        if *v < graph.vertex_count() {
            sum = sum.saturating_add(graph.degree(*v) as u64);
        }
    }
    sum
}

// How many steps along edges a move of node k takes at most: the group of the item beyond which there is most stays where it is.
fn steps_of_move(graph: &Graph, tree: &Tree, sizes: &Sizes, k: u32) -> u64 {
    if k >= tree.node_count() {
        return 0;
    }
    let mut sum: u64 = 0;
    let mut most: u64 = 0;
    for item in tree.items(k) {
        let number = beyond(sizes, k, item.what);
        sum = sum.saturating_add(number);
        most = most.max(number);
    }
    edges_at(graph, tree, k).min(sum.saturating_sub(most))
}

// How many steps along edges moves of these nodes take at most, without a look at the tree beyond them.
fn steps_at_most(graph: &Graph, tree: &Tree, nodes: &[u32]) -> u64 {
    let mut steps: u64 = 0;
    for k in nodes {
        if *k < tree.node_count() {
            steps = steps.saturating_add(edges_at(graph, tree, *k));
        }
    }
    steps
}

// Whether so many steps take longer than a pass.
fn is_over_a_pass(graph: &Graph, steps: u64) -> bool {
    steps / STEPS_OF_A_PASS > graph.edge_count() as u64
}

// Whether moves of these nodes are sooner made in one pass than one after the other. It is a matter of time alone: both lead to the
// same rotation system.
fn is_worth_a_pass(alloc: Global, plane: &PlaneBlock, nodes: &[u32]) -> Result<bool, AllocError> {
    if nodes.len() < MANY {
        return Ok(false);
    }
    plane.belongs();
    let (graph, tree) = (plane.graph(), plane.tree());
    graph.keeps_limits();
    if !is_over_a_pass(graph, steps_at_most(graph, tree, nodes)) {
        return Ok(false);
    }
    let sizes = sizes_of(alloc, tree)?;
    let mut steps: u64 = 0;
    for k in nodes {
        steps = steps.saturating_add(steps_of_move(graph, tree, &sizes, *k));
    }
    Ok(is_over_a_pass(graph, steps))
}

// The node that is moved.
fn node_of(one: &Move) -> u32 {
    match one {
        Move::Flip(k) => *k,
        Move::Permute(k, _) => *k,
    }
}

// The nodes that are moved.
fn nodes_of(alloc: Global, moves: &[BlockMove]) -> Result<Vec<u32>, AllocError> {
    let mut nodes = Vec::with_capacity(alloc, moves.len())?;
    for pair in moves {
        nodes.push(node_of(&pair.one))?;
    }
    Ok(nodes)
}

// ---- made in one pass

// The choices of a block after moves of it.
fn drafted(alloc: Global, plane: &PlaneBlock, moves: &[BlockMove]) -> Result<Draft, AllocError>
    requires { All (Fits plane.now.tree) (moves_of moves.now) }
    ensures { IfOk result (λ draft. draft ≡ choices_by plane.now.tree
        (all_moved plane.now.tree (moves_of moves.now) plane.now.rotation)) }
{
    plane.belongs();
    let mut draft = plane.draft(alloc)?;
    for pair in moves {
        draft.make(&pair.one);
    }
    Ok(draft)
}

// A block after moves of it.
fn moved_at_once(
    alloc: Global,
    plane: &PlaneBlock,
    moves: &[BlockMove],
) -> Result<PlaneBlock, AllocError>
    requires { All (Fits plane.now.tree) (moves_of moves.now) }
    ensures { IfOk result (λ p. p ≡ record plane.now {
      rotation = all_moved plane.now.tree (moves_of moves.now) plane.now.rotation;
      choices = p.choices;
    }) }
{
    plane.belongs();
    let draft = drafted(alloc, plane, moves)?;
    let moved = plane.with_choices(alloc, draft)?;
    Ok(moved)
}

// The block that all moves are of, if there is one.
fn only_block(moves: &[BlockMove]) -> Option<u32>
    ensures { MatchOption result ⊤ (λ b. AreOfBlock b moves.now) }
{
    let first = moves.first()?;
    for pair in moves {
        if pair.block != first.block {
            return None;
        }
    }
    Some(first.block)
}

// Block b after moves of it, if they are sooner made in one pass.
fn made_of_block(
    alloc: Global,
    blocks: &[EmbeddedBlock],
    b: u32,
    moves: &BlockMoves,
) -> Result<Option<MadeBlock>, AllocError>
    requires right { All (IsMoveOf (map view_tree blocks.now)) (as_pairs moves.now) }
    requires block { b < length blocks.now }
    requires all { AreOfBlock b moves.now }
    ensures { IfOk result (IsMadeOf blocks.now (as_pairs moves.now)) }
{
    let block = &blocks[b as usize];
    block.belongs();
    match block.outcome() {
        Outcome::Plane(plane) => {
            let nodes = nodes_of(alloc, moves.as_slice())?;
            if !is_worth_a_pass(alloc, plane, &nodes)? {
                return Ok(None);
            }
            let plane = moved_at_once(alloc, plane, moves.as_slice())?;
            Ok(Some(MadeBlock { block: b, plane }))
        }
        Outcome::Not(_) => Ok(None),
    }
}

// What moves make of a block, where they are all of one block and sooner made in one pass.
fn made_of(
    alloc: Global,
    blocks: &[EmbeddedBlock],
    moves: &BlockMoves,
) -> Result<Option<MadeBlock>, AllocError>
    requires { All (IsMoveOf (map view_tree blocks.now)) (as_pairs moves.now) }
    ensures { IfOk result (IsMadeOf blocks.now (as_pairs moves.now)) }
{
    match only_block(moves.as_slice()) {
        Some(b) if (b as usize) < blocks.len() => made_of_block(alloc, blocks, b, moves),
        _ => Ok(None),
    }
}

/// What a step makes of a block, where its moves are all of one block and sooner made in one pass.
pub(crate) fn made_forth(
    alloc: Global,
    blocks: &[EmbeddedBlock],
    step: &Step,
) -> Result<Option<MadeBlock>, AllocError>
    requires { IsStepOf (map view_tree blocks.now) step.now }
    ensures { IfOk result (IsMadeForth blocks.now step.now) }
{
    match step {
        Step::Moves { forth, .. } => made_of(alloc, blocks, forth),
        Step::Mirror { .. } | Step::Lock { .. } => Ok(None),
    }
}

/// The same for a step that is taken back.
pub(crate) fn made_back(
    alloc: Global,
    blocks: &[EmbeddedBlock],
    step: &Step,
) -> Result<Option<MadeBlock>, AllocError>
    requires { IsStepOf (map view_tree blocks.now) step.now }
    ensures { IfOk result (IsMadeBack blocks.now step.now) }
{
    match step {
        Step::Moves { back, .. } => made_of(alloc, blocks, back),
        Step::Mirror { .. } | Step::Lock { .. } => Ok(None),
    }
}
