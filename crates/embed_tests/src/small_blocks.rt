// Small blocks in the plane, as the tests of their moves, conversions and lists begin with them.

use blocks::is_one_block;
use contract_embed::ContractEmbedder;
use embed_enum::{GotoFault, moves_to_rank};
use embed_moves::{flip, permute};
use multigraph::Graph;
use pair_split::{PairSplitter, Splitter};
use skel_embed::{BySkeletons, Move, MoveList, PlaneBlock, embed_by_skeletons};
use spqr_tree::Tree;
use std::alloc::Global;
use std::test::Fail;

// Two complete graphs on four vertices that share an edge.
pub(crate) static JOINED: [(u32, u32); 11] = [
    (0, 1),
    (0, 2),
    (0, 3),
    (1, 2),
    (1, 3),
    (2, 3),
    (0, 4),
    (0, 5),
    (1, 4),
    (1, 5),
    (4, 5),
];

// The block of these edges at its first plane rotation system.
pub(crate) fn block_of(
    alloc: Global,
    vertices: u32,
    ends: &[(u32, u32)],
) -> Result<PlaneBlock, Fail> {
    let Ok(graph) = Graph::build(alloc, vertices, ends) else {
        return Err(Fail::from("no graph"));
    };
    if !is_one_block(alloc, &graph)? {
        return Err(Fail::from("no block"));
    }
    let comps = PairSplitter::new().split(alloc, &graph)?;
    let tree = Tree::assemble(alloc, &graph, comps)?;
    match embed_by_skeletons(alloc, graph, tree, &mut ContractEmbedder)? {
        BySkeletons::Plane(block) => Ok(block),
        BySkeletons::Not { .. } => Err(Fail::from("not plane")),
    }
}

// Makes moves of a block; returns whether all were made.
pub(crate) fn make_all(block: &mut PlaneBlock, moves: &MoveList) -> bool {
    let mut all = true;
    for one in moves.as_slice() {
        let made = match one {
            Move::Flip(k) => *k < block.tree().node_count() && flip(block, *k).is_ok(),
            Move::Permute(k, keys) => {
                *k < block.tree().node_count() && permute(block, *k, keys.as_slice()).is_ok()
            }
        };
        all = all && made;
    }
    all
}

// Leads a block to the member of this rank by its moves; returns whether all were made.
pub(crate) fn go_to(alloc: Global, block: &mut PlaneBlock, rank: u128) -> Result<bool, GotoFault> {
    let moves = moves_to_rank(alloc, block, rank)?;
    Ok(make_all(block, &moves))
}
