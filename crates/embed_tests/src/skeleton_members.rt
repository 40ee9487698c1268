// Rotation systems of the skeletons, read off those of small blocks, worked out by hand.

ghost use Rattle.std.specs.Prelude.{ℕ, List, IfOk};
ghost use Rattle.skeletons.specs.Families.{AreSkeletonSystems};
ghost use Rattle.skel_compose.specs.Followers.{IsTable, IsTableOf};

use blocks::is_one_block;
use contract_embed::ContractEmbedder;
use multigraph::{FlatLists, Graph};
use pair_split::{PairSplitter, Splitter};
use rotations::Rotation;
use skel_compose::compose;
use skel_decompose::{decompose, followers};
use skel_embed::{BySkeletons, PlaneBlock, embed_by_skeletons};
use spqr_tree::Tree;
use std::alloc::{AllocError, Global};
use std::test::Fail;

// A block by the ends of its edges; and for each node the items around each of its vertices, in the first plane rotation system.
struct Row {
    vertices: u32,
    ends: &'static [(u32, u32)],
    members: &'static [&'static [&'static [u32]]],
}

static ROWS: [Row; 3] = [
    // one edge
    Row {
        vertices: 2,
        ends: &[(0, 1)],
        members: &[&[&[0], &[0]]],
    },
    // a square with a chord: a polygon, a bond and a polygon
    Row {
        vertices: 4,
        ends: &[(0, 1), (1, 2), (2, 3), (3, 0), (0, 2)],
        members: &[
            &[&[0, 2], &[0, 1], &[1, 2]],
            &[&[0, 1, 2], &[0, 2, 1]],
            &[&[0, 2], &[0, 1], &[1, 2]],
        ],
    },
    // two complete graphs on four vertices that share an edge: a bond, and they
    Row {
        vertices: 6,
        ends: &[
            (0, 1),
            (0, 2),
            (0, 3),
            (1, 2),
            (1, 3),
            (2, 3),
            (0, 4),
            (0, 5),
            (1, 4),
            (1, 5),
            (4, 5),
        ],
        members: &[
            &[&[0, 1, 2], &[0, 2, 1]],
            &[&[0, 1, 2], &[0, 4, 3], &[1, 3, 5], &[2, 5, 4]],
            &[&[0, 1, 2], &[0, 4, 3], &[1, 3, 5], &[2, 5, 4]],
        ],
    },
];

// The block of these edges in the plane.
fn block_of(alloc: Global, row: &Row) -> Result<PlaneBlock, Fail> {
    let Ok(graph) = Graph::build(alloc, row.vertices, row.ends) else {
        return Err(Fail::from("no graph"));
    };
    if !is_one_block(alloc, &graph)? {
        return Err(Fail::from("no block"));
    }
    let comps = PairSplitter::new().split(alloc, &graph)?;
    let tree = Tree::assemble(alloc, &graph, comps)?;
    match embed_by_skeletons(alloc, graph, tree, &mut ContractEmbedder)? {
        BySkeletons::Plane(block) => Ok(block),
        BySkeletons::Not { .. } => Err(Fail::from("not plane")),
    }
}

// The members of a block in the plane.
fn members_of(alloc: Global, block: &PlaneBlock) -> Result<Vec<Rotation>, AllocError>
    ensures { IfOk result (λ members. AreSkeletonSystems block.now.tree members.items) }
{
    decompose(alloc, block.graph(), block.tree(), block.rotation())
}

// What follows each item in them.
fn table_of(alloc: Global, block: &PlaneBlock) -> Result<FlatLists<u32>, AllocError>
    ensures table { IfOk result (IsTable block.now.tree) }
    ensures family { IfOk result
        (λ table. (family : List (List (List ℕ))) × IsTableOf block.now.tree table family) }
{
    let graph = block.graph();
    graph.keeps_limits();
    let table = followers(alloc, graph, block.tree(), block.rotation())?;
    Ok(table)
}

// Whether the rotation system has these orders.
fn has_orders(r: &Rotation, rounds: &[&[u32]]) -> bool {
    if r.vertex_count() as usize != rounds.len() {
        return false;
    }
    for v in 0..r.vertex_count() {
        if !r.list(v).eq(rounds[v as usize].iter().copied()) {
            return false;
        }
    }
    true
}

// Whether the members are those of the row.
fn are_members(members: &[Rotation], row: &Row) -> bool {
    if members.len() != row.members.len() {
        return false;
    }
    for k in 0..members.len() {
        if !has_orders(&members[k], row.members[k]) {
            return false;
        }
    }
    true
}

#[test]
fn reads_members_off(rt: HostRuntime) -> Result<(), Fail> {
    for row in &ROWS {
        let block = block_of(rt.alloc(), row)?;
        let members = members_of(rt.alloc(), &block)?;
        assert!(rt; are_members(&members, row));
        let table = table_of(rt.alloc(), &block)?;
        let whole = compose(rt.alloc(), block.graph(), block.tree(), &table)?;
        assert!(rt; whole.same(block.rotation()));
    }
    Ok(())
}
