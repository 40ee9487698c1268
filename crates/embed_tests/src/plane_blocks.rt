// First plane rotation systems of small blocks, worked out by hand.

ghost use Rattle.std.specs.Prelude.{◌≡◌, IfOk};

use blocks::is_one_block;
use contract_embed::ContractEmbedder;
use multigraph::{Graph, Numbers, Part};
use pair_split::{Kind, PairSplitter, Splitter};
use rotations::Lists;
use skel_embed::{
    BySkeletons, NonplanarBlock, Outcome, PlaneBlock, TakeFault, embed_by_skeletons, plane_block,
};
use spqr_tree::Tree;
use std::alloc::Global;
use std::test::Fail;

// A block by the ends of its edges, and the edges around each vertex in its first plane rotation system.
struct Row {
    vertices: u32,
    ends: &'static [(u32, u32)],
    rounds: &'static [&'static [u32]],
}

static ROWS: [Row; 8] = [
    // the complete graph on four vertices
    Row {
        vertices: 4,
        ends: &[(0, 1), (0, 2), (0, 3), (1, 2), (1, 3), (2, 3)],
        rounds: &[&[0, 1, 2], &[0, 4, 3], &[1, 3, 5], &[2, 5, 4]],
    },
    // a square with a chord
    Row {
        vertices: 4,
        ends: &[(0, 1), (1, 2), (2, 3), (3, 0), (0, 2)],
        rounds: &[&[0, 3, 4], &[0, 1], &[1, 4, 2], &[2, 3]],
    },
    // three paths of two edges between two vertices
    Row {
        vertices: 5,
        ends: &[(0, 2), (1, 2), (0, 3), (1, 3), (0, 4), (1, 4)],
        rounds: &[&[0, 2, 4], &[1, 5, 3], &[0, 1], &[2, 3], &[4, 5]],
    },
    // two complete graphs on four vertices that share an edge
    Row {
        vertices: 6,
        ends: &[
            (0, 1),
            (0, 2),
            (0, 3),
            (1, 2),
            (1, 3),
            (2, 3),
            (0, 4),
            (0, 5),
            (1, 4),
            (1, 5),
            (4, 5),
        ],
        rounds: &[
            &[0, 1, 2, 6, 7],
            &[0, 9, 8, 4, 3],
            &[1, 3, 5],
            &[2, 5, 4],
            &[6, 8, 10],
            &[7, 10, 9],
        ],
    },
    // the same without that edge
    Row {
        vertices: 6,
        ends: &[
            (0, 2),
            (0, 3),
            (1, 2),
            (1, 3),
            (2, 3),
            (0, 4),
            (0, 5),
            (1, 4),
            (1, 5),
            (4, 5),
        ],
        rounds: &[
            &[0, 1, 5, 6],
            &[2, 8, 7, 3],
            &[0, 2, 4],
            &[1, 4, 3],
            &[5, 7, 9],
            &[6, 9, 8],
        ],
    },
    // three parallel edges, one edge, and two
    Row {
        vertices: 2,
        ends: &[(0, 1), (0, 1), (0, 1)],
        rounds: &[&[0, 1, 2], &[0, 2, 1]],
    },
    Row {
        vertices: 2,
        ends: &[(0, 1)],
        rounds: &[&[0], &[0]],
    },
    Row {
        vertices: 2,
        ends: &[(0, 1), (0, 1)],
        rounds: &[&[0, 1], &[0, 1]],
    },
];

// The block of these edges, embedded; nothing where it is no block, or not plane.
fn block_of(alloc: Global, vertices: u32, ends: &[(u32, u32)]) -> Result<Option<PlaneBlock>, Fail> {
    let Ok(graph) = Graph::build(alloc, vertices, ends) else {
        return Err(Fail::from("no graph"));
    };
    if !is_one_block(alloc, &graph)? {
        return Ok(None);
    }
    let comps = PairSplitter::new().split(alloc, &graph)?;
    let tree = Tree::assemble(alloc, &graph, comps)?;
    match embed_by_skeletons(alloc, graph, tree, &mut ContractEmbedder)? {
        BySkeletons::Plane(block) => Ok(Some(block)),
        BySkeletons::Not { .. } => Ok(None),
    }
}

// Whether the block has the rotation system of the row.
fn stands_at(block: &PlaneBlock, row: &Row) -> bool {
    let r = block.rotation();
    if r.vertex_count() as usize != row.rounds.len() {
        return false;
    }
    for v in 0..r.vertex_count() {
        if !r.list(v).eq(row.rounds[v as usize].iter().copied()) {
            return false;
        }
    }
    true
}

#[test]
fn stands_at_first_members(rt: HostRuntime) -> Result<(), Fail> {
    for row in &ROWS {
        let Some(block) = block_of(rt.alloc(), row.vertices, row.ends)? else {
            return Err(Fail::from("not plane"));
        };
        assert!(rt; stands_at(&block, row));
        assert!(rt; stands_at(&block.copy(rt.alloc())?, row));
    }
    Ok(())
}

// Locks node k, and whether it had this choice and no lock before.
fn has_choice(alloc: Global, block: &mut PlaneBlock, k: u32, row: &[u32]) -> Result<bool, Fail> {
    if k >= block.tree().node_count() {
        return Ok(false);
    }
    if block.choice(alloc, k)?.as_slice() != row || block.locked(k) {
        return Ok(false);
    }
    block.set_lock(k, true);
    Ok(block.locked(k))
}

#[test]
fn has_choices_and_locks(rt: HostRuntime) -> Result<(), Fail> {
    let Some(mut block) = block_of(rt.alloc(), ROWS[3].vertices, ROWS[3].ends)? else {
        return Err(Fail::from("not plane"));
    };
    let rows: [&[u32]; 3] = [&[0, 1, 6], &[0, 1, 2], &[0, 6, 7]];
    for k in 0..3u32 {
        assert!(rt; has_choice(rt.alloc(), &mut block, k, rows[k as usize])?);
    }
    assert_eq!(rt; block.graph().edge_count(), 11);
    Ok(())
}

// The fourth block with the node on the vertices 0, 1, 2 and 3 turned over.
static TURNED: Row = Row {
    vertices: 6,
    ends: &[],
    rounds: &[
        &[0, 2, 1, 6, 7],
        &[0, 9, 8, 3, 4],
        &[1, 5, 3],
        &[2, 4, 5],
        &[6, 8, 10],
        &[7, 10, 9],
    ],
};

// Turns node k over, where it is triconnected.
fn turn(block: &mut PlaneBlock, k: u32) -> bool {
    if k >= block.tree().node_count() || block.tree().kind(k) != Kind::R {
        return false;
    }
    block.turn(k);
    true
}

#[test]
fn turns_over(rt: HostRuntime) -> Result<(), Fail> {
    let Some(mut block) = block_of(rt.alloc(), ROWS[3].vertices, ROWS[3].ends)? else {
        return Err(Fail::from("not plane"));
    };
    assert!(rt; turn(&mut block, 1));
    assert!(rt; stands_at(&block, &TURNED));
    assert!(rt; turn(&mut block, 1));
    assert!(rt; stands_at(&block, &ROWS[3]));
    Ok(())
}

// The fault with its numbers; nothing where the lists are taken in.
fn numbers(answer: Result<(), TakeFault>) -> Option<(u32, u32, u32, u32)> {
    match answer {
        Ok(()) => None,
        Err(fault) => match fault {
            TakeFault::BadRotation(v) => Some((6, v, 0, 0)),
            TakeFault::NotGenusZero(v, e, f) => Some((7, v, e, f)),
            TakeFault::Locked(k) => Some((12, k, 0, 0)),
            TakeFault::Memory => Some((8, 0, 0, 0)),
        },
    }
}

// What taking these lists returns.
fn take(
    alloc: Global,
    block: &mut PlaneBlock,
    part: &Part,
    rows: &[&[u32]],
) -> Result<Option<(u32, u32, u32, u32)>, Fail>
    requires { part.now.graph ≡ block.old.graph }
    ensures { block.new.graph ≡ block.old.graph }
{
    let mut lists = Lists::new(alloc);
    for v in 0..rows.len() {
        if v < 100 && lists.is_above(v as u32) {
            lists.push(v as u32, rows[v])?;
        }
    }
    Ok(numbers(block.take(alloc, part, &lists)))
}

// The complete graph on four vertices as a part of a graph.
fn part_of_four(alloc: Global) -> Result<Part, Fail> {
    let whole = Graph::build(alloc, 4, ROWS[0].ends)?;
    Ok(whole.part(alloc, &[0, 1, 2, 3, 4, 5])?)
}

// The block that a part is, embedded.
fn block_in(alloc: Global, part: &Part) -> Result<PlaneBlock, Fail>
    ensures { IfOk result (λ block. block.graph ≡ part.now.graph) }
{
    let graph = part.graph().copy(alloc)?;
    if !is_one_block(alloc, &graph)? {
        return Err(Fail::from("no block"));
    }
    let comps = PairSplitter::new().split(alloc, &graph)?;
    let tree = Tree::assemble(alloc, &graph, comps)?;
    match plane_block(alloc, graph, tree, &mut ContractEmbedder)? {
        Outcome::Plane(block) => Ok(block),
        Outcome::Not(_) => Err(Fail::from("not plane")),
    }
}

// Lists of the complete graph on four vertices: the first plane rotation system, one that is not plane, and the mirror image.
static FIRST: [&[u32]; 4] = [&[0, 1, 2], &[0, 4, 3], &[1, 3, 5], &[2, 5, 4]];

static TWISTED: [&[u32]; 4] = [&[0, 1, 2], &[0, 4, 3], &[1, 3, 5], &[2, 4, 5]];

static MIRRORED: [&[u32]; 4] = [&[0, 2, 1], &[0, 3, 4], &[1, 5, 3], &[2, 4, 5]];

#[test]
fn takes_lists_in(rt: HostRuntime) -> Result<(), Fail> {
    let part = part_of_four(rt.alloc())?;
    let mut block = block_in(rt.alloc(), &part)?;
    let bad = take(rt.alloc(), &mut block, &part, &FIRST[1..])?;
    assert!(rt; matches!(bad, Some((6, 0, 0, 0))));
    let twisted = take(rt.alloc(), &mut block, &part, &TWISTED)?;
    assert!(rt; matches!(twisted, Some((7, 4, 6, 2))));
    assert!(rt; stands_at(&block, &ROWS[0]));
    Ok(())
}

#[test]
fn keeps_locked_choices(rt: HostRuntime) -> Result<(), Fail> {
    let part = part_of_four(rt.alloc())?;
    let mut block = block_in(rt.alloc(), &part)?;
    let mirrored = take(rt.alloc(), &mut block, &part, &MIRRORED)?;
    assert!(rt; mirrored.is_none());
    if block.tree().node_count() < 1 {
        return Err(Fail::from("no node"));
    }
    block.set_lock(0, true);
    let first = take(rt.alloc(), &mut block, &part, &FIRST)?;
    assert!(rt; matches!(first, Some((12, 0, 0, 0))));
    Ok(())
}

// The complete graph on five vertices has no plane rotation system.
#[test]
fn finds_skeleton_that_is_not_plane(rt: HostRuntime) -> Result<(), Fail> {
    let ends = [
        (0, 1),
        (0, 2),
        (0, 3),
        (0, 4),
        (1, 2),
        (1, 3),
        (1, 4),
        (2, 3),
        (2, 4),
        (3, 4),
    ];
    assert!(rt; block_of(rt.alloc(), 5, &ends)?.is_none());
    Ok(())
}

// The complete graph on five vertices, with a vertex on its first edge.
static SUBDIVIDED: [(u32, u32); 11] = [
    (0, 5),
    (5, 1),
    (0, 2),
    (0, 3),
    (0, 4),
    (1, 2),
    (1, 3),
    (1, 4),
    (2, 3),
    (2, 4),
    (3, 4),
];

// The block of these edges with the subdivision that keeps it from the plane; nothing where it is no block, or in the plane.
fn nonplanar_block(
    alloc: Global,
    vertices: u32,
    ends: &[(u32, u32)],
) -> Result<Option<NonplanarBlock>, Fail> {
    let Ok(graph) = Graph::build(alloc, vertices, ends) else {
        return Err(Fail::from("no graph"));
    };
    if !is_one_block(alloc, &graph)? {
        return Ok(None);
    }
    let comps = PairSplitter::new().split(alloc, &graph)?;
    let tree = Tree::assemble(alloc, &graph, comps)?;
    match plane_block(alloc, graph, tree, &mut ContractEmbedder)? {
        Outcome::Plane(_) => Ok(None),
        Outcome::Not(block) => Ok(Some(block)),
    }
}

// Whether these are the paths.
fn are_paths(found: &[Numbers], paths: &[&[u32]]) -> bool {
    if found.len() != paths.len() {
        return false;
    }
    for (path, expected) in found.iter().zip(paths) {
        if path.as_slice() != *expected {
            return false;
        }
    }
    true
}

#[test]
fn finds_subdivision_in_edges_of_block(rt: HostRuntime) -> Result<(), Fail> {
    let Some(block) = nonplanar_block(rt.alloc(), 6, &SUBDIVIDED)? else {
        return Err(Fail::from("plane"));
    };
    let branch: &[u32] = &[0, 1, 2, 3, 4];
    let paths: [&[u32]; 10] = [
        &[0, 1],
        &[2],
        &[3],
        &[4],
        &[5],
        &[6],
        &[7],
        &[8],
        &[9],
        &[10],
    ];
    let copy = block.copy()?;
    assert!(rt; copy.graph().edge_count() == 11);
    assert!(rt; copy.tree().node_count() == 2);
    assert!(rt; copy.certificate().branch.as_slice() == branch);
    assert!(rt; are_paths(copy.certificate().paths.as_slice(), &paths));
    assert!(rt; nonplanar_block(rt.alloc(), ROWS[0].vertices, ROWS[0].ends)?.is_none());
    Ok(())
}
