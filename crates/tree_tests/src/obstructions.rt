// Certificates of small blocks, worked out by hand from those of a skeleton.

ghost use Rattle.std.specs.Prelude.{IfOk};
ghost use Rattle.graph_theory.specs.Block.{IsOneBlock};
ghost use Rattle.skeletons.specs.Items.{IsBlockTree};

use crate::small_blocks::block_of;
use block_obstruct::obstruct_block;
use kuratowski::{Pattern, Subdivision, check};
use multigraph::{Graph, NumberLists, Numbers};
use pair_split::{Kind, PairSplitter, Splitter};
use spqr_tree::Tree;
use std::alloc::{AllocError, Global};
use std::test::Fail;

// A block by the ends of its edges, a certificate of the skeleton of its first node, and the paths of the one that is carried
// into the block.
struct Row {
    vertices: u32,
    ends: &'static [(u32, u32)],
    kind: Pattern,
    branch: &'static [u32],
    paths: &'static [&'static [u32]],
    carried: &'static [&'static [u32]],
}

static ROWS: [Row; 4] = [
    // K3,3 with an edge that has a vertex inside
    Row {
        vertices: 7,
        ends: &[
            (0, 3),
            (0, 4),
            (0, 5),
            (1, 3),
            (1, 4),
            (1, 5),
            (2, 3),
            (2, 4),
            (2, 6),
            (6, 5),
        ],
        kind: Pattern::K33,
        branch: &[0, 1, 2, 3, 4, 5],
        paths: &[&[0], &[1], &[2], &[3], &[4], &[5], &[6], &[7], &[8]],
        carried: &[&[0], &[1], &[2], &[3], &[4], &[5], &[6], &[7], &[8, 9]],
    },
    // K3,3 alone
    Row {
        vertices: 6,
        ends: &[
            (0, 3),
            (0, 4),
            (0, 5),
            (1, 3),
            (1, 4),
            (1, 5),
            (2, 3),
            (2, 4),
            (2, 5),
        ],
        kind: Pattern::K33,
        branch: &[0, 1, 2, 3, 4, 5],
        paths: &[&[0], &[1], &[2], &[3], &[4], &[5], &[6], &[7], &[8]],
        carried: &[&[0], &[1], &[2], &[3], &[4], &[5], &[6], &[7], &[8]],
    },
    // other sides: the edge with a vertex inside is taken from its greater end to the lesser
    Row {
        vertices: 7,
        ends: &[
            (0, 1),
            (0, 2),
            (0, 3),
            (1, 6),
            (2, 4),
            (3, 4),
            (1, 5),
            (2, 5),
            (3, 5),
            (6, 4),
        ],
        kind: Pattern::K33,
        branch: &[0, 4, 5, 1, 2, 3],
        paths: &[&[0], &[1], &[2], &[3], &[4], &[5], &[6], &[7], &[8]],
        carried: &[&[0], &[1], &[2], &[9, 3], &[4], &[5], &[6], &[7], &[8]],
    },
    // K5 with four vertices, all but two of them joined, in the place of an edge: the shortest way through the lesser edges
    Row {
        vertices: 7,
        ends: &[
            (0, 2),
            (0, 3),
            (0, 4),
            (1, 2),
            (1, 3),
            (1, 4),
            (2, 3),
            (2, 4),
            (3, 4),
            (0, 5),
            (5, 1),
            (0, 6),
            (6, 1),
            (5, 6),
        ],
        kind: Pattern::K5,
        branch: &[0, 1, 2, 3, 4],
        paths: &[&[9], &[0], &[1], &[2], &[3], &[4], &[5], &[6], &[7], &[8]],
        carried: &[
            &[9, 10],
            &[0],
            &[1],
            &[2],
            &[3],
            &[4],
            &[5],
            &[6],
            &[7],
            &[8],
        ],
    },
];

// The certificate of a row.
fn certificate(alloc: Global, row: &Row) -> Result<Subdivision, AllocError> {
    let mut paths = Vec::new(alloc);
    for path in row.paths {
        paths.push(Numbers::of(Vec::from_slice(alloc, path)?))?;
    }
    Ok(Subdivision {
        kind: row.kind,
        branch: Numbers::of(Vec::from_slice(alloc, row.branch)?),
        paths: NumberLists::of(paths),
    })
}

// The tree of a block.
fn tree_of(alloc: Global, g: &Graph) -> Result<Tree, AllocError>
    requires { IsOneBlock g.now }
    ensures { IfOk result (λ tree. IsBlockTree g.now tree) }
{
    let _ = g.vertex_count();
    let comps = PairSplitter::new().split(alloc, g)?;
    Tree::assemble(alloc, g, comps)
}

// Whether these are the paths.
fn are_paths(found: &[Numbers], paths: &[&[u32]]) -> bool {
    if found.len() != paths.len() {
        return false;
    }
    for (path, expected) in found.iter().zip(paths) {
        if path.as_slice() != *expected {
            return false;
        }
    }
    true
}

// Whether the certificate of the row is carried into the block as expected.
fn is_carried(alloc: Global, row: &Row) -> Result<bool, Fail> {
    let g = block_of(alloc, row.vertices, row.ends)?;
    let tree = tree_of(alloc, &g)?;
    if tree.node_count() == 0 || tree.kind(0) != Kind::R {
        return Err(Fail::from("no triconnected node"));
    }
    let inner = tree.skeleton(alloc, 0)?;
    let s = certificate(alloc, row)?;
    if !check(alloc, &inner, &s)? {
        return Err(Fail::from("no certificate"));
    }
    let w = obstruct_block(alloc, &g, &tree, 0, &inner, &s)?;
    Ok(w.branch.as_slice() == row.branch && are_paths(w.paths.as_slice(), row.carried))
}

#[test]
fn carries_certificates(rt: HostRuntime) -> Result<(), Fail> {
    for row in &ROWS {
        assert!(rt; is_carried(rt.alloc(), row)?);
    }
    Ok(())
}
