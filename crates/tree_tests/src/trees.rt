// Small blocks, worked out by hand: their split components under each rotation of the list of edges, their trees and the groups
// of all edges at each node.

ghost use Rattle.std.specs.Prelude.{◌<◌, length};
ghost use Rattle.blocks.specs.Blocks.{IsBlockStructure};
ghost use Rattle.multigraph.specs.Graph.{IsGraph};
ghost use Rattle.pair_split.specs.Tutte.{IsTutte};

use crate::small_blocks::{block_of, ends_of};
use blocks::{Blocks, is_one_block, split};
use multigraph::{Graph, Part};
use pair_split::{Comp, Item, PairSplitter, Splitter, What};
use spqr_script::node_line;
use spqr_tree::Tree;
use std::alloc::{AllocError, Global};
use std::test::Fail;

// A block by its number of vertices and the ends of its edges, a digit for each; and its components, each by its kind, how many
// pieces it has, and its vertices.
type Row = (u32, &'static str, &'static [&'static str]);

static ROWS: [Row; 9] = [
    // two bundles, a triangle and a triconnected graph
    (
        5,
        "01 02 03 14 13 23 42 02 42",
        &["P3 02", "P3 24", "S3 124", "R6 0123"],
    ),
    // the complete graph on four vertices
    (4, "01 02 03 12 13 23", &["R6 0123"]),
    // a square with a chord
    (4, "01 12 23 30 02", &["S3 012", "S3 023", "P3 02"]),
    // three paths of two edges between two vertices
    (
        5,
        "02 12 03 13 04 14",
        &["S3 012", "S3 013", "S3 014", "P3 01"],
    ),
    // three parallel edges, one edge, and two
    (2, "01 10 01", &["P3 01"]),
    (2, "01", &["B1 01"]),
    (2, "01 10", &["B2 01"]),
    // two complete graphs on four vertices that share an edge
    (
        6,
        "01 02 03 12 13 23 04 05 14 15 45",
        &["R6 0123", "R6 0145", "P3 01"],
    ),
    // a triangle
    (3, "01 12 20", &["S3 012"]),
];

// A component as in the rows.
fn comp_text(alloc: Global, comp: &Comp) -> Result<String, AllocError> {
    let pieces = comp.items.as_slice();
    let mut text = format!(in alloc; "{:?}{} ", comp.kind, pieces.len())?;
    for v in 0..10 {
        if pieces.iter().any(|piece| piece.a == v || piece.b == v) {
            text.push_str(format!(in alloc; "{v}")?.as_str())?;
        }
    }
    Ok(text)
}

#[test]
fn splits_worked_rows(rt: HostRuntime) -> Result<(), Fail> {
    for (n, text, expected) in &ROWS {
        for first in 0..text.len().div_ceil(3) {
            let ends = ends_of(rt.alloc(), text, first)?;
            let graph = block_of(rt.alloc(), *n, &ends)?;
            let comps = PairSplitter::new().split(rt.alloc(), &graph)?;
            let mut found = Vec::new(rt.alloc());
            for comp in comps.list.as_slice() {
                found.push(comp_text(rt.alloc(), comp)?)?;
            }
            assert_eq!(rt; found.len(), expected.len());
            for text in *expected {
                assert!(rt; found.iter().any(|comp| comp.as_str() == *text));
            }
        }
    }
    Ok(())
}

// A block, the nodes of its tree, and for each node the keys of the groups of all edges.
type TreeRow = (
    u32,
    &'static str,
    &'static [&'static str],
    &'static [&'static [u32]],
);

static TREES: [TreeRow; 7] = [
    (2, "01", &["B 0 1 | 0:0-1"], &[&[0]]),
    // a cycle of four edges, which is one polygon; a chord makes two triangles and a bond of it
    (
        4,
        "01 12 23 30",
        &["S 0 1 2 3 | 0:0-1 1:1-2 2:2-3 3:0-3"],
        &[&[0, 1, 2, 3]],
    ),
    (
        4,
        "01 12 23 30 02",
        &[
            "S 0 1 2 | 0:0-1 1:1-2 2:0-2@1",
            "P 0 2 | 0:0-2@0 2:0-2@2 4:0-2",
            "S 0 2 3 | 0:0-2@1 2:2-3 3:0-3",
        ],
        &[&[0, 1, 2, 2, 2], &[0, 0, 2, 2, 4], &[0, 0, 2, 3, 0]],
    ),
    // two edges and a path of two between two vertices
    (
        3,
        "01 01 12 20",
        &[
            "P 0 1 | 0:0-1 1:0-1 2:0-1@1",
            "S 0 1 2 | 0:0-1@0 2:1-2 3:0-2",
        ],
        &[&[0, 1, 2, 2], &[0, 0, 2, 3]],
    ),
    // two complete graphs on four vertices that share an edge
    (
        6,
        "01 02 03 12 13 23 04 05 14 15 45",
        &[
            "P 0 1 | 0:0-1 1:0-1@1 6:0-1@2",
            "R 0 1 2 3 | 0:0-1@0 1:0-2 2:0-3 3:1-2 4:1-3 5:2-3",
            "R 0 1 4 5 | 0:0-1@0 6:0-4 7:0-5 8:1-4 9:1-5 10:4-5",
        ],
        &[
            &[0, 1, 1, 1, 1, 1, 6, 6, 6, 6, 6],
            &[0, 1, 2, 3, 4, 5, 0, 0, 0, 0, 0],
            &[0, 0, 0, 0, 0, 0, 6, 7, 8, 9, 10],
        ],
    ),
    // a triconnected graph, a bundle and a triangle beside it, and a bundle beside the triangle; rooted at the first
    (
        5,
        "01 02 03 14 13 23 42 02 42",
        &[
            "R 0 1 2 3 | 0:0-1 1:0-2@1 2:0-3 3:1-2@2 4:1-3 5:2-3",
            "P 0 2 | 0:0-2@0 1:0-2 7:0-2",
            "S 1 2 4 | 0:1-2@0 3:1-4 6:2-4@3",
            "P 2 4 | 0:2-4@2 6:2-4 8:2-4",
        ],
        &[
            &[0, 1, 2, 3, 4, 5, 3, 1, 3],
            &[0, 1, 0, 0, 0, 0, 0, 7, 0],
            &[0, 0, 0, 3, 0, 0, 6, 0, 6],
            &[0, 0, 0, 0, 0, 0, 6, 0, 8],
        ],
    ),
    // the same, rooted at the last
    (
        5,
        "42 01 02 03 14 13 23 42 02",
        &[
            "R 0 1 2 3 | 0:1-2@2 1:0-1 2:0-2@1 3:0-3 5:1-3 6:2-3",
            "P 0 2 | 0:0-2@0 2:0-2 8:0-2",
            "S 1 2 4 | 0:2-4@3 1:1-2@0 4:1-4",
            "P 2 4 | 0:2-4 1:2-4@2 7:2-4",
        ],
        &[
            &[0, 1, 2, 3, 0, 5, 6, 0, 2],
            &[0, 0, 2, 0, 0, 0, 0, 0, 8],
            &[0, 1, 1, 1, 4, 1, 1, 0, 1],
            &[0, 1, 1, 1, 1, 1, 1, 7, 1],
        ],
    ),
];

// An item, with a blank before it.
fn item_text(alloc: Global, item: &Item) -> Result<String, AllocError> {
    match item.what {
        What::Real(_) => format!(in alloc; " {}:{}-{}", item.key, item.a, item.b),
        What::Link(j) => format!(in alloc; " {}:{}-{}@{j}", item.key, item.a, item.b),
    }
}

// Node k: its kind, its vertices, and its items.
fn node_text(alloc: Global, tree: &Tree, k: u32) -> Result<String, AllocError>
    requires { k < length tree.now }
{
    let mut text = format!(in alloc; "{:?}", tree.kind(k))?;
    for v in tree.vertices(k) {
        text.push_str(format!(in alloc; " {v}")?.as_str())?;
    }
    text.push_str(" |")?;
    for item in tree.items(k) {
        text.push_str(item_text(alloc, item)?.as_str())?;
    }
    Ok(text)
}

// The keys of the groups of all edges at node k.
fn groups_at(alloc: Global, graph: &Graph, tree: &Tree, k: u32) -> Result<Vec<u32>, AllocError>
    requires node { k < length tree.now }
    requires tree { IsTutte graph.now tree.now }
{
    let mut keys = Vec::new(alloc);
    for e in 0..graph.edge_count() {
        keys.push(tree.group(k, e))?;
    }
    Ok(keys)
}

// The tree is as in the row, and so is a copy of it.
#[test]
fn assembles_trees(rt: HostRuntime) -> Result<(), Fail> {
    for (n, text, nodes, groups) in &TREES {
        let ends = ends_of(rt.alloc(), text, 0)?;
        let graph = block_of(rt.alloc(), *n, &ends)?;
        let comps = PairSplitter::new().split(rt.alloc(), &graph)?;
        let tree = Tree::assemble(rt.alloc(), &graph, comps)?;
        let copy = tree.copy(rt.alloc())?;
        assert_eq!(rt; tree.node_count() as usize, nodes.len());
        assert_eq!(rt; copy.node_count() as usize, nodes.len());
        for k in 0..tree.node_count() {
            let node = nodes.get(k as usize).copied().unwrap_or("");
            let keys = groups.get(k as usize).copied().unwrap_or(&[]);
            assert_eq!(rt; node_text(rt.alloc(), &tree, k)?.as_str(), node);
            assert_eq!(rt; node_text(rt.alloc(), &copy, k)?.as_str(), node);
            assert_eq!(rt; copy.items(k), tree.items(k));
            assert_eq!(rt; groups_at(rt.alloc(), &graph, &tree, k)?.as_slice(), keys);
            assert_eq!(rt; groups_at(rt.alloc(), &graph, &copy, k)?.as_slice(), keys);
        }
    }
    Ok(())
}

// Appends the lines of the nodes of a part's tree to a text.
fn push_lines(alloc: Global, text: &mut Vec<u8>, part: &Part, tree: &Tree) -> Result<(), AllocError>
    requires graph { IsGraph part.now.graph }
    requires nodes { IsTutte part.now.graph tree.now }
{
    for k in 0..tree.node_count() {
        let line = node_line(alloc, part, tree, k)?;
        text.extend_from_slice(&line)?;
    }
    Ok(())
}

// The lines of the nodes of block b, in the numbers of the graph.
fn node_lines(alloc: Global, graph: &Graph, blocks: &Blocks, b: u32) -> Result<Vec<u8>, Fail>
    requires structure { IsBlockStructure graph.now blocks.now }
    requires block { b < length blocks.now.blocks }
{
    let part = graph.part(alloc, blocks.edges(b))?;
    if !is_one_block(alloc, part.graph())? {
        return Err(Fail::from("no block"));
    }
    let comps = PairSplitter::new().split(alloc, part.graph())?;
    let tree = Tree::assemble(alloc, part.graph(), comps)?;
    let mut text = Vec::new(alloc);
    push_lines(alloc, &mut text, &part, &tree)?;
    Ok(text)
}

// An edge, and at one of its ends a square with a chord: the numbers of the second block begin with 1.
static NODE_LINES: [&'static str; 2] = [
    "node 0 B 0 1 | 0:0-1\n",
    "node 0 S 1 2 3 | 1:1-2 2:2-3 3:1-3@1\nnode 1 P 1 3 | 1:1-3@0 3:1-3@2 5:1-3\nnode 2 S 1 3 4 | 1:1-3@1 3:3-4 4:1-4\n",
];

#[test]
fn node_lines_have_the_numbers_of_the_graph(rt: HostRuntime) -> Result<(), Fail> {
    let ends = ends_of(rt.alloc(), "01 12 23 34 41 13", 0)?;
    let Ok(graph) = Graph::build(rt.alloc(), 5, &ends) else {
        return Err(Fail::from("no graph"));
    };
    let blocks = split(rt.alloc(), &graph)?;
    assert_eq!(rt; blocks.block_count() as usize, NODE_LINES.len());
    for b in 0..blocks.block_count() {
        let expected = NODE_LINES.get(b as usize).copied().unwrap_or("");
        assert_eq!(rt;
            node_lines(rt.alloc(), &graph, &blocks, b)?.as_slice(),
            expected.as_bytes()
        );
    }
    Ok(())
}
