// Both splitters lead to the same nodes: of small blocks under each rotation of their edges, and of made graphs. Counting the
// steps changes no component.

ghost use Rattle.std.specs.Prelude.{◌≡◌, ◌<◌, length};
ghost use Rattle.graph_theory.specs.Block.{IsOneBlock};

use crate::small_blocks::ends_of;
use blocks::is_one_block;
use made_graph::make_graph;
use multigraph::Graph;
use pair_split::{Comps, PairSplitter, Splitter};
use split_comp::SearchSplitter;
use spqr_tree::Tree;
use std::alloc::{AllocError, Global};
use std::marker::Brand;
use std::sync::ledger::{Blank, Ledger};
use std::test::Fail;
use step_count::Steps;

// Whether node k is the same in both trees.
fn is_same_node(one: &Tree, other: &Tree, k: u32) -> bool
    requires one { k < length one.now }
    requires other { k < length other.now }
{
    one.kind(k) == other.kind(k)
        && one.vertices(k) == other.vertices(k)
        && one.items(k) == other.items(k)
}

// Whether the trees have the same nodes.
fn are_same(one: &Tree, other: &Tree) -> bool {
    if one.node_count() != other.node_count() {
        return false;
    }
    for k in 0..one.node_count() {
        if !is_same_node(one, other, k) {
            return false;
        }
    }
    true
}

// Whether both splitters lead to the same nodes of the block.
fn agree(alloc: Global, graph: &Graph) -> Result<bool, Fail> {
    if !is_one_block(alloc, graph)? {
        return Err(Fail::from("no block"));
    }
    let plain = PairSplitter::new().split(alloc, graph)?;
    let search = SearchSplitter::new().split(alloc, graph)?;
    let one = Tree::assemble(alloc, graph, plain)?;
    let other = Tree::assemble(alloc, graph, search)?;
    Ok(are_same(&one, &other))
}

// Blocks by their numbers of vertices and the ends of their edges, a digit for each.
static ROWS: [(u32, &'static str); 11] = [
    // two bundles, a triangle and a triconnected graph
    (5, "01 02 03 14 13 23 42 02 42"),
    // the complete graph on four vertices
    (4, "01 02 03 12 13 23"),
    // a square with a chord
    (4, "01 12 23 30 02"),
    // three paths of two edges between two vertices
    (5, "02 12 03 13 04 14"),
    // bundles of one edge to five
    (2, "01"),
    (2, "01 10"),
    (2, "01 10 01"),
    (2, "01 10 01 01 10"),
    // two complete graphs on four vertices that share an edge
    (6, "01 02 03 12 13 23 04 05 14 15 45"),
    // a triangle
    (3, "01 12 20"),
    // a cycle of five vertices with a doubled edge
    (5, "01 12 23 34 40 23"),
];

#[test]
fn splits_worked_rows(rt: HostRuntime) -> Result<(), Fail> {
    for (n, text) in &ROWS {
        for first in 0..text.len().div_ceil(3) {
            let ends = ends_of(rt.alloc(), text, first)?;
            let Ok(graph) = Graph::build(rt.alloc(), *n, &ends) else {
                return Err(Fail::from("no graph"));
            };
            assert!(rt; agree(rt.alloc(), &graph)?);
        }
    }
    Ok(())
}

#[test]
fn splits_made_graphs(rt: HostRuntime) -> Result<(), Fail> {
    for seed in 0..40u64 {
        let graph = make_graph(rt.alloc(), 60, seed)?;
        assert!(rt; agree(rt.alloc(), &graph)?);
    }
    Ok(())
}

// The components of the block, split with counted steps.
fn split_counted<L: Ledger>(alloc: Global, graph: &Graph, blank: Blank) -> Result<Comps, AllocError>
    requires block { IsOneBlock graph.now }
    requires name { blank.name ≡ L.name }
    requires parts { blank.parts ≡ L.parts }
    requires some { 0 < blank.parts }
{
    let mut steps = Steps::<L>::new(blank);
    SearchSplitter::new().split_counted(alloc, graph, &mut steps)
}

// Whether the components are the same, in the same order.
fn are_same_components(one: &Comps, other: &Comps) -> bool {
    let one = one.list.as_slice();
    let other = other.list.as_slice();
    if one.len() != other.len() {
        return false;
    }
    for k in 0..one.len() {
        if one[k].kind != other[k].kind || one[k].items.as_slice() != other[k].items.as_slice() {
            return false;
        }
    }
    true
}

// How many components the block has, where `split` and `split_counted` give the same.
fn counted(alloc: Global, graph: &Graph) -> Result<usize, Fail> {
    if !is_one_block(alloc, graph)? {
        return Err(Fail::from("no block"));
    }
    let plain = SearchSplitter::new().split(alloc, graph)?;
    let counted = split_counted::<Brand>(alloc, graph, Blank::new(1))?;
    if !are_same_components(&plain, &counted) {
        return Err(Fail::from("other components"));
    }
    Ok(counted.list.as_slice().len())
}

#[test]
fn counts_the_steps_of_small_blocks(rt: HostRuntime) -> Result<(), Fail> {
    let triangle = Graph::build(rt.alloc(), 3, &[(0, 1), (1, 2), (2, 0)])?;
    assert_eq!(rt; counted(rt.alloc(), &triangle)?, 1);
    let complete = Graph::build(
        rt.alloc(),
        4,
        &[(0, 1), (0, 2), (0, 3), (1, 2), (1, 3), (2, 3)],
    )?;
    assert_eq!(rt; counted(rt.alloc(), &complete)?, 1);
    Ok(())
}

#[test]
fn counts_the_steps_of_a_long_cycle(rt: HostRuntime) -> Result<(), Fail> {
    let mut ends = Vec::new(rt.alloc());
    for v in 0..19999u32 {
        ends.push((v, v + 1))?;
    }
    ends.push((19999, 0))?;
    let graph = Graph::build(rt.alloc(), 20000, &ends)?;
    // A cycle of n vertices falls into n - 2 triangles.
    assert_eq!(rt; counted(rt.alloc(), &graph)?, 19998);
    Ok(())
}
