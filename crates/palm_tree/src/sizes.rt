// How many vertices each vertex and its descendants are.
ghost use Rattle.std.specs.Prelude.{◌≡◌, ◌+◌, ◌<◌, ◌≤◌, ◌^◌, length, drop, IfOk, slice_index, slice_set};
ghost use Rattle.multigraph.specs.Graph.{IsGraph, IsWithinLimits};
ghost use Rattle.search_forest.specs.Searching.{IsOver};
ghost use Rattle.palm_tree.specs.Growing.{AreSizesSoFar, AreSizes};

use crate::lists::copies;
use multigraph::Graph;
use search_forest::Forest;
use std::alloc::{AllocError, Global};
use std::sync::ledger::Ledger;
use step_count::Steps;

// Adds to the size of one vertex that of another.
fn add_size(sizes: &mut Vec<u32>, vertex: u32, other: u32)
    requires within { vertex < length sizes.old.items }
    requires other_within { other < length sizes.old.items }
    requires fits { slice_index sizes.old.items vertex + slice_index sizes.old.items other
        < 2 ^ 32 }
    ensures { sizes.new.items ≡ slice_set sizes.old.items vertex
        (slice_index sizes.old.items vertex + slice_index sizes.old.items other) }
{
    sizes[vertex as usize] += sizes[other as usize];
}

// Hands the size of the vertex on to its parent, where it has one.
fn hand_on(sizes: &mut Vec<u32>, graph: &Graph, search: &Forest, vertex: u32, place: usize)
    requires graph { IsGraph graph.now }
    requires limits { IsWithinLimits graph.now }
    requires over { IsOver graph.now search.now }
    requires within { place < length search.now.order }
    requires vertex { vertex ≡ slice_index search.now.order place }
    requires sizes { AreSizesSoFar graph.now search.now sizes.old.items
        (drop (place + 1) search.now.order) }
    ensures { AreSizesSoFar graph.now search.now sizes.new.items (drop place search.now.order) }
{
    let _ = graph; // for the contract alone
    let _ = place; // for the contract alone
    if search.depth_of(vertex) > 0 {
        add_size(sizes, search.parent_of(vertex), vertex);
    }
}

// For each vertex the number of its descendants, itself included.
pub(crate) fn sizes_below<L: Ledger>(
    alloc: Global,
    graph: &Graph,
    search: &Forest,
    steps: &mut Steps<L>,
) -> Result<Vec<u32>, AllocError>
    requires graph { IsGraph graph.now }
    requires over { IsOver graph.now search.now }
    ensures sizes { IfOk result (λ sizes. AreSizes graph.now search.now sizes.items) }
    ensures cost { steps.new ≤ steps.old + graph.now.vertex_count }
    ensures rises { steps.old ≤ steps.new }
{
    let mut sizes = copies(alloc, 1, graph.vertex_count())?;
    let order = search.order();
    for behind in 0..order.len() {
        steps.tick();
        let place = order.len() - 1 - behind;
        hand_on(&mut sizes, graph, search, order[place], place);
    }
    Ok(sizes)
}
