// The numbers of the vertices: those of a vertex and its descendants are consecutive, and later children have smaller ones.
ghost use Rattle.std.specs.Prelude.{◌≡◌, ◌+◌, ◌*◌, ◌<◌, ◌≤◌, ◌^◌, ◌++◌, ℕ, true, length, reverse, IfOk, slice_index};
ghost use Rattle.permutations.specs.Members.{is_member};
ghost use Rattle.multigraph.specs.Graph.{edge_count, IsGraph};
ghost use Rattle.search_forest.specs.Searching.{IsOver};
ghost use Rattle.palm_tree.specs.Growing.{hangs, lower_ends, tree_edges, with_child, numbering_order, filled_beside, place_given, with_filled, number_by_place, number_given, AreLowVertices, AreSizes, AreChildren, AreOffsets, HasRoom, AreNumbersSoFar};

use crate::lists::copies;
use multigraph::Graph;
use search_forest::{Forest, Low};
use std::alloc::{AllocError, Global};
use std::sync::ledger::Ledger;
use step_count::Steps;

// Whether nothing leads from the vertex or below it past it: it is attached to its parent by a bridge.
fn hangs(low: &Low, vertex: u32) -> bool
    requires { vertex < length low.now.first }
    ensures { result ≡ hangs low.now vertex }
{
    low.first_of(vertex) == vertex
}

// Appends the lower end of the edge to the children if the edge is its parent edge, and it is attached by a bridge or not, as
// `hanging` says.
fn add_child(
    children: &mut Vec<u32>,
    graph: &Graph,
    search: &Forest,
    low: &Low,
    edge: u32,
    hanging: bool,
) -> Result<(), AllocError>
    requires graph { IsGraph graph.now }
    requires over { IsOver graph.now search.now }
    requires low { AreLowVertices graph.now search.now low.now }
    requires edge_in { edge < edge_count graph.now }
    ensures { IfOk result (λ _. children.new.items
        ≡ with_child search.now low.now hanging edge children.old.items) }
{
    let lower = search.lower_end(edge);
    if search.is_tree_edge(graph, edge) && hangs(low, lower) == hanging {
        children.push(lower)?;
    }
    Ok(())
}

// Appends those children that have one of the edges as their parent edge, and are attached by a bridge or not, as `hanging`
// says.
fn add_children<L: Ledger>(
    children: &mut Vec<u32>,
    graph: &Graph,
    search: &Forest,
    low: &Low,
    edges: &[u32],
    hanging: bool,
    steps: &mut Steps<L>,
) -> Result<(), AllocError>
    requires graph { IsGraph graph.now }
    requires over { IsOver graph.now search.now }
    requires low { AreLowVertices graph.now search.now low.now }
    requires within { (e : ℕ) → is_member e edges.now ≡ true → e < edge_count graph.now }
    ensures children { IfOk result (λ _. children.new.items
        ≡ children.old.items ++ lower_ends search.now
        (tree_edges search.now low.now hanging edges.now)) }
    ensures cost { steps.new ≤ steps.old + length edges.now }
    ensures rises { steps.old ≤ steps.new }
{
    for edge in edges {
        steps.tick();
        add_child(children, graph, search, low, *edge, hanging)?;
    }
    Ok(())
}

// The edges from the last to the first.
fn reversed(alloc: Global, edges: &[u32]) -> Result<Vec<u32>, AllocError>
    ensures { IfOk result (λ l. l.items ≡ reverse edges.now) }
{
    let mut backwards = edges.to_vec(alloc)?;
    backwards.reverse();
    Ok(backwards)
}

// The children in the order in which they are numbered: first, from the last edge to the first, those that are not attached
// by a bridge, and then, from the first edge to the last, those that are. What such a child reaches is its own number.
pub(crate) fn children_in_order<L: Ledger>(
    alloc: Global,
    graph: &Graph,
    search: &Forest,
    low: &Low,
    edges: &[u32],
    steps: &mut Steps<L>,
) -> Result<Vec<u32>, AllocError>
    requires graph { IsGraph graph.now }
    requires over { IsOver graph.now search.now }
    requires low { AreLowVertices graph.now search.now low.now }
    requires within { (e : ℕ) → is_member e edges.now ≡ true → e < edge_count graph.now }
    ensures children { IfOk result (λ l. l.items ≡ numbering_order search.now low.now edges.now) }
    ensures cost { steps.new ≤ steps.old + 2 * length edges.now }
    ensures rises { steps.old ≤ steps.new }
{
    let backwards = reversed(alloc, edges)?;
    let mut children = Vec::new(alloc);
    add_children(&mut children, graph, search, low, &backwards, false, steps)?;
    add_children(&mut children, graph, search, low, edges, true, steps)?;
    Ok(children)
}

// Gives the child the place after what is filled below its parent.
fn give_place(
    offset: &mut Vec<u32>,
    filled: &mut Vec<u32>,
    search: &Forest,
    sizes: &[u32],
    child: u32,
)
    requires offset_within { child < length offset.old.items }
    requires parent_within { child < length search.now.parent }
    requires sizes_within { child < length sizes.now }
    requires filled_within { slice_index search.now.parent child < length filled.old.items }
    requires fits { filled_beside search.now filled.old.items child
        + slice_index sizes.now child < 2 ^ 32 }
    ensures offset { offset.new.items
        ≡ place_given search.now filled.old.items offset.old.items child }
    ensures filled { filled.new.items
        ≡ with_filled search.now sizes.now filled.old.items child }
{
    let parent = search.parent_of(child) as usize;
    offset[child as usize] = filled[parent];
    filled[parent] += sizes[child as usize];
}

// How far after its parent each child's numbers begin, children of one parent one after another in this order.
pub(crate) fn offsets<L: Ledger>(
    alloc: Global,
    graph: &Graph,
    search: &Forest,
    sizes: &[u32],
    children: &[u32],
    steps: &mut Steps<L>,
) -> Result<Vec<u32>, AllocError>
    requires graph { IsGraph graph.now }
    requires over { IsOver graph.now search.now }
    requires sizes { AreSizes graph.now search.now sizes.now }
    requires children { AreChildren graph.now search.now children.now }
    ensures offsets { IfOk result
        (λ offset. AreOffsets graph.now search.now sizes.now children.now offset.items) }
    ensures cost { steps.new ≤ steps.old + length children.now }
    ensures rises { steps.old ≤ steps.new }
{
    let mut offset = copies(alloc, 0, graph.vertex_count())?;
    let mut filled = copies(alloc, 0, graph.vertex_count())?;
    for child in children {
        steps.tick();
        give_place(&mut offset, &mut filled, search, sizes, *child);
    }
    Ok(offset)
}

// Numbers the vertex: the root 0, another one by its place after its parent.
fn give_number(number: &mut Vec<u32>, search: &Forest, offset: &[u32], vertex: u32)
    requires number_within { vertex < length number.old.items }
    requires offset_within { vertex < length offset.now }
    requires parent_within { vertex < length search.now.parent }
    requires depth_within { vertex < length search.now.depth }
    requires above_within { 0 < slice_index search.now.depth vertex
        → slice_index search.now.parent vertex < length number.old.items }
    requires fits { 0 < slice_index search.now.depth vertex
        → number_by_place search.now offset.now number.old.items vertex < 2 ^ 32 }
    ensures { number.new.items
        ≡ number_given search.now offset.now number.old.items vertex }
{
    if search.depth_of(vertex) > 0 {
        let parent = search.parent_of(vertex) as usize;
        number[vertex as usize] = number[parent] + 1 + offset[vertex as usize];
    } else {
        number[vertex as usize] = 0;
    }
}

// The number of each vertex.
pub(crate) fn numbers<L: Ledger>(
    alloc: Global,
    graph: &Graph,
    search: &Forest,
    sizes: &[u32],
    offset: &[u32],
    steps: &mut Steps<L>,
) -> Result<Vec<u32>, AllocError>
    requires graph { IsGraph graph.now }
    requires over { IsOver graph.now search.now }
    requires sizes { AreSizes graph.now search.now sizes.now }
    requires places { length offset.now ≡ graph.now.vertex_count }
    requires room { HasRoom graph.now search.now sizes.now offset.now }
    ensures numbers { IfOk result
        (λ number.
        AreNumbersSoFar graph.now search.now sizes.now offset.now search.now.order number.items) }
    ensures cost { steps.new ≤ steps.old + graph.now.vertex_count }
    ensures rises { steps.old ≤ steps.new }
{
    let _ = sizes; // for the contract alone
    let mut number = copies(alloc, 0, graph.vertex_count())?;
    for vertex in search.order() {
        steps.tick();
        give_number(&mut number, search, offset, *vertex);
    }
    Ok(number)
}
