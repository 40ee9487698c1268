// Components of a graph, counted by searches with a stack of their own.
ghost use Rattle.multigraph.specs.Marks.{is_marked};
ghost use Rattle.faces.specs.Search.{LooksAlong};
ghost use Rattle.faces.specs.Euler.{component_count, is_isolated};
ghost use Rattle.multigraph.specs.Graph.{IsGraph, edge_count, ends_of, incident_edges};
ghost use Rattle.permutations.specs.Count.{count};
ghost use Rattle.permutations.specs.Relation.{connected};
ghost use Rattle.std.specs.Prelude.{◌<◌, ◌||◌, ◌≡◌, IfOk, false, length, ℕ};

use multigraph::Graph;
use std::alloc::{AllocError, Global};

// Marks the neighbours of `vertex` that are not marked, and puts them on the stack.
fn visit(
    graph: &Graph,
    marks: &mut [bool],
    stack: &mut Vec<u32>,
    vertex: u32,
) -> Result<(), AllocError>
    requires vertex_in { vertex < graph.now.vertex_count }
    requires same_length { length marks.old ≡ graph.now.vertex_count }
    ensures { IfOk result (λ _. LooksAlong graph.now vertex
        (length
        (incident_edges graph.now vertex)) marks.old stack.old.items marks.new stack.new.items) }
{
    for edge in graph.incident(vertex) {
        let neighbour = graph.other_end(*edge, vertex);
        if !marks[neighbour as usize] {
            marks[neighbour as usize] = true;
            stack.push(neighbour)?;
        }
    }
    Ok(())
}

// Marks the component of `start`, of which nothing is marked yet. What the stack held is dropped.
fn mark_component(
    graph: &Graph,
    marks: &mut [bool],
    stack: &mut Vec<u32>,
    start: u32,
) -> Result<(), AllocError>
    requires graph { IsGraph graph.now }
    requires start_in { start < graph.now.vertex_count }
    requires same_length { length marks.old ≡ graph.now.vertex_count }
    requires whole_components { (e : ℕ) → e < edge_count graph.now
        → is_marked marks.old (ends_of graph.now e).0
        ≡ is_marked marks.old (ends_of graph.now e).1 }
    requires unmarked { is_marked marks.old start ≡ false }
    ensures { IfOk result (λ _. (x : ℕ) → is_marked marks.new x
        ≡ (is_marked marks.old x || connected graph.now.ends start x)) }
{
    stack.clear();
    marks[start as usize] = true;
    stack.push(start)?;
    while let Some(vertex) = stack.pop() {
        visit(graph, marks, stack, vertex)?;
    }
    Ok(())
}

// Counts the components, where nothing is marked yet: each vertex that is found unmarked begins one.
fn count_starts(graph: &Graph, marks: &mut [bool], stack: &mut Vec<u32>) -> Result<u32, AllocError>
    requires same_length { length marks.old ≡ graph.now.vertex_count }
    requires unmarked { (x : ℕ) → is_marked marks.old x ≡ false }
    ensures { IfOk result (λ components. components ≡ component_count graph.now) }
{
    let mut components = 0u32;
    for start in 0..graph.vertex_count() {
        if !marks[start as usize] {
            components += 1;
            mark_component(graph, marks, stack, start)?;
        }
    }
    Ok(components)
}

// How many components the graph has.
pub(crate) fn count_components(alloc: Global, graph: &Graph) -> Result<u32, AllocError>
    ensures { IfOk result (λ components. components ≡ component_count graph.now) }
{
    let mut marks = vec![in alloc; false; graph.vertex_count() as usize]?;
    let mut stack = Vec::new(alloc);
    count_starts(graph, &mut marks, &mut stack)
}

// How many vertices have no edge.
pub(crate) fn count_isolated(graph: &Graph) -> u32
    ensures { result ≡ count graph.now.vertex_count (is_isolated graph.now) }
{
    let mut isolated = 0u32;
    for vertex in 0..graph.vertex_count() {
        if graph.degree(vertex) == 0 {
            isolated += 1;
        }
    }
    isolated
}
