// One contraction: a triconnected graph with an edge that may be contracted, and the edges that stay.

ghost use Rattle.std.specs.Prelude.{◌≡◌, ◌+◌, ◌<◌, ◌≤◌, ◌==◌, ◌&&◌, ℕ, true, false, length, map, slice_index_or, IfOk};
ghost use Rattle.permutations.specs.Count.{some};
ghost use Rattle.multigraph.specs.Graph.{edge_count, ends_of, is_end, other_end};
ghost use Rattle.graph_theory.specs.Triconnected.{IsTriconnected};
ghost use Rattle.contractions.specs.Contraction.{are_adjacent, is_kept, is_private, IsContractible};
ghost use Rattle.contractions.specs.Contracted.{contracted_vertex, kept_edges, contracted_ends};
ghost use Rattle.contractions.specs.Level.{IsFirstContractible, IsOriented, IsLevel, contraction};
ghost use Rattle.contractions.specs.Marks.{AreNeighbourMarks, AreNeighbourMarksBelow};

use crate::contractible::contractible_edge;
use multigraph::Graph;
use std::alloc::{AllocError, Global};

/// A graph with an edge that may be contracted, and what is left when it is: a step on the way from a triconnected graph to
/// the complete graph on four vertices.
#[derive(Debug, Drop)]
pub struct Level {
    /// The graph, triconnected, with five vertices or more.
    pub graph: Graph,
    /// The edge that is contracted.
    pub edge: u32,
    /// The one of its ends into which the other is merged.
    pub x: u32,
    /// The other end, which has a neighbour of its own if the two have at most two common ones.
    pub y: u32,
    /// The edges that stay, in increasing order: edge i of the contraction is the edge at place i.
    pub kept: Vec<u32>,
}

// Marks the far end of the edge, if x is an end of it.
fn mark_far_end(g: &Graph, marks: &mut [bool], x: u32, edge: u32)
    requires edge_in { edge < edge_count g.now }
    requires number { length marks.old ≡ g.now.vertex_count }
    requires before { AreNeighbourMarksBelow g.now x edge marks.old }
    ensures { AreNeighbourMarksBelow g.now x (edge + 1) marks.new }
{
    if let Some(vertex) = g.far_end(edge, x) {
        marks[vertex as usize] = true;
    }
}

/// For each vertex a mark whether it is adjacent to `x`. Fails only if memory runs out.
pub fn neighbour_marks(alloc: Global, g: &Graph, x: u32) -> Result<Vec<bool>, AllocError>
    ensures marks { IfOk result (λ marks. AreNeighbourMarks g.now x marks.items) }
    ensures number { IfOk result (λ marks. length marks.items ≡ g.now.vertex_count) }
{
    let mut marks = vec![in alloc; false; g.vertex_count() as usize]?;
    for edge in 0..g.edge_count() {
        mark_far_end(g, &mut marks, x, edge);
    }
    Ok(marks)
}

// Whether y is an end of the edge, and its far end is marked.
fn leads_to_mark(g: &Graph, marks: &[bool], x: u32, y: u32, edge: u32) -> bool
    requires edge_in { edge < edge_count g.now }
    requires number { length marks.now ≡ g.now.vertex_count }
    requires marks { AreNeighbourMarks g.now x marks.now }
    ensures { result ≡ (is_end g.now y edge && are_adjacent g.now x (other_end g.now edge y)) }
{
    match g.far_end(edge, y) {
        Some(vertex) => marks[vertex as usize],
        None => false,
    }
}

// Whether the edge stays when e is contracted.
fn is_kept(g: &Graph, marks: &[bool], e: u32, x: u32, y: u32, edge: u32) -> bool
    requires edge_in { edge < edge_count g.now }
    requires number { length marks.now ≡ g.now.vertex_count }
    requires marks { AreNeighbourMarks g.now x marks.now }
    ensures { result ≡ is_kept g.now e x y edge }
{
    edge != e && !leads_to_mark(g, marks, x, y, edge)
}

// Whether the edge is private to y.
fn is_private(g: &Graph, marks: &[bool], e: u32, x: u32, y: u32, edge: u32) -> bool
    requires edge_in { edge < edge_count g.now }
    requires number { length marks.now ≡ g.now.vertex_count }
    requires marks { AreNeighbourMarks g.now x marks.now }
    ensures { result ≡ is_private g.now e x y edge }
{
    match g.far_end(edge, y) {
        Some(vertex) => edge != e && !marks[vertex as usize],
        None => false,
    }
}

// Whether some edge is private to y.
fn has_private(g: &Graph, marks: &[bool], e: u32, x: u32, y: u32) -> bool
    requires number { length marks.now ≡ g.now.vertex_count }
    requires marks { AreNeighbourMarks g.now x marks.now }
    ensures { result ≡ some (edge_count g.now) (is_private g.now e x y) }
{
    for edge in 0..g.edge_count() {
        if is_private(g, marks, e, x, y, edge) {
            return true;
        }
    }
    false
}

// The ends of an edge that may be contracted, named such that the second has a private edge if either has.
fn orient(alloc: Global, g: &Graph, edge: u32) -> Result<(u32, u32), AllocError>
    requires triconnected { IsTriconnected g.now }
    requires five { 5 ≤ g.now.vertex_count }
    requires edge_in { edge < edge_count g.now }
    requires contractible { IsContractible g.now (ends_of g.now edge).0 (ends_of g.now edge).1 }
    ensures { IfOk result (λ names. IsOriented g.now edge names.0 names.1) }
{
    let (first, second) = g.ends(edge);
    let marks = neighbour_marks(alloc, g, first)?;
    if has_private(g, &marks, edge, first, second) {
        return Ok((first, second));
    }
    Ok((second, first))
}

// The edges that stay when e is contracted, in increasing order.
fn kept_edges(alloc: Global, g: &Graph, e: u32, x: u32, y: u32) -> Result<Vec<u32>, AllocError>
    ensures { IfOk result (λ kept. kept.items ≡ kept_edges g.now e x y) }
{
    let marks = neighbour_marks(alloc, g, x)?;
    let mut kept = Vec::new(alloc);
    for edge in 0..g.edge_count() {
        if is_kept(g, &marks, e, x, y, edge) {
            kept.push(edge)?;
        }
    }
    Ok(kept)
}

/// The number of a vertex when the edge between `x` and `y` is contracted: that of `x` for `y`, and those above `y` decrease by
/// one.
pub fn contracted_vertex(x: u32, y: u32, vertex: u32) -> u32
    ensures { result ≡ contracted_vertex x y vertex }
{
    let kept = if vertex == y { x } else { vertex };
    if y < kept { kept - 1 } else { kept }
}

// What the ends of the edges that stay become.
fn contracted_ends(
    alloc: Global,
    g: &Graph,
    x: u32,
    y: u32,
    kept: &[u32],
) -> Result<Vec<(u32, u32)>, AllocError>
    requires { (i : ℕ) → i < length kept.now → slice_index_or kept.now i 0 < edge_count g.now }
    ensures { IfOk result (λ ends. ends.items ≡ map (contracted_ends g.now x y) kept.now) }
{
    let mut ends = Vec::with_capacity(alloc, kept.len())?;
    for edge in kept {
        let (first, second) = g.ends(*edge);
        ends.push((
            contracted_vertex(x, y, first),
            contracted_vertex(x, y, second),
        ))?;
    }
    Ok(ends)
}

impl Level {
    /// The triconnected graph, of at least five vertices, with the first of its edges that may be contracted (Thomassen 1980).
    /// Fails only if memory runs out.
    pub fn of(alloc: Global, graph: Graph) -> Result<Level, AllocError>
        requires triconnected { IsTriconnected graph }
        requires five { 5 ≤ graph.vertex_count }
        ensures level { IfOk result IsLevel }
        ensures graph { IfOk result (λ level. level.graph ≡ graph) }
        ensures first { IfOk result (λ level. IsFirstContractible level.graph level.edge) }
    {
        let edge = contractible_edge(alloc, &graph)?;
        let (x, y) = orient(alloc, &graph, edge)?;
        let kept = kept_edges(alloc, &graph, edge, x, y)?;
        Ok(Level {
            graph,
            edge,
            x,
            y,
            kept,
        })
    }

    /// The graph with the edge contracted; of edges that would become parallel, one is kept. Fails only if memory runs out.
    pub fn contraction(&self, alloc: Global) -> Result<Graph, AllocError>
        requires { IsLevel self.now }
        ensures { IfOk result (λ h. h ≡ contraction self.now) }
    {
        let ends = contracted_ends(alloc, &self.graph, self.x, self.y, &self.kept)?;
        Graph::of_ends(alloc, self.graph.vertex_count() - 1, ends)
    }
}
