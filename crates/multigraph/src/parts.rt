// The part of a graph that some of its vertices and edges make.

ghost use Rattle.std.specs.Prelude.{◌≡◌, ◌<◌, ◌≤◌, ◌^◌, ℕ, length, IfOk, slice_index};
ghost use Rattle.std.specs.List.{Contains};
ghost use Rattle.multigraph.specs.Graph.{edge_count, max_vertices, IsGraph, IsWithinLimits};
ghost use Rattle.multigraph.specs.Part.{GraphPart, Rises, IsNumbered, IsPlace, AreEnds, AreInnerEnds, HoldEnds, IsPart, IsPartOn};

use crate::structure::Graph;
use std::alloc::{AllocError, Global};
use std::marker::Model;

/// The part of a graph that some of its vertices and edges make, as a graph of its own.
///
/// Its vertices and edges are numbered from 0, in the order of their numbers in the whole graph.
#[derive(Debug, Drop)]
pub struct Part {
    graph: Graph,
    vertices: Vec<u32>,
    edges: Vec<u32>,
}

impl Model for Part {
    ghost use Rattle.multigraph.specs.Part.{GraphPart, IsNumbered};

    ghost Value = { GraphPart };

    ghost view = { λ p. record {
      graph = p.graph;
      vertices = p.vertices.items;
      edges = p.edges.items;
    } };

    ghost invariant = { λ p. IsNumbered (record {
      graph = p.graph;
      vertices = p.vertices.items;
      edges = p.edges.items;
    }) };
}

impl Part {
    /// Its vertices and edges are numbered in increasing order. For proofs alone: does nothing.
    pub fn keeps_numbers(&self)
        ensures { IsNumbered self.now }
    {
        let _ = self.graph();
    }

    /// The part as a graph.
    pub fn graph(&self) -> &Graph
        ensures value { result.now ≡ self.now.graph }
        ensures numbered { IsNumbered self.now }
    {
        &self.graph
    }

    /// The vertex of the whole graph that vertex `i` of the part is.
    pub fn vertex(&self, i: u32) -> u32
        requires { i < self.now.graph.vertex_count }
        ensures { result ≡ slice_index self.now.vertices i }
    {
        self.vertices[i as usize]
    }

    /// The edge of the whole graph that edge `i` of the part is.
    pub fn edge(&self, i: u32) -> u32
        requires { i < edge_count self.now.graph }
        ensures { result ≡ slice_index self.now.edges i }
    {
        self.edges[i as usize]
    }

    /// The vertex of the part that vertex `v` of the whole graph is; `None` exactly where the part does not have it. By
    /// binary search.
    pub fn inner_vertex(&self, v: u32) -> Option<u32>
        ensures { IsPlace self.now.vertices v result }
    {
        place_in(self.vertices.as_slice(), v)
    }

    /// The edge of the part that edge `e` of the whole graph is; `None` exactly where the part does not have it. By binary
    /// search.
    pub fn inner_edge(&self, e: u32) -> Option<u32>
        ensures { IsPlace self.now.edges e result }
    {
        place_in(self.edges.as_slice(), e)
    }

    /// A copy. Fails only if memory runs out.
    pub fn copy(&self, alloc: Global) -> Result<Part, AllocError>
        ensures { IfOk result (λ part. part ≡ self.now) }
    {
        Ok(Part {
            graph: self.graph.copy(alloc)?,
            vertices: Vec::from_slice(alloc, &self.vertices)?,
            edges: Vec::from_slice(alloc, &self.edges)?,
        })
    }
}

impl Graph {
    /// The part that these edges, increasing, make with their ends.
    ///
    /// Takes time and memory for the part alone, and not for the whole graph: k log k for k edges. Fails only if memory runs
    /// out.
    pub fn part(&self, alloc: Global, edges: &[u32]) -> Result<Part, AllocError>
        requires rising { Rises edges.now }
        requires within { (i : ℕ) → i < length edges.now → slice_index edges.now i
            < edge_count self.now }
        ensures { IfOk result (IsPart self.now edges.now) }
    {
        let vertices = end_vertices(alloc, self, edges)?;
        part_with(alloc, self, vertices, edges)
    }

    /// The part that these vertices and edges make, both increasing, where the vertices contain all ends of the edges. It may
    /// have vertices without edges.
    ///
    /// Takes time and memory for the part alone, and not for the whole graph: k log n for n vertices and k edges. Fails only if
    /// memory runs out.
    pub fn part_on(
        &self,
        alloc: Global,
        vertices: &[u32],
        edges: &[u32],
    ) -> Result<Part, AllocError>
        requires increasing_vertices { Rises vertices.now }
        requires vertices_within { (i : ℕ) → i < length vertices.now → slice_index vertices.now i
            < self.now.vertex_count }
        requires increasing_edges { Rises edges.now }
        requires edges_within { (i : ℕ) → i < length edges.now → slice_index edges.now i
            < edge_count self.now }
        requires ends { HoldEnds self.now edges.now vertices.now }
        ensures { IfOk result (IsPartOn self.now vertices.now edges.now) }
    {
        self.keeps_limits();
        let vertices = Vec::from_slice(alloc, vertices)?;
        part_with(alloc, self, vertices, edges)
    }
}

// The part that these vertices and edges make, both increasing.
fn part_with(
    alloc: Global,
    graph: &Graph,
    vertices: Vec<u32>,
    edges: &[u32],
) -> Result<Part, AllocError>
    requires increasing_vertices { Rises vertices.items }
    requires few { length vertices.items ≤ max_vertices }
    requires increasing_edges { Rises edges.now }
    requires edges_within { (i : ℕ) → i < length edges.now → slice_index edges.now i
        < edge_count graph.now }
    requires ends { HoldEnds graph.now edges.now vertices.items }
    ensures { IfOk result (IsPartOn graph.now vertices.items edges.now) }
{
    graph.keeps_limits();
    let ends = inner_ends(alloc, graph, edges, &vertices)?;
    let inner = Graph::of_ends(alloc, vertices.len() as u32, ends)?;
    Ok(Part {
        graph: inner,
        vertices,
        edges: Vec::from_slice(alloc, edges)?,
    })
}

// The vertices that are ends of these edges, increasing.
fn end_vertices(alloc: Global, graph: &Graph, edges: &[u32]) -> Result<Vec<u32>, AllocError>
    requires { (i : ℕ) → i < length edges.now → slice_index edges.now i < edge_count graph.now }
    ensures rising { IfOk result (λ vertices. Rises vertices.items) }
    ensures ends { IfOk result (λ vertices. AreEnds graph.now edges.now vertices.items) }
    ensures few { IfOk result (λ vertices. length vertices.items ≤ max_vertices) }
    ensures graph { IsGraph graph.now }
    ensures limits { IsWithinLimits graph.now }
{
    graph.keeps_limits();
    let mut vertices = ends_of_edges(alloc, graph, edges)?;
    vertices.sort_unstable();
    vertices.dedup();
    Ok(vertices)
}

// The ends of these edges, edge by edge.
fn ends_of_edges(alloc: Global, graph: &Graph, edges: &[u32]) -> Result<Vec<u32>, AllocError>
    requires { (i : ℕ) → i < length edges.now → slice_index edges.now i < edge_count graph.now }
    ensures { IfOk result (λ ends. AreEnds graph.now edges.now ends.items) }
{
    let mut ends = Vec::with_capacity(alloc, edges.len())?;
    for edge in edges {
        let (first, second) = graph.ends(*edge);
        ends.push(first)?;
        ends.push(second)?;
    }
    Ok(ends)
}

// The ends of these edges, by their places in an increasing list of vertices that contains them.
fn inner_ends(
    alloc: Global,
    graph: &Graph,
    edges: &[u32],
    vertices: &[u32],
) -> Result<Vec<(u32, u32)>, AllocError>
    requires within { (i : ℕ) → i < length edges.now → slice_index edges.now i
        < edge_count graph.now }
    requires rising { Rises vertices.now }
    requires few { length vertices.now < 2 ^ 32 }
    requires held { HoldEnds graph.now edges.now vertices.now }
    ensures { IfOk result (λ ends. AreInnerEnds graph.now edges.now vertices.now ends.items) }
{
    let mut ends = Vec::with_capacity(alloc, edges.len())?;
    for edge in edges {
        let (first, second) = graph.ends(*edge);
        ends.push((place_of(vertices, first), place_of(vertices, second)))?;
    }
    Ok(ends)
}

// The place of a number in an increasing list that has it.
fn place_of(list: &[u32], x: u32) -> u32
    requires rising { Rises list.now }
    requires few { length list.now < 2 ^ 32 }
    requires held { Contains list.now x }
    ensures within { result < length list.now }
    ensures is { slice_index list.now result ≡ x }
{
    place_in(list, x).unwrap()
}

// The place of a number in an increasing list; `None` where the list does not have it. Of a list that has all numbers up to x the place is
// x; else it is searched.
fn place_in(list: &[u32], x: u32) -> Option<u32>
    requires rising { Rises list.now }
    requires few { length list.now < 2 ^ 32 }
    ensures { IsPlace list.now x result }
{
    if list.get(x as usize) == Some(&x) {
        return Some(x);
    }
    match list.binary_search(&x) {
        Ok(i) => Some(i as u32),
        Err(_) => None,
    }
}
