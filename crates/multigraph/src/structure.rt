// A multigraph with the edges at each vertex.

ghost use Rattle.std.specs.Prelude.{◌≡◌, ◌<◌, true, false, length, IsTrue, IfOk, IfErr, IfSome, MatchOption};
ghost use Rattle.multigraph.specs.Graph.{Multigraph, edge_count, ends_of, is_end, is_edge_at, incident_edges, other_end, IsGraph, IsWithinLimits};
ghost use Rattle.multigraph.specs.Build.{multigraph_of, IsFirstFault};

use crate::faults::{BuildFault, check_ends};
use crate::incidence::incident_rows;
use std::alloc::{AllocError, Global};
use std::marker::Model;

/// The most vertices that a graph may have.
pub const MAX_VERTICES: u32 = 20_000;

/// The most edges that a graph may have.
pub const MAX_EDGES: usize = 50_000;

/// A multigraph without loops, of at most 20,000 vertices and 50,000 edges.
#[derive(Debug, Drop)]
pub struct Graph {
    vertices: u32,
    ends: Vec<(u32, u32)>,
    rows: Vec<u32>,
}

impl Model for Graph {
    ghost use Rattle.multigraph.specs.Graph.{Multigraph, IsGraph, IsWithinLimits};
    ghost use Rattle.multigraph.specs.Build.{multigraph_of};
    ghost use Rattle.multigraph.specs.Incidence.{KeepsRows};

    ghost Value = { Multigraph };

    ghost view = { λ g. multigraph_of g.vertices g.ends.items };

    ghost invariant = { λ g. IsGraph (multigraph_of g.vertices g.ends.items)
        × IsWithinLimits (multigraph_of g.vertices g.ends.items)
        × KeepsRows (multigraph_of g.vertices g.ends.items) g.rows.items };
}

impl Graph {
    /// The multigraph of `n` vertices whose edge e has the ends `ends[e]`.
    ///
    /// Fails with the first fault in this order: more than 20,000 vertices, more than 50,000 edges, then the least edge that
    /// has an end that is not a vertex or whose ends are the same, the first of these two where both hold. Else fails only if
    /// memory runs out.
    /// For callers of the library: the program does not call it.
    pub fn build(alloc: Global, n: u32, ends: &[(u32, u32)]) -> Result<Graph, BuildFault>
        ensures built { IfOk result (λ g. g ≡ multigraph_of n ends.now) }
        ensures graph { IfOk result IsGraph }
        ensures limits { IfOk result IsWithinLimits }
        ensures refused { IfErr result (λ fault. IsFirstFault (multigraph_of n ends.now) fault) }
    {
        if n > MAX_VERTICES {
            return Err(BuildFault::TooManyVertices(n));
        }
        if ends.len() > MAX_EDGES {
            return Err(BuildFault::TooManyEdges(ends.len()));
        }
        check_ends(n, ends)?;
        let kept = Vec::from_slice(alloc, ends)?;
        Ok(Graph::of_ends(alloc, n, kept)?)
    }

    /// The multigraph of `n` vertices whose edge e has the ends `ends[e]`, where the ends are known to be sound and few.
    ///
    /// Keeps the vector of the ends: nothing is checked again, and nothing is copied. Fails only if memory runs out.
    pub fn of_ends(alloc: Global, n: u32, ends: Vec<(u32, u32)>) -> Result<Graph, AllocError>
        requires graph { IsGraph (multigraph_of n ends.items) }
        requires limits { IsWithinLimits (multigraph_of n ends.items) }
        ensures { IfOk result (λ g. g ≡ multigraph_of n ends.items) }
    {
        let rows = incident_rows(alloc, n, &ends)?;
        Ok(Graph {
            vertices: n,
            ends,
            rows,
        })
    }

    /// A copy. Fails only if memory runs out.
    pub fn copy(&self, alloc: Global) -> Result<Graph, AllocError>
        ensures { IfOk result (λ g. g ≡ self.now) }
    {
        Ok(Graph {
            vertices: self.vertices,
            ends: Vec::from_slice(alloc, &self.ends)?,
            rows: Vec::from_slice(alloc, &self.rows)?,
        })
    }

    /// It is a graph within the limits. For proofs alone: does nothing.
    pub fn keeps_limits(&self)
        ensures graph { IsGraph self.now }
        ensures limits { IsWithinLimits self.now }
    {
        let _ = self.vertex_count();
    }

    /// The number of vertices.
    pub fn vertex_count(&self) -> u32
        ensures value { result ≡ self.now.vertex_count }
        ensures graph { IsGraph self.now }
        ensures limits { IsWithinLimits self.now }
    {
        self.vertices
    }

    /// The number of edges.
    pub fn edge_count(&self) -> u32
        ensures value { result ≡ edge_count self.now }
        ensures graph { IsGraph self.now }
        ensures limits { IsWithinLimits self.now }
    {
        self.ends.len() as u32
    }

    /// The first and the second end of edge `e`.
    pub fn ends(&self, e: u32) -> (u32, u32)
        requires { e < edge_count self.now }
        ensures value { result ≡ ends_of self.now e }
        ensures graph { IsGraph self.now }
        ensures limits { IsWithinLimits self.now }
    {
        self.ends[e as usize]
    }

    /// The number of edges at vertex `v`.
    pub fn degree(&self, v: u32) -> u32
        requires { v < self.now.vertex_count }
        ensures { result ≡ length (incident_edges self.now v) }
    {
        self.incident(v).len() as u32
    }

    /// The edges at vertex `v`, increasing.
    pub fn incident(&self, v: u32) -> &[u32]
        requires { v < self.now.vertex_count }
        ensures value { result.now ≡ incident_edges self.now v }
        ensures graph { IsGraph self.now }
        ensures limits { IsWithinLimits self.now }
    {
        let first = self.rows[v as usize] as usize;
        let end = self.rows[v as usize + 1] as usize;
        &self.rows[first..end]
    }

    /// The end of edge `e` that is not `v`, one of its ends. Found without a branch: searches ask for it in no predictable order.
    pub fn other_end(&self, e: u32, v: u32) -> u32
        requires edge { e < edge_count self.now }
        requires end { IsTrue (is_end self.now v e) }
        ensures { result ≡ other_end self.now e v }
    {
        let (first, second) = self.ends[e as usize];
        first + second - v
    }

    /// Whether `e` is an edge, and `v` one of its ends. Both ends are compared without a branch between them.
    pub fn is_edge_at(&self, e: u32, v: u32) -> bool
        ensures { result ≡ is_edge_at self.now v e }
    {
        match self.ends.get(e as usize) {
            Some((first, second)) => (*first == v) | (*second == v),
            None => false,
        }
    }

    /// The end of edge `e` that is not `v`; `None` exactly where `e` is not an edge, or `v` not one of its ends.
    pub fn far_end(&self, e: u32, v: u32) -> Option<u32>
        ensures value { MatchOption result
            (is_edge_at self.now v e ≡ false)
            (λ w. (is_edge_at self.now v e ≡ true) × (w ≡ other_end self.now e v)) }
        ensures within { IfSome result (λ w. w < self.now.vertex_count) }
    {
        let (first, second) = *self.ends.get(e as usize)?;
        if first == v {
            return Some(second);
        }
        if second == v {
            return Some(first);
        }
        None
    }
}
