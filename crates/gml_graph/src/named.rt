// A graph whose vertices have ids, with its start, and the one of a document.

ghost use Rattle.std.specs.Prelude.{◌≡◌, ◌≢◌, ◌↔◌, ◌<◌, ℕ, [], Some, Ok, IsNone, MatchResult, map, option_map, slice_get, slice_index_or};
ghost use Rattle.gml_text.specs.Pairs.{document_of};
ghost use Rattle.gml_graph.specs.Named.{IsNamed};
ghost use Rattle.gml_graph.specs.Answer.{Answers, Refuses, graph_between, graph_in, graph_of_document};

use crate::edges::edge_ends;
use crate::fault::GraphFault;
use crate::ids::Ids;
use crate::lists::lists_under;
use crate::nodes::node_ids;
use crate::start::start_of;
use gml_text::{Doc, Pair, Pairs};
use multigraph::{Graph, MAX_EDGES, MAX_VERTICES, NumberLists};
use std::alloc::Global;
use std::marker::Model;

/// A multigraph without loops whose vertices have ids, each its own, with the start that a file may give: for each vertex its edges
/// in some order. Contracts see the multigraph, the list of the ids and the lists of the start.
#[derive(Drop)]
pub struct Named {
    graph: Graph,
    ids: Ids,
    start: Option<NumberLists>,
}

impl Model for Named {
    ghost use Rattle.gml_graph.specs.Named.{NamedGraph, IsNamed};

    ghost Value = { NamedGraph };

    ghost view = { λ named.
        record { graph = named.graph; ids = named.ids; start = named.start } };

    ghost invariant = { λ named.
        IsNamed (record { graph = named.graph; ids = named.ids; start = named.start }) };
}

impl Named {
    /// The multigraph.
    pub fn graph(&self) -> &Graph
        ensures value { result.now ≡ self.now.graph }
        ensures named { IsNamed self.now }
    {
        &self.graph
    }

    /// The ids of the vertices, in order.
    pub fn ids(&self) -> &[i64]
        ensures value { result.now ≡ self.now.ids }
        ensures named { IsNamed self.now }
    {
        self.ids.as_slice()
    }

    /// The vertex with this id, or None if no vertex has it. Takes no memory.
    /// For callers of the library: the program does not call it.
    pub fn vertex_of(&self, id: i64) -> Option<u32>
        ensures vertex { (v : ℕ) → (result ≡ Some v) ↔ (slice_get self.now.ids v ≡ Some id) }
        ensures none { IsNone result ↔ ((v : ℕ) → slice_get self.now.ids v ≢ Some id) }
        ensures named { IsNamed self.now }
    {
        self.ids.position(id)
    }

    /// The edges at vertex `v` in the order in which the file gives them, or None if the file gives no start. Takes no memory.
    pub fn start(&self, v: u32) -> Option<&[u32]>
        requires { v < self.now.graph.vertex_count }
        ensures edges { option_map (λ list. list.now) result
            ≡ option_map (λ lists. slice_index_or lists v []) self.now.start }
        ensures named { IsNamed self.now }
    {
        match &self.start {
            Some(lists) => Some(lists.as_slice()[v as usize].as_slice()),
            None => None,
        }
    }
}

// The graph of these nodes and edges, or the first refusal.
fn graph_between(alloc: Global, nodes: &[&Pairs], edges: &[&Pairs]) -> Result<Named, GraphFault>
    ensures { Answers (graph_between (map (λ node. node.now) nodes.now)
        (map (λ edge. edge.now) edges.now)) (λ named. named) result }
{
    if nodes.len() > MAX_VERTICES as usize {
        return Err(GraphFault::TooManyVertices(nodes.len()));
    }
    if edges.len() > MAX_EDGES {
        return Err(GraphFault::TooManyEdges(edges.len()));
    }
    let ids = node_ids(alloc, nodes)?;
    let ends = edge_ends(alloc, &ids, edges)?;
    let graph = Graph::of_ends(alloc, ids.len(), ends)?;
    let start = start_of(alloc, &graph, nodes)?;
    Ok(Named { graph, ids, start })
}

// The graph of the pairs of a graph list, or the first refusal.
fn graph_in(alloc: Global, pairs: &[Pair]) -> Result<Named, GraphFault>
    ensures { MatchResult result
        (λ named. graph_in (document_of pairs.now) ≡ Ok named)
        (Refuses (graph_in (document_of pairs.now))) }
{
    let nodes = lists_under(alloc, pairs, b"node")?;
    let edges = lists_under(alloc, pairs, b"edge")?;
    graph_between(alloc, nodes.as_slice(), edges.as_slice())
}

/// The graph of a document: that of its one graph list, or the first refusal.
///
/// A graph list is a list under the key `graph` in the document itself; its nodes and edges are the lists under `node` and
/// `edge` in it. Of several pairs `id`, `source`, `target` or `spqrRotation` in one of these the first counts. The graph has a start
/// where it has a node and every node has a string under `spqrRotation`; else these keys are ignored, as all others are.
/// Fails with the first refusal in the order of `GraphFault`; fails with `Memory`, at any point, if memory runs out.
pub fn graph_of(alloc: Global, d: &Doc) -> Result<Named, GraphFault>
    ensures { MatchResult result
        (λ named. graph_of_document d.now ≡ Ok named)
        (Refuses (graph_of_document d.now)) }
{
    let graphs = lists_under(alloc, d.pairs(), b"graph")?;
    match graphs.as_slice() {
        [] => Err(GraphFault::NoGraph),
        [graph] => graph_in(alloc, graph.as_slice()),
        [_, _, ..] => Err(GraphFault::MoreGraphs),
    }
}
