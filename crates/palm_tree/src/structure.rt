// The palm tree of a connected graph.
ghost use Rattle.std.specs.Prelude.{◌≡◌, ◌+◌, ◌*◌, ◌<◌, ◌≤◌, ℕ, false, not, None, length, IfOk, slice_index};
ghost use Rattle.multigraph.specs.Graph.{edge_count, IsGraph};
ghost use Rattle.palm_tree.specs.PalmTree.{PalmTreeLists, IsPalmTree, IsConnected, number_of, parent_of, is_frond, darts_of};
ghost use Rattle.search_forest.specs.Searching.{IsOver};
ghost use Rattle.palm_tree.specs.Growing.{Tells, parent_at, is_tree_edge, AreLowVertices, AreEdges, AreNumbered};

use crate::lists::darts;
use crate::numbering::{children_in_order, numbers, offsets};
use crate::sizes::sizes_below;
use crate::sorting::sorted_edges;
use multigraph::{Graph, Numbers};
use search_forest::{Forest, Low};
use std::alloc::{AllocError, Global};
use std::marker::{Brand, Model};
use std::sync::ledger::{Blank, Ledger};
use step_count::Steps;

/// A palm tree of a connected graph, with its low points and its darts in order.
///
/// A dart is an edge at the vertex where it begins: a parent edge at its upper end, a frond at its lower end.
#[derive(Debug, Drop)]
pub struct PalmTree {
    number: Vec<u32>,
    parent: Vec<Option<u32>>,
    frond: Vec<bool>,
    low1: Vec<u32>,
    low2: Vec<u32>,
    darts: Vec<Numbers>,
}

impl Model for PalmTree {
    ghost use Rattle.palm_tree.specs.PalmTree.{PalmTreeLists};

    ghost Value = { PalmTreeLists };

    ghost view = { λ t. record {
      number = t.number.items;
      parent = t.parent.items;
      frond = t.frond.items;
      low1 = t.low1.items;
      low2 = t.low2.items;
      darts = t.darts.items;
    } };
}

impl PalmTree {
    /// Grows a palm tree of a connected graph from vertex 0, with its low points and its darts in order (Tarjan 1972;
    /// Hopcroft and Tarjan 1973; the classes of darts are those of Gutwenger and Mutzel 2001). Fails only if
    /// memory runs out.
    pub fn grow(alloc: Global, graph: &Graph) -> Result<PalmTree, AllocError>
        requires connected { IsConnected graph.now }
        ensures tree { IfOk result (λ t. IsPalmTree graph.now t) }
    {
        PalmTree::grow_from::<Brand>(alloc, graph, Blank::new(1))
    }

    // The same, with steps that nobody reads.
    fn grow_from<L: Ledger>(
        alloc: Global,
        graph: &Graph,
        blank: Blank,
    ) -> Result<PalmTree, AllocError>
        requires connected { IsConnected graph.now }
        requires name { blank.name ≡ L.name }
        requires parts { blank.parts ≡ L.parts }
        requires some { 0 < blank.parts }
        ensures tree { IfOk result (λ t. IsPalmTree graph.now t) }
    {
        let mut steps = Steps::<L>::new(blank);
        PalmTree::grow_counted(alloc, graph, &mut steps)
    }

    /// Does what `grow` does and counts the steps: the turns of all loops. They are at most 100 for each vertex and edge, and
    /// where it returns a palm tree at least one for each edge. Fails only if memory runs out.
    pub fn grow_counted<L: Ledger>(
        alloc: Global,
        graph: &Graph,
        steps: &mut Steps<L>,
    ) -> Result<PalmTree, AllocError>
        requires connected { IsConnected graph.now }
        ensures tree { IfOk result (λ t. IsPalmTree graph.now t) }
        ensures at_most { steps.new ≤ steps.old + 100 * (graph.now.vertex_count
            + edge_count graph.now) }
        ensures at_least { IfOk result (λ _. steps.old + edge_count graph.now ≤ steps.new) }
    {
        let search = Forest::of_connected(alloc, graph, steps)?;
        let low = Low::of(alloc, graph, &search, steps)?;
        let edges = sorted_edges(alloc, graph, &search, &low, steps)?;
        let number = numbers_of(alloc, graph, &search, &low, &edges, steps)?;
        let parent = parents(alloc, graph, &search, steps)?;
        let frond = fronds(alloc, graph, &search, steps)?;
        let low1 = numbers_at(alloc, &number, low.first(), steps)?;
        let low2 = numbers_at(alloc, &number, low.second(), steps)?;
        let darts = darts(alloc, graph, &search, &edges, steps)?;
        Ok(PalmTree {
            number,
            parent,
            frond,
            low1,
            low2,
            darts,
        })
    }

    /// The number of vertex `v`.
    pub fn number(&self, v: u32) -> u32
        requires { v < length self.now.number }
        ensures { result ≡ number_of self.now v }
    {
        self.number[v as usize]
    }

    /// The parent of vertex `v`, where it has one: the root has none.
    pub fn parent(&self, v: u32) -> Option<u32>
        requires { v < length self.now.parent }
        ensures { result ≡ parent_of self.now v }
    {
        self.parent[v as usize]
    }

    /// Whether edge `e` is a frond, and no parent edge.
    pub fn is_frond(&self, e: u32) -> bool
        requires { e < length self.now.frond }
        ensures { result ≡ is_frond self.now e }
    {
        self.frond[e as usize]
    }

    /// The least of the number of vertex `v` and the numbers reached from it.
    pub fn low1(&self, v: u32) -> u32
        requires { v < length self.now.low1 }
        ensures { result ≡ slice_index self.now.low1 v }
    {
        self.low1[v as usize]
    }

    /// The least of the number of vertex `v` and those numbers reached from it that are not `low1(v)`.
    pub fn low2(&self, v: u32) -> u32
        requires { v < length self.now.low2 }
        ensures { result ≡ slice_index self.now.low2 v }
    {
        self.low2[v as usize]
    }

    /// The darts of vertex `v`, in order.
    pub fn darts(&self, v: u32) -> &[u32]
        requires { v < length self.now.darts }
        ensures { result.now ≡ darts_of self.now v }
    {
        self.darts[v as usize].as_slice()
    }
}

// The numbers of the vertices, children of one parent by the order of these edges.
fn numbers_of<L: Ledger>(
    alloc: Global,
    graph: &Graph,
    search: &Forest,
    low: &Low,
    edges: &[u32],
    steps: &mut Steps<L>,
) -> Result<Vec<u32>, AllocError>
    requires graph { IsGraph graph.now }
    requires over { IsOver graph.now search.now }
    requires low { AreLowVertices graph.now search.now low.now }
    requires edges { AreEdges graph.now edges.now }
    ensures numbers { IfOk result
        (λ number. AreNumbered graph.now search.now low.now edges.now number.items) }
    ensures cost { steps.new ≤ steps.old + 3 * graph.now.vertex_count + 2 * edge_count graph.now }
    ensures rises { steps.old ≤ steps.new }
{
    let children = children_in_order(alloc, graph, search, low, edges, steps)?;
    let sizes = sizes_below(alloc, graph, search, steps)?;
    let offset = offsets(alloc, graph, search, &sizes, &children, steps)?;
    numbers(alloc, graph, search, &sizes, &offset, steps)
}

// The parent of each vertex.
fn parents<L: Ledger>(
    alloc: Global,
    graph: &Graph,
    search: &Forest,
    steps: &mut Steps<L>,
) -> Result<Vec<Option<u32>>, AllocError>
    requires over { IsOver graph.now search.now }
    ensures parents { IfOk result
        (λ l. Tells None (parent_at search.now) graph.now.vertex_count l.items) }
    ensures cost { steps.new ≤ steps.old + graph.now.vertex_count }
    ensures rises { steps.old ≤ steps.new }
{
    let mut parents = Vec::with_capacity(alloc, graph.vertex_count() as usize)?;
    for vertex in 0..graph.vertex_count() {
        steps.tick();
        parents.push(search.parent_at(vertex))?;
    }
    Ok(parents)
}

// For each edge whether it is a frond.
fn fronds<L: Ledger>(
    alloc: Global,
    graph: &Graph,
    search: &Forest,
    steps: &mut Steps<L>,
) -> Result<Vec<bool>, AllocError>
    requires graph { IsGraph graph.now }
    requires over { IsOver graph.now search.now }
    ensures fronds { IfOk result (λ l. Tells false (λ e. not (is_tree_edge search.now e))
        (edge_count graph.now) l.items) }
    ensures cost { steps.new ≤ steps.old + edge_count graph.now }
    ensures rises { steps.old ≤ steps.new }
{
    let mut fronds = Vec::with_capacity(alloc, graph.edge_count() as usize)?;
    for edge in 0..graph.edge_count() {
        steps.tick();
        fronds.push(!search.is_tree_edge(graph, edge))?;
    }
    Ok(fronds)
}

// The numbers of these vertices.
fn numbers_at<L: Ledger>(
    alloc: Global,
    number: &[u32],
    vertices: &[u32],
    steps: &mut Steps<L>,
) -> Result<Vec<u32>, AllocError>
    requires { (v : ℕ) → v < length vertices.now → slice_index vertices.now v < length number.now }
    ensures numbers { IfOk result (λ l. Tells 0 (λ v. slice_index number.now
        (slice_index vertices.now v)) (length vertices.now) l.items) }
    ensures cost { steps.new ≤ steps.old + length vertices.now }
    ensures rises { steps.old ≤ steps.new }
{
    let mut numbers = Vec::with_capacity(alloc, vertices.len())?;
    for vertex in vertices {
        steps.tick();
        numbers.push(number[*vertex as usize])?;
    }
    Ok(numbers)
}
