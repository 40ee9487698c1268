// The two low vertices of each vertex: those at its two low points.
ghost use Rattle.std.specs.Prelude.{◌≡◌, ◌+◌, ◌*◌, ◌<◌, ◌≤◌, [], length, drop, IfOk, slice_index};
ghost use Rattle.multigraph.specs.Graph.{edge_count, IsGraph};
ghost use Rattle.search_forest.specs.Searching.{IsOver};
ghost use Rattle.search_forest.specs.Low.{LowVertices, taken, CanTake, Tells, AreLowSoFar, AreLowVertices};

use crate::search::Forest;
use multigraph::Graph;
use std::alloc::{AllocError, Global};
use std::marker::Model;
use std::sync::ledger::Ledger;
use step_count::Steps;

/// For each vertex the least deep and the second least deep of itself and the vertices that its descendants' fronds lead to.
#[derive(Drop)]
pub struct Low {
    first: Vec<u32>,
    second: Vec<u32>,
}

impl Model for Low {
    ghost use Rattle.search_forest.specs.Low.{LowVertices};

    ghost Value = { LowVertices };

    ghost view = { λ low. record { first = low.first.items; second = low.second.items } };
}

// The numbers below `total`, in increasing order.
fn numbers_from_zero<L: Ledger>(
    alloc: Global,
    total: u32,
    steps: &mut Steps<L>,
) -> Result<Vec<u32>, AllocError>
    ensures numbers { IfOk result (λ l. Tells 0 (λ v. v) total l.items) }
    ensures cost { steps.new ≤ steps.old + total }
    ensures rises { steps.old ≤ steps.new }
{
    let mut numbers = Vec::with_capacity(alloc, total as usize)?;
    for number in 0..total {
        steps.tick();
        numbers.push(number)?;
    }
    Ok(numbers)
}

impl Low {
    /// Of each vertex the first low vertex.
    pub fn first(&self) -> &[u32]
        ensures { result.now ≡ self.now.first }
    {
        self.first.as_slice()
    }

    /// Of each vertex the second low vertex.
    pub fn second(&self) -> &[u32]
        ensures { result.now ≡ self.now.second }
    {
        self.second.as_slice()
    }

    /// The first low vertex of the vertex.
    pub fn first_of(&self, vertex: u32) -> u32
        requires { vertex < length self.now.first }
        ensures { result ≡ slice_index self.now.first vertex }
    {
        self.first[vertex as usize]
    }

    /// The second low vertex of the vertex.
    pub fn second_of(&self, vertex: u32) -> u32
        requires { vertex < length self.now.second }
        ensures { result ≡ slice_index self.now.second vertex }
    {
        self.second[vertex as usize]
    }

    // Each vertex with itself as its low vertices.
    fn own<L: Ledger>(
        alloc: Global,
        graph: &Graph,
        search: &Forest,
        steps: &mut Steps<L>,
    ) -> Result<Low, AllocError>
        requires { IsOver graph.now search.now }
        ensures low { IfOk result (λ low. AreLowSoFar graph.now search.now low 0 []) }
        ensures cost { steps.new ≤ steps.old + 2 * graph.now.vertex_count }
        ensures rises { steps.old ≤ steps.new }
    {
        let first = numbers_from_zero(alloc, graph.vertex_count(), steps)?;
        let second = numbers_from_zero(alloc, graph.vertex_count(), steps)?;
        Ok(Low { first, second })
    }

    // Takes into account at `vertex` that something leads from there to the vertex `reached`.
    fn take(&mut self, depth: &[u32], vertex: u32, reached: u32)
        requires { CanTake depth.now self.old vertex reached }
        ensures { self.new ≡ taken depth.now self.old vertex reached }
    {
        let first = self.first[vertex as usize];
        let second = self.second[vertex as usize];
        let level = depth[reached as usize];
        if level < depth[first as usize] {
            self.first[vertex as usize] = reached;
            self.second[vertex as usize] = first;
        } else if depth[first as usize] < level && level < depth[second as usize] {
            self.second[vertex as usize] = reached;
        }
    }

    // Takes the edge into account at its lower end, where it is a frond.
    fn take_edge(&mut self, graph: &Graph, search: &Forest, edge: u32)
        requires graph { IsGraph graph.now }
        requires over { IsOver graph.now search.now }
        requires edge_in { edge < edge_count graph.now }
        requires low { AreLowSoFar graph.now search.now self.old edge [] }
        ensures { AreLowSoFar graph.now search.now self.new (edge + 1) [] }
    {
        if search.is_tree_edge(graph, edge) {
            return;
        }
        let lower = search.lower_end(edge);
        let upper = search.upper_end(graph, edge);
        self.take(search.depths(), lower, upper);
    }

    // Takes all fronds into account at their lower ends.
    fn take_edges<L: Ledger>(&mut self, graph: &Graph, search: &Forest, steps: &mut Steps<L>)
        requires graph { IsGraph graph.now }
        requires over { IsOver graph.now search.now }
        requires low { AreLowSoFar graph.now search.now self.old 0 [] }
        ensures low { AreLowSoFar graph.now search.now self.new (edge_count graph.now) [] }
        ensures cost { steps.new ≡ steps.old + edge_count graph.now }
    {
        for edge in 0..graph.edge_count() {
            steps.tick(); // one turn for each edge
            self.take_edge(graph, search, edge);
        }
    }

    // Hands what the vertex leads to on to its parent, where it has one.
    fn hand_on(&mut self, graph: &Graph, search: &Forest, vertex: u32, place: usize)
        requires graph { IsGraph graph.now }
        requires over { IsOver graph.now search.now }
        requires within { place < length search.now.order }
        requires vertex { vertex ≡ slice_index search.now.order place }
        requires low { AreLowSoFar graph.now search.now self.old (edge_count graph.now)
            (drop (place + 1) search.now.order) }
        ensures { AreLowSoFar graph.now search.now self.new (edge_count graph.now)
            (drop place search.now.order) }
    {
        let _ = place; // for the contract alone
        if search.depth_of(vertex) == 0 {
            return;
        }
        let parent = search.parent_of(vertex);
        let first = self.first_of(vertex);
        let second = self.second_of(vertex);
        self.take(search.depths(), parent, first);
        self.take(search.depths(), parent, second);
    }

    // Hands on what the vertices lead to, from the last one in order to the first.
    fn hand_up<L: Ledger>(&mut self, graph: &Graph, search: &Forest, steps: &mut Steps<L>)
        requires graph { IsGraph graph.now }
        requires over { IsOver graph.now search.now }
        requires low { AreLowSoFar graph.now search.now self.old (edge_count graph.now) [] }
        ensures low { AreLowVertices graph.now search.now self.new }
        ensures cost { steps.new ≡ steps.old + length search.now.order }
    {
        let order = search.order();
        for after in 0..order.len() {
            steps.tick();
            let place = order.len() - 1 - after;
            self.hand_on(graph, search, order[place], place);
        }
    }

    /// The two low vertices of each vertex (Hopcroft and Tarjan 1973), and the steps: the turns of all loops. Fails only if
    /// memory runs out.
    pub fn of<L: Ledger>(
        alloc: Global,
        graph: &Graph,
        search: &Forest,
        steps: &mut Steps<L>,
    ) -> Result<Low, AllocError>
        requires graph { IsGraph graph.now }
        requires over { IsOver graph.now search.now }
        ensures low { IfOk result (λ low. AreLowVertices graph.now search.now low) }
        ensures cost { steps.new ≤ steps.old + edge_count graph.now + 3 * graph.now.vertex_count }
        ensures rises { steps.old ≤ steps.new }
        ensures least { IfOk result (λ _. steps.old + edge_count graph.now ≤ steps.new) }
    {
        let mut low = Low::own(alloc, graph, search, steps)?;
        low.take_edges(graph, search, steps);
        low.hand_up(graph, search, steps);
        Ok(low)
    }
}
