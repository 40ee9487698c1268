// Depth-first search with a stack of its own (Tarjan 1972).
ghost use Rattle.std.specs.Prelude.{◌≡◌, ◌+◌, ◌*◌, ◌-◌, ◌<◌, ◌^◌, ◌≤◌, true, false, [], ℕ, length, IfOk, slice_index, slice_get};
ghost use Rattle.multigraph.specs.Graph.{edge_count, is_end, IsGraph, IsWithinLimits};
ghost use Rattle.multigraph.specs.Marks.{is_marked};
ghost use Rattle.graph_theory.specs.Connected.{IsConnected};
ghost use Rattle.search_forest.specs.Forest.{ForestState, fresh, looked_further, frond_noted, root_noted, child_noted, left, degree, is_tree_edge, parent_at, upper_end, IsForest};
ghost use Rattle.search_forest.specs.Searching.{looks_ahead, turns_left, IsLast, IsSeenAt, IsTurned, IsExplored, IsOver, IsOneTree};

use multigraph::Graph;
use std::alloc::{AllocError, Global};
use std::marker::Model;
use std::sync::ledger::Ledger;
use step_count::Steps;

/// A depth-first search forest of a graph: what the search knows so far.
#[derive(Drop)]
pub struct Forest {
    visited: Vec<bool>,
    parent: Vec<u32>,
    depth: Vec<u32>,
    parent_edge: Vec<u32>,
    position: Vec<u32>,
    seen: Vec<bool>,
    lower: Vec<u32>,
    order: Vec<u32>,
    path: Vec<u32>,
}

impl Model for Forest {
    ghost use Rattle.search_forest.specs.Forest.{ForestState};

    ghost Value = { ForestState };

    ghost view = { λ s. record {
      visited = s.visited.items;
      parent = s.parent.items;
      depth = s.depth.items;
      parent_edge = s.parent_edge.items;
      position = s.position.items;
      seen = s.seen.items;
      lower = s.lower.items;
      order = s.order.items;
      path = s.path.items;
    } };
}

impl Forest {
    // The search of a graph where nothing was visited yet.
    fn new(alloc: Global, graph: &Graph) -> Result<Forest, AllocError>
        ensures { IfOk result (λ s. s ≡ fresh graph.now) }
    {
        let vertices = graph.vertex_count() as usize;
        let edges = graph.edge_count() as usize;
        Ok(Forest {
            visited: vec![in alloc; false; vertices]?,
            parent: vec![in alloc; 0; vertices]?,
            depth: vec![in alloc; 0; vertices]?,
            parent_edge: vec![in alloc; 0; vertices]?,
            position: vec![in alloc; 0; vertices]?,
            seen: vec![in alloc; false; edges]?,
            lower: vec![in alloc; 0; edges]?,
            order: Vec::new(alloc),
            path: Vec::new(alloc),
        })
    }

    // One more of the edges at `vertex` has been looked at.
    fn look_further(&mut self, vertex: u32)
        requires within { vertex < length self.old.position }
        requires fits { slice_index self.old.position vertex + 1 < 2 ^ 32 }
        ensures { self.new ≡ looked_further self.old vertex }
    {
        self.position[vertex as usize] += 1;
    }

    // The edge, seen for the first time at `vertex`, leads to an ancestor.
    fn note_frond(&mut self, vertex: u32, edge: u32)
        requires seen_within { edge < length self.old.seen }
        requires lower_within { edge < length self.old.lower }
        ensures { self.new ≡ frond_noted self.old vertex edge }
    {
        self.seen[edge as usize] = true;
        self.lower[edge as usize] = vertex;
    }

    // The root of a new tree is visited.
    fn note_root(&mut self, root: u32) -> Result<(), AllocError>
        requires visited_within { root < length self.old.visited }
        requires depth_within { root < length self.old.depth }
        ensures { IfOk result (λ _. self.new ≡ root_noted self.old root) }
    {
        self.visited[root as usize] = true;
        self.depth[root as usize] = 0;
        self.order.push(root)?;
        self.path.push(root)?;
        Ok(())
    }

    // The edge, seen for the first time at `vertex`, leads to a vertex that is visited for the first time.
    fn note_child(&mut self, vertex: u32, edge: u32, child: u32) -> Result<(), AllocError>
        requires vertex_within { vertex < length self.old.depth }
        requires shallow { slice_index self.old.depth vertex + 1 < 2 ^ 32 }
        requires visited_within { child < length self.old.visited }
        requires parent_within { child < length self.old.parent }
        requires depth_within { child < length self.old.depth }
        requires parent_edge_within { child < length self.old.parent_edge }
        requires seen_within { edge < length self.old.seen }
        requires lower_within { edge < length self.old.lower }
        ensures { IfOk result (λ _. self.new ≡ child_noted self.old vertex edge child) }
    {
        let depth = self.depth[vertex as usize] + 1;
        self.visited[child as usize] = true;
        self.parent[child as usize] = vertex;
        self.depth[child as usize] = depth;
        self.parent_edge[child as usize] = edge;
        self.seen[edge as usize] = true;
        self.lower[edge as usize] = child;
        self.order.push(child)?;
        self.path.push(child)?;
        Ok(())
    }

    // The last vertex of the path is left.
    fn leave(&mut self)
        ensures { self.new ≡ left self.old }
    {
        let _ = self.path.pop();
    }

    // Whether the vertex was visited.
    fn is_visited(&self, vertex: u32) -> bool
        requires { vertex < length self.now.visited }
        ensures { result ≡ is_marked self.now.visited vertex }
    {
        self.visited[vertex as usize]
    }

    // Whether the edge was seen.
    fn is_seen(&self, edge: u32) -> bool
        requires { edge < length self.now.seen }
        ensures { result ≡ is_marked self.now.seen edge }
    {
        self.seen[edge as usize]
    }

    /// The depth of the vertex.
    pub fn depth_of(&self, vertex: u32) -> u32
        requires { vertex < length self.now.depth }
        ensures { result ≡ slice_index self.now.depth vertex }
    {
        self.depth[vertex as usize]
    }

    // How many edges at the vertex were looked at.
    fn position_of(&self, vertex: u32) -> u32
        requires { vertex < length self.now.position }
        ensures { result ≡ slice_index self.now.position vertex }
    {
        self.position[vertex as usize]
    }

    // The last vertex of the path.
    fn last(&self) -> Option<u32>
        ensures { result ≡ slice_get self.now.path (length self.now.path - 1) }
    {
        self.path.last().copied()
    }

    // The edge is seen at `vertex`, the last of the path.
    fn see(&mut self, graph: &Graph, vertex: u32, edge: u32) -> Result<(), AllocError>
        requires graph { IsGraph graph.now }
        requires limits { IsWithinLimits graph.now }
        requires forest { IsForest graph.now self.old }
        requires last { IsLast self.old vertex }
        requires edge_in { edge < edge_count graph.now }
        requires end { is_end graph.now vertex edge ≡ true }
        ensures { IfOk result (λ _. IsSeenAt graph.now self.old self.new vertex edge) }
    {
        if self.is_seen(edge) {
            return Ok(());
        }
        let end = graph.other_end(edge, vertex);
        if self.is_visited(end) {
            self.note_frond(vertex, edge);
            return Ok(());
        }
        self.note_child(vertex, edge, end)?;
        Ok(())
    }

    // The next edge at `vertex`, the last of the path, is looked at.
    fn look(&mut self, graph: &Graph, vertex: u32) -> Result<(), AllocError>
        requires graph { IsGraph graph.now }
        requires forest { IsForest graph.now self.old }
        requires last { IsLast self.old vertex }
        requires more { slice_index self.old.position vertex < degree graph.now vertex }
        ensures { IfOk result (λ _. IsTurned graph.now self.old self.new) }
    {
        let position = self.position_of(vertex) as usize;
        let edge = graph.incident(vertex)[position];
        self.see(graph, vertex, edge)?;
        self.look_further(vertex);
        Ok(())
    }

    // One turn at `vertex`, the last of the path.
    fn turn(&mut self, graph: &Graph, vertex: u32) -> Result<(), AllocError>
        requires graph { IsGraph graph.now }
        requires forest { IsForest graph.now self.old }
        requires last { IsLast self.old vertex }
        ensures { IfOk result (λ _. IsTurned graph.now self.old self.new) }
    {
        if self.position_of(vertex) < graph.degree(vertex) {
            return self.look(graph, vertex);
        }
        self.leave();
        Ok(())
    }

    // Turns until the path is empty: one turn for each edge that is looked at and one for each vertex that is left.
    fn explore<L: Ledger>(&mut self, graph: &Graph, steps: &mut Steps<L>) -> Result<(), AllocError>
        requires graph { IsGraph graph.now }
        requires forest { IsForest graph.now self.old }
        ensures explored { IfOk result (λ _. IsExplored graph.now self.old self.new) }
        ensures counted { IfOk result (λ _. steps.new + looks_ahead graph.now self.new
            + length self.old.order ≡ steps.old + looks_ahead graph.now self.old
            + length self.old.path + length self.new.order) }
        ensures potential { IfOk result (λ _. steps.new + turns_left graph.now self.new
            ≤ steps.old + turns_left graph.now self.old) }
        ensures cost { steps.new ≤ steps.old + turns_left graph.now self.old }
        ensures rises { steps.old ≤ steps.new }
    {
        while let Some(vertex) = self.last() {
            steps.tick(); // one for each turn
            self.turn(graph, vertex)?;
        }
        Ok(())
    }

    // Visits what `root` is connected to, where it was not visited.
    fn ensure_visited<L: Ledger>(
        &mut self,
        graph: &Graph,
        root: u32,
        steps: &mut Steps<L>,
    ) -> Result<(), AllocError>
        requires graph { IsGraph graph.now }
        requires forest { IsForest graph.now self.old }
        requires root_in { root < graph.now.vertex_count }
        requires empty { self.old.path ≡ [] }
        ensures forest { IfOk result (λ _. IsForest graph.now self.new) }
        ensures empty { IfOk result (λ _. self.new.path ≡ []) }
        ensures visited { IfOk result (λ _. (u : ℕ) → is_marked self.old.visited u ≡ true
            → is_marked self.new.visited u ≡ true) }
        ensures root { IfOk result (λ _. is_marked self.new.visited root ≡ true) }
        ensures counted { IfOk result (λ _. steps.new + looks_ahead graph.now self.new
            + length self.old.order ≡ steps.old + looks_ahead graph.now self.old
            + length self.new.order) }
        ensures potential { IfOk result (λ _. steps.new + turns_left graph.now self.new
            ≤ steps.old + turns_left graph.now self.old + 1) }
        ensures cost { steps.new ≤ steps.old + turns_left graph.now self.old + 1 }
        ensures rises { steps.old ≤ steps.new }
    {
        if self.is_visited(root) {
            return Ok(());
        }
        self.note_root(root)?;
        self.explore(graph, steps)
    }

    /// Searches the whole graph, depth first, and counts the steps: the turns of all loops. Fails only if memory runs out.
    pub fn of<L: Ledger>(
        alloc: Global,
        graph: &Graph,
        steps: &mut Steps<L>,
    ) -> Result<Forest, AllocError>
        ensures over { IfOk result (λ s. IsOver graph.now s) }
        ensures graph { IsGraph graph.now }
        ensures limits { IsWithinLimits graph.now }
        ensures counted { IfOk result (λ _. steps.new ≡ steps.old
            + 2 * (edge_count graph.now + graph.now.vertex_count)) }
        ensures cost { steps.new ≤ steps.old
            + 4 * edge_count graph.now + 2 * graph.now.vertex_count }
        ensures rises { steps.old ≤ steps.new }
    {
        let vertices = graph.vertex_count();
        let mut forest = Forest::new(alloc, graph)?;
        for root in 0..vertices {
            steps.tick();
            forest.ensure_visited(graph, root, steps)?;
        }
        Ok(forest)
    }

    /// Searches a connected graph from vertex 0, depth first, and counts the steps: one for each end of an edge and one for
    /// each vertex. Fails only if memory runs out.
    pub fn of_connected<L: Ledger>(
        alloc: Global,
        graph: &Graph,
        steps: &mut Steps<L>,
    ) -> Result<Forest, AllocError>
        requires connected { IsConnected graph.now }
        ensures over { IfOk result (λ s. IsOver graph.now s) }
        ensures root { IfOk result (λ s. IsOneTree graph.now s) }
        ensures graph { IsGraph graph.now }
        ensures limits { IsWithinLimits graph.now }
        ensures counted { IfOk result (λ _. steps.new ≡ steps.old + 2 * edge_count graph.now
            + graph.now.vertex_count) }
        ensures cost { steps.new ≤ steps.old + 4 * edge_count graph.now + graph.now.vertex_count }
        ensures rises { steps.old ≤ steps.new }
    {
        let vertices = graph.vertex_count();
        let mut forest = Forest::new(alloc, graph)?;
        if vertices == 0 {
            return Ok(forest);
        }
        forest.note_root(0)?;
        forest.explore(graph, steps)?;
        Ok(forest)
    }

    /// The visited vertices, each after its parent.
    pub fn order(&self) -> &[u32]
        ensures { result.now ≡ self.now.order }
    {
        self.order.as_slice()
    }

    /// The depths of the vertices.
    pub fn depths(&self) -> &[u32]
        ensures { result.now ≡ self.now.depth }
    {
        self.depth.as_slice()
    }

    /// The parents of the vertices; of a root any number.
    pub fn parents(&self) -> &[u32]
        ensures { result.now ≡ self.now.parent }
    {
        self.parent.as_slice()
    }

    /// The lower ends of the edges.
    pub fn lower_ends(&self) -> &[u32]
        ensures { result.now ≡ self.now.lower }
    {
        self.lower.as_slice()
    }

    /// The parent of the vertex.
    pub fn parent_of(&self, vertex: u32) -> u32
        requires { vertex < length self.now.parent }
        ensures { result ≡ slice_index self.now.parent vertex }
    {
        self.parent[vertex as usize]
    }

    // The edge to the parent of the vertex.
    fn parent_edge_of(&self, vertex: u32) -> u32
        requires { vertex < length self.now.parent_edge }
        ensures { result ≡ slice_index self.now.parent_edge vertex }
    {
        self.parent_edge[vertex as usize]
    }

    /// The parent of the vertex, if it isn't a root.
    pub fn parent_at(&self, vertex: u32) -> Option<u32>
        requires depth_within { vertex < length self.now.depth }
        requires parent_within { vertex < length self.now.parent }
        ensures { result ≡ parent_at self.now vertex }
    {
        if self.depth[vertex as usize] > 0 {
            Some(self.parent[vertex as usize])
        } else {
            None
        }
    }

    /// The lower end of the edge.
    pub fn lower_end(&self, edge: u32) -> u32
        requires { edge < length self.now.lower }
        ensures { result ≡ slice_index self.now.lower edge }
    {
        self.lower[edge as usize]
    }

    /// Whether the edge is the parent edge of its lower end.
    pub fn is_tree_edge(&self, graph: &Graph, edge: u32) -> bool
        requires graph { IsGraph graph.now }
        requires over { IsOver graph.now self.now }
        requires edge_in { edge < edge_count graph.now }
        ensures { result ≡ is_tree_edge self.now edge }
    {
        let _ = graph; // for the contract alone
        let lower = self.lower_end(edge);
        self.parent_edge_of(lower) == edge
    }

    /// The end of the edge that is not its lower one.
    pub fn upper_end(&self, graph: &Graph, edge: u32) -> u32
        requires graph { IsGraph graph.now }
        requires over { IsOver graph.now self.now }
        requires edge_in { edge < edge_count graph.now }
        ensures { result ≡ upper_end graph.now self.now edge }
    {
        let lower = self.lower_end(edge);
        graph.other_end(edge, lower)
    }
}
