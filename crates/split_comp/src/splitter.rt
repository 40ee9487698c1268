// The palm-tree splitter.

ghost use Rattle.std.specs.Prelude.{◌≡◌, ◌+◌, ◌*◌, ◌<◌, ◌≤◌, IfOk};
ghost use Rattle.multigraph.specs.Graph.{edge_count};
ghost use Rattle.graph_theory.specs.Block.{IsOneBlock};
ghost use Rattle.pair_split.specs.Split.{IsSplit};

use crate::pass::Pass;
use crate::tree::NumberedPalmTree;
use multigraph::Graph;
use pair_split::{Comps, Kind, Splitter, graph_edges, kind_of_all, write_components};
use std::alloc::{AllocError, Global};
use std::marker::Brand;
use std::sync::ledger::{Blank, Ledger};
use step_count::Steps;

/// The palm-tree splitter. It goes once along a palm tree of the block with its darts in order, and splits off a component as
/// soon as a side of a 2-separation lies on top of its stack (Hopcroft and Tarjan 1973; Gutwenger and Mutzel 2001). It takes
/// time n log n, for the sorting of the palm tree's darts.
#[derive(Debug, Drop)]
pub struct SearchSplitter;

// The single component of a block of one edge or two.
fn split_small<L: Ledger>(
    alloc: Global,
    g: &Graph,
    steps: &mut Steps<L>,
) -> Result<Comps, AllocError>
    requires block { IsOneBlock g.now }
    requires small { edge_count g.now < 3 }
    ensures split { IfOk result (λ comps. IsSplit g.now comps.list) }
    ensures at_most { steps.new ≤ steps.old + 3 * edge_count g.now }
    ensures at_least { IfOk result (λ _. steps.old + edge_count g.now ≤ steps.new) }
{
    let edges = graph_edges(alloc, g, steps)?;
    write_components(alloc, &[], &edges, Kind::B, g.edge_count(), steps)
}

// The components of a block of three edges or more.
fn split_large<L: Ledger>(
    alloc: Global,
    g: &Graph,
    steps: &mut Steps<L>,
) -> Result<Comps, AllocError>
    requires block { IsOneBlock g.now }
    requires large { 3 ≤ edge_count g.now }
    ensures split { IfOk result (λ comps. IsSplit g.now comps.list) }
    ensures at_most { steps.new ≤ steps.old + 120 * g.now.vertex_count + 126 * edge_count g.now }
    ensures at_least { IfOk result (λ _. steps.old + edge_count g.now ≤ steps.new) }
{
    let tree = NumberedPalmTree::grow(alloc, g, steps)?;
    let mut pass = Pass::new(alloc, g.vertex_count(), g.edge_count())?;
    pass.run(alloc, g, &tree, steps)?;
    let edges = pass.edges(alloc, g, &tree, steps)?;
    let kind = kind_of_all(&edges);
    write_components(alloc, pass.finished(), &edges, kind, g.edge_count(), steps)
}

impl SearchSplitter {
    /// A palm-tree splitter.
    pub fn new() -> SearchSplitter {
        SearchSplitter
    }

    /// Does what `split` does and counts the steps: the turns of all loops. They are at most 200 for each vertex and edge, and
    /// where it returns components at least one for each edge. Fails only if memory runs out.
    pub fn split_counted<L: Ledger>(
        &mut self,
        alloc: Global,
        g: &Graph,
        steps: &mut Steps<L>,
    ) -> Result<Comps, AllocError>
        requires block { IsOneBlock g.now }
        ensures split { IfOk result (λ comps. IsSplit g.now comps.list) }
        ensures at_most { steps.new ≤ steps.old + 200 * (g.now.vertex_count + edge_count g.now) }
        ensures at_least { IfOk result (λ _. steps.old + edge_count g.now ≤ steps.new) }
    {
        if g.edge_count() < 3 {
            return split_small(alloc, g, steps);
        }
        split_large(alloc, g, steps)
    }

    // The same, with steps that nobody reads.
    fn split_from<L: Ledger>(
        &mut self,
        alloc: Global,
        g: &Graph,
        blank: Blank,
    ) -> Result<Comps, AllocError>
        requires block { IsOneBlock g.now }
        requires name { blank.name ≡ L.name }
        requires parts { blank.parts ≡ L.parts }
        requires some { 0 < blank.parts }
        ensures split { IfOk result (λ comps. IsSplit g.now comps.list) }
    {
        let mut steps = Steps::<L>::new(blank);
        self.split_counted(alloc, g, &mut steps)
    }
}

impl Splitter for SearchSplitter {
    fn split(&mut self, alloc: Global, g: &Graph) -> Result<Comps, AllocError> {
        self.split_from::<Brand>(alloc, g, Blank::new(1))
    }
}
