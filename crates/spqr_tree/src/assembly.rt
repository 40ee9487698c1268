// The tree of a block, from its split components.

ghost use Rattle.std.specs.Prelude.{◌≡◌, ◌<◌, ℕ, length, IfOk};
ghost use Rattle.graph_theory.specs.Block.{IsOneBlock};
ghost use Rattle.pair_split.specs.Split.{items_of, IsSplit};
ghost use Rattle.pair_split.specs.Tutte.{IsTutte};
ghost use Rattle.spqr_tree.specs.Ranking.{ranks_of};
ghost use Rattle.spqr_tree.specs.Assembly.{IsArranged, AreNodes};
ghost use Rattle.spqr_tree.specs.Keys.{parent_at, AreWithin, AreApart, IsRooted, HaveKeys};

use crate::arranging::arrange;
use crate::keys::{parents_and_least, sort_items};
use crate::nodes::Nodes;
use crate::ranking::Rank;
use crate::tour::tour_of;
use crate::tree::Tree;
use multigraph::Graph;
use pair_split::{Comp, Comps};
use std::alloc::{AllocError, Global};

// The nodes of the components, in their order.
fn nodes_of(
    alloc: Global,
    comps: &[Comp],
    ranks: &[Rank],
    parents: &[u32],
    least: &[u32],
) -> Result<Nodes, AllocError>
    requires number { length ranks.now ≡ length comps.now }
    requires places { length parents.now ≡ length comps.now }
    requires within { (k : ℕ) → k < length comps.now
        → AreWithin (items_of comps.now k) (length least.now) }
    requires apart { (k : ℕ) → k < length comps.now
        → AreApart (parent_at parents.now k) least.now (items_of comps.now k) }
    ensures nodes { IfOk result (λ nodes. AreNodes comps.now (ranks_of ranks.now) nodes) }
    ensures keys { IfOk result (λ nodes. HaveKeys parents.now least.now nodes) }
{
    let mut nodes = Nodes::with_capacity(alloc, comps.len())?;
    let mut items = Vec::new(alloc);
    for k in 0..comps.len() {
        let comp = &comps[k];
        sort_items(&mut items, comp.items.as_slice(), parents[k], least)?;
        nodes = nodes.with(comp.kind, ranks[k].0.as_slice(), &items)?;
    }
    Ok(nodes)
}

// The tree of components that are arranged and rooted.
fn finish(
    alloc: Global,
    g: &Graph,
    comps: &[Comp],
    ranks: &[Rank],
    parents: &[u32],
    least: &[u32],
) -> Result<Tree, AllocError>
    requires block { IsOneBlock g.now }
    requires arranged { IsArranged g.now comps.now (ranks_of ranks.now) }
    requires rooted { IsRooted g.now comps.now parents.now least.now }
    ensures { IfOk result (IsTutte g.now) }
{
    let nodes = nodes_of(alloc, comps, ranks, parents, least)?;
    let tour = tour_of(alloc, &nodes, g.edge_count())?;
    Ok(Tree {
        nodes,
        places: tour.places,
        bounds: tour.bounds,
    })
}

// The tree of components that are arranged.
fn tree_of(alloc: Global, g: &Graph, comps: &[Comp], ranks: &[Rank]) -> Result<Tree, AllocError>
    requires block { IsOneBlock g.now }
    requires arranged { IsArranged g.now comps.now (ranks_of ranks.now) }
    ensures { IfOk result (IsTutte g.now) }
{
    let (parents, least) = parents_and_least(alloc, g, comps)?;
    finish(alloc, g, comps, ranks, &parents, &least)
}

impl Tree {
    /// The tree of a graph that is one block, from its split components (Di Battista and Tamassia 1996).
    ///
    /// Bonds that a link joins are merged to one bond, and polygons to one polygon. Takes time n log n for n pieces.
    /// Fails only if memory runs out.
    pub fn assemble(alloc: Global, g: &Graph, c: Comps) -> Result<Tree, AllocError>
        requires block { IsOneBlock g.now }
        requires split { IsSplit g.now c.list }
        ensures { IfOk result (IsTutte g.now) }
    {
        let (comps, ranks) = arrange(alloc, g, c.list)?;
        tree_of(alloc, g, &comps, &ranks)
    }
}
