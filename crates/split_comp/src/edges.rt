// Entries of the stack as edges of the graph, or virtual edges.

ghost use Rattle.std.specs.Prelude.{◌≡◌, ◌+◌, ◌<◌, ◌≤◌, ◌&&◌, ℕ, not, filter, length, IfOk};
ghost use Rattle.pair_split.specs.Bridges.{entry_of, family_of};
ghost use Rattle.split_comp.specs.Stack.{item, entry};
ghost use Rattle.split_comp.specs.Sides.{is_frond_to};
ghost use Rattle.split_comp.specs.Pass.{drawn, drawn_items, goes, IsFrondFound};

use crate::items::StackEntry;
use crate::tree::NumberedPalmTree;
use multigraph::Graph;
use pair_split::NamedEdge;
use std::alloc::{AllocError, Global};
use std::sync::ledger::Ledger;
use step_count::Steps;

// The edge of an entry, with the ends that it has in the graph.
fn edge_of(g: &Graph, tree: &NumberedPalmTree, x: StackEntry) -> NamedEdge
    requires up { x.up < length tree.now.vertex }
    requires low { x.low < length tree.now.vertex }
    ensures { entry_of result ≡ drawn g.now tree.now.vertex (entry x) }
{
    if x.name < g.edge_count() {
        let (first, second) = g.ends(x.name);
        return NamedEdge {
            name: x.name,
            first,
            second,
        };
    }
    NamedEdge {
        name: x.name,
        first: tree.vertex_at(x.up),
        second: tree.vertex_at(x.low),
    }
}

/// Whether the entry is a frond from `low` to `up`.
pub(crate) fn is_frond_to(up: u32, low: u32, x: StackEntry) -> bool
    ensures { result ≡ is_frond_to up low x }
{
    !x.tree && x.up == up && x.low == low
}

// Whether the entry is a frond that stays apart, as those from the second to the first of two vertices do.
fn stays_apart(apart: Option<(u32, u32)>, x: StackEntry) -> bool
    ensures { result ≡ not (goes apart x) }
{
    match apart {
        Some((up, low)) => is_frond_to(up, low, x),
        None => false,
    }
}

/// The edges of the entries, but for those that stay apart: the fronds from `low` to `up`, where `apart` is the pair of these.
/// Fails only if memory runs out.
pub(crate) fn edges_of<L: Ledger>(
    alloc: Global,
    g: &Graph,
    tree: &NumberedPalmTree,
    items: &[StackEntry],
    apart: Option<(u32, u32)>,
    steps: &mut Steps<L>,
) -> Result<Vec<NamedEdge>, AllocError>
    requires ends { (i : ℕ) → i < length items.now → ((item items.now i).up
        < length tree.now.vertex) × ((item items.now i).low < length tree.now.vertex) }
    ensures edges { IfOk result (λ edges. family_of edges.items
        ≡ drawn_items g.now tree.now.vertex (filter (goes apart) items.now)) }
    ensures at_most { steps.new ≤ steps.old + length items.now }
    ensures rises { steps.old ≤ steps.new }
{
    let mut edges = Vec::new(alloc);
    for x in items {
        steps.tick();
        if !stays_apart(apart, *x) {
            edges.push(edge_of(g, tree, *x))?;
        }
    }
    Ok(edges)
}

/// The name of the first frond from `low` to `up` among the entries, if one exists.
pub(crate) fn frond_to<L: Ledger>(
    items: &[StackEntry],
    up: u32,
    low: u32,
    steps: &mut Steps<L>,
) -> Option<u32>
    ensures found { IsFrondFound up low items.now result }
    ensures at_most { steps.new ≤ steps.old + length items.now }
    ensures rises { steps.old ≤ steps.new }
{
    for x in items {
        steps.tick();
        if is_frond_to(up, low, *x) {
            return Some(x.name);
        }
    }
    None
}
