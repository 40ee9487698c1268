// The state of splitting, as data: components that are finished, and the family that is still to be split.

ghost use Rattle.std.specs.Prelude.{◌≡◌, ◌≢◌, ◌+◌, ◌<◌, ◌≤◌, ◌∷◌, [], length, IfOk};
ghost use Rattle.multigraph.specs.Graph.{edge_count, IsGraph};
ghost use Rattle.pair_split.specs.Family.{on_side, off_side, IsFamily, IsPrime};
ghost use Rattle.pair_split.specs.Edges.{family_skeleton, graph_family};
ghost use Rattle.graph_theory.specs.Block.{IsOneBlock};
ghost use Rattle.pair_split.specs.Skeleton.{IsSkeleton};
ghost use Rattle.multigraph.specs.Marks.{is_marked};
ghost use Rattle.pair_split.specs.Bridges.{entry_of, family_of, HaveNamesBelow};
ghost use Rattle.pair_split.specs.State.{IsSplitState};
ghost use Rattle.pair_split.specs.Search.{IsMinimalSide, IsSearched};
ghost use Rattle.pair_split.specs.Splitting.{state_of, IsSplitting};
ghost use Rattle.pair_split.specs.declared.components.Kind.TheVariants.{B};

use crate::components::Kind;
use crate::family::NamedEdge;
use crate::lists::EdgeList;
use crate::search::{Side, are_parallel, minimal_side};
use multigraph::Graph;
use std::alloc::{AllocError, Global};
use std::sync::ledger::Ledger;
use step_count::Steps;

/// A finished component: its kind, its own virtual edge, and its other edges.
#[derive(Drop)]
pub struct Finished {
    /// Its kind.
    pub kind: Kind,
    /// Its own virtual edge.
    pub own: NamedEdge,
    /// Its other edges.
    pub edges: EdgeList,
}

/// The edges of the graph, in order, each under its number. Fails only if memory runs out. The steps are one for each edge.
pub fn graph_edges<L: Ledger>(
    alloc: Global,
    g: &Graph,
    steps: &mut Steps<L>,
) -> Result<Vec<NamedEdge>, AllocError>
    ensures edges { IfOk result (λ edges. family_of edges.items ≡ graph_family g.now) }
    ensures graph { IsGraph g.now }
    ensures cost { IfOk result (λ _. steps.new ≡ steps.old + edge_count g.now) }
    ensures at_most { steps.new ≤ steps.old + edge_count g.now }
    ensures rises { steps.old ≤ steps.new }
{
    let mut edges = Vec::with_capacity(alloc, g.edge_count() as usize)?;
    for e in 0..g.edge_count() {
        steps.tick();
        let (first, second) = g.ends(e);
        edges.push(NamedEdge {
            name: e,
            first,
            second,
        })?;
    }
    Ok(edges)
}

// The edges whose names are marked.
fn marked_edges(
    alloc: Global,
    edges: &[NamedEdge],
    marks: &[bool],
) -> Result<Vec<NamedEdge>, AllocError>
    requires { HaveNamesBelow (length marks.now) edges.now }
    ensures { IfOk result (λ kept. family_of kept.items
        ≡ on_side (is_marked marks.now) (family_of edges.now)) }
{
    let mut kept = Vec::new(alloc);
    for edge in edges {
        if marks[edge.name as usize] {
            kept.push(*edge)?;
        }
    }
    Ok(kept)
}

// The edge `own`, and those whose names are not marked.
fn other_edges(
    alloc: Global,
    own: NamedEdge,
    edges: &[NamedEdge],
    marks: &[bool],
) -> Result<Vec<NamedEdge>, AllocError>
    requires { HaveNamesBelow (length marks.now) edges.now }
    ensures { IfOk result (λ kept. family_of kept.items
        ≡ entry_of own ∷ off_side (is_marked marks.now) (family_of edges.now)) }
{
    let mut kept = Vec::new(alloc);
    kept.push(own)?;
    for edge in edges {
        if !marks[edge.name as usize] {
            kept.push(*edge)?;
        }
    }
    Ok(kept)
}

/// The kind of a prime family of at least three entries, the first of which is given apart.
pub fn kind_of(first: NamedEdge, rest: &[NamedEdge]) -> Kind
    requires family { IsFamily (entry_of first ∷ family_of rest.now) }
    requires prime { IsPrime (entry_of first ∷ family_of rest.now) }
    requires three { 2 ≤ length rest.now }
    ensures skeleton { IsSkeleton result (family_skeleton (entry_of first ∷ family_of rest.now)) }
    ensures large { result ≢ B }
{
    if rest.len() > 2 {
        return Kind::R;
    }
    if are_parallel(first, rest[0]) {
        return Kind::P;
    }
    Kind::S
}

/// The kind of a prime family of at least three entries.
pub fn kind_of_all(edges: &[NamedEdge]) -> Kind
    requires family { IsFamily (family_of edges.now) }
    requires prime { IsPrime (family_of edges.now) }
    requires three { 3 ≤ length edges.now }
    ensures skeleton { IsSkeleton result (family_skeleton (family_of edges.now)) }
    ensures large { result ≢ B }
{
    kind_of(edges[0], &edges[1..])
}

/// The components that are finished, and the family that is still to be split.
#[derive(Drop)]
pub(crate) struct Splitting {
    pub parts: Vec<Finished>,
    pub current: Vec<NamedEdge>,
}

impl Splitting {
    /// The start: nothing is finished.
    pub(crate) fn of<L: Ledger>(
        alloc: Global,
        g: &Graph,
        steps: &mut Steps<L>,
    ) -> Result<Splitting, AllocError>
        ensures parts { IfOk result (λ s. s.parts.items ≡ []) }
        ensures current { IfOk result (λ s. family_of s.current.items ≡ graph_family g.now) }
        ensures state { IfOk result
            (λ s. IsSplitState g.now (state_of s.parts.items s.current.items)) }
        ensures large { IsOneBlock g.now → 3 ≤ edge_count g.now
            → IfOk result (λ s. IsSplitting g.now s.parts.items s.current.items) }
    {
        let current = graph_edges(alloc, g, steps)?;
        Ok(Splitting {
            parts: Vec::new(alloc),
            current,
        })
    }

    // Makes a minimal side a finished component.
    fn split_off(self, alloc: Global, g: &Graph, side: Side) -> Result<Splitting, AllocError>
        requires block { IsOneBlock g.now }
        requires state { IsSplitting g.now self.parts.items self.current.items }
        requires side { IsMinimalSide (family_of self.current.items) side }
        ensures state { IfOk result (λ s. IsSplitting g.now s.parts.items s.current.items) }
        ensures fewer { IfOk result (λ s. length s.current.items < length self.current.items) }
    {
        let own = NamedEdge {
            name: g.edge_count() + self.parts.len() as u32,
            first: side.first,
            second: side.second,
        };
        let inside = marked_edges(alloc, &self.current, &side.marks)?;
        let current = other_edges(alloc, own, &self.current, &side.marks)?;
        let kind = kind_of(own, &inside);
        let mut parts = self.parts;
        parts.push(Finished {
            kind,
            own,
            edges: EdgeList::of(inside),
        })?;
        Ok(Splitting { parts, current })
    }

    // A minimal side of a 2-separation, if there is one.
    fn find(&self, alloc: Global, g: &Graph) -> Result<Option<Side>, AllocError>
        requires block { IsOneBlock g.now }
        requires state { IsSplitting g.now self.now.parts.items self.now.current.items }
        requires four { 4 ≤ length self.now.current.items }
        ensures { IfOk result (IsSearched self.now.current.items) }
    {
        let bound = g.edge_count() as usize + self.parts.len();
        minimal_side(alloc, &self.current, g.vertex_count(), bound)
    }

    /// Makes one minimal side after the other a finished component, until the family that is left is prime.
    pub(crate) fn finish(self, alloc: Global, g: &Graph) -> Result<Splitting, AllocError>
        requires block { IsOneBlock g.now }
        requires state { IsSplitting g.now self.parts.items self.current.items }
        ensures state { IfOk result (λ s. IsSplitting g.now s.parts.items s.current.items) }
        ensures prime { IfOk result (λ s. IsPrime (family_of s.current.items)) }
    {
        let mut splitting = self;
        while splitting.current.len() > 3 {
            match splitting.find(alloc, g)? {
                Some(side) => splitting = splitting.split_off(alloc, g, side)?,
                None => return Ok(splitting),
            }
        }
        Ok(splitting)
    }
}
