// The plain splitter: it looks for a smallest side of a 2-separation among all pairs of vertices.

ghost use Rattle.std.specs.Prelude.{◌≡◌, ◌<◌, ◌≤◌, length, IfOk};
ghost use Rattle.multigraph.specs.Graph.{edge_count};
ghost use Rattle.graph_theory.specs.Block.{IsOneBlock};
ghost use Rattle.pair_split.specs.Family.{IsPrime};
ghost use Rattle.pair_split.specs.Split.{IsSplit};
ghost use Rattle.pair_split.specs.State.{IsSplitState, AreSplitComponents};
ghost use Rattle.pair_split.specs.Bridges.{family_of};
ghost use Rattle.pair_split.specs.Splitting.{state_of, IsSplitting};

use crate::components::{Comps, Kind};
use crate::splitter::Splitter;
use crate::splitting::{Splitting, kind_of_all};
use crate::writing::write_components;
use multigraph::Graph;
use std::alloc::{AllocError, Global};
use std::marker::Brand;
use std::sync::ledger::{Blank, Ledger};
use step_count::Steps;

/// The plain splitter. It splits off a smallest side of a 2-separation, found by trying all pairs of vertices, as long as
/// there is one (about n * n * (n + m) steps a side, for n vertices and m edges).
/// For callers of the library: the program does not call it.
#[derive(Debug, Drop)]
pub struct PairSplitter;

// The components of the state, the family that is left being one of this kind.
fn write_state<L: Ledger>(
    alloc: Global,
    g: &Graph,
    splitting: &Splitting,
    kind: Kind,
    steps: &mut Steps<L>,
) -> Result<Comps, AllocError>
    requires state { IsSplitState g.now
        (state_of splitting.now.parts.items splitting.now.current.items) }
    requires few { length splitting.now.parts.items ≤ edge_count g.now }
    ensures { IfOk result (λ comps. AreSplitComponents (edge_count g.now)
        (state_of splitting.now.parts.items splitting.now.current.items) kind comps.list) }
{
    write_components(
        alloc,
        &splitting.parts,
        &splitting.current,
        kind,
        g.edge_count(),
        steps,
    )
}

// The components at the end of splitting.
fn write_end<L: Ledger>(
    alloc: Global,
    g: &Graph,
    end: &Splitting,
    steps: &mut Steps<L>,
) -> Result<Comps, AllocError>
    requires block { IsOneBlock g.now }
    requires state { IsSplitting g.now end.now.parts.items end.now.current.items }
    requires prime { IsPrime (family_of end.now.current.items) }
    ensures { IfOk result (λ comps. IsSplit g.now comps.list) }
{
    let kind = kind_of_all(&end.current);
    write_state(alloc, g, end, kind, steps)
}

impl PairSplitter {
    /// A plain splitter.
    pub fn new() -> PairSplitter {
        PairSplitter
    }

    // Splits the block, with steps that nobody reads.
    fn split_from<L: Ledger>(
        &mut self,
        alloc: Global,
        g: &Graph,
        blank: Blank,
    ) -> Result<Comps, AllocError>
        requires block { IsOneBlock g.now }
        requires name { blank.name ≡ L.name }
        requires parts { blank.parts ≡ L.parts }
        requires some { 0 < blank.parts }
        ensures { IfOk result (λ comps. IsSplit g.now comps.list) }
    {
        let mut steps = Steps::<L>::new(blank);
        let start = Splitting::of(alloc, g, &mut steps)?;
        if g.edge_count() < 3 {
            return write_state(alloc, g, &start, Kind::B, &mut steps);
        }
        let end = start.finish(alloc, g)?;
        write_end(alloc, g, &end, &mut steps)
    }
}

impl Splitter for PairSplitter {
    fn split(&mut self, alloc: Global, g: &Graph) -> Result<Comps, AllocError> {
        self.split_from::<Brand>(alloc, g, Blank::new(1))
    }
}
