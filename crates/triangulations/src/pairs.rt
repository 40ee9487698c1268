// Which vertices are joined.

ghost use Rattle.std.specs.Prelude.{◌≡◌, IfOk, OnOk};
ghost use Rattle.triangulations.specs.Pairs.{AddsPair, KnowsPairs, has_pair, ordered};

use multigraph::Graph;
use std::alloc::{AllocError, Global};
use std::collections::BTreeSet;

// The pairs of vertices that are joined, each with the lesser vertex first.
#[derive(Drop)]
pub(crate) struct Pairs {
    held: BTreeSet<(u32, u32)>,
}

// The two vertices, the lesser one first.
fn ordered(a: u32, b: u32) -> (u32, u32)
    ensures { result ≡ ordered a b }
{
    (a.min(b), a.max(b))
}

impl Pairs {
    // Those that the edges of the graph join.
    pub(crate) fn of(alloc: Global, g: &Graph) -> Result<Pairs, AllocError>
        ensures { IfOk result (λ pairs. KnowsPairs g.now pairs.held) }
    {
        let mut pairs = Pairs {
            held: BTreeSet::new(alloc),
        };
        for e in 0..g.edge_count() {
            let (first, second) = g.ends(e);
            pairs.add(first, second)?;
        }
        Ok(pairs)
    }

    // Whether the two vertices are joined.
    pub(crate) fn has(&self, a: u32, b: u32) -> bool
        ensures { result ≡ has_pair self.now.held a b }
    {
        self.held.contains(&ordered(a, b))
    }

    // Notes that they are.
    pub(crate) fn add(&mut self, a: u32, b: u32) -> Result<(), AllocError>
        ensures { OnOk result (AddsPair self.old.held a b self.new.held) }
    {
        self.held.insert(ordered(a, b))?;
        Ok(())
    }
}
