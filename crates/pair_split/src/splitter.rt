// What splits a block.

ghost use Rattle.std.specs.Prelude.{IfOk};
ghost use Rattle.graph_theory.specs.Block.{IsOneBlock};
ghost use Rattle.pair_split.specs.Split.{IsSplit};

use crate::components::Comps;
use multigraph::Graph;
use std::alloc::{AllocError, Global};

/// A method that splits a block into split components.
pub trait Splitter {
    /// The split components of a graph that is one block: polygons, bonds and triconnected graphs, or a single component of
    /// kind B where the block has one edge or two. Each link is in both components that it joins. Fails only if memory runs out.
    fn split(&mut self, alloc: Global, g: &Graph) -> Result<Comps, AllocError>
        requires { IsOneBlock g.now }
        ensures { IfOk result (λ comps. IsSplit g.now comps.list) };
}
