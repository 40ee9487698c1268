// What embeds triconnected graphs.

ghost use Rattle.std.specs.Prelude.{IfOk};
ghost use Rattle.graph_theory.specs.Triconnected.{IsTriconnected};
ghost use Rattle.planarity.specs.Embedding.{IsEmbedding};

use kuratowski::Subdivision;
use multigraph::Graph;
use rotations::Rotation;
use std::alloc::{AllocError, Global};

/// A plane rotation system of a graph, or the reason why it does not exist.
#[derive(Debug, Drop)]
pub enum Embedded {
    /// A plane rotation system.
    Plane(Rotation),
    /// A subdivision of K5 or of K3,3.
    Not(Subdivision),
}

/// A method that embeds triconnected graphs.
pub trait Embedder {
    /// A plane rotation system of a triconnected graph, or a subdivision of K5 or of K3,3 in it, in its written form. Fails only
    /// if memory runs out.
    fn embed(&mut self, alloc: Global, g: &Graph) -> Result<Embedded, AllocError>
        requires { IsTriconnected g.now }
        ensures { IfOk result (IsEmbedding g.now) };
}
