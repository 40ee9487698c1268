// The first of the two plane rotation systems of a triconnected graph.

ghost use Rattle.std.specs.Prelude.{IfOk};
ghost use Rattle.graph_theory.specs.Triconnected.{IsTriconnected};
ghost use Rattle.planarity.specs.Embedding.{IsEmbedding};
ghost use Rattle.skel_embed.specs.Fan.{TurnsRightWherePlane};

use multigraph::Graph;
use planarity::{Embedded, Embedder};
use std::alloc::{AllocError, Global};

// The plane rotation system of a triconnected graph that turns right at vertex 0, or why none exists.
pub(crate) fn first_embedding<E: Embedder>(
    alloc: Global,
    g: &Graph,
    embedder: &mut E,
) -> Result<Embedded, AllocError>
    requires { IsTriconnected g.now }
    ensures embedding { IfOk result (IsEmbedding g.now) }
    ensures right { IfOk result TurnsRightWherePlane }
{
    match embedder.embed(alloc, g)? {
        Embedded::Not(s) => Ok(Embedded::Not(s)),
        Embedded::Plane(mut r) => {
            let first = g.incident(0)[0];
            if r.succ(0, first) <= r.pred(0, first) {
                return Ok(Embedded::Plane(r));
            }
            r.mirror();
            Ok(Embedded::Plane(r))
        }
    }
}
