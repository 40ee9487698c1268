// The embedder: a drawing path by path, or a certificate of what is left when edges are left out.

ghost use Rattle.std.specs.Prelude.{IfOk};
ghost use Rattle.graph_theory.specs.Triconnected.{IsTriconnected};
ghost use Rattle.kuratowski.specs.Subdivision.{IsWritten};
ghost use Rattle.path_embed.specs.Planar.{HasNoPlaneSystem};
ghost use Rattle.path_embed.specs.Found.{IsFound, IsRest};

use crate::carrying::carried;
use crate::deciding::plane_system;
use crate::descending::{carried_from, subdivision_of};
use crate::rest::{Found, Rest};
use crate::shortening::shorten;
use kuratowski::Subdivision;
use multigraph::Graph;
use planarity::{Embedded, Embedder};
use std::alloc::{AllocError, Global};

// A subdivision of K5 or K3,3 in the graph, from one in the skeleton.
fn certificate(alloc: Global, g: &Graph, found: &Found) -> Result<Subdivision, AllocError>
    requires { IsFound g.now found.now }
    ensures { IfOk result (λ w. IsWritten g.now w.kind w.branch w.paths) }
{
    let s = subdivision_of(alloc, &found.obstacle.skeleton)?;
    let inner = carried_from(alloc, found.whole.graph(), &found.obstacle, &s)?;
    carried(alloc, g, &found.whole, &inner)
}

// A subdivision of K5 or K3,3 in a triconnected graph that has no plane rotation system, from what is left of it.
fn certificate_of(alloc: Global, g: &Graph, rest: &Rest) -> Result<Subdivision, AllocError>
    requires triconnected { IsTriconnected g.now }
    requires nonplanar { HasNoPlaneSystem g.now }
    requires rest { IsRest g.now rest.now }
    ensures { IfOk result (λ w. IsWritten g.now w.kind w.branch w.paths) }
{
    match &rest.found {
        None => subdivision_of(alloc, g),
        Some(found) => certificate(alloc, g, found),
    }
}

/// An embedder of triconnected graphs that draws one path after another into faces (Demoucron, Malgrange and Pertuiset
/// 1964). If the graph has no plane rotation system, edges are left out as long as the rest has none, until the
/// triconnected skeleton that is left is K5 or K3,3; this is carried into the graph.
#[derive(Debug, Drop)]
pub struct PathEmbedder;

impl Embedder for PathEmbedder {
    fn embed(&mut self, alloc: Global, g: &Graph) -> Result<Embedded, AllocError> {
        let system = plane_system(alloc, g)?;
        match system {
            Some(r) => Ok(Embedded::Plane(r)),
            None => {
                let rest = shorten(alloc, g)?;
                let s = certificate_of(alloc, g, &rest)?;
                Ok(Embedded::Not(s))
            }
        }
    }
}
