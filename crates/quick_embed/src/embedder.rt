// The embedder: proposals that are checked, and another embedder where none is accepted.

ghost use Rattle.std.specs.Prelude.{IfOk, IfSome};
ghost use Rattle.rotations.specs.Rotation.{IsRotationSystem};
ghost use Rattle.faces.specs.Euler.{IsPlaneSystem};
ghost use Rattle.kuratowski.specs.Subdivision.{IsWritten};
ghost use Rattle.graph_theory.specs.Triconnected.{IsTriconnected};
ghost use Rattle.planarity.specs.Embedding.{IsEmbedding};

use crate::finders::{Finder, LeftRight};
use faces::euler;
use kuratowski::{Subdivision, is_subdivision, written_form};
use multigraph::Graph;
use planarity::{Embedded, Embedder};
use rotations::{Lists, RotFault, Rotation};
use std::alloc::{AllocError, Global};

// The rotation system of the lists, if they are one.
fn system(alloc: Global, g: &Graph, lists: &Lists) -> Result<Option<Rotation>, AllocError>
    ensures { IfOk result (λ answer. IfSome answer (IsRotationSystem g.now)) }
{
    match Rotation::from_lists(alloc, g, lists) {
        Ok(r) => Ok(Some(r)),
        Err(RotFault::BadRotation(_vertex)) => Ok(None),
        Err(RotFault::Memory) => Err(AllocError),
    }
}

// The rotation system of the lists, if they are one and it is plane.
fn plane_system(alloc: Global, g: &Graph, lists: &Lists) -> Result<Option<Rotation>, AllocError>
    ensures { IfOk result (λ answer. IfSome answer (IsPlaneSystem g.now)) }
{
    let Some(r) = system(alloc, g, lists)? else {
        return Ok(None);
    };
    if euler(alloc, g, &r)?.plane {
        return Ok(Some(r));
    }
    Ok(None)
}

// The proposal in its written form, if it is a subdivision.
fn obstruction(
    alloc: Global,
    g: &Graph,
    proposed: Subdivision,
) -> Result<Option<Subdivision>, AllocError>
    ensures { IfOk result (λ answer. IfSome answer (λ s. IsWritten g.now s.kind s.branch s.paths)) }
{
    if !is_subdivision(alloc, g, &proposed)? {
        return Ok(None);
    }
    Ok(Some(written_form(alloc, g, proposed)?))
}

/// The first proposal of the finder that is accepted: a plane rotation system of the graph, which may be any, or a subdivision of
/// K5 or of K3,3 in it, in its written form. `None`, where none is accepted, says nothing of the graph. Public for tests and
/// measurements. Fails only if memory runs out.
pub fn accepted_proposal<F: Finder>(
    alloc: Global,
    finder: &mut F,
    g: &Graph,
) -> Result<Option<Embedded>, AllocError>
    ensures { IfOk result (λ answer. IfSome answer (IsEmbedding g.now)) }
{
    if let Some(lists) = finder.rotation(alloc, g)? {
        if let Some(r) = plane_system(alloc, g, &lists)? {
            return Ok(Some(Embedded::Plane(r)));
        }
    }
    if let Some(proposed) = finder.subdivision(alloc, g)? {
        if let Some(s) = obstruction(alloc, g, proposed)? {
            return Ok(Some(Embedded::Not(s)));
        }
    }
    Ok(None)
}

/// A plane rotation system of a triconnected graph, or a subdivision of K5 or of K3,3 in it, in its written form: the first
/// proposal of the finder that is accepted, and if none is, the result of the embedder. Public for tests with other finders. Fails
/// only if memory runs out.
pub fn embed_by<F: Finder, E: Embedder>(
    alloc: Global,
    finder: &mut F,
    fallback: &mut E,
    g: &Graph,
) -> Result<Embedded, AllocError>
    requires { IsTriconnected g.now }
    ensures { IfOk result (IsEmbedding g.now) }
{
    if let Some(answer) = accepted_proposal(alloc, finder, g)? {
        return Ok(answer);
    }
    fallback.embed(alloc, g)
}

/// An embedder of triconnected graphs by the left-right method, whose proposals are checked; if none is accepted, another embedder
/// is called.
#[derive(Debug, Drop)]
pub struct QuickEmbedder<E> {
    /// The embedder that is called if no proposal is accepted.
    pub fallback: E,
}

impl<E: Embedder> Embedder for QuickEmbedder<E> {
    fn embed(&mut self, alloc: Global, g: &Graph) -> Result<Embedded, AllocError> {
        embed_by(alloc, &mut LeftRight, &mut self.fallback, g)
    }
}
