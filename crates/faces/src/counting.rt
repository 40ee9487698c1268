// Euler's sum of a rotation system.
ghost use Rattle.faces.specs.Euler.{IsPlane, component_count, face_count};
ghost use Rattle.multigraph.specs.Graph.{IsGraph, IsWithinLimits, edge_count};
ghost use Rattle.rotations.specs.Rotation.{IsRotationSystem};
ghost use Rattle.std.specs.Prelude.{◌↔◌, ◌≡◌, IfOk, IsTrue};

use crate::components::{count_components, count_isolated};
use crate::numbers::Euler;
use crate::orbits::count_orbits;
use crate::steps::face_steps;
use multigraph::Graph;
use rotations::Rotation;
use std::alloc::{AllocError, Global};

// How many faces the rotation system has, an isolated vertex counting one.
fn count_faces(alloc: Global, g: &Graph, r: &Rotation) -> Result<u32, AllocError>
    requires graph { IsGraph g.now }
    requires limits { IsWithinLimits g.now }
    requires system { IsRotationSystem g.now r.now }
    ensures { IfOk result (λ faces. faces ≡ face_count g.now r.now) }
{
    let isolated = count_isolated(g);
    let steps = face_steps(alloc, g, r)?;
    let orbits = count_orbits(alloc, &steps)?;
    Ok(orbits + isolated)
}

/// The numbers of Euler's sum of the rotation system `r` of the graph `g`, and whether it is plane. An isolated vertex counts
/// one face. In linear time. Fails only if memory runs out.
pub fn euler(alloc: Global, g: &Graph, r: &Rotation) -> Result<Euler, AllocError>
    requires { IsRotationSystem g.now r.now }
    ensures vertices { IfOk result (λ u. u.v ≡ g.now.vertex_count) }
    ensures edges { IfOk result (λ u. u.e ≡ edge_count g.now) }
    ensures faces { IfOk result (λ u. u.f ≡ face_count g.now r.now) }
    ensures components { IfOk result (λ u. u.c ≡ component_count g.now) }
    ensures plane { IfOk result (λ u. IsTrue u.plane ↔ IsPlane g.now r.now) }
{
    let v = g.vertex_count();
    let e = g.edge_count();
    let f = count_faces(alloc, g, r)?;
    let c = count_components(alloc, g)?;
    let plane = v + f == e + 2 * c;
    Ok(Euler { v, e, f, c, plane })
}
