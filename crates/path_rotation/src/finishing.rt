// The rotation system of a map, if it is one and plane.

ghost use Rattle.std.specs.Prelude.{◌≡◌, ◌<◌, ℕ, length, slice_index, IfOk};
ghost use Rattle.permutations.specs.Cyclic.{first_or};
ghost use Rattle.multigraph.specs.Graph.{incident_edges};
ghost use Rattle.multigraph.specs.Darts.{dart_count, dart_from};
ghost use Rattle.graph_theory.specs.Triconnected.{IsTriconnected};
ghost use Rattle.path_rotation.specs.Finish.{AreListed, ArePassed, IsPlaneOrder};
ghost use Rattle.path_rotation.specs.Outcome.{IsDrawn};

use crate::outcome::Drawn;
use faces::euler;
use multigraph::{Graph, dart_from};
use rotations::{Lists, RotFault, Rotation};
use std::alloc::{AllocError, Global};

// The edges of so many darts around a vertex, from the first on.
fn edges_from(
    g: &Graph,
    next: &[u32],
    first: u32,
    count: u32,
    edges: &mut Vec<u32>,
) -> Result<(), AllocError>
    requires darts { length next.now ≡ dart_count g.now }
    requires within { (d : ℕ) → d < dart_count g.now → slice_index next.now d < dart_count g.now }
    requires first { 0 < count → first < dart_count g.now }
    ensures { IfOk result (λ _. ArePassed next.now first count edges.new.items) }
{
    edges.clear();
    let mut at = first;
    for _ in 0..count {
        edges.push(at / 2)?;
        at = next[at as usize];
    }
    Ok(())
}

// The dart of the least edge at v, if there is one.
fn least_dart(g: &Graph, v: u32) -> u32
    requires { v < g.now.vertex_count }
    ensures { 0 < length (incident_edges g.now v)
        → result ≡ dart_from g.now v (first_or 0 (incident_edges g.now v)) }
{
    if g.degree(v) == 0 {
        return 0;
    }
    dart_from(g, v, g.incident(v)[0])
}

// The edges around each vertex, from the least one on.
fn lists_of(alloc: Global, g: &Graph, next: &[u32]) -> Result<Lists, AllocError>
    requires darts { length next.now ≡ dart_count g.now }
    requires within { (d : ℕ) → d < dart_count g.now → slice_index next.now d < dart_count g.now }
    ensures { IfOk result (AreListed g.now next.now g.now.vertex_count) }
{
    let mut lists = Lists::new(alloc);
    let mut edges = Vec::new(alloc);
    for v in 0..g.vertex_count() {
        edges_from(g, next, least_dart(g, v), g.degree(v), &mut edges)?;
        lists.push(v, &edges)?;
    }
    Ok(lists)
}

// The rotation system of the map, if it is one and plane.
pub(crate) fn finish(alloc: Global, g: &Graph, next: &[u32]) -> Result<Drawn, AllocError>
    requires darts { length next.now ≡ dart_count g.now }
    requires within { (d : ℕ) → d < dart_count g.now → slice_index next.now d < dart_count g.now }
    requires whole { IsTriconnected g.now → IsPlaneOrder g.now next.now }
    ensures { IfOk result (IsDrawn g.now) }
{
    g.keeps_limits();
    let lists = lists_of(alloc, g, next)?;
    match Rotation::from_lists(alloc, g, &lists) {
        Ok(r) => {
            if euler(alloc, g, &r)?.plane {
                return Ok(Drawn::Plane(r));
            }
            Ok(Drawn::Stuck)
        }
        Err(RotFault::BadRotation(_vertex)) => Ok(Drawn::Stuck),
        Err(RotFault::Memory) => Err(AllocError),
    }
}
