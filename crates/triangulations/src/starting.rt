// The map of a rotation system, with room for the edges that are added.

ghost use Rattle.std.specs.Prelude.{◌≡◌, ◌<◌, IfOk};
ghost use Rattle.multigraph.specs.Darts.{dart_count};
ghost use Rattle.multigraph.specs.Graph.{IsGraph};
ghost use Rattle.rotations.specs.Rotation.{IsRotationSystem};
ghost use Rattle.faces.specs.Maps.{dart_after, dart_before};
ghost use Rattle.triangulations.specs.Listed.{IsMapFrom, IsTable};

use crate::map::DartMap;
use multigraph::{Graph, dart_count, dart_from, tail};
use rotations::Rotation;
use std::alloc::{AllocError, Global};

// The dart that follows around the vertex that the dart leaves.
fn dart_after(g: &Graph, r: &Rotation, dart: u32) -> u32
    requires graph { IsGraph g.now }
    requires system { IsRotationSystem g.now r.now }
    requires dart { dart < dart_count g.now }
    ensures { result ≡ dart_after g.now r.now dart }
{
    let v = tail(g, dart);
    dart_from(g, v, r.succ(v, dart / 2))
}

// The dart that it follows around this vertex.
fn dart_before(g: &Graph, r: &Rotation, dart: u32) -> u32
    requires graph { IsGraph g.now }
    requires system { IsRotationSystem g.now r.now }
    requires dart { dart < dart_count g.now }
    ensures { result ≡ dart_before g.now r.now dart }
{
    let v = tail(g, dart);
    dart_from(g, v, r.pred(v, dart / 2))
}

// For each dart the one that follows, with room for `room` darts.
fn darts_after(alloc: Global, g: &Graph, r: &Rotation, room: usize) -> Result<Vec<u32>, AllocError>
    requires { IsRotationSystem g.now r.now }
    ensures { IfOk result (λ table. IsTable (dart_after g.now r.now) (dart_count g.now) table.items) }
{
    let mut table = Vec::with_capacity(alloc, room)?;
    for dart in 0..dart_count(g) {
        table.push(dart_after(g, r, dart))?;
    }
    Ok(table)
}

// For each dart the one that it follows, with room for `room` darts.
fn darts_before(alloc: Global, g: &Graph, r: &Rotation, room: usize) -> Result<Vec<u32>, AllocError>
    requires { IsRotationSystem g.now r.now }
    ensures { IfOk result (λ table. IsTable (dart_before g.now r.now) (dart_count g.now) table.items) }
{
    let mut table = Vec::with_capacity(alloc, room)?;
    for dart in 0..dart_count(g) {
        table.push(dart_before(g, r, dart))?;
    }
    Ok(table)
}

// The ends of the edges, with room for `room` edges.
fn ends_of(alloc: Global, g: &Graph, room: usize) -> Result<Vec<(u32, u32)>, AllocError>
    ensures { IfOk result (λ ends. ends.items ≡ g.now.ends) }
{
    let mut ends = Vec::with_capacity(alloc, room)?;
    for e in 0..g.edge_count() {
        ends.push(g.ends(e))?;
    }
    Ok(ends)
}

// The graph with the map of the rotation system. There is room for all edges of a triangulation, three for each vertex at most.
pub(crate) fn map_of(alloc: Global, g: &Graph, r: &Rotation) -> Result<DartMap, AllocError>
    requires { IsRotationSystem g.now r.now }
    ensures { IfOk result (IsMapFrom g.now r.now) }
{
    let room = 3 * g.vertex_count() as usize;
    let ends = ends_of(alloc, g, room)?;
    let next = darts_after(alloc, g, r, 2 * room)?;
    let prev = darts_before(alloc, g, r, 2 * room)?;
    Ok(DartMap::of(g.vertex_count(), ends, next, prev))
}
