// A drawing of a plane graph on the grid.

ghost use Rattle.std.specs.Prelude.{◌≡◌, ◌≤◌, false, IfOk, IfErr};
ghost use Rattle.graph_theory.specs.Connected.{IsConnected};
ghost use Rattle.graph_theory.specs.Triconnected.{IsSimple};
ghost use Rattle.faces.specs.Euler.{IsPlaneSystem};
ghost use Rattle.grid_drawing.specs.Grid.{IsGridDrawing, IsDrawRefusal};
ghost use Rattle.grid_drawing.specs.Parallel.{has_parallel};
ghost use Rattle.grid_drawing.specs.declared.drawing.DrawFault.TheVariants.{Memory};

use crate::parallel::first_parallel;
use crate::points::Points;
use canonical_orders::peel;
use multigraph::Graph;
use rotations::Rotation;
use shift_method::place_vertices;
use std::alloc::{AllocError, Global};
use thiserror::Error;
use triangulations::triangulate;

/// Why a graph is not drawn.
#[derive(Debug, Drop, Error)]
pub enum DrawFault {
    /// These two edges have the same ends: no segments draw both.
    #[error("edges {0} and {1} have the same ends")]
    Parallel(u32, u32),
    /// Memory ran out.
    #[error("out of memory")]
    Memory,
}

impl From<AllocError> for DrawFault {
    ghost from_gives = { λ _ fault. fault ≡ Memory };

    fn from(_error: AllocError) -> DrawFault {
        DrawFault::Memory
    }
}

// A drawing of a graph with three vertices or more and no parallel edges: a triangulation of it is drawn by the shift method (de
// Fraysseix, Pach and Pollack 1990).
fn draw_triangulated(alloc: Global, g: &Graph, r: &Rotation) -> Result<Points, AllocError>
    requires connected { IsConnected g.now }
    requires three { 3 ≤ g.now.vertex_count }
    requires system { IsPlaneSystem g.now r.now }
    requires simple { IsSimple g.now }
    ensures { IfOk result (IsGridDrawing g.now r.now) }
{
    let vertices = g.vertex_count();
    let map = triangulate(alloc, g, r)?;
    let order = peel(alloc, &map)?;
    let points = place_vertices(alloc, vertices, map.tail(0), map.head(0), &order)?;
    Ok(Points::from_vec(points))
}

/// A straight-line drawing of a connected graph with at least two vertices and a plane rotation system: a point for each vertex,
/// in order of the vertices. Where n, the number of vertices, is at least 3, x is from 0 to 2n - 4 and y from 0 to n - 2 (de
/// Fraysseix, Pach and Pollack 1990); two vertices are drawn at (0, 0) and (1, 0).
///
/// Fails with `Parallel` exactly where two edges have the same ends, with the least such pair (`first_parallel`), and else only if
/// memory runs out.
pub fn draw(alloc: Global, g: &Graph, r: &Rotation) -> Result<Points, DrawFault>
    requires connected { IsConnected g.now }
    requires two { 2 ≤ g.now.vertex_count }
    requires system { IsPlaneSystem g.now r.now }
    ensures drawn { IfOk result (λ points. IsGridDrawing g.now r.now points) }
    ensures simple { IfOk result (λ _. has_parallel g.now ≡ false) }
    ensures fault { IfErr result (λ fault. IsDrawRefusal g.now fault) }
{
    if let Some((a, b)) = first_parallel(g) {
        return Err(DrawFault::Parallel(a, b));
    }
    if g.vertex_count() == 2 {
        return Ok(Points::of(alloc, &[(0, 0), (1, 0)])?);
    }
    Ok(draw_triangulated(alloc, g, r)?)
}
