// Edges are added until each face is a triangle.

ghost use Rattle.std.specs.Prelude.{◌≡◌, ◌<◌, ◌≤◌, ◌↔◌, true, slice_index, IfOk};
ghost use Rattle.multigraph.specs.Darts.{dart_count};
ghost use Rattle.multigraph.specs.Graph.{max_vertices};
ghost use Rattle.graph_theory.specs.Connected.{IsConnected};
ghost use Rattle.graph_theory.specs.Triconnected.{IsSimple};
ghost use Rattle.faces.specs.Euler.{IsPlaneSystem};
ghost use Rattle.triangulations.specs.Cutting.{can_cut, is_triangle};
ghost use Rattle.triangulations.specs.Listed.{AreTriangles, Fills, FillsAll, IsCut, IsSimpleMapOf, IsTriangulationOf};
ghost use Rattle.triangulations.specs.Pairs.{KnowsPairs};

use crate::map::DartMap;
use crate::pairs::Pairs;
use crate::starting::map_of;
use multigraph::{Graph, dart_count};
use rotations::Rotation;
use std::alloc::{AllocError, Global};

// Whether the face of the dart is a triangle.
fn is_triangle(map: &DartMap, dart: u32) -> bool
    requires map { IsSimpleMapOf map.now }
    requires dart { dart < dart_count map.now.graph }
    ensures { result ≡ is_triangle (slice_index map.now.next) dart }
{
    map.face(map.face(map.face(dart))) == dart
}

// Whether an edge can be added from the vertex of the dart to that where two steps along the face lead.
fn can_cut(map: &DartMap, pairs: &Pairs, dart: u32) -> bool
    requires map { IsSimpleMapOf map.now }
    requires pairs { KnowsPairs map.now.graph pairs.now.held }
    requires dart { dart < dart_count map.now.graph }
    ensures { result ≡ can_cut map.now.graph (slice_index map.now.next) dart }
{
    let from = map.tail(dart);
    let to = map.head(map.face(dart));
    from != to && !pairs.has(from, to)
}

// Adds this edge, which cuts off a triangle, and returns its first dart, which is on the rest of the face.
fn cut(map: &mut DartMap, pairs: &mut Pairs, dart: u32) -> Result<u32, AllocError>
    requires few { map.old.graph.vertex_count ≤ max_vertices }
    requires map { IsSimpleMapOf map.old }
    requires pairs { KnowsPairs map.old.graph pairs.old.held }
    requires dart { dart < dart_count map.old.graph }
    requires can { can_cut map.old.graph (slice_index map.old.next) dart ≡ true }
    ensures cut { IfOk result (λ _. IsCut map.old dart map.new) }
    ensures pairs { IfOk result (λ _. KnowsPairs map.new.graph pairs.new.held) }
    ensures first { IfOk result (λ first. first ≡ dart_count map.old.graph) }
{
    pairs.add(map.tail(dart), map.head(map.face(dart)))?;
    map.cut(dart)
}

// Cuts off triangles of the face of dart `start`, until what is left of it is a triangle.
fn fill(map: &mut DartMap, pairs: &mut Pairs, start: u32) -> Result<(), AllocError>
    requires few { map.old.graph.vertex_count ≤ max_vertices }
    requires map { IsSimpleMapOf map.old }
    requires pairs { KnowsPairs map.old.graph pairs.old.held }
    requires dart { start < dart_count map.old.graph }
    ensures filled { IfOk result (λ _. Fills start map.old map.new) }
    ensures pairs { IfOk result (λ _. KnowsPairs map.new.graph pairs.new.held) }
{
    let mut dart = start;
    while !is_triangle(map, dart) {
        dart = if can_cut(map, pairs, dart) {
            cut(map, pairs, dart)?
        } else {
            map.face(dart)
        };
    }
    Ok(())
}

// Whether each face of the map is a triangle.
fn is_triangulated(map: &DartMap) -> bool
    requires { IsSimpleMapOf map.now }
    ensures { (result ≡ true) ↔ AreTriangles map.now }
{
    for dart in 0..map.dart_count() {
        if !is_triangle(map, dart) {
            return false;
        }
    }
    true
}

// Cuts off triangles of all faces of a map of the graph, until each face is a triangle.
fn fill_faces(alloc: Global, g: &Graph, map: &mut DartMap) -> Result<(), AllocError>
    requires few { g.now.vertex_count ≤ max_vertices }
    requires map { IsSimpleMapOf map.old }
    requires graph { map.old.graph ≡ g.now }
    ensures { IfOk result (λ _. FillsAll g.now map.old map.new) }
{
    let mut pairs = Pairs::of(alloc, g)?;
    for dart in 0..dart_count(g) {
        fill(map, &mut pairs, dart)?;
    }
    Ok(())
}

/// A triangulation of a connected graph of three vertices or more, without parallel edges, with a plane rotation system: edges are
/// added to the graph, none of them a loop or parallel to another one, until each face has three darts. The darts of the graph keep
/// their numbers, and their order around each vertex. Fails only if memory runs out.
///
/// It takes linear time, and for each edge a look-up in an ordered set of pairs of vertices; a graph all faces of which are triangles
/// takes no look-up.
pub fn triangulate(alloc: Global, g: &Graph, r: &Rotation) -> Result<DartMap, AllocError>
    requires connected { IsConnected g.now }
    requires three { 3 ≤ g.now.vertex_count }
    requires plane { IsPlaneSystem g.now r.now }
    requires simple { IsSimple g.now }
    ensures { IfOk result (IsTriangulationOf g.now r.now) }
{
    g.keeps_limits();
    let mut map = map_of(alloc, g, r)?;
    if is_triangulated(&map) {
        return Ok(map);
    }
    fill_faces(alloc, g, &mut map)?;
    Ok(map)
}
