// Whether points are a straight-line drawing: each condition by a loop.

ghost use Rattle.std.specs.Prelude.{◌≡◌, ◌≢◌, ◌<◌, ◌≤◌, ◌↔◌, ℕ, true, length};
ghost use Rattle.multigraph.specs.Graph.{edge_count, ends_of, IsGraph};
ghost use Rattle.rotations.specs.Rotation.{IsRotationSystem};
ghost use Rattle.plane_points.specs.Turning.{falls_around, IsCounterclockwise};
ghost use Rattle.grid_drawing.specs.Drawing.{point_at, points_around, AreApart, IsDrawing};
ghost use Rattle.grid_drawing.specs.Tests as tests;

use crate::points::Points;
use crate::turning::{are_apart, comes_before, is_on, same_way};
use multigraph::Graph;
use rotations::Rotation;

// Whether no vertex before v has its point.
fn is_new(points: &[(u32, u32)], v: u32) -> bool
    requires { v < length points.now }
    ensures { (result ≡ true) ↔ ((u : ℕ) → u < v → point_at points.now u ≢ point_at points.now v) }
{
    let (x, y) = points[v as usize];
    for u in 0..v {
        let (earlier_x, earlier_y) = points[u as usize];
        if earlier_x == x && earlier_y == y {
            return false;
        }
    }
    true
}

// Whether different vertices have different points.
fn are_different(g: &Graph, points: &[(u32, u32)]) -> bool
    requires { length points.now ≡ g.now.vertex_count }
    ensures exact { (result ≡ true) ↔ AreApart g.now points.now }
    ensures graph { IsGraph g.now }
{
    for v in 0..g.vertex_count() {
        if !is_new(points, v) {
            return false;
        }
    }
    true
}

// Whether the segments of edges e and f meet at most in a common end, by the ends that they have in common.
fn is_clear(g: &Graph, points: &[(u32, u32)], e: u32, f: u32) -> bool
    requires each { length points.now ≡ g.now.vertex_count }
    requires first { e < edge_count g.now }
    requires second { f < edge_count g.now }
    ensures { result ≡ tests.is_clear (point_at points.now) (ends_of g.now e) (ends_of g.now f) }
{
    let (a, b) = g.ends(e);
    let (c, d) = g.ends(f);
    let (at_a, at_b) = (points[a as usize], points[b as usize]);
    let (at_c, at_d) = (points[c as usize], points[d as usize]);
    if a == c {
        return b != d && !same_way(at_a, at_b, at_d);
    }
    if a == d {
        return b != c && !same_way(at_a, at_b, at_c);
    }
    if b == c {
        return !same_way(at_b, at_a, at_d);
    }
    if b == d {
        return !same_way(at_b, at_a, at_c);
    }
    are_apart(at_a, at_b, at_c, at_d)
}

// Whether the segment of edge e meets those of all earlier edges at most in common ends.
fn is_clear_of_earlier(g: &Graph, points: &[(u32, u32)], e: u32) -> bool
    requires each { length points.now ≡ g.now.vertex_count }
    requires edge { e < edge_count g.now }
    ensures { (result ≡ true) ↔ ((f : ℕ) → f < e → tests.is_clear (point_at points.now) (ends_of g.now e) (ends_of g.now f) ≡ true) }
{
    for f in 0..e {
        if !is_clear(g, points, e, f) {
            return false;
        }
    }
    true
}

// Whether edges meet in common ends only.
fn are_clear(g: &Graph, points: &[(u32, u32)]) -> bool
    requires each { length points.now ≡ g.now.vertex_count }
    ensures { (result ≡ true) ↔ ((e f : ℕ) → e < edge_count g.now → f < e
        → tests.is_clear (point_at points.now) (ends_of g.now e) (ends_of g.now f) ≡ true) }
{
    for e in 0..g.edge_count() {
        if !is_clear_of_earlier(g, points, e) {
            return false;
        }
    }
    true
}

// Whether v is an end of edge e, or its segment does not go through the point of v.
fn passes_by(g: &Graph, points: &[(u32, u32)], e: u32, v: u32) -> bool
    requires each { length points.now ≡ g.now.vertex_count }
    requires edge { e < edge_count g.now }
    requires vertex { v < g.now.vertex_count }
    ensures { result ≡ tests.passes_by g.now (point_at points.now) e v }
{
    let (a, b) = g.ends(e);
    a == v || b == v || !is_on(points[a as usize], points[b as usize], points[v as usize])
}

// Whether the segment of edge e goes through no other vertex than its ends.
fn passes_by_all(g: &Graph, points: &[(u32, u32)], e: u32) -> bool
    requires each { length points.now ≡ g.now.vertex_count }
    requires edge { e < edge_count g.now }
    ensures { (result ≡ true) ↔ ((v : ℕ) → v < g.now.vertex_count → tests.passes_by g.now (point_at points.now) e v ≡ true) }
{
    for v in 0..g.vertex_count() {
        if !passes_by(g, points, e, v) {
            return false;
        }
    }
    true
}

// Whether no edge goes through a third vertex.
fn all_pass_by(g: &Graph, points: &[(u32, u32)]) -> bool
    requires each { length points.now ≡ g.now.vertex_count }
    ensures { (result ≡ true) ↔ ((e v : ℕ) → e < edge_count g.now → v < g.now.vertex_count
        → tests.passes_by g.now (point_at points.now) e v ≡ true) }
{
    for e in 0..g.edge_count() {
        if !passes_by_all(g, points, e) {
            return false;
        }
    }
    true
}

// Whether at most one edge at v does not come before the next one in the order of the rotation system.
fn goes_around(g: &Graph, r: &Rotation, points: &[(u32, u32)], v: u32) -> bool
    requires graph { IsGraph g.now }
    requires system { IsRotationSystem g.now r.now }
    requires each { length points.now ≡ g.now.vertex_count }
    requires vertex { v < g.now.vertex_count }
    ensures { (result ≡ true) ↔ (falls_around (point_at points.now v) (points_around g.now r.now points.now v) ≤ 1) }
{
    let mut edges = r.list(v);
    let Some(edge) = edges.next() else {
        return true;
    };
    let center = points[v as usize];
    let first = points[g.other_end(edge, v) as usize];
    let mut before = first;
    let mut fell = false;
    for e in edges {
        let at = points[g.other_end(e, v) as usize];
        if !comes_before(center, before, at) {
            if fell {
                return false;
            }
            fell = true;
        }
        before = at;
    }
    !fell || comes_before(center, before, first)
}

// Whether the edges around each vertex are met counterclockwise.
fn go_around(g: &Graph, r: &Rotation, points: &[(u32, u32)]) -> bool
    requires system { IsRotationSystem g.now r.now }
    requires each { length points.now ≡ g.now.vertex_count }
    ensures { (result ≡ true) ↔ ((v : ℕ) → v < g.now.vertex_count → IsCounterclockwise (point_at points.now v) (points_around g.now r.now points.now v)) }
{
    for v in 0..g.vertex_count() {
        if !goes_around(g, r, points, v) {
            return false;
        }
    }
    true
}

/// Whether the points are a straight-line drawing of the graph in which the edges around each vertex have the order of the
/// rotation system: different vertices have different points, edges meet in common ends only, no edge goes through a third vertex,
/// and the edges around each vertex are met counterclockwise.
///
/// It is exact for all points, any rotation system and any graph. It takes no memory, and as many steps as there are pairs of
/// edges and pairs of an edge and a vertex.
pub fn is_drawing(g: &Graph, r: &Rotation, points: &Points) -> bool
    requires system { IsRotationSystem g.now r.now }
    requires each { length points.now ≡ g.now.vertex_count }
    ensures { (result ≡ true) ↔ IsDrawing g.now r.now points.now }
{
    let points = points.as_slice();
    if !are_different(g, points) {
        return false;
    }
    if !are_clear(g, points) {
        return false;
    }
    if !all_pass_by(g, points) {
        return false;
    }
    go_around(g, r, points)
}
