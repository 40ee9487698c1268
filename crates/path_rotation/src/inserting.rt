// A path drawn between two corners.

ghost use Rattle.std.specs.Prelude.{◌≡◌, ◌+◌, ◌*◌, ◌/◌, ◌<◌, ◌||◌, ◌∷◌, ℕ, true, if◌then◌else◌, List, length, slice_index};
ghost use Rattle.permutations.specs.Members.{is_member};
ghost use Rattle.multigraph.specs.Marks.{is_marked};
ghost use Rattle.multigraph.specs.Darts.{dart_count, tail, twin};
ghost use Rattle.graph_theory.specs.Path.{IsWalk, walk_vertices};
ghost use Rattle.path_separation.specs.Drawn.{darts_along};
ghost use Rattle.path_rotation.specs.Forced.{AreTables, IsPathDrawn};
ghost use Rattle.path_rotation.specs.Fitting.{AreLabels};
ghost use Rattle.path_rotation.specs.Insertion.{threaded};

use crate::tables::Board;
use multigraph::{Graph, dart_from, tail, twin};

// Inserts the darts of a path from x on: the first after c, at its end the last one's twin after k.
fn insert_path(g: &Graph, next: &mut [u32], c: u32, x: u32, path: &[u32], k: u32)
    requires darts { length next.old ≡ dart_count g.now }
    requires first { c < dart_count g.now }
    requires last { k < dart_count g.now }
    requires walk { IsWalk g.now x path.now }
    ensures size { length next.new ≡ length next.old }
    ensures inserted { (d : ℕ) → slice_index next.new d
        ≡ threaded c (darts_along g.now x path.now) k (slice_index next.old) d }
{
    let mut at = x;
    let mut corner = c;
    for edge in path {
        let d = dart_from(g, at, *edge);
        next.swap(corner as usize, d as usize);
        corner = twin(d);
        at = g.other_end(*edge, at);
    }
    next.swap(k as usize, corner as usize);
}

// Marks the edges.
fn mark_edges(drawn: &mut [bool], path: &[u32])
    requires { (e : ℕ) → is_member e path.now ≡ true → e < length drawn.old }
    ensures size { length drawn.new ≡ length drawn.old }
    ensures marked { (e : ℕ) → is_marked drawn.new e ≡ (is_marked drawn.old e || is_member e path.now) }
{
    for edge in path {
        drawn[*edge as usize] = true;
    }
}

// Marks the vertices along the path from x on.
fn mark_vertices(g: &Graph, on: &mut [bool], x: u32, path: &[u32])
    requires each { length on.old ≡ g.now.vertex_count }
    requires vertex { x < g.now.vertex_count }
    requires walk { IsWalk g.now x path.now }
    ensures size { length on.new ≡ length on.old }
    ensures marked { (v : ℕ) → is_marked on.new v
        ≡ (is_marked on.old v || is_member v (walk_vertices g.now x path.now)) }
{
    g.keeps_limits();
    let mut at = x;
    on[at as usize] = true;
    for edge in path {
        at = g.other_end(*edge, at);
        on[at as usize] = true;
    }
}

// Gives the darts of these edges the label of the face.
fn paint(label: &mut [u32], path: &[u32], face: u32)
    requires { (e : ℕ) → is_member e path.now ≡ true → 2 * e + 1 < length label.old }
    ensures size { length label.new ≡ length label.old }
    ensures painted { (d : ℕ) → d < length label.old → slice_index label.new d
        ≡ (if is_member (d / 2) path.now then face else slice_index label.old d) }
{
    for edge in path {
        let d = 2 * *edge as usize;
        label[d] = face;
        label[d + 1] = face;
    }
}

// Draws the path that begins with the dart t between the corners of c, at its tail, and of k, at its end. Its darts get the label of
// the face that it is drawn into.
pub(crate) fn draw_path(g: &Graph, board: &mut Board, c: u32, t: u32, path: &[u32], k: u32)
    requires tables { AreTables g.now board.old.drawn.items board.old.on.items board.old.next.items }
    requires labels { AreLabels g.now board.old.label.items }
    requires dart { t < dart_count g.now }
    requires first { c < dart_count g.now }
    requires last { k < dart_count g.now }
    requires walk { IsWalk g.now (tail g.now t) path.now }
    ensures { (along : List ℕ) → path.now ≡ t / 2 ∷ along
        → IsPathDrawn g.now t along c k
        board.old.drawn.items board.old.on.items board.old.next.items board.old.label.items
        board.new.drawn.items board.new.on.items board.new.next.items board.new.label.items }
{
    g.keeps_limits();
    let face = board.label[twin(c) as usize];
    let x = tail(g, t);
    insert_path(g, &mut board.next, c, x, path, k);
    mark_edges(&mut board.drawn, path);
    mark_vertices(g, &mut board.on, x, path);
    paint(&mut board.label, path, face);
}
