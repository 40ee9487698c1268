// The labels of the faces, and tests of the map.

ghost use Rattle.std.specs.Prelude.{◌≡◌, ◌<◌, ℕ, true, false, if◌then◌else◌, length, slice_index};
ghost use Rattle.multigraph.specs.Graph.{edge_count};
ghost use Rattle.multigraph.specs.Darts.{dart_count};
ghost use Rattle.dart_maps.specs.Map.{same_face};
ghost use Rattle.path_rotation.specs.Forced.{AreClosed, AreExact, IsInvolution, IsMapOfDarts};
ghost use Rattle.path_rotation.specs.Fitting.{AreLabels};

use multigraph::{Graph, dart_count, twin};

// No label.
const NONE: u32 = u32::MAX;

// Gives the darts of the face of `start` its number as label.
pub(crate) fn label_face(g: &Graph, next: &[u32], label: &mut [u32], start: u32)
    requires map { IsMapOfDarts (edge_count g.now) next.now }
    requires darts { length next.now ≡ dart_count g.now }
    requires labels { length label.old ≡ dart_count g.now }
    requires start { start < dart_count g.now }
    ensures size { length label.new ≡ length label.old }
    ensures labelled { (d : ℕ) → slice_index label.new d
        ≡ (if same_face (edge_count g.now) (slice_index next.now) start d then start else slice_index label.old d) }
{
    let mut at = start;
    for _ in 0..dart_count(g) {
        label[at as usize] = start;
        at = next[twin(at) as usize];
        if at == start {
            return;
        }
    }
}

// Gives each dart the least dart of its face as label.
pub(crate) fn label_faces(g: &Graph, next: &[u32], label: &mut [u32])
    requires map { IsMapOfDarts (edge_count g.now) next.now }
    requires darts { length next.now ≡ dart_count g.now }
    requires labels { length label.old ≡ dart_count g.now }
    ensures closed { AreClosed (edge_count g.now) next.now label.new }
    ensures exact { AreExact (edge_count g.now) next.now label.new }
    ensures labels { AreLabels g.now label.new }
{
    g.keeps_limits();
    label.fill(NONE);
    for d in 0..dart_count(g) {
        if label[d as usize] == NONE {
            label_face(g, next, label, d);
        }
    }
}

// One of a dart and its twin: that in the shorter face. Both faces are walked along at once.
pub(crate) fn in_shorter_face(g: &Graph, next: &[u32], t: u32) -> u32
    requires map { IsMapOfDarts (edge_count g.now) next.now }
    requires darts { length next.now ≡ dart_count g.now }
    requires dart { t < dart_count g.now }
    ensures { result < dart_count g.now }
{
    let other = twin(t);
    let mut here = t;
    let mut there = other;
    for _ in 0..dart_count(g) {
        here = next[twin(here) as usize];
        if here == t {
            return t;
        }
        there = next[twin(there) as usize];
        if there == other {
            return other;
        }
    }
    t
}

// Whether one of two darts is met on the walk along the face of the other one. Both walks are taken at once.
pub(crate) fn is_on_face(g: &Graph, next: &[u32], from: u32, to: u32) -> bool
    requires darts { length next.now ≡ dart_count g.now }
    requires within { (d : ℕ) → d < dart_count g.now → slice_index next.now d < dart_count g.now }
    requires from { from < dart_count g.now }
    requires to { to < dart_count g.now }
    ensures { result ≡ true → same_face (edge_count g.now) (slice_index next.now) from to ≡ true }
{
    let mut here = from;
    let mut there = to;
    for _ in 0..dart_count(g) {
        if here == to {
            return true;
        }
        if there == from {
            return true;
        }
        here = next[twin(here) as usize];
        there = next[twin(there) as usize];
    }
    false
}

// Whether going twice to the next dart leads back.
pub(crate) fn is_involution(g: &Graph, next: &[u32]) -> bool
    requires darts { length next.now ≡ dart_count g.now }
    requires within { (d : ℕ) → d < dart_count g.now → slice_index next.now d < dart_count g.now }
    ensures turns { result ≡ true → IsInvolution (edge_count g.now) next.now }
    ensures moves { result ≡ false → IsInvolution (edge_count g.now) next.now → ⊥ }
{
    for d in 0..dart_count(g) {
        let after = next[d as usize];
        if next[after as usize] != d {
            return false;
        }
    }
    true
}
