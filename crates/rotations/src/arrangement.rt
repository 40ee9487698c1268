// The check of given lists: at each vertex a permutation of the edges there, and no other number named.
//
// For each edge a number says at which vertex it was last found: v + 1 while the list of v is read. So a list is read once, and
// nothing is cleared between two lists.

ghost use Rattle.std.specs.Prelude.{◌≡◌, ◌+◌, ◌≤◌, ◌<◌, ◌↔◌, length, replicate, IfOk, MatchResult, MatchBool, IsTrue};
ghost use Rattle.std.specs.List.{All};
ghost use Rattle.std.specs.List.Sorted.{IsPermutation};
ghost use Rattle.multigraph.specs.Graph.{max_vertices, edge_count, incident_edges};
ghost use Rattle.rotations.specs.Given.{AreArranged, IsNoted, IsRefusal, IsRejected};

use crate::entries::Lists;
use crate::faults::RotFault;
use multigraph::Graph;
use std::alloc::{AllocError, Global};

// Searches for the least number at which the lists are not a rotation system.
pub(crate) fn check_lists(alloc: Global, g: &Graph, lists: &Lists) -> Result<(), RotFault>
    ensures { MatchResult result (λ _. AreArranged g.now lists.now)
        (λ fault. IsRefusal g.now lists.now fault) }
{
    let mut seen = zeros(alloc, g.edge_count() as usize)?;
    let mut at = 0;
    for v in 0..g.vertex_count() {
        let (list, after) = lists.given(at, v);
        if !is_arrangement(g, v, list, &mut seen) {
            return Err(RotFault::BadRotation(v));
        }
        at = after;
    }
    if at < lists.len() {
        return Err(RotFault::BadRotation(lists.vertex(at)));
    }
    Ok(())
}

// Whether the list is a permutation of the edges at v.
fn is_arrangement(g: &Graph, v: u32, list: &[u32], seen: &mut [u32]) -> bool
    requires vertex { v < g.now.vertex_count }
    requires long { length seen.old ≡ edge_count g.now }
    requires earlier { All (λ s. s ≤ v) seen.old }
    ensures answer { IsTrue result ↔ IsPermutation (incident_edges g.now v) list.now }
    ensures met { All (λ s. s ≤ v + 1) seen.new }
{
    if list.len() != g.incident(v).len() {
        return false;
    }
    for e in list {
        if !is_new(g, v, *e, seen) {
            return false;
        }
    }
    true
}

// Whether e is an edge at v that was not yet found in this list; it is noted then.
fn is_new(g: &Graph, v: u32, e: u32, seen: &mut [u32]) -> bool
    requires vertex { v < max_vertices }
    requires long { length seen.old ≡ edge_count g.now }
    ensures { MatchBool result (IsNoted g.now v e seen.old seen.new)
        (IsRejected g.now v e seen.old seen.new) }
{
    if !g.is_edge_at(e, v) {
        return false;
    }
    if seen[e as usize] == v + 1 {
        return false;
    }
    seen[e as usize] = v + 1;
    true
}

// n zeros.
fn zeros(alloc: Global, n: usize) -> Result<Vec<u32>, AllocError>
    ensures { IfOk result (λ v. v.items ≡ replicate n 0) }
{
    vec![in alloc; 0u32; n]
}
