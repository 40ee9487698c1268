// The way from an attachment back to the first dart of a bridge, checked edge by edge.

ghost use Rattle.std.specs.Prelude.{◌≡◌, ◌≢◌, ◌<◌, true, length, IfOk, IfSome};
ghost use Rattle.multigraph.specs.Marks.{is_marked};
ghost use Rattle.multigraph.specs.Darts.{dart_count, tail};
ghost use Rattle.path_rotation.specs.Search.{LeadsNearer, IsWayFound};

use multigraph::{Graph, head};
use std::alloc::AllocError;

// The edge noted for a vertex and its other end, if this is off the drawn part and nearer.
fn step_back(g: &Graph, on: &[bool], notes: &[u32], depth: &[u32], at: u32) -> Option<(u32, u32)>
    requires vertex { at < g.now.vertex_count }
    requires on_each { length on.now ≡ g.now.vertex_count }
    requires notes_each { length notes.now ≡ g.now.vertex_count }
    requires depth_each { length depth.now ≡ g.now.vertex_count }
    ensures { IfSome result (λ s. LeadsNearer g.now on.now depth.now at s.0 s.1) }
{
    let edge = notes[at as usize];
    let next = g.far_end(edge, at)?;
    if on[next as usize] || depth[next as usize] >= depth[at as usize] {
        return None;
    }
    Some((edge, next))
}

// The path that begins with the undrawn dart t and leads off the drawn part to z, along the edges that were noted: whether each of
// them leads off the drawn part and a step nearer to t.
pub(crate) fn way_back(
    g: &Graph,
    on: &[bool],
    notes: &[u32],
    depth: &[u32],
    t: u32,
    z: u32,
    path: &mut Vec<u32>,
) -> Result<bool, AllocError>
    requires on_each { length on.now ≡ g.now.vertex_count }
    requires notes_each { length notes.now ≡ g.now.vertex_count }
    requires depth_each { length depth.now ≡ g.now.vertex_count }
    requires dart { t < dart_count g.now }
    requires tail_on { is_marked on.now (tail g.now t) ≡ true }
    requires vertex { z < g.now.vertex_count }
    requires on { is_marked on.now z ≡ true }
    requires apart { z ≢ tail g.now t }
    ensures { IfOk result (λ found. found ≡ true → IsWayFound g.now on.now t path.new.items z) }
{
    path.clear();
    let first = head(g, t);
    let mut at = z;
    for _ in 0..g.vertex_count() {
        if at == first {
            path.push(t / 2)?;
            path.reverse();
            return Ok(true);
        }
        let Some((edge, next)) = step_back(g, on, notes, depth, at) else {
            return Ok(false);
        };
        path.push(edge)?;
        at = next;
    }
    Ok(false)
}
