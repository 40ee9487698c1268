// The least pair of parallel edges.

ghost use Rattle.std.specs.Prelude.{◌≡◌, ◌<◌, true, false, MatchOption};
ghost use Rattle.permutations.specs.Count.{least};
ghost use Rattle.multigraph.specs.Graph.{edge_count, is_end, IsGraph};
ghost use Rattle.grid_drawing.specs.Parallel as parallel;

use multigraph::Graph;

// The end of the edge that has fewer edges; the first one where both have equally many.
fn lesser_end(g: &Graph, e: u32) -> u32
    requires { e < edge_count g.now }
    ensures end { is_end g.now result e ≡ true }
    ensures within { result < g.now.vertex_count }
    ensures graph { IsGraph g.now }
{
    let (first, second) = g.ends(e);
    if g.degree(second) < g.degree(first) {
        second
    } else {
        first
    }
}

// The least later edge with the same ends as edge a, if there is one.
fn later_parallel(g: &Graph, a: u32) -> Option<u32>
    requires { a < edge_count g.now }
    ensures { MatchOption result (parallel.has_later g.now a ≡ false)
        (λ b. (parallel.has_later g.now a ≡ true) × (b ≡ least (edge_count g.now) (parallel.is_later g.now a))) }
{
    let near = lesser_end(g, a);
    let far = g.other_end(a, near);
    for b in g.incident(near) {
        if a < *b && g.other_end(*b, near) == far {
            return Some(*b);
        }
    }
    None
}

/// The least pair of edges with the same ends: the least edge that has a later one with the same ends, and the least such later
/// one. `None` exactly where no two edges have the same ends.
///
/// It takes no memory. The steps are at most the sum of the lesser degrees of the ends of each edge, which is in proportion to the
/// edges for a graph in the plane (Chiba and Nishizeki 1985).
pub fn first_parallel(g: &Graph) -> Option<(u32, u32)>
    ensures { MatchOption result (parallel.has_parallel g.now ≡ false)
        (λ pair. (parallel.has_parallel g.now ≡ true)
        × (pair.0 ≡ parallel.first_parallel g.now) × (pair.1 ≡ parallel.second_parallel g.now)) }
{
    for a in 0..g.edge_count() {
        if let Some(b) = later_parallel(g, a) {
            return Some((a, b));
        }
    }
    None
}
