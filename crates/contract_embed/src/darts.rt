// Darts that lead to given vertices.

ghost use Rattle.std.specs.Prelude.{◌≡◌, ◌<◌, length};
ghost use Rattle.contractions.specs.Contraction.{are_adjacent};
ghost use Rattle.dart_maps.specs.Map.{twin};
ghost use Rattle.faces.specs.Euler.{tail, dart_count};
ghost use Rattle.contractions.specs.Marks.{AreNeighbourMarks};
ghost use Rattle.contract_embed.specs.Steps.{leads, first_dart};

use faces::{dart_count, head, tail};
use multigraph::Graph;

// Whether the dart arrives at a neighbour of v.
pub(crate) fn arrives_at_mark(g: &Graph, marks: &[bool], v: u32, dart: u32) -> bool
    requires number { length marks.now ≡ g.now.vertex_count }
    requires marks { AreNeighbourMarks g.now v marks.now }
    requires dart { dart < dart_count g.now }
    ensures { result ≡ are_adjacent g.now v (tail g.now (twin dart)) }
{
    marks[head(g, dart) as usize]
}

// Whether the dart leads from u to v.
fn leads(g: &Graph, dart: u32, u: u32, v: u32) -> bool
    requires { dart < dart_count g.now }
    ensures { result ≡ leads g.now u v dart }
{
    tail(g, dart) == u && head(g, dart) == v
}

// The first dart that leads from u to v, or the number of darts if none does.
pub(crate) fn first_dart(g: &Graph, u: u32, v: u32) -> u32
    ensures { result ≡ first_dart g.now u v }
{
    for dart in 0..dart_count(g) {
        if leads(g, dart, u, v) {
            return dart;
        }
    }
    dart_count(g)
}
