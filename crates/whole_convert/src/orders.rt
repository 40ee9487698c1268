// The order of a rotation system of a part around a vertex, in the numbers of the graph.

ghost use Rattle.std.specs.Prelude.{◌≡◌, true, IfOk};
ghost use Rattle.permutations.specs.Members.{is_member};
ghost use Rattle.rotations.specs.Rotation.{IsRotationSystem};
ghost use Rattle.whole_embed.specs.Around.{outer_at};

use multigraph::Part;
use rotations::Rotation;
use std::alloc::{AllocError, Global};

// The edges around vertex v of the part, in the cyclic order of the rotation system, from the least edge on.
pub(crate) fn order_around(
    alloc: Global,
    part: &Part,
    r: &Rotation,
    v: u32,
) -> Result<Vec<u32>, AllocError>
    requires vertex { is_member v part.now.vertices ≡ true }
    requires system { IsRotationSystem part.now.graph r.now }
    ensures { IfOk result (λ order. order.items ≡ outer_at part.now r.now v) }
{
    part.keeps_numbers();
    let mut order = Vec::new(alloc);
    let mut round = r.list(part.inner_vertex(v).unwrap());
    while let Some(edge) = round.next() {
        order.push(part.edge(edge))?;
    }
    Ok(order)
}
