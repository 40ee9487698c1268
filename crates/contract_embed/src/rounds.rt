// From the steps of a rotation system to the system itself.

ghost use Rattle.std.specs.Prelude.{ℕ, List, IfOk};
ghost use Rattle.faces.specs.Euler.{IsPlaneSystem};
ghost use Rattle.contract_obstruct.specs.Steps.{AreSteps, ArePlaneSteps};
ghost use Rattle.contract_embed.specs.Entries.{AreOrdersBelow};

use contract_obstruct::round;
use multigraph::Graph;
use rotations::{Lists, Rotation};
use std::alloc::{AllocError, Global};

// The cyclic orders of all vertices.
fn rounds(alloc: Global, g: &Graph, next: &[u32]) -> Result<Lists, AllocError>
    requires { ArePlaneSteps g.now next.now }
    ensures { IfOk result (λ lists. (s : List (List ℕ)) → AreSteps g.now s next.now
        → AreOrdersBelow s g.now.vertex_count lists) }
{
    let mut lists = Lists::new(alloc);
    for v in 0..g.vertex_count() {
        let edges = round(alloc, g, next, v)?;
        lists.push(v, &edges)?;
    }
    Ok(lists)
}

// The rotation system with these steps.
pub(crate) fn rotation(alloc: Global, g: &Graph, next: &[u32]) -> Result<Rotation, AllocError>
    requires { ArePlaneSteps g.now next.now }
    ensures { IfOk result (IsPlaneSystem g.now) }
{
    let lists = rounds(alloc, g, next)?;
    let r = Rotation::of_arranged(alloc, g, &lists)?;
    Ok(r)
}
