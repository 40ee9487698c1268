// The edges of a triconnected graph that may be contracted, each tried with every third vertex.

ghost use Rattle.std.specs.Prelude.{◌≡◌, ◌≢◌, ◌↔◌, [], ◌∷◌, true, IfOk};
ghost use Rattle.graph_theory.specs.Triconnected.{IsConnectedWithout, IsTriconnected};
ghost use Rattle.contractions.specs.Contraction.{IsContractible};
ghost use Rattle.contractions.specs.Level.{IsFirstContractible};

use crate::labels::is_connected_without;
use multigraph::Graph;
use std::alloc::{AllocError, Global};

// Whether z is x or y, or the other vertices stay connected without the three.
fn is_passed(alloc: Global, g: &Graph, x: u32, y: u32, z: u32) -> Result<bool, AllocError>
    ensures { IfOk result (λ held. (held ≡ true) ↔ (z ≢ x → z ≢ y
        → IsConnectedWithout g.now (x ∷ y ∷ z ∷ []))) }
{
    if z == x || z == y {
        return Ok(true);
    }
    is_connected_without(alloc, g, x, y, z)
}

// Whether the edge between x and y may be contracted.
fn is_contractible(alloc: Global, g: &Graph, x: u32, y: u32) -> Result<bool, AllocError>
    requires { IsTriconnected g.now }
    ensures { IfOk result (λ held. (held ≡ true) ↔ IsContractible g.now x y) }
{
    for z in 0..g.vertex_count() {
        if !is_passed(alloc, g, x, y, z)? {
            return Ok(false);
        }
    }
    Ok(true)
}

// The first edge that may be contracted.
pub(crate) fn contractible_edge(alloc: Global, g: &Graph) -> Result<u32, AllocError>
    requires { IsTriconnected g.now }
    ensures first { IfOk result (IsFirstContractible g.now) }
{
    for edge in 0..g.edge_count() {
        let (first, second) = g.ends(edge);
        if is_contractible(alloc, g, first, second)? {
            return Ok(edge);
        }
    }
    unreachable!()
}
