// Whether a graph is triconnected: each two vertices or fewer are removed.

ghost use Rattle.std.specs.Prelude.{◌≡◌, ◌<◌, ◌+◌, ◌↔◌, ℕ, [], ◌∷◌, true, false, IfOk};
ghost use Rattle.multigraph.specs.Graph.{edge_count};
ghost use Rattle.graph_theory.specs.Triconnected.{AreParallel, IsSimple, IsConnectedWithout, IsTriconnected};

use crate::labels::is_connected_without;
use multigraph::Graph;
use std::alloc::{AllocError, Global};

// Whether the two edges have the same ends.
fn are_parallel(g: &Graph, e: u32, f: u32) -> bool
    requires first { e < edge_count g.now }
    requires second { f < edge_count g.now }
    ensures same { AreParallel g.now e f → result ≡ true }
    ensures only { result ≡ true → AreParallel g.now e f }
{
    let (a, b) = g.ends(e);
    let (c, d) = g.ends(f);
    a == c && b == d || a == d && b == c
}

// Whether no edge before it has the same ends.
fn is_first(g: &Graph, e: u32) -> bool
    requires { e < edge_count g.now }
    ensures first { result ≡ true → (f : ℕ) → f < e → AreParallel g.now e f → ⊥ }
    ensures exact { IsSimple g.now → result ≡ true }
{
    for f in 0..e {
        if are_parallel(g, e, f) {
            return false;
        }
    }
    true
}

// Whether no two edges have the same ends.
fn is_simple(g: &Graph) -> bool
    ensures simple { result ≡ true → IsSimple g.now }
    ensures exact { IsSimple g.now → result ≡ true }
{
    for e in 0..g.edge_count() {
        if !is_first(g, e) {
            return false;
        }
    }
    true
}

// Whether the graph stays connected without vertex a and any other one.
fn stays_connected(alloc: Global, g: &Graph, a: u32) -> Result<bool, AllocError>
    ensures stays { IfOk result (λ held. held ≡ true → (b : ℕ) → b < g.now.vertex_count + 1
        → IsConnectedWithout g.now (a ∷ b ∷ b ∷ [])) }
    ensures exact { IfOk result (λ held. ((b : ℕ) → IsConnectedWithout g.now (a ∷ b ∷ b ∷ []))
        → held ≡ true) }
{
    for b in 0..g.vertex_count() + 1 {
        if !is_connected_without(alloc, g, a, b, b)? {
            return Ok(false);
        }
    }
    Ok(true)
}

/// Whether the graph is triconnected, by trying to remove each two vertices: takes time as the cube of the graph's size. It is for
/// callers of an embedder whose graph is not known to be triconnected; the program has no call of it. Fails only if memory runs
/// out.
pub fn is_triconnected(alloc: Global, g: &Graph) -> Result<bool, AllocError>
    ensures { IfOk result (λ held. (held ≡ true) ↔ IsTriconnected g.now) }
{
    if g.vertex_count() < 4 || !is_simple(g) {
        return Ok(false);
    }
    for a in 0..g.vertex_count() + 1 {
        if !stays_connected(alloc, g, a)? {
            return Ok(false);
        }
    }
    Ok(true)
}
