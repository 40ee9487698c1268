// Whether a graph stays connected when three vertices are removed, by labels of the vertices.

ghost use Rattle.std.specs.Prelude.{◌≡◌, ◌<◌, ◌≤◌, ◌↔◌, ℕ, [], ◌∷◌, true, false, length, IfOk};
ghost use Rattle.permutations.specs.Members.{is_member};
ghost use Rattle.graph_theory.specs.Triconnected.{IsConnectedWithout};
ghost use Rattle.graph_theory.specs.Labels.{label_at, IsLabelling};
ghost use Rattle.contractions.specs.Labels.{AreAlike};

use graph_theory::labels::{merge, own_labels};
use multigraph::Graph;
use std::alloc::{AllocError, Global};

// Whether the vertex is one of the three that are removed.
fn is_removed(x: u32, y: u32, z: u32, vertex: u32) -> bool
    ensures { result ≡ is_member vertex (x ∷ y ∷ z ∷ []) }
{
    x == vertex || y == vertex || z == vertex
}

// Labels of the vertices, equal just where they stay connected when the three are removed.
fn labels_without(alloc: Global, g: &Graph, x: u32, y: u32, z: u32) -> Result<Vec<u32>, AllocError>
    ensures labelling { IfOk result (λ labels. IsLabelling g.now.ends (x ∷ y ∷ z ∷ [])
        (label_at labels.items)) }
    ensures number { IfOk result (λ labels. length labels.items ≡ g.now.vertex_count) }
{
    let mut labels = own_labels(alloc, g.vertex_count())?;
    for edge in 0..g.edge_count() {
        let (first, second) = g.ends(edge);
        merge(&mut labels, &[x, y, z], first, second);
    }
    Ok(labels)
}

// The first number below n that is not removed, or n if all are.
fn first_left(n: u32, x: u32, y: u32, z: u32) -> u32
    ensures within { result ≤ n }
    ensures before { (v : ℕ) → v < result → is_member v (x ∷ y ∷ z ∷ []) ≡ true }
    ensures left { result < n → is_member result (x ∷ y ∷ z ∷ []) ≡ false }
{
    for vertex in 0..n {
        if !is_removed(x, y, z, vertex) {
            return vertex;
        }
    }
    n
}

// Whether all vertices that are not removed have one label.
fn are_alike(labels: &[u32], n: u32, x: u32, y: u32, z: u32) -> bool
    requires { length labels.now ≡ n }
    ensures alike { result ≡ true → AreAlike (x ∷ y ∷ z ∷ []) labels.now }
    ensures exact { AreAlike (x ∷ y ∷ z ∷ []) labels.now → result ≡ true }
{
    let first = first_left(n, x, y, z);
    for vertex in first..n {
        if !is_removed(x, y, z, vertex) && labels[vertex as usize] != labels[first as usize] {
            return false;
        }
    }
    true
}

// Whether the other vertices stay connected when these three are removed.
pub(crate) fn is_connected_without(
    alloc: Global,
    g: &Graph,
    x: u32,
    y: u32,
    z: u32,
) -> Result<bool, AllocError>
    ensures { IfOk result (λ held. (held ≡ true) ↔ IsConnectedWithout g.now (x ∷ y ∷ z ∷ [])) }
{
    let labels = labels_without(alloc, g, x, y, z)?;
    Ok(are_alike(&labels, g.vertex_count(), x, y, z))
}
