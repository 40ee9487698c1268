// Labels of the vertices, equal just where they stay connected when two vertices are removed.

ghost use Rattle.std.specs.Prelude.{◌≡◌, [], ◌∷◌, length, IfOk};
ghost use Rattle.graph_theory.specs.Labels.{label_at, IsLabelling, AreLabelsBelow};
ghost use Rattle.pair_split.specs.Edges.{family_skeleton};
ghost use Rattle.pair_split.specs.Bridges.{family_of, HaveEndsBelow, removed};

use crate::family::NamedEdge;
use graph_theory::labels::{merge, own_labels};
use std::alloc::{AllocError, Global};

// Whether the vertex is one of the two that are removed.
pub(crate) fn is_removed(a: u32, b: u32, vertex: u32) -> bool
    ensures { result ≡ removed a b vertex }
{
    vertex == a || vertex == b
}

// The labels of the n vertices, equal just where they stay connected when a and b are removed.
pub(crate) fn labels_without(
    alloc: Global,
    edges: &[NamedEdge],
    n: u32,
    a: u32,
    b: u32,
) -> Result<Vec<u32>, AllocError>
    requires { HaveEndsBelow n edges.now }
    ensures labelling { IfOk result (λ labels. IsLabelling (family_skeleton (family_of edges.now))
        (a ∷ b ∷ []) (label_at labels.items)) }
    ensures within { IfOk result (λ labels. AreLabelsBelow n labels.items) }
    ensures number { IfOk result (λ labels. length labels.items ≡ n) }
{
    let mut labels = own_labels(alloc, n)?;
    for edge in edges {
        merge(&mut labels, &[a, b], edge.first, edge.second);
    }
    Ok(labels)
}
