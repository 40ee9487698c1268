// Bridges: the entries with an end of one label, when two vertices are removed.

ghost use Rattle.std.specs.Prelude.{◌≡◌, ◌<◌, ℕ, false, length, IfOk};
ghost use Rattle.multigraph.specs.Marks.{is_marked};
ghost use Rattle.pair_split.specs.Bridges.{entry_of, family_of, HaveEndsBelow, HaveNamesBelow, reached, in_bridge, has_label, bridge_size, side_of};

use crate::family::NamedEdge;
use crate::labels::is_removed;
use std::alloc::{AllocError, Global};

// Whether the vertex has this label and is not removed.
fn is_reached(labels: &[u32], a: u32, b: u32, label: u32, vertex: u32) -> bool
    requires { vertex < length labels.now }
    ensures { result ≡ reached a b (has_label labels.now label) vertex }
{
    !is_removed(a, b, vertex) && labels[vertex as usize] == label
}

// Whether the entry is in the bridge of the label.
fn is_in_bridge(labels: &[u32], a: u32, b: u32, label: u32, edge: NamedEdge) -> bool
    requires first_in { edge.first < length labels.now }
    requires second_in { edge.second < length labels.now }
    ensures { result ≡ in_bridge a b (has_label labels.now label) (entry_of edge) }
{
    is_reached(labels, a, b, label, edge.first) || is_reached(labels, a, b, label, edge.second)
}

// How many entries are in the bridge of the label.
pub(crate) fn size_of_bridge(
    edges: &[NamedEdge],
    labels: &[u32],
    a: u32,
    b: u32,
    label: u32,
) -> usize
    requires { HaveEndsBelow (length labels.now) edges.now }
    ensures { result ≡ bridge_size (family_of edges.now) a b labels.now label }
{
    let mut size = 0usize;
    for edge in edges {
        if is_in_bridge(labels, a, b, label, *edge) {
            size += 1;
        }
    }
    size
}

// Marks the name of each entry in the bridge of the label.
fn mark_along(edges: &[NamedEdge], labels: &[u32], a: u32, b: u32, label: u32, marks: &mut [bool])
    requires ends { HaveEndsBelow (length labels.now) edges.now }
    requires names { HaveNamesBelow (length marks.old) edges.now }
    requires unmarked { (n : ℕ) → is_marked marks.old n ≡ false }
    ensures { (n : ℕ) → is_marked marks.new n
        ≡ side_of (family_of edges.now) (in_bridge a b (has_label labels.now label)) n }
{
    for edge in edges {
        if is_in_bridge(labels, a, b, label, *edge) {
            marks[edge.name as usize] = true;
        }
    }
}

// A mark at the name of each entry in the bridge of the label. Names are below `bound`.
pub(crate) fn mark_bridge(
    alloc: Global,
    edges: &[NamedEdge],
    labels: &[u32],
    a: u32,
    b: u32,
    label: u32,
    bound: usize,
) -> Result<Vec<bool>, AllocError>
    requires ends { HaveEndsBelow (length labels.now) edges.now }
    requires names { HaveNamesBelow bound edges.now }
    ensures marks { IfOk result (λ marks. (n : ℕ) → is_marked marks.items n
        ≡ side_of (family_of edges.now) (in_bridge a b (has_label labels.now label)) n) }
    ensures number { IfOk result (λ marks. length marks.items ≡ bound) }
{
    let mut marks = vec![in alloc; false; bound]?;
    mark_along(edges, labels, a, b, label, &mut marks);
    Ok(marks)
}
