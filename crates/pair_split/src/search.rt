// The search for a 2-separation of a family, and for a side of one with the fewest entries.
//
// Two parallel entries are such a side. In a family without parallel entries each side of a 2-separation between two vertices
// contains a bridge of these, and that bridge is a side as well: so the smallest bridge will do.

ghost use Rattle.std.specs.Prelude.{◌≡◌, ◌+◌, ◌<◌, ◌≤◌, ◌^◌, ◌||◌, ◌==◌, ◌↔◌, ℕ, [], ◌∷◌, true, length, None, IfOk, IfSome};
ghost use Rattle.graph_theory.specs.Labels.{IsLabelling, label_at};
ghost use Rattle.pair_split.specs.Edges.{entry_ends, family_skeleton};
ghost use Rattle.pair_split.specs.Skeleton.{SameEnds};
ghost use Rattle.multigraph.specs.Marks.{is_marked};
ghost use Rattle.pair_split.specs.Bridges.{entry_of, family_of, AreParallelAt};
ghost use Rattle.pair_split.specs.Search.{AreSearchable, HasNoParallels, IsAtMostBridge, IsBest, IsLeastAt, IsLeastBefore, IsSearched};

use crate::bridges::{mark_bridge, size_of_bridge};
use crate::family::NamedEdge;
use crate::labels::labels_without;
use std::alloc::{AllocError, Global};

/// A side of a 2-separation: the two vertices that it has in common with the other side, how many entries it has, and a mark
/// at the name of each.
#[derive(Drop)]
pub(crate) struct Side {
    pub first: u32,
    pub second: u32,
    pub size: usize,
    pub marks: Vec<bool>,
}

// The bridge of the label as a side, if it is one with fewer entries than the best side so far.
fn better_side(
    alloc: Global,
    edges: &[NamedEdge],
    labels: &[u32],
    a: u32,
    b: u32,
    label: u32,
    bound: usize,
    best: Side,
) -> Result<Side, AllocError>
    requires edges { AreSearchable edges.now (length labels.now) bound }
    requires labelling { IsLabelling (family_skeleton (family_of edges.now)) (a ∷ b ∷ [])
        (label_at labels.now) }
    requires best { IsBest (family_of edges.now) best }
    ensures best { IfOk result (IsBest (family_of edges.now)) }
    ensures no_larger { IfOk result (λ side. side.size ≤ best.size) }
    ensures bridge { IfOk result
        (λ side. IsAtMostBridge edges.now a b labels.now label side.size) }
{
    let size = size_of_bridge(edges, labels, a, b, label);
    if size < 2 || best.size <= size || edges.len() - size < 2 {
        return Ok(best);
    }
    let marks = mark_bridge(alloc, edges, labels, a, b, label, bound)?;
    Ok(Side {
        first: a,
        second: b,
        size,
        marks,
    })
}

// The best side so far, or the smallest bridge that is a smaller one.
fn best_of_bridges(
    alloc: Global,
    edges: &[NamedEdge],
    labels: &[u32],
    a: u32,
    b: u32,
    bound: usize,
    best: Side,
) -> Result<Side, AllocError>
    requires edges { AreSearchable edges.now (length labels.now) bound }
    requires labelling { IsLabelling (family_skeleton (family_of edges.now)) (a ∷ b ∷ [])
        (label_at labels.now) }
    requires few { length labels.now < 2 ^ 32 }
    requires best { IsBest (family_of edges.now) best }
    ensures best { IfOk result (IsBest (family_of edges.now)) }
    ensures no_larger { IfOk result (λ side. side.size ≤ best.size) }
    ensures bridges { IfOk result (λ side. (label : ℕ) → label < length labels.now
        → label_at labels.now label ≡ label
        → IsAtMostBridge edges.now a b labels.now label side.size) }
{
    let mut best = best;
    for label in 0..labels.len() as u32 {
        if labels[label as usize] == label {
            best = better_side(alloc, edges, labels, a, b, label, bound, best)?;
        }
    }
    Ok(best)
}

// The best side so far, or a smaller one of a 2-separation between a and b.
fn best_between(
    alloc: Global,
    edges: &[NamedEdge],
    n: u32,
    a: u32,
    b: u32,
    bound: usize,
    best: Side,
) -> Result<Side, AllocError>
    requires edges { AreSearchable edges.now n bound }
    requires simple { HasNoParallels (family_of edges.now) }
    requires best { IsBest (family_of edges.now) best }
    ensures best { IfOk result (IsBest (family_of edges.now)) }
    ensures no_larger { IfOk result (λ side. side.size ≤ best.size) }
    ensures least { IfOk result (λ side. IsLeastAt (family_of edges.now) a b side.size) }
{
    if best.size <= 2 {
        return Ok(best);
    }
    let labels = labels_without(alloc, edges, n, a, b)?;
    best_of_bridges(alloc, edges, &labels, a, b, bound, best)
}

// The best side so far, or a smaller one of a 2-separation between a and a lesser vertex.
fn best_at(
    alloc: Global,
    edges: &[NamedEdge],
    n: u32,
    a: u32,
    bound: usize,
    best: Side,
) -> Result<Side, AllocError>
    requires edges { AreSearchable edges.now n bound }
    requires simple { HasNoParallels (family_of edges.now) }
    requires best { IsBest (family_of edges.now) best }
    requires least { IsLeastBefore (family_of edges.now) a 0 best.size }
    ensures best { IfOk result (IsBest (family_of edges.now)) }
    ensures least { IfOk result (λ side. IsLeastBefore (family_of edges.now) (a + 1) 0 side.size) }
{
    let mut best = best;
    for b in 0..a {
        best = best_between(alloc, edges, n, a, b, bound, best)?;
    }
    Ok(best)
}

// A side of a 2-separation with the fewest entries. If none exists, its size is that of the whole family.
fn best_side(alloc: Global, edges: &[NamedEdge], n: u32, bound: usize) -> Result<Side, AllocError>
    requires edges { AreSearchable edges.now n bound }
    requires simple { HasNoParallels (family_of edges.now) }
    ensures best { IfOk result (IsBest (family_of edges.now)) }
    ensures least { IfOk result (λ side. IsLeastBefore (family_of edges.now) n 0 side.size) }
{
    let mut best = Side {
        first: 0,
        second: 0,
        size: edges.len(),
        marks: Vec::new(alloc),
    };
    for a in 0..n {
        best = best_at(alloc, edges, n, a, bound, best)?;
    }
    Ok(best)
}

// Whether the two entries have the same two ends.
pub(crate) fn are_parallel(e: NamedEdge, f: NamedEdge) -> bool
    ensures { (result ≡ true) ↔ SameEnds (entry_ends (entry_of e)) (entry_ends (entry_of f)) }
{
    (e.first == f.first && e.second == f.second) || (e.first == f.second && e.second == f.first)
}

// The place of the first entry after i that is parallel to it.
fn parallel_behind(edges: &[NamedEdge], i: usize) -> Option<usize>
    requires { i < length edges.now }
    ensures found { IfSome result (λ j. (i < j) × (j < length edges.now)
        × AreParallelAt edges.now i j) }
    ensures none { result ≡ None → (j : ℕ) → i < j → j < length edges.now
        → AreParallelAt edges.now i j → ⊥ }
{
    for j in i + 1..edges.len() {
        if are_parallel(edges[i], edges[j]) {
            return Some(j);
        }
    }
    None
}

// The places of two parallel entries.
fn parallel_places(edges: &[NamedEdge]) -> Option<(usize, usize)>
    ensures found { IfSome result (λ p. (p.0 < p.1) × (p.1 < length edges.now)
        × AreParallelAt edges.now p.0 p.1) }
    ensures none { result ≡ None → (i j : ℕ) → i < j → j < length edges.now
        → AreParallelAt edges.now i j → ⊥ }
{
    for i in 0..edges.len() {
        if let Some(j) = parallel_behind(edges, i) {
            return Some((i, j));
        }
    }
    None
}

// Two parallel entries, as a side.
fn parallel_side(
    alloc: Global,
    e: NamedEdge,
    f: NamedEdge,
    bound: usize,
) -> Result<Side, AllocError>
    requires first_in { e.name < bound }
    requires second_in { f.name < bound }
    ensures ends { IfOk result (λ side. (side.first ≡ e.first) × (side.second ≡ e.second)) }
    ensures marks { IfOk result (λ side. (n : ℕ) → is_marked side.marks.items n
        ≡ ((n == e.name) || (n == f.name))) }
    ensures number { IfOk result (λ side. length side.marks.items ≡ bound) }
{
    let mut marks = vec![in alloc; false; bound]?;
    marks[e.name as usize] = true;
    marks[f.name as usize] = true;
    Ok(Side {
        first: e.first,
        second: e.second,
        size: 2,
        marks,
    })
}

// A side of a 2-separation that no other one is inside of, if there is a 2-separation.
pub(crate) fn minimal_side(
    alloc: Global,
    edges: &[NamedEdge],
    n: u32,
    bound: usize,
) -> Result<Option<Side>, AllocError>
    requires edges { AreSearchable edges.now n bound }
    ensures { IfOk result (IsSearched edges.now) }
{
    if let Some((i, j)) = parallel_places(edges) {
        return Ok(Some(parallel_side(alloc, edges[i], edges[j], bound)?));
    }
    let best = best_side(alloc, edges, n, bound)?;
    if best.size < edges.len() {
        return Ok(Some(best));
    }
    Ok(None)
}
