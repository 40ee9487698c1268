// What is wanted of the nodes, from the top on.

ghost use Rattle.std.specs.Prelude.{◌≡◌, ◌<◌, ℕ, true, List, Some, length, IfOk};
ghost use Rattle.permutations.specs.Members.{is_distinct};
ghost use Rattle.multigraph.specs.Graph.{IsWithinLimits, Multigraph};
ghost use Rattle.pair_split.specs.Tutte.{components};
ghost use Rattle.skeletons.specs.Items.{IsBlockTree};
ghost use Rattle.skeleton_faces.specs.Faces.{IsSkeletonDart};
ghost use Rattle.spqr_tree.specs.Keys.{AreOrdered};
ghost use Rattle.face_weights.specs.Numbers.{KnowFaces};
ghost use Rattle.face_weights.specs.Weights.{weight_of};
ghost use Rattle.long_face.specs.Ready.{AreKnown, AreSomeKnown};
ghost use Rattle.long_face.specs.Settled.{AreSettled, IsBest, IsSettled, has_want, want_at, want_or};
ghost use Rattle.long_face.specs.Walk.{IsAskable, IsAsked};

use crate::links::{link_back, link_to};
use crate::rows::{Rows, fill, fill_for, no_rows};
use crate::wanting::{greatest_want, is_wanted, want_of};
use crate::wants::Want;
use face_weights::Weights;
use skel_decompose::FlatLists;
use spqr_tree::Tree;
use std::alloc::{AllocError, Global};

// The dart of node k that is asked for by what its parent p wants: that of the link to p opposite a wanted dart of p.
fn asked(tree: &Tree, faces: &FlatLists, p: u32, k: u32, above: Want) -> Option<u32>
    requires known { (g : Multigraph) × (family : List (List (List ℕ))) × IsBlockTree g tree.now
        × IsWithinLimits g × KnowFaces tree.now family faces.now }
    requires askable { IsAskable tree.now p k above }
    ensures { (g : Multigraph) (family : List (List (List ℕ))) → IsBlockTree g tree.now
        → KnowFaces tree.now family faces.now → IsAsked tree.now family p above k result }
{
    let here = link_to(tree.items(k), p);
    let there = link_back(tree, k, here, p);
    let kind = tree.kind(p);
    let numbers = faces.at(p as usize);
    if is_wanted(kind, numbers, above, 2 * there) {
        return Some(2 * here + 1);
    }
    if is_wanted(kind, numbers, above, 2 * there + 1) {
        return Some(2 * here);
    }
    None
}

// What is wanted of node k, where this is wanted of its parent p.
fn want_below(
    tree: &Tree,
    faces: &FlatLists,
    weights: &Weights,
    rows: &mut Rows,
    p: u32,
    k: u32,
    above: Want,
) -> Result<Option<Want>, AllocError>
    requires known { AreSomeKnown tree.now faces.now weights.now }
    requires askable { IsAskable tree.now p k above }
    ensures { IfOk result (λ want. (g : Multigraph) (family : List (List (List ℕ)))
        → AreKnown g tree.now family faces.now weights.now
        → IsSettled tree.now family (weight_of tree.now weights.now) p (Some above) k want) }
{
    match asked(tree, faces, p, k, above) {
        Some(dart) => {
            fill_for(rows, tree, faces, weights, k)?;
            Ok(Some(want_of(tree.kind(k), &rows.weights, &rows.sums, dart)))
        }
        None => Ok(None),
    }
}

// What is wanted of node k, by what is wanted of its parent p.
fn want_under(
    tree: &Tree,
    faces: &FlatLists,
    weights: &Weights,
    rows: &mut Rows,
    wants: &[Option<Want>],
    p: u32,
    k: u32,
) -> Result<Option<Want>, AllocError>
    requires known { AreSomeKnown tree.now faces.now weights.now }
    requires within { p < length wants.now }
    requires askable { has_want (want_at wants.now p) ≡ true
        → IsAskable tree.now p k (want_or (want_at wants.now p)) }
    ensures { IfOk result (λ want. (g : Multigraph) (family : List (List (List ℕ)))
        → AreKnown g tree.now family faces.now weights.now
        → IsSettled tree.now family (weight_of tree.now weights.now) p (want_at wants.now p) k want) }
{
    match wants[p as usize] {
        Some(above) => want_below(tree, faces, weights, rows, p, k, above),
        None => Ok(None),
    }
}

// What is wanted of the top: its heaviest face.
fn want_at_top(
    tree: &Tree,
    faces: &FlatLists,
    weights: &Weights,
    rows: &mut Rows,
    top: u32,
) -> Result<Want, AllocError>
    requires known { AreSomeKnown tree.now faces.now weights.now }
    requires top { top ≡ weights.now.top }
    ensures { IfOk result (λ want. (g : Multigraph) (family : List (List (List ℕ)))
        → AreKnown g tree.now family faces.now weights.now → IsSkeletonDart tree.now top want.dart
        × IsBest tree.now family (weight_of tree.now weights.now) top want weights.now.most) }
{
    fill(rows, tree, faces, weights, top)?;
    Ok(greatest_want(tree.kind(top), &rows.weights, &rows.sums))
}

// What is wanted of the nodes, in an order in which each is after its parent, and the top is first: of the top its heaviest face, of a
// node of which its parent wants a dart of the link the heaviest face of the opposite dart, and nothing of others. In time n log n for n items.
// Fails only if memory runs out.
pub(crate) fn wants_from(
    alloc: Global,
    tree: &Tree,
    faces: &FlatLists,
    weights: &Weights,
    top: u32,
    parents: &[u32],
    order: &[u32],
) -> Result<Vec<Option<Want>>, AllocError>
    requires known { AreSomeKnown tree.now faces.now weights.now }
    requires top { top ≡ weights.now.top }
    requires order { AreOrdered (components tree.now) top parents.now order.now }
    requires once { is_distinct order.now ≡ true }
    ensures number { IfOk result (λ wants. length wants.items ≡ length tree.now) }
    ensures settled { IfOk result (λ wants. (g : Multigraph) (family : List (List (List ℕ)))
        → AreKnown g tree.now family faces.now weights.now
        → AreSettled tree.now family (weight_of tree.now weights.now) top weights.now.most
        parents.now wants.items) }
{
    let mut wants = vec![in alloc; None; tree.node_count() as usize]?;
    let mut rows = no_rows(alloc);
    for k in order {
        let own = if *k == top {
            Some(want_at_top(tree, faces, weights, &mut rows, top)?)
        } else {
            want_under(
                tree,
                faces,
                weights,
                &mut rows,
                &wants,
                parents[*k as usize],
                *k,
            )?
        };
        wants[*k as usize] = own;
    }
    Ok(wants)
}
