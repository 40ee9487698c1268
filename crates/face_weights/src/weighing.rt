// The weights of the items of a tree, by two passes over its nodes.

ghost use Rattle.std.specs.Prelude.{◌≡◌, ◌<◌, ◌≤◌, ◌*◌, ◌+◌, ℕ, List, [], length, IfOk};
ghost use Rattle.multigraph.specs.Graph.{Multigraph, IsWithinLimits, max_edges};
ghost use Rattle.permutations.specs.Count.{sum_below};
ghost use Rattle.pair_split.specs.Tutte.{node_at, node_item};
ghost use Rattle.pair_split.specs.declared.components.What.TheVariants.{Link};
ghost use Rattle.skeletons.specs.Items.{nth_item, IsBlockTree};
ghost use Rattle.face_weights.specs.Numbers.{KnowFaces};
ghost use Rattle.face_weights.specs.Weights.{weight_by};
ghost use Rattle.face_weights.specs.Reached.{AreWeights};
ghost use Rattle.face_weights.specs.Rests.{IsRest};
ghost use Rattle.face_weights.specs.Sums.{weight_in};
ghost use Rattle.skel_decompose.specs.Orders.{IsOrderOf};
ghost use Rattle.face_weights.specs.Passes.{LinkOnce, AreBelow, AreDone, AreLight, AreHandedDown};

use crate::rests::{rest_at, rests_of};
use crate::table::Weights;
use pair_split::{Item, What};
use skel_decompose::{FlatLists, Order};
use spqr_tree::Tree;
use std::alloc::{AllocError, Global};

// Puts the weights of the items of a node with this parent into `weights`.
pub(crate) fn weights_of(
    items: &[Item],
    parent: u32,
    below: &[u32],
    above: u32,
    weights: &mut Vec<u32>,
) -> Result<(), AllocError>
    requires within { (i j : ℕ) → i < length items.now
        → (nth_item items.now i).what ≡ Link j → j < length below.now }
    ensures number { IfOk result (λ _. length weights.new.items ≡ length items.now) }
    ensures each { IfOk result (λ _. (i : ℕ) → i < length items.now
        → weight_in weights.new.items i
        ≡ weight_by parent (weight_in below.now) above (nth_item items.now i).what) }
{
    weights.clear();
    for item in items {
        weights.push(match item.what {
            What::Real(_) => 1,
            What::Link(j) => {
                if j == parent {
                    above
                } else {
                    below[j as usize]
                }
            }
        })?;
    }
    Ok(())
}

// What node k adds to its link to the parent, of these weights; none at the root.
fn rest_at_parent(tree: &Tree, faces: &FlatLists, k: u32, parent: u32, weights: &[u32]) -> u32
    requires block { (g : Multigraph) × IsBlockTree g tree.now × IsWithinLimits g }
    requires faces { (family : List (List (List ℕ))) × KnowFaces tree.now family faces.now }
    requires node { k < length tree.now }
    requires number { length weights.now ≡ length (node_at tree.now k).items }
    requires few { sum_below (length (node_at tree.now k).items) (weight_in weights.now)
        ≤ 2 * max_edges }
    ensures { (family : List (List (List ℕ))) → KnowFaces tree.now family faces.now
        → (h : ℕ) → h < length (node_at tree.now k).items
        → (node_item tree.now k h).what ≡ Link parent
        → IsRest tree.now family k (weight_in weights.now) h result }
{
    let items = tree.items(k);
    for h in 0..items.len() {
        if items[h].what == What::Link(parent) {
            return rest_at(tree, faces, k, weights, h);
        }
    }
    0
}

// The weights of the links to the nodes from their parents.
fn pass_up(
    alloc: Global,
    tree: &Tree,
    faces: &FlatLists,
    parents: &[u32],
    order: &[u32],
) -> Result<Vec<u32>, AllocError>
    requires block { (g : Multigraph) × IsBlockTree g tree.now × IsWithinLimits g }
    requires faces { (family : List (List (List ℕ))) × KnowFaces tree.now family faces.now }
    requires order { IsOrderOf tree.now parents.now order.now }
    ensures number { IfOk result (λ below. length below.items ≡ length tree.now) }
    ensures light { IfOk result
        (λ below. AreLight tree.now parents.now below.items []) }
    ensures below { IfOk result (λ below. (family : List (List (List ℕ))) → KnowFaces tree.now family faces.now
        → AreBelow tree.now family parents.now order.now 0 below.items) }
{
    let mut below = vec![in alloc; 0; tree.node_count() as usize]?;
    let mut weights = Vec::new(alloc);
    let mut p = order.len();
    while p > 0 {
        p -= 1;
        let k = order[p];
        let items = tree.items(k);
        let parent = parents[k as usize];
        weights_of(items, parent, &below, 0, &mut weights)?;
        below[k as usize] = rest_at_parent(tree, faces, k, parent, &weights);
    }
    Ok(below)
}

// Notes the rest at each link to a child as the weight of the child's link to its parent.
fn hand_down(items: &[Item], parent: u32, rests: &[u32], above: &mut [u32])
    requires number { length rests.now ≡ length items.now }
    requires once { LinkOnce items.now }
    requires within { (i j : ℕ) → i < length items.now
        → (nth_item items.now i).what ≡ Link j → j < length above.old }
    ensures { AreHandedDown items.now parent rests.now (length items.now) above.old above.new }
{
    for i in 0..items.len() {
        if let What::Link(j) = items[i].what {
            if j != parent {
                above[j as usize] = rests[i];
            }
        }
    }
}

// The greatest sum of a weight and a rest.
fn greatest_sum(weights: &[u32], rests: &[u32]) -> u32
    requires some { 0 < length weights.now }
    requires number { length rests.now ≡ length weights.now }
    requires few { (i : ℕ) → i < length weights.now
        → weight_in weights.now i + weight_in rests.now i ≤ 4 * max_edges }
    ensures most { (i : ℕ) → i < length weights.now
        → weight_in weights.now i + weight_in rests.now i ≤ result }
    ensures reached { (i : ℕ) × (i < length weights.now)
        × (weight_in weights.now i + weight_in rests.now i ≡ result) }
{
    let mut most = 0;
    for i in 0..weights.len() {
        most = most.max(weights[i] + rests[i]);
    }
    most
}

// The weights of the links from the nodes to their parents, the greatest weight of a face, and a node that reaches it.
fn pass_down(
    alloc: Global,
    tree: &Tree,
    faces: &FlatLists,
    parents: &[u32],
    order: &[u32],
    below: &[u32],
) -> Result<(Vec<u32>, u32, u32), AllocError>
    requires block { (g : Multigraph) × IsBlockTree g tree.now × IsWithinLimits g }
    requires faces { (family : List (List (List ℕ))) × KnowFaces tree.now family faces.now }
    requires order { IsOrderOf tree.now parents.now order.now }
    requires number { length below.now ≡ length tree.now }
    requires light { AreLight tree.now parents.now below.now [] }
    ensures number { IfOk result (λ r. length r.0.items ≡ length tree.now) }
    ensures light { IfOk result (λ r. AreLight tree.now parents.now below.now r.0.items) }
    ensures done { IfOk result (λ r. (family : List (List (List ℕ))) → KnowFaces tree.now family faces.now
        → AreDone tree.now family parents.now order.now below.now r.0.items (length order.now) r.1 r.2) }
{
    let mut above = vec![in alloc; 0; tree.node_count() as usize]?;
    let (mut weights, mut totals, mut rests) = (Vec::new(alloc), Vec::new(alloc), Vec::new(alloc));
    let mut most = 0;
    let mut top = 0;
    for p in 0..order.len() {
        let k = order[p];
        let items = tree.items(k);
        let parent = parents[k as usize];
        weights_of(items, parent, below, above[k as usize], &mut weights)?;
        rests_of(tree, faces, k, &weights, &mut totals, &mut rests)?;
        hand_down(items, parent, &rests, &mut above);
        let sum = greatest_sum(&weights, &rests);
        if most <= sum {
            most = sum;
            top = k;
        }
    }
    Ok((above, most, top))
}

/// The weights of the items of a tree, one for each edge and two for each link, one in each direction: a link weighs as much as the
/// heaviest face of the node beyond it that has the link back, without the link back; of a bond, as much as the heaviest other
/// item. And the greatest weight of a face of a node, of a bond that of two items.
///
/// The faces are those of the skeletons in a family of plane rotation systems, by the numbers of their darts. `order` is that of
/// `order_of`. In linear time. Fails only if memory runs out.
pub fn weigh(
    alloc: Global,
    tree: &Tree,
    order: Order,
    faces: &FlatLists,
) -> Result<Weights, AllocError>
    requires block { (g : Multigraph) × IsBlockTree g tree.now × IsWithinLimits g }
    requires order { IsOrderOf tree.now order.parents.items order.nodes.items }
    requires faces { (family : List (List (List ℕ))) × KnowFaces tree.now family faces.now }
    ensures { IfOk result (λ w. (family : List (List (List ℕ))) → KnowFaces tree.now family faces.now
        → AreWeights tree.now family w) }
{
    let below = pass_up(alloc, tree, faces, &order.parents, &order.nodes)?;
    let (above, most, top) = pass_down(alloc, tree, faces, &order.parents, &order.nodes, &below)?;
    Ok(Weights {
        order,
        below,
        above,
        most,
        top,
    })
}
