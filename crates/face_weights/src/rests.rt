// What a node adds to the weight of one of its items: the rest of the heaviest face that has it.

ghost use Rattle.std.specs.Prelude.{◌≡◌, ◌<◌, ◌≤◌, ◌*◌, ◌+◌, ◌/◌, ℕ, List, length, max, IfOk};
ghost use Rattle.permutations.specs.Count.{sum_below};
ghost use Rattle.multigraph.specs.Graph.{Multigraph, edge_count, IsWithinLimits, max_edges};
ghost use Rattle.pair_split.specs.Tutte.{node_at};
ghost use Rattle.skeletons.specs.Items.{IsBlockTree};
ghost use Rattle.face_weights.specs.Numbers.{number_at, KnowFaces, NumberFaces};
ghost use Rattle.face_weights.specs.Sums.{weight_in};
ghost use Rattle.face_weights.specs.Rests.{IsFaceRest, IsOtherMost, IsRest};

use crate::sums::{face_sum, totals_of};
use pair_split::Kind;
use skel_decompose::{FlatLists, renew};
use spqr_tree::Tree;
use std::alloc::AllocError;

// Of an item the heavier of the faces of its two darts, without the item.
fn face_rest(numbers: &[u32], weights: &[u32], item: usize) -> u32
    requires faces { (g : Multigraph) × (r : List (List ℕ)) × NumberFaces g r numbers.now
        × (length weights.now ≡ edge_count g) }
    requires few { sum_below (length weights.now) (weight_in weights.now) ≤ 2 * max_edges }
    requires item { item < length weights.now }
    ensures { (g : Multigraph) (r : List (List ℕ)) → NumberFaces g r numbers.now
        → (length weights.now ≡ edge_count g) → IsFaceRest g r (weight_in weights.now) item result }
{
    let first = face_sum(numbers, weights, 2 * item);
    let second = face_sum(numbers, weights, 2 * item + 1);
    first.max(second) - weights[item]
}

// The same of each item, where `totals` has the weight of each face at its number.
fn face_rests(
    numbers: &[u32],
    totals: &[u32],
    weights: &[u32],
    rests: &mut Vec<u32>,
) -> Result<(), AllocError>
    requires number { length numbers.now ≡ 2 * length weights.now }
    requires within { (d : ℕ) → d < length numbers.now
        → number_at numbers.now d < length totals.now }
    requires own { (d : ℕ) → d < length numbers.now → weight_in weights.now (d / 2)
        ≤ weight_in totals.now (number_at numbers.now d) }
    ensures number { IfOk result (λ _. length rests.new.items ≡ length weights.now) }
    ensures each { IfOk result (λ _. (i : ℕ) → i < length weights.now
        → weight_in rests.new.items i + weight_in weights.now i
        ≡ max (weight_in totals.now (number_at numbers.now (2 * i)))
        (weight_in totals.now (number_at numbers.now (2 * i + 1)))) }
{
    rests.clear();
    for i in 0..weights.len() {
        let first = totals[numbers[2 * i] as usize];
        let second = totals[numbers[2 * i + 1] as usize];
        rests.push(first.max(second) - weights[i])?;
    }
    Ok(())
}

// The place of a greatest weight.
fn heaviest(weights: &[u32]) -> usize
    requires { 0 < length weights.now }
    ensures within { result < length weights.now }
    ensures most { (i : ℕ) → i < length weights.now
        → weight_in weights.now i ≤ weight_in weights.now result }
{
    let mut place = 0;
    for i in 0..weights.len() {
        if weights[place] < weights[i] {
            place = i;
        }
    }
    place
}

// The greatest weight but for that at the place.
fn heaviest_other(weights: &[u32], place: usize) -> u32
    requires several { 2 ≤ length weights.now }
    ensures { IsOtherMost (length weights.now) (weight_in weights.now) place result }
{
    let mut most = 0;
    for i in 0..weights.len() {
        if i != place {
            most = most.max(weights[i]);
        }
    }
    most
}

// Of each item the greatest weight of another.
fn pair_rests(weights: &[u32], rests: &mut Vec<u32>) -> Result<(), AllocError>
    requires several { 2 ≤ length weights.now }
    ensures number { IfOk result (λ _. length rests.new.items ≡ length weights.now) }
    ensures each { IfOk result (λ _. (i : ℕ) → i < length weights.now
        → IsOtherMost (length weights.now) (weight_in weights.now) i (weight_in rests.new.items i)) }
{
    let place = heaviest(weights);
    let second = heaviest_other(weights, place);
    renew(rests, weights.len(), weights[place])?;
    rests[place] = second;
    Ok(())
}

// What node k adds to one of its items, of these weights.
pub(crate) fn rest_at(tree: &Tree, faces: &FlatLists, k: u32, weights: &[u32], item: usize) -> u32
    requires block { (g : Multigraph) × IsBlockTree g tree.now × IsWithinLimits g }
    requires faces { (family : List (List (List ℕ))) × KnowFaces tree.now family faces.now }
    requires node { k < length tree.now }
    requires number { length weights.now ≡ length (node_at tree.now k).items }
    requires few { sum_below (length (node_at tree.now k).items) (weight_in weights.now)
        ≤ 2 * max_edges }
    requires item { item < length (node_at tree.now k).items }
    ensures { (family : List (List (List ℕ))) → KnowFaces tree.now family faces.now
        → IsRest tree.now family k (weight_in weights.now) item result }
{
    match tree.kind(k) {
        Kind::P => heaviest_other(weights, item),
        Kind::S | Kind::R | Kind::B => face_rest(faces.at(k as usize), weights, item),
    }
}

// The same of each item. `totals` is changed on the way.
pub(crate) fn rests_of(
    tree: &Tree,
    faces: &FlatLists,
    k: u32,
    weights: &[u32],
    totals: &mut Vec<u32>,
    rests: &mut Vec<u32>,
) -> Result<(), AllocError>
    requires block { (g : Multigraph) × IsBlockTree g tree.now × IsWithinLimits g }
    requires faces { (family : List (List (List ℕ))) × KnowFaces tree.now family faces.now }
    requires node { k < length tree.now }
    requires number { length weights.now ≡ length (node_at tree.now k).items }
    requires few { sum_below (length (node_at tree.now k).items) (weight_in weights.now)
        ≤ 2 * max_edges }
    ensures number { IfOk result (λ _. length rests.new.items
        ≡ length (node_at tree.now k).items) }
    ensures each { IfOk result (λ _. (family : List (List (List ℕ))) → KnowFaces tree.now family faces.now
        → (i : ℕ) → i < length (node_at tree.now k).items
        → IsRest tree.now family k (weight_in weights.now) i (weight_in rests.new.items i)) }
{
    match tree.kind(k) {
        Kind::P => pair_rests(weights, rests),
        Kind::S | Kind::R | Kind::B => {
            let numbers = faces.at(k as usize);
            totals_of(numbers, weights, totals)?;
            face_rests(numbers, totals, weights, rests)
        }
    }
}
