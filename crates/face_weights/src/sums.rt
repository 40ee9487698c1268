// The weights of the faces of a rotation system, by their darts.

ghost use Rattle.std.specs.Prelude.{◌≡◌, ◌<◌, ◌≤◌, ◌*◌, ◌/◌, ◌==◌, ℕ, List, cond, length, IfOk};
ghost use Rattle.permutations.specs.Count.{sum_below};
ghost use Rattle.multigraph.specs.Graph.{Multigraph, edge_count, max_edges};
ghost use Rattle.skeleton_faces.specs.Faces.{face_weight};
ghost use Rattle.face_weights.specs.Numbers.{number_at, NumberFaces};
ghost use Rattle.face_weights.specs.Sums.{weight_in, AreFaceSums};

use skel_decompose::renew;
use std::alloc::AllocError;

// The weight of the face of a dart, where the faces are given by the numbers of the darts.
pub(crate) fn face_sum(numbers: &[u32], weights: &[u32], dart: usize) -> u32
    requires number { length numbers.now ≡ 2 * length weights.now }
    requires few { sum_below (length weights.now) (weight_in weights.now) ≤ 2 * max_edges }
    requires dart { dart < length numbers.now }
    ensures { (g : Multigraph) (r : List (List ℕ)) → NumberFaces g r numbers.now
        → result ≡ face_weight g r (weight_in weights.now) dart }
{
    let number = numbers[dart];
    let mut sum = 0;
    for d in 0..numbers.len() {
        if numbers[d] == number {
            sum += weights[d / 2];
        }
    }
    sum
}

// For each number the sum of the weights of the darts that have it.
pub(crate) fn totals_of(
    numbers: &[u32],
    weights: &[u32],
    totals: &mut Vec<u32>,
) -> Result<(), AllocError>
    requires number { length numbers.now ≡ 2 * length weights.now }
    requires within { (d : ℕ) → d < length numbers.now → number_at numbers.now d
        < length numbers.now }
    requires few { sum_below (length weights.now) (weight_in weights.now) ≤ 2 * max_edges }
    ensures number { IfOk result (λ _. length totals.new.items ≡ length numbers.now) }
    ensures each { IfOk result (λ _. (t : ℕ) → t < length numbers.now
        → weight_in totals.new.items t ≡ sum_below (length numbers.now)
        (λ d. cond (t == number_at numbers.now d) (weight_in weights.now (d / 2)) 0)) }
{
    renew(totals, numbers.len(), 0)?;
    for d in 0..numbers.len() {
        totals[numbers[d] as usize] += weights[d / 2];
    }
    Ok(())
}

/// The weight of the face of each dart, where the faces are given by the numbers of the darts: the sum of the weights of the edges along
/// it, an edge with both sides on the face counted twice. They are put into `sums`, by way of `totals`, in linear time. Fails only if
/// memory runs out.
pub fn face_sums(
    numbers: &[u32],
    weights: &[u32],
    totals: &mut Vec<u32>,
    sums: &mut Vec<u32>,
) -> Result<(), AllocError>
    requires faces { (g : Multigraph) × (r : List (List ℕ)) × NumberFaces g r numbers.now
        × (length weights.now ≡ edge_count g) }
    requires few { sum_below (length weights.now) (weight_in weights.now) ≤ 2 * max_edges }
    ensures { IfOk result (λ _. (g : Multigraph) (r : List (List ℕ))
        → NumberFaces g r numbers.now → AreFaceSums g r weights.now sums.new.items) }
{
    totals_of(numbers, weights, totals)?;
    sums.clear();
    for number in numbers {
        sums.push(totals[*number as usize])?;
    }
    Ok(())
}
