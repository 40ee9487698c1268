// Whether a rotation system has a face of a given length.

ghost use Rattle.std.specs.Prelude.{◌≡◌, ◌<◌, ◌^◌, ◌==◌, ℕ, List, true, false, length, IfOk};
ghost use Rattle.permutations.specs.Count.{count};
ghost use Rattle.multigraph.specs.Graph.{Multigraph};
ghost use Rattle.face_weights.specs.Numbers.{number_at};
ghost use Rattle.face_weights.specs.Sums.{weight_in};
ghost use Rattle.long_face.specs.Longest.{HasFace};
ghost use Rattle.long_face.specs.Present.{AreStepsOf};

use face_weights::number_faces;
use skel_decompose::renew;
use std::alloc::{AllocError, Global};

// Puts into `counts` how many darts have each number, where the numbers are below that of the darts.
fn count_darts(numbers: &[u32], counts: &mut Vec<u32>) -> Result<(), AllocError>
    requires few { length numbers.now < 2 ^ 32 }
    requires within { (d : ℕ) → d < length numbers.now → number_at numbers.now d
        < length numbers.now }
    ensures number { IfOk result (λ _. length counts.new.items ≡ length numbers.now) }
    ensures each { IfOk result (λ _. (t : ℕ) → t < length numbers.now → weight_in counts.new.items t
        ≡ count (length numbers.now) (λ d. t == number_at numbers.now d)) }
{
    renew(counts, numbers.len(), 0)?;
    for d in 0..numbers.len() {
        counts[numbers[d] as usize] += 1;
    }
    Ok(())
}

// Whether a rotation system with these face steps has a face of this length. In linear time. Fails only if memory runs out.
pub(crate) fn has_face(alloc: Global, steps: Vec<u32>, len: u32) -> Result<bool, AllocError>
    requires { (g : Multigraph) × (r : List (List ℕ)) × AreStepsOf g r steps.items }
    ensures found { IfOk result (λ has. has ≡ true → (g : Multigraph) (r : List (List ℕ))
        → AreStepsOf g r steps.items → HasFace g r len) }
    ensures none { IfOk result (λ has. has ≡ false → (g : Multigraph) (r : List (List ℕ))
        → AreStepsOf g r steps.items → HasFace g r len → ⊥) }
{
    let mut numbers = Vec::new(alloc);
    number_faces(&steps, &mut numbers)?;
    // The steps are needed no more: the counts take their place.
    let mut counts = steps;
    count_darts(&numbers, &mut counts)?;
    Ok(len != 0 && counts.contains(&len))
}
