// The faces of a rotation system, by a number for each of its darts: the least dart of its face.

ghost use Rattle.std.specs.Prelude.{◌≡◌, ◌<◌, ℕ, List, false, length, slice_index, IfOk};
ghost use Rattle.multigraph.specs.Graph.{Multigraph, IsGraph, IsWithinLimits};
ghost use Rattle.multigraph.specs.Marks.{is_marked};
ghost use Rattle.rotations.specs.Rotation.{IsRotationSystem};
ghost use Rattle.faces.specs.Marks.{IsPermutationBelow, AreWholeOrbits};
ghost use Rattle.faces.specs.Steps.{AreFaceSteps};
ghost use Rattle.spqr_tree.specs.Absent.{absent};
ghost use Rattle.face_weights.specs.Numbers.{number_at, marks_of, IsOrbitNumbered, AreOrbitsNumbered, NumberFaces};

use skel_decompose::{ABSENT, renew};
use std::alloc::AllocError;

// Numbers the orbit of `start`, which has no numbers yet: the walk along the steps ends where it began.
fn number_orbit(steps: &[u32], numbers: &mut [u32], start: u32)
    requires permutation { IsPermutationBelow (length steps.now) (slice_index steps.now) }
    requires few { length steps.now < absent }
    requires places { length numbers.old ≡ length steps.now }
    requires start_in { start < length steps.now }
    requires whole { AreWholeOrbits (length steps.now) (slice_index steps.now) (marks_of numbers.old) }
    requires unnumbered { number_at numbers.old start ≡ absent }
    ensures { IsOrbitNumbered (length steps.now) (slice_index steps.now) start numbers.old numbers.new }
{
    let mut place = start;
    while numbers[place as usize] == ABSENT {
        numbers[place as usize] = start;
        place = steps[place as usize];
    }
}

// Numbers the orbits, where nothing has a number yet: in increasing order, each number without one is the least of its orbit.
fn number_orbits(steps: &[u32], numbers: &mut [u32])
    requires permutation { IsPermutationBelow (length steps.now) (slice_index steps.now) }
    requires few { length steps.now < absent }
    requires places { length numbers.old ≡ length steps.now }
    requires none { (x : ℕ) → is_marked (marks_of numbers.old) x ≡ false }
    ensures { AreOrbitsNumbered (length steps.now) (slice_index steps.now) (length steps.now) numbers.new }
{
    for start in 0..steps.len() as u32 {
        if numbers[start as usize] == ABSENT {
            number_orbit(steps, numbers, start);
        }
    }
}

/// Numbers the faces that have these face steps, by their darts: each dart has the least dart of its face as its number. The numbers are put
/// into `numbers`, in linear time. Fails only if memory runs out.
pub fn number_faces(steps: &[u32], numbers: &mut Vec<u32>) -> Result<(), AllocError>
    requires { (g : Multigraph) × (r : List (List ℕ)) × IsGraph g × IsWithinLimits g
        × IsRotationSystem g r × AreFaceSteps g r steps.now }
    ensures { IfOk result (λ _. (g : Multigraph) (r : List (List ℕ)) → IsGraph g
        → IsRotationSystem g r → AreFaceSteps g r steps.now → NumberFaces g r numbers.new.items) }
{
    renew(numbers, steps.len(), ABSENT)?;
    number_orbits(steps, numbers);
    Ok(())
}
