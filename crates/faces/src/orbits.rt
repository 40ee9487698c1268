// Orbits of a permutation that is given by the image of each number.
ghost use Rattle.faces.specs.Euler.{begins_orbit};
ghost use Rattle.faces.specs.Marks.{AddsOrbit, AreWholeOrbits, IsPermutationBelow};
ghost use Rattle.multigraph.specs.Marks.{is_marked};
ghost use Rattle.permutations.specs.Count.{count};
ghost use Rattle.std.specs.Prelude.{◌<◌, ◌^◌, ◌≡◌, IfOk, false, length, slice_index, ℕ};

use std::alloc::{AllocError, Global};

// Marks the orbit of `start`, of which nothing is marked yet: the walk along the images ends where it began.
fn mark_orbit(images: &[u32], marks: &mut [bool], start: usize)
    requires permutation { IsPermutationBelow (length images.now) (slice_index images.now) }
    requires same_length { length marks.old ≡ length images.now }
    requires start_in { start < length images.now }
    requires whole_orbits { AreWholeOrbits (length images.now) (slice_index images.now) marks.old }
    requires unmarked { is_marked marks.old start ≡ false }
    ensures { AddsOrbit (length images.now) (slice_index images.now) start marks.old marks.new }
{
    let mut place = start;
    while !marks[place] {
        marks[place] = true;
        place = images[place] as usize;
    }
}

// Counts the orbits, where nothing is marked yet: each number that is found unmarked begins one.
fn count_starts(images: &[u32], marks: &mut [bool]) -> u32
    requires permutation { IsPermutationBelow (length images.now) (slice_index images.now) }
    requires few { length images.now < 2 ^ 32 }
    requires same_length { length marks.old ≡ length images.now }
    requires unmarked { (x : ℕ) → is_marked marks.old x ≡ false }
    ensures { result ≡ count (length images.now) (begins_orbit (length images.now)
        (slice_index images.now)) }
{
    let mut orbits = 0u32;
    for start in 0..images.len() {
        if !marks[start] {
            orbits += 1;
            mark_orbit(images, marks, start);
        }
    }
    orbits
}

// How many orbits the permutation with these images has.
pub(crate) fn count_orbits(alloc: Global, images: &[u32]) -> Result<u32, AllocError>
    requires permutation { IsPermutationBelow (length images.now) (slice_index images.now) }
    requires few { length images.now < 2 ^ 32 }
    ensures { IfOk result (λ orbits. orbits ≡ count (length images.now)
        (begins_orbit (length images.now) (slice_index images.now))) }
{
    let mut marks = vec![in alloc; false; images.len()]?;
    Ok(count_starts(images, &mut marks))
}
