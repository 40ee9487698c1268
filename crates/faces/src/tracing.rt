// Tracing the faces of a rotation system.
ghost use Rattle.faces.specs.Euler.{dart_count};
ghost use Rattle.faces.specs.Marks.{AddsOrbit, AreWholeOrbits, IsPermutationBelow};
ghost use Rattle.multigraph.specs.Marks.{is_marked};
ghost use Rattle.faces.specs.Trace.{darts_in_order, face_lists, orbit_lists, orbit_pairs};
ghost use Rattle.multigraph.specs.Graph.{IsGraph};
ghost use Rattle.rotations.specs.Rotation.{IsRotationSystem};
ghost use Rattle.std.specs.Prelude.{◌<◌, ◌≡◌, IfOk, false, length, slice_index, ℕ};

use crate::darts::{darts_in_order, pair_of};
use crate::lists::Faces;
use crate::steps::face_steps;
use multigraph::{FlatLists, Graph};
use rotations::Rotation;
use std::alloc::{AllocError, Global};

// Marks the orbit of `start`, of which nothing is marked yet, and makes `pairs` its list: the walk along the images ends where it
// began.
fn walk_orbit(
    graph: &Graph,
    images: &[u32],
    marks: &mut [bool],
    start: u32,
    pairs: &mut Vec<(u32, u32)>,
) -> Result<(), AllocError>
    requires permutation { IsPermutationBelow (dart_count graph.now) (slice_index images.now) }
    requires darts { length images.now ≡ dart_count graph.now }
    requires same_length { length marks.old ≡ dart_count graph.now }
    requires start_in { start < dart_count graph.now }
    requires whole_orbits { AreWholeOrbits (dart_count graph.now)
        (slice_index images.now) marks.old }
    requires unmarked { is_marked marks.old start ≡ false }
    ensures marked { IfOk result (λ _. AddsOrbit (dart_count graph.now)
        (slice_index images.now) start marks.old marks.new) }
    ensures listed { IfOk result (λ _. pairs.new.items ≡ orbit_pairs graph.now
        (slice_index images.now) start) }
{
    pairs.clear();
    let mut place = start;
    while !marks[place as usize] {
        marks[place as usize] = true;
        pairs.push(pair_of(graph, place))?;
        place = images[place as usize];
    }
    Ok(())
}

// The orbits, each from its least dart on, where nothing is marked yet: in the order of the darts, each that is found unmarked
// is the least of its orbit.
fn list_orbits(
    alloc: Global,
    graph: &Graph,
    images: &[u32],
    order: &[u32],
    marks: &mut [bool],
) -> Result<FlatLists<(u32, u32)>, AllocError>
    requires graph { IsGraph graph.now }
    requires permutation { IsPermutationBelow (dart_count graph.now) (slice_index images.now) }
    requires darts { length images.now ≡ dart_count graph.now }
    requires in_order { order.now ≡ darts_in_order graph.now }
    requires same_length { length marks.old ≡ dart_count graph.now }
    requires unmarked { (x : ℕ) → is_marked marks.old x ≡ false }
    ensures { IfOk result (λ faces. faces ≡ orbit_lists graph.now (slice_index images.now)) }
{
    let mut faces = FlatLists::new(alloc);
    let mut pairs = Vec::new(alloc);
    for start in order {
        if !marks[*start as usize] {
            walk_orbit(graph, images, marks, *start, &mut pairs)?;
            faces.push(&pairs)?;
        }
    }
    Ok(faces)
}

/// The faces of the rotation system `r` of the graph `g`. Each is the list of the pairs of a vertex and an edge along it, from
/// its least pair on, and the faces are in order of these. An isolated vertex gives no list. In linear time.
/// Fails only if memory runs out.
pub fn trace(alloc: Global, g: &Graph, r: &Rotation) -> Result<Faces, AllocError>
    requires { IsRotationSystem g.now r.now }
    ensures { IfOk result (λ faces. faces ≡ face_lists g.now r.now) }
{
    let order = darts_in_order(alloc, g)?;
    let images = face_steps(alloc, g, r)?;
    let mut marks = vec![in alloc; false; images.len()]?;
    let faces = list_orbits(alloc, g, &images, &order, &mut marks)?;
    Ok(Faces::of(faces))
}
