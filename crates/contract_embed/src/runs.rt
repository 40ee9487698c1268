// The runs of the darts around the merged vertex of a contraction: those that leave x, and those that leave y.

ghost use Rattle.std.specs.Prelude.{◌≡◌, ◌<◌, ◌≤◌, ◌↔◌, ℕ, true, length, slice_index, IfOk, MatchOption};
ghost use Rattle.faces.specs.Euler.{tail, dart_count};
ghost use Rattle.contractions.specs.Level.{IsLevel, contraction};
ghost use Rattle.contractions.specs.Marks.{AreNeighbourMarks};
ghost use Rattle.contract_obstruct.specs.Steps.{ArePlaneSteps};
ghost use Rattle.contract_embed.specs.Runs.{origin, leaves, Turns, NoTurn, TurnsAt, FitsAt, HaveRuns};
ghost use Rattle.contract_obstruct.specs.Obstruction.{HaveNoRuns};

use crate::darts::arrives_at_mark;
use contractions::{Level, neighbour_marks};
use faces::{dart_count, tail};
use multigraph::Graph;
use std::alloc::{AllocError, Global};

// The dart that follows.
pub(crate) fn after(level: &Level, next: &[u32], dart: u32) -> u32
    requires level { IsLevel level.now }
    requires steps { ArePlaneSteps (contraction level.now) next.now }
    requires dart { dart < dart_count (contraction level.now) }
    ensures value { result ≡ slice_index next.now dart }
    ensures within { result < dart_count (contraction level.now) }
{
    next[dart as usize]
}

// The dart that d follows.
pub(crate) fn before(level: &Level, h: &Graph, next: &[u32], d: u32) -> u32
    requires level { IsLevel level.now }
    requires contraction { h.now ≡ contraction level.now }
    requires steps { ArePlaneSteps (contraction level.now) next.now }
    requires dart { d < dart_count (contraction level.now) }
    ensures within { result < dart_count (contraction level.now) }
    ensures follows { slice_index next.now result ≡ d }
{
    for dart in 0..dart_count(h) {
        if after(level, next, dart) == d {
            return dart;
        }
    }
    unreachable!()
}

// The dart of the graph that the dart of the contraction was.
#[tactic(auto, unfolding(planarity::specs::Expansion::moved))]
pub(crate) fn origin(level: &Level, dart: u32) -> u32
    requires level { IsLevel level.now }
    requires dart { dart < dart_count (contraction level.now) }
    ensures is { result ≡ origin level.now dart }
    ensures within { result < dart_count level.now.graph }
{
    2 * level.kept[dart as usize / 2] + dart % 2
}

// The vertex that it leaves.
fn leaves(level: &Level, dart: u32) -> u32
    requires level { IsLevel level.now }
    requires dart { dart < dart_count (contraction level.now) }
    ensures { result ≡ leaves level.now dart }
{
    tail(&level.graph, origin(level, dart))
}

// Whether the dart leaves `from` and is followed by one that leaves `to`.
fn turns_at(level: &Level, next: &[u32], from: u32, to: u32, dart: u32) -> bool
    requires level { IsLevel level.now }
    requires steps { ArePlaneSteps (contraction level.now) next.now }
    requires dart { dart < dart_count (contraction level.now) }
    ensures { (result ≡ true) ↔ Turns level.now next.now from to dart }
{
    leaves(level, dart) == from && leaves(level, after(level, next, dart)) == to
}

// A dart that leaves `from` and is followed by one that leaves `to`.
fn turn(level: &Level, h: &Graph, next: &[u32], from: u32, to: u32) -> Option<u32>
    requires level { IsLevel level.now }
    requires contraction { h.now ≡ contraction level.now }
    requires steps { ArePlaneSteps (contraction level.now) next.now }
    ensures { MatchOption result (NoTurn level.now next.now from to)
        (TurnsAt level.now next.now from to) }
{
    for dart in 0..dart_count(h) {
        if turns_at(level, next, from, to, dart) {
            return Some(dart);
        }
    }
    None
}

// Whether the runs continue at the dart.
fn fits_at(level: &Level, marks: &[bool], next: &[u32], first: u32, last: u32, dart: u32) -> bool
    requires level { IsLevel level.now }
    requires number { length marks.now ≡ level.now.graph.vertex_count }
    requires marks { AreNeighbourMarks level.now.graph level.now.y marks.now }
    requires steps { ArePlaneSteps (contraction level.now) next.now }
    requires dart { dart < dart_count (contraction level.now) }
    ensures { (result ≡ true) ↔ FitsAt level.now next.now first last dart }
{
    let follows = after(level, next, dart);
    let here = leaves(level, dart);
    let there = leaves(level, follows);
    if here == level.x {
        return (there == level.x || dart == last)
            && (dart == first
                || dart == last
                || !arrives_at_mark(&level.graph, marks, level.y, origin(level, dart)));
    }
    here != level.y || there == level.y || follows == first
}

// Whether they do at each dart.
fn all_fit(level: &Level, h: &Graph, marks: &[bool], next: &[u32], first: u32, last: u32) -> bool
    requires level { IsLevel level.now }
    requires contraction { h.now ≡ contraction level.now }
    requires number { length marks.now ≡ level.now.graph.vertex_count }
    requires marks { AreNeighbourMarks level.now.graph level.now.y marks.now }
    requires steps { ArePlaneSteps (contraction level.now) next.now }
    ensures { (result ≡ true) ↔ ((d : ℕ) → d < dart_count (contraction level.now)
        → FitsAt level.now next.now first last d) }
{
    for dart in 0..dart_count(h) {
        if !fits_at(level, marks, next, first, last, dart) {
            return false;
        }
    }
    true
}

// The first and the last dart of the run of x, if the darts around the merged vertex of the contraction h have runs.
pub(crate) fn runs(
    alloc: Global,
    level: &Level,
    h: &Graph,
    next: &[u32],
) -> Result<Option<(u32, u32)>, AllocError>
    requires level { IsLevel level.now }
    requires contraction { h.now ≡ contraction level.now }
    requires steps { ArePlaneSteps (contraction level.now) next.now }
    ensures { IfOk result (λ answer. MatchOption answer (HaveNoRuns level.now next.now)
        (λ run. HaveRuns level.now next.now run.0 run.1)) }
{
    let Some(last) = turn(level, h, next, level.x, level.y) else {
        return Ok(None);
    };
    let Some(end) = turn(level, h, next, level.y, level.x) else {
        return Ok(None);
    };
    let first = after(level, next, end);
    let marks = neighbour_marks(alloc, &level.graph, level.y)?;
    if first != last && all_fit(level, h, &marks, next, first, last) {
        return Ok(Some((first, last)));
    }
    Ok(None)
}
