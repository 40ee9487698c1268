// The way back over a contraction: from the steps of a plane rotation system of the contracted graph to those of one of the
// graph. The merged vertex is split at the ends of its two runs, the contracted edge is inserted between them, and the edges from
// y to common neighbours are inserted next to those from x.

ghost use Rattle.std.specs.Prelude.{◌≡◌, ◌<◌, ◌+◌, length, IfOk};
ghost use Rattle.dart_maps.specs.Map.{twin};
ghost use Rattle.faces.specs.Euler.{dart_count};
ghost use Rattle.contractions.specs.Level.{IsLevel, contraction};
ghost use Rattle.contractions.specs.Marks.{AreNeighbourMarks};
ghost use Rattle.contract_obstruct.specs.Steps.{ArePlaneSteps};
ghost use Rattle.contract_embed.specs.Steps.{IsChangedBy};
ghost use Rattle.contract_embed.specs.Runs.{joined_again, CarriedBelow, HaveRuns};

use crate::darts::{arrives_at_mark, first_dart};
use crate::runs::{after, before, origin};
use crate::steps::{exchange, insert};
use contractions::{Level, neighbour_marks, numbers_below};
use faces::{dart_count, dart_from, head, twin};
use multigraph::Graph;
use std::alloc::{AllocError, Global};

// Carries the step from one dart over.
fn carry(level: &Level, next: &[u32], wide: &mut [u32], dart: u32)
    requires level { IsLevel level.now }
    requires steps { ArePlaneSteps (contraction level.now) next.now }
    requires dart { dart < dart_count (contraction level.now) }
    requires before { CarriedBelow level.now next.now dart wide.old }
    ensures { CarriedBelow level.now next.now (dart + 1) wide.new }
{
    let follows = after(level, next, dart);
    wide[origin(level, dart) as usize] = origin(level, follows);
}

// The steps on the darts of the edges that stay; each other dart is alone.
fn carry_all(alloc: Global, level: &Level, h: &Graph, next: &[u32]) -> Result<Vec<u32>, AllocError>
    requires level { IsLevel level.now }
    requires contraction { h.now ≡ contraction level.now }
    requires steps { ArePlaneSteps (contraction level.now) next.now }
    ensures { IfOk result (λ wide. CarriedBelow level.now next.now
        (dart_count (contraction level.now)) wide.items) }
{
    let mut wide = numbers_below(alloc, dart_count(&level.graph))?;
    for dart in 0..dart_count(h) {
        carry(level, next, &mut wide, dart);
    }
    Ok(wide)
}

// Inserts the edge from where the dart leads to y, if there is one: after p, and at y after q.
fn join_again(level: &Level, marks: &[bool], wide: &mut [u32], dart: u32, p: u32, q: u32)
    requires level { IsLevel level.now }
    requires number { length marks.now ≡ level.now.graph.vertex_count }
    requires marks { AreNeighbourMarks level.now.graph level.now.y marks.now }
    requires each { length wide.old ≡ dart_count level.now.graph }
    requires dart { dart < dart_count level.now.graph }
    requires first { p < dart_count level.now.graph }
    requires second { q < dart_count level.now.graph }
    ensures { IsChangedBy (dart_count level.now.graph) wide.old wide.new
        (joined_again level.now dart p q) }
{
    if arrives_at_mark(&level.graph, marks, level.y, dart) {
        let joining = first_dart(&level.graph, head(&level.graph, dart), level.y);
        insert(wide, joining, p, q);
    }
}

// Splits the merged vertex and inserts what is missing.
fn split(
    level: &Level,
    h: &Graph,
    marks: &[bool],
    next: &[u32],
    wide: &mut [u32],
    first: u32,
    last: u32,
)
    requires level { IsLevel level.now }
    requires contraction { h.now ≡ contraction level.now }
    requires number { length marks.now ≡ level.now.graph.vertex_count }
    requires marks { AreNeighbourMarks level.now.graph level.now.y marks.now }
    requires steps { ArePlaneSteps (contraction level.now) next.now }
    requires first { first < dart_count (contraction level.now) }
    requires last { last < dart_count (contraction level.now) }
    requires runs { HaveRuns level.now next.now first last }
    requires carried { CarriedBelow level.now next.now (dart_count
        (contraction level.now)) wide.old }
    ensures { ArePlaneSteps level.now.graph wide.new }
{
    let end = origin(level, before(level, h, next, first));
    let behind = origin(level, before(level, h, next, twin(last)));
    let middle = dart_from(&level.graph, level.x, level.edge);
    let early = origin(level, first);
    let late = origin(level, last);
    exchange(wide, late, end);
    insert(wide, middle, late, end);
    join_again(level, marks, wide, early, twin(early), end);
    join_again(level, marks, wide, late, behind, twin(middle));
}

// The steps of the plane rotation system of the graph of a level, from those of its contraction h and the first and the last
// dart of the run of x.
pub(crate) fn expand(
    alloc: Global,
    level: &Level,
    h: &Graph,
    next: &[u32],
    first: u32,
    last: u32,
) -> Result<Vec<u32>, AllocError>
    requires level { IsLevel level.now }
    requires contraction { h.now ≡ contraction level.now }
    requires steps { ArePlaneSteps (contraction level.now) next.now }
    requires first { first < dart_count (contraction level.now) }
    requires last { last < dart_count (contraction level.now) }
    requires runs { HaveRuns level.now next.now first last }
    ensures { IfOk result (λ wide. ArePlaneSteps level.now.graph wide.items) }
{
    let mut wide = carry_all(alloc, level, h, next)?;
    let marks = neighbour_marks(alloc, &level.graph, level.y)?;
    split(level, h, &marks, next, &mut wide, first, last);
    Ok(wide)
}
