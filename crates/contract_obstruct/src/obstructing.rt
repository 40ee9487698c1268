// The subdivision where the steps of a contraction do not have runs: the cyclic order of the merged vertex is searched from each
// of its edges on.

ghost use Rattle.std.specs.Prelude.{◌≡◌, ◌<◌, ◌≤◌, ◌↔◌, ℕ, true, false, length, IfOk, MatchOption};
ghost use Rattle.multigraph.specs.Graph.{is_end};
ghost use Rattle.kuratowski.specs.Subdivision.{IsSubdivision};
ghost use Rattle.planarity.specs.Circle.{leads_near};
ghost use Rattle.contractions.specs.Level.{IsLevel, contraction, edge_before};
ghost use Rattle.contractions.specs.Marks.{AreNeighbourMarks};
ghost use Rattle.contract_obstruct.specs.Steps.{ArePlaneSteps};
ghost use Rattle.contract_obstruct.specs.Obstruction.{HaveNoRuns};
ghost use Rattle.contract_obstruct.specs.Crossing.{IsAround};
ghost use Rattle.contract_obstruct.specs.Sectors.{LeadsOut, IsCommonEdge};
ghost use Rattle.contract_obstruct.specs.Obstruction.{StandForEdges, NoneFromX, IsPlaceFromX, NoneCommon, IsFirstCommon, NoneRound, AreRound, IsTripleAt, IsCrossingAt, ShowsNothing};

use crate::crossing::{edge_before, merged_vertex};
use crate::rounds::round;
use crate::sectors::{crossing_at, triple_at};
use contractions::{Level, neighbour_marks};
use kuratowski::Subdivision;
use multigraph::Graph;
use std::alloc::{AllocError, Global};

// Whether the edge that edge i of the contraction was leads from x.
fn is_from_x(level: &Level, i: u32) -> bool
    requires { LeadsOut level.now i }
    ensures { result ≡ is_end level.now.graph level.now.x (edge_before level.now i) }
{
    level.graph.is_edge_at(edge_before(level, i), level.x)
}

// Whether it leads from x to a neighbour of y.
fn is_common(level: &Level, marks: &[bool], i: u32) -> bool
    requires number { length marks.now ≡ level.now.graph.vertex_count }
    requires marks { AreNeighbourMarks level.now.graph level.now.y marks.now }
    requires out { LeadsOut level.now i }
    ensures { (result ≡ true) ↔ IsCommonEdge level.now i }
{
    match level.graph.far_end(edge_before(level, i), level.x) {
        Some(far) => marks[far as usize],
        None => false,
    }
}

// Whether it leads from y, or from x to a neighbour of y.
fn is_near(level: &Level, marks: &[bool], i: u32) -> bool
    requires number { length marks.now ≡ level.now.graph.vertex_count }
    requires marks { AreNeighbourMarks level.now.graph level.now.y marks.now }
    requires out { LeadsOut level.now i }
    ensures { result
        ≡ leads_near level.now.graph level.now.x level.now.y (edge_before level.now) i }
{
    let edge = edge_before(level, i);
    if level.graph.is_edge_at(edge, level.y) {
        return true;
    }
    match level.graph.far_end(edge, level.x) {
        Some(far) => marks[far as usize],
        None => unreachable!(),
    }
}

// The first place between two whose edge leads from x.
fn place_from_x(level: &Level, order: &[u32], from: usize, to: usize) -> Option<usize>
    requires within { to ≤ length order.now }
    requires edges { StandForEdges level.now order.now }
    ensures { MatchOption result (NoneFromX level.now order.now from to)
        (IsPlaceFromX level.now order.now from to) }
{
    for place in from..to {
        if is_from_x(level, order[place]) {
            return Some(place);
        }
    }
    None
}

// The first place from one on whose edge leads to a common neighbour.
fn common_place(level: &Level, marks: &[bool], order: &[u32], from: usize) -> Option<usize>
    requires number { length marks.now ≡ level.now.graph.vertex_count }
    requires marks { AreNeighbourMarks level.now.graph level.now.y marks.now }
    requires edges { StandForEdges level.now order.now }
    ensures { MatchOption result (NoneCommon level.now order.now from)
        (IsFirstCommon level.now order.now from) }
{
    for place in from..order.len() {
        if is_common(level, marks, order[place]) {
            return Some(place);
        }
    }
    None
}

// The places of edges that lead to common neighbours, other than place 0.
fn triple_places(level: &Level, marks: &[bool], order: &[u32]) -> Option<(usize, usize)>
    requires number { length marks.now ≡ level.now.graph.vertex_count }
    requires marks { AreNeighbourMarks level.now.graph level.now.y marks.now }
    requires edges { StandForEdges level.now order.now }
    requires filled { 0 < length order.now }
    ensures { MatchOption result ((i j : ℕ) → IsTripleAt level.now order.now i j
        → ⊥) (λ p. IsTripleAt level.now order.now p.0 p.1) }
{
    if !is_common(level, marks, order[0]) {
        return None;
    }
    let Some(i) = common_place(level, marks, order, 1) else {
        return None;
    };
    let Some(j) = common_place(level, marks, order, i + 1) else {
        return None;
    };
    Some((i, j))
}

// The places before and after place j of edges that lead from x.
fn places_round(level: &Level, order: &[u32], j: usize) -> Option<(usize, usize)>
    requires within { j < length order.now }
    requires edges { StandForEdges level.now order.now }
    ensures { MatchOption result (NoneRound level.now order.now j)
        (AreRound level.now order.now j) }
{
    let Some(i) = place_from_x(level, order, 1, j) else {
        return None;
    };
    let Some(k) = place_from_x(level, order, j + 1, order.len()) else {
        return None;
    };
    Some((i, k))
}

// The places of edges that alternate, other than place 0.
fn crossing_places(level: &Level, marks: &[bool], order: &[u32]) -> Option<(usize, usize, usize)>
    requires number { length marks.now ≡ level.now.graph.vertex_count }
    requires marks { AreNeighbourMarks level.now.graph level.now.y marks.now }
    requires edges { StandForEdges level.now order.now }
    requires filled { 0 < length order.now }
    ensures { MatchOption result ((i j k : ℕ) → IsCrossingAt level.now order.now i j k
        → ⊥) (λ p. IsCrossingAt level.now order.now p.0 p.1 p.2) }
{
    if is_from_x(level, order[0]) {
        return None;
    }
    for j in 0..order.len() {
        if is_near(level, marks, order[j]) {
            if let Some((i, k)) = places_round(level, order, j) {
                return Some((i, j, k));
            }
        }
    }
    None
}

// The subdivision that edges show from place 0 on.
fn obstruction_at_start(
    alloc: Global,
    level: &Level,
    h: &Graph,
    next: &[u32],
    marks: &[bool],
    order: &[u32],
) -> Result<Option<Subdivision>, AllocError>
    requires level { IsLevel level.now }
    requires contraction { h.now ≡ contraction level.now }
    requires steps { ArePlaneSteps (contraction level.now) next.now }
    requires around { IsAround level.now next.now order.now }
    requires number { length marks.now ≡ level.now.graph.vertex_count }
    requires marks { AreNeighbourMarks level.now.graph level.now.y marks.now }
    requires edges { StandForEdges level.now order.now }
    requires filled { 0 < length order.now }
    ensures { IfOk result (λ answer. MatchOption answer (ShowsNothing level.now order.now)
        (λ r. IsSubdivision level.now.graph r.kind r.branch r.paths)) }
{
    if let Some(places) = triple_places(level, marks, order) {
        let s = triple_at(alloc, level, h, next, order, places)?;
        return Ok(Some(s));
    }
    if let Some(places) = crossing_places(level, marks, order) {
        let s = crossing_at(alloc, level, h, next, order, places)?;
        return Ok(Some(s));
    }
    Ok(None)
}

/// A subdivision of K5 or of K3,3 in the graph of a level, where the steps of a plane rotation system of its contraction `h` do not
/// have runs around the merged vertex (Thomassen 1980). Fails only if memory runs out.
pub fn obstruct(
    alloc: Global,
    level: &Level,
    h: &Graph,
    next: &[u32],
) -> Result<Subdivision, AllocError>
    requires level { IsLevel level.now }
    requires contraction { h.now ≡ contraction level.now }
    requires steps { ArePlaneSteps (contraction level.now) next.now }
    requires none { HaveNoRuns level.now next.now }
    ensures { IfOk result (λ s. IsSubdivision level.now.graph s.kind s.branch s.paths) }
{
    let mut order = round(alloc, h, next, merged_vertex(level))?;
    let marks = neighbour_marks(alloc, &level.graph, level.y)?;
    for _start in 0..order.len() {
        if let Some(s) = obstruction_at_start(alloc, level, h, next, &marks, &order)? {
            return Ok(s);
        }
        order.rotate_left(1);
    }
    unreachable!()
}
