// The subdivisions from places in the cyclic order of the merged vertex.

ghost use Rattle.std.specs.Prelude.{◌≡◌, ◌≤◌, ◌<◌, true, false, length, slice_index, IfOk};
ghost use Rattle.multigraph.specs.Graph.{is_end};
ghost use Rattle.kuratowski.specs.Subdivision.{IsSubdivision};
ghost use Rattle.planarity.specs.Circle.{leads_near};
ghost use Rattle.contractions.specs.Level.{IsLevel, contraction, edge_before};
ghost use Rattle.contract_obstruct.specs.Steps.{ArePlaneSteps};
ghost use Rattle.contract_obstruct.specs.Crossing.{listed, IsAround};
ghost use Rattle.contract_obstruct.specs.Sectors.{segment, IsCommonEdge};
ghost use Rattle.contract_obstruct.specs.Obstruction.{StandForEdges};

use crate::crossing::{Sector, Sectors, crossing};
use crate::triple::{Thirds, triple};
use contractions::Level;
use kuratowski::Subdivision;
use multigraph::Graph;
use std::alloc::{AllocError, Global};

// The members from one place on, before another.
fn sector(alloc: Global, order: &[u32], from: usize, to: usize) -> Result<Sector, AllocError>
    requires some { from < to }
    requires within { to ≤ length order.now }
    ensures first { IfOk result (λ p. p.first ≡ slice_index order.now from) }
    ensures whole { IfOk result (λ p. listed p ≡ segment order.now from to) }
{
    let first = order[from];
    let behind = Vec::from_slice(alloc, &order[from + 1..to])?;
    Ok(Sector { first, behind })
}

/// K3,3, where the edges at places 0, i, j and k alternate.
pub(crate) fn crossing_at(
    alloc: Global,
    level: &Level,
    h: &Graph,
    next: &[u32],
    order: &[u32],
    places: (usize, usize, usize),
) -> Result<Subdivision, AllocError>
    requires level { IsLevel level.now }
    requires contraction { h.now ≡ contraction level.now }
    requires steps { ArePlaneSteps (contraction level.now) next.now }
    requires around { IsAround level.now next.now order.now }
    requires edges { StandForEdges level.now order.now }
    requires behind { 0 < places.0 }
    requires rise { places.0 < places.1 }
    requires rise_on { places.1 < places.2 }
    requires within { places.2 < length order.now }
    requires first { is_end level.now.graph level.now.x (edge_before level.now
        (slice_index order.now places.0)) ≡ true }
    requires second { leads_near level.now.graph level.now.x level.now.y (edge_before level.now)
        (slice_index order.now places.1) ≡ true }
    requires third { is_end level.now.graph level.now.x (edge_before level.now
        (slice_index order.now places.2)) ≡ true }
    requires fourth { is_end level.now.graph level.now.x (edge_before level.now
        (slice_index order.now 0)) ≡ false }
    ensures { IfOk result (λ r. IsSubdivision level.now.graph r.kind r.branch r.paths) }
{
    let far = sector(alloc, order, 0, places.0)?;
    let left = sector(alloc, order, places.0, places.1)?;
    let near = sector(alloc, order, places.1, places.2)?;
    let right = sector(alloc, order, places.2, order.len())?;
    let sectors = Sectors {
        left,
        near,
        right,
        far,
    };
    crossing(alloc, level, h, next, &sectors)
}

/// K5, where the edges at places 0, i and j lead to common neighbours.
pub(crate) fn triple_at(
    alloc: Global,
    level: &Level,
    h: &Graph,
    next: &[u32],
    order: &[u32],
    places: (usize, usize),
) -> Result<Subdivision, AllocError>
    requires level { IsLevel level.now }
    requires contraction { h.now ≡ contraction level.now }
    requires steps { ArePlaneSteps (contraction level.now) next.now }
    requires around { IsAround level.now next.now order.now }
    requires edges { StandForEdges level.now order.now }
    requires behind { 0 < places.0 }
    requires rise { places.0 < places.1 }
    requires within { places.1 < length order.now }
    requires first { IsCommonEdge level.now (slice_index order.now 0) }
    requires second { IsCommonEdge level.now (slice_index order.now places.0) }
    requires third { IsCommonEdge level.now (slice_index order.now places.1) }
    ensures { IfOk result (λ r. IsSubdivision level.now.graph r.kind r.branch r.paths) }
{
    let a = sector(alloc, order, 0, places.0)?;
    let b = sector(alloc, order, places.0, places.1)?;
    let c = sector(alloc, order, places.1, order.len())?;
    triple(alloc, level, h, next, &Thirds { a, b, c })
}
