// The subdivision of K3,3 where edges around the merged vertex alternate: two that lead from x, one that leads to a neighbour of
// y, and one not from x.

ghost use Rattle.std.specs.Prelude.{◌≡◌, ◌≤◌, ◌<◌, ◌++◌, ◌∷◌, [], true, length, reverse, IfOk};
ghost use Rattle.multigraph.specs.Graph.{edge_count, is_end, other_end, max_darts};
ghost use Rattle.graph_theory.specs.Path.{IsWalk};
ghost use Rattle.contractions.specs.Contraction.{are_adjacent};
ghost use Rattle.kuratowski.specs.Subdivision.{IsSubdivision};
ghost use Rattle.planarity.specs.Circle.{leads_near};
ghost use Rattle.contractions.specs.Level.{IsLevel, contraction, edge_before};
ghost use Rattle.contract_obstruct.specs.Steps.{ArePlaneSteps};
ghost use Rattle.contract_obstruct.specs.Sectors.{LeadsOut};
ghost use Rattle.contract_obstruct.specs.Crossing.{merged_vertex, near_end, part_of, side_of, crossing_spokes, crossing_paths, FirstEdgesAlternate, AreFeet, AreCrossing, IsClosing, AreEdges};

use crate::arcs::arcs;
use crate::paths::{edges_before, lift_path, number_at, reverse};
use contractions::{Level, contracted_vertex};
use kuratowski::{Pattern, Subdivision};
use multigraph::{Graph, NumberLists, Numbers};
use std::alloc::{AllocError, Global};

/// An edge around a vertex, and those after it up to the next edge of interest.
#[derive(Drop)]
pub(crate) struct Sector {
    pub first: u32,
    pub behind: Vec<u32>,
}

/// The cyclic order around the merged vertex in four sectors. The first edges of the left and the right one lead from x, that of
/// the near one, between them, leads to a neighbour of y, and that of the far one doesn't lead from x.
#[derive(Drop)]
pub(crate) struct Sectors {
    pub left: Sector,
    pub near: Sector,
    pub right: Sector,
    pub far: Sector,
}

/// The neighbours of the merged vertex, on the circle, to which the first edges of the sectors lead.
#[derive(Drop)]
struct Feet {
    left: u32,
    near: u32,
    right: u32,
    far: u32,
}

// The merged vertex.
pub(crate) fn merged_vertex(level: &Level) -> u32
    ensures { result ≡ merged_vertex level.now }
{
    contracted_vertex(level.x, level.y, level.x)
}

// The edge that edge i of the contraction was.
pub(crate) fn edge_before(level: &Level, i: u32) -> u32
    ensures { result ≡ edge_before level.now i }
{
    number_at(&level.kept, i as usize)
}

// Where an edge leads from y, and from x if it is not at y.
fn near_end(level: &Level, i: u32) -> u32
    requires { LeadsOut level.now i }
    ensures { result
        ≡ near_end level.now.graph level.now.x level.now.y (edge_before level.now i) }
{
    let edge = edge_before(level, i);
    if level.graph.is_edge_at(edge, level.y) {
        level.graph.other_end(edge, level.y)
    } else {
        level.graph.other_end(edge, level.x)
    }
}

// The first edge that joins y with p.
pub(crate) fn joining_edge(g: &Graph, y: u32, p: u32) -> u32
    requires { are_adjacent g.now y p ≡ true }
    ensures within { result < edge_count g.now }
    ensures leaves { is_end g.now y result ≡ true }
    ensures arrives { other_end g.now result y ≡ p }
{
    for edge in 0..g.edge_count() {
        if g.far_end(edge, y) == Some(p) {
            return edge;
        }
    }
    unreachable!()
}

// The edges of the circle from where an edge leads, back over those after it.
fn part(
    alloc: Global,
    level: &Level,
    h: &Graph,
    next: &[u32],
    first: u32,
    sector: &Sector,
) -> Result<Vec<u32>, AllocError>
    requires few { length next.now ≤ max_darts }
    requires edges_in { AreEdges h.now first sector.now.behind.items }
    ensures { IfOk result (λ edges. edges.items ≡ part_of h.now next.now
        (merged_vertex level.now) first sector.now.behind.items) }
{
    let mut round = Vec::new(alloc);
    round.push(first)?;
    let back = reverse(alloc, &sector.behind)?;
    round.extend_from_slice(&back)?;
    arcs(alloc, h, next, merged_vertex(level), &round)
}

// The same, lifted.
pub(crate) fn side(
    alloc: Global,
    level: &Level,
    h: &Graph,
    next: &[u32],
    first: u32,
    sector: &Sector,
    from: u32,
    to: u32,
) -> Result<Numbers, AllocError>
    requires few { length next.now ≤ max_darts }
    requires edges_in { AreEdges h.now first sector.now.behind.items }
    requires walk { IsWalk level.now.graph from
        (side_of level.now h.now next.now first sector.now from to) }
    ensures { IfOk result
        (λ path. path ≡ side_of level.now h.now next.now first sector.now from to) }
{
    let round = part(alloc, level, h, next, first, sector)?;
    let edges = edges_before(alloc, &level.kept, &round)?;
    lift_path(alloc, &level.graph, level.edge, from, &edges, to)
}

// Appends a path of one edge.
pub(crate) fn push_edge(
    alloc: Global,
    paths: &mut Vec<Numbers>,
    edge: u32,
) -> Result<(), AllocError>
    ensures { IfOk result (λ _. paths.new.items ≡ paths.old.items ++ (edge ∷ []) ∷ []) }
{
    let mut edges = Vec::new(alloc);
    edges.push(edge)?;
    paths.push(Numbers::of(edges))?;
    Ok(())
}

// Appends a path reversed.
pub(crate) fn push_back(
    alloc: Global,
    paths: &mut Vec<Numbers>,
    path: &Numbers,
) -> Result<(), AllocError>
    ensures { IfOk result (λ _. paths.new.items ≡ paths.old.items ++ (reverse path.now) ∷ []) }
{
    paths.push(Numbers::of(reverse(alloc, path.as_slice())?))?;
    Ok(())
}

// An edge from y to where the edge leads.
fn near_edge(level: &Level, i: u32) -> u32
    requires out { LeadsOut level.now i }
    requires near { leads_near level.now.graph level.now.x level.now.y (edge_before level.now) i
        ≡ true }
    ensures within { result < edge_count level.now.graph }
    ensures leaves { is_end level.now.graph level.now.y result ≡ true }
    ensures arrives { other_end level.now.graph result level.now.y
        ≡ near_end level.now.graph level.now.x level.now.y (edge_before level.now i) }
{
    let edge = edge_before(level, i);
    if level.graph.is_edge_at(edge, level.y) {
        return edge;
    }
    joining_edge(&level.graph, level.y, level.graph.other_end(edge, level.x))
}

// The vertices to which the first edges of the sectors lead.
fn feet_of(level: &Level, sectors: &Sectors) -> Feet
    requires { FirstEdgesAlternate level.now sectors.now }
    ensures { AreFeet level.now sectors.now result }
{
    let g = &level.graph;
    Feet {
        left: g.other_end(edge_before(level, sectors.left.first), level.x),
        near: near_end(level, sectors.near.first),
        right: g.other_end(edge_before(level, sectors.right.first), level.x),
        far: g.other_end(edge_before(level, sectors.far.first), level.y),
    }
}

// The paths that are single edges, but one.
fn crossing_spokes(
    alloc: Global,
    level: &Level,
    sectors: &Sectors,
) -> Result<Vec<Numbers>, AllocError>
    ensures { IfOk result (λ paths. paths.items ≡ crossing_spokes level.now sectors.now) }
{
    let mut paths = Vec::new(alloc);
    push_edge(alloc, &mut paths, level.edge)?;
    push_edge(alloc, &mut paths, edge_before(level, sectors.right.first))?;
    push_edge(alloc, &mut paths, edge_before(level, sectors.left.first))?;
    push_edge(alloc, &mut paths, edge_before(level, sectors.far.first))?;
    Ok(paths)
}

// All paths; `joining` is an edge from y to the near foot.
fn crossing_paths(
    alloc: Global,
    level: &Level,
    h: &Graph,
    next: &[u32],
    sectors: &Sectors,
    at: &Feet,
    joining: u32,
) -> Result<Vec<Numbers>, AllocError>
    requires closing { IsClosing level.now h.now next.now sectors.now joining }
    requires feet { AreFeet level.now sectors.now at.now }
    ensures { IfOk result (λ paths. paths.items
        ≡ crossing_paths level.now h.now next.now sectors.now joining) }
{
    let (left, near) = (&sectors.left, &sectors.near);
    let (right, far) = (&sectors.right, &sectors.far);
    let mut paths = crossing_spokes(alloc, level, sectors)?;
    paths.push(side(alloc, level, h, next, far.first, right, at.far, at.right)?)?;
    let back = side(alloc, level, h, next, left.first, far, at.left, at.far)?;
    push_back(alloc, &mut paths, &back)?;
    push_edge(alloc, &mut paths, joining)?;
    let back = side(alloc, level, h, next, right.first, near, at.right, at.near)?;
    push_back(alloc, &mut paths, &back)?;
    paths.push(side(alloc, level, h, next, near.first, left, at.near, at.left)?)?;
    Ok(paths)
}

// The subdivision, from these branch vertices and paths.
fn crossing_from(
    alloc: Global,
    level: &Level,
    h: &Graph,
    next: &[u32],
    sectors: &Sectors,
    joining: u32,
) -> Result<Subdivision, AllocError>
    requires { IsClosing level.now h.now next.now sectors.now joining }
    ensures { IfOk result (λ r. IsSubdivision level.now.graph r.kind r.branch r.paths) }
{
    let at = feet_of(level, sectors);
    let branch = [level.x, at.far, at.near, level.y, at.right, at.left];
    let branch = Vec::from_slice(alloc, &branch)?;
    let paths = crossing_paths(alloc, level, h, next, sectors, &at, joining)?;
    Ok(Subdivision {
        kind: Pattern::K33,
        branch: Numbers::of(branch),
        paths: NumberLists::of(paths),
    })
}

/// The subdivision of K3,3 where the edges alternate.
pub(crate) fn crossing(
    alloc: Global,
    level: &Level,
    h: &Graph,
    next: &[u32],
    sectors: &Sectors,
) -> Result<Subdivision, AllocError>
    requires level { IsLevel level.now }
    requires contraction { h.now ≡ contraction level.now }
    requires steps { ArePlaneSteps (contraction level.now) next.now }
    requires crossing { AreCrossing level.now next.now sectors.now }
    ensures { IfOk result (λ r. IsSubdivision level.now.graph r.kind r.branch r.paths) }
{
    let joining = near_edge(level, sectors.near.first);
    crossing_from(alloc, level, h, next, sectors, joining)
}
