// The subdivision of K5 where three edges around the merged vertex lead from x to common neighbours of x and y.

ghost use Rattle.std.specs.Prelude.{◌≡◌, ◌≤◌, ◌<◌, true, length, IfOk};
ghost use Rattle.multigraph.specs.Graph.{edge_count, is_end, other_end, max_darts};
ghost use Rattle.kuratowski.specs.Subdivision.{IsSubdivision};
ghost use Rattle.contractions.specs.Level.{IsLevel, contraction, edge_before};
ghost use Rattle.contract_obstruct.specs.Steps.{ArePlaneSteps};
ghost use Rattle.contract_obstruct.specs.Crossing.{AreEdges};
ghost use Rattle.contract_obstruct.specs.Triple.{tip, LeadsToCommon, AreTriple, IsTriple, triple_spokes, triple_paths};

use crate::crossing::{Sector, edge_before, joining_edge, push_back, push_edge, side};
use contractions::Level;
use kuratowski::{Pattern, Subdivision};
use multigraph::{Graph, NumberLists, Numbers};
use std::alloc::{AllocError, Global};

/// The cyclic order around the merged vertex in three sectors.
#[derive(Drop)]
pub(crate) struct Thirds {
    pub a: Sector,
    pub b: Sector,
    pub c: Sector,
}

// Where the first edge of the sector leads from x.
fn tip(level: &Level, sector: &Sector) -> u32
    requires { LeadsToCommon level.now sector.now }
    ensures { result ≡ tip level.now sector.now }
{
    let edge = edge_before(level, sector.first);
    level.graph.other_end(edge, level.x)
}

// An edge from y to there.
fn common_edge(level: &Level, sector: &Sector) -> u32
    requires { LeadsToCommon level.now sector.now }
    ensures within { result < edge_count level.now.graph }
    ensures leaves { is_end level.now.graph level.now.y result ≡ true }
    ensures arrives { other_end level.now.graph result level.now.y ≡ tip level.now sector.now }
{
    joining_edge(&level.graph, level.y, tip(level, sector))
}

// The paths that are single edges.
fn triple_spokes(
    alloc: Global,
    level: &Level,
    round: &Thirds,
    to: (u32, u32, u32),
) -> Result<Vec<Numbers>, AllocError>
    ensures { IfOk result
        (λ paths. paths.items
        ≡ triple_spokes level.now round.now.a round.now.b round.now.c to.0 to.1 to.2) }
{
    let mut paths = Vec::new(alloc);
    push_edge(alloc, &mut paths, level.edge)?;
    push_edge(alloc, &mut paths, edge_before(level, round.c.first))?;
    push_edge(alloc, &mut paths, edge_before(level, round.b.first))?;
    push_edge(alloc, &mut paths, edge_before(level, round.a.first))?;
    push_edge(alloc, &mut paths, to.2)?;
    push_edge(alloc, &mut paths, to.1)?;
    push_edge(alloc, &mut paths, to.0)?;
    Ok(paths)
}

// All paths.
fn triple_paths(
    alloc: Global,
    level: &Level,
    h: &Graph,
    next: &[u32],
    round: &Thirds,
    to: (u32, u32, u32),
) -> Result<Vec<Numbers>, AllocError>
    requires few { length next.now ≤ max_darts }
    requires third { AreEdges h.now round.now.c.first round.now.b.behind.items }
    requires second { AreEdges h.now round.now.b.first round.now.a.behind.items }
    requires first { AreEdges h.now round.now.a.first round.now.c.behind.items }
    requires triple { AreTriple level.now next.now round.now.a round.now.b round.now.c }
    requires is { IsTriple level.now h.now next.now
        round.now.a round.now.b round.now.c to.0 to.1 to.2 }
    ensures { IfOk result (λ paths. paths.items ≡ triple_paths level.now h.now next.now
        round.now.a round.now.b round.now.c to.0 to.1 to.2) }
{
    let at_a = tip(level, &round.a);
    let at_b = tip(level, &round.b);
    let at_c = tip(level, &round.c);
    let mut paths = triple_spokes(alloc, level, round, to)?;
    paths.push(side(alloc, level, h, next, round.c.first, &round.b, at_c, at_b)?)?;
    let back = side(alloc, level, h, next, round.a.first, &round.c, at_a, at_c)?;
    push_back(alloc, &mut paths, &back)?;
    paths.push(side(alloc, level, h, next, round.b.first, &round.a, at_b, at_a)?)?;
    Ok(paths)
}

// The subdivision, from these branch vertices and paths.
fn triple_from(
    alloc: Global,
    level: &Level,
    h: &Graph,
    next: &[u32],
    round: &Thirds,
    to: (u32, u32, u32),
) -> Result<Subdivision, AllocError>
    requires few { length next.now ≤ max_darts }
    requires third { AreEdges h.now round.now.c.first round.now.b.behind.items }
    requires second { AreEdges h.now round.now.b.first round.now.a.behind.items }
    requires first { AreEdges h.now round.now.a.first round.now.c.behind.items }
    requires triple { AreTriple level.now next.now round.now.a round.now.b round.now.c }
    requires is { IsTriple level.now h.now next.now
        round.now.a round.now.b round.now.c to.0 to.1 to.2 }
    ensures { IfOk result (λ r. IsSubdivision level.now.graph r.kind r.branch r.paths) }
{
    let ends = [
        level.x,
        level.y,
        tip(level, &round.c),
        tip(level, &round.b),
        tip(level, &round.a),
    ];
    let branch = Vec::from_slice(alloc, &ends)?;
    let paths = triple_paths(alloc, level, h, next, round, to)?;
    Ok(Subdivision {
        kind: Pattern::K5,
        branch: Numbers::of(branch),
        paths: NumberLists::of(paths),
    })
}

/// The subdivision of K5 where three edges lead to common neighbours.
pub(crate) fn triple(
    alloc: Global,
    level: &Level,
    h: &Graph,
    next: &[u32],
    round: &Thirds,
) -> Result<Subdivision, AllocError>
    requires level { IsLevel level.now }
    requires contraction { h.now ≡ contraction level.now }
    requires steps { ArePlaneSteps (contraction level.now) next.now }
    requires triple { AreTriple level.now next.now round.now.a round.now.b round.now.c }
    ensures { IfOk result (λ r. IsSubdivision level.now.graph r.kind r.branch r.paths) }
{
    let to_a = common_edge(level, &round.a);
    let to_b = common_edge(level, &round.b);
    let to_c = common_edge(level, &round.c);
    triple_from(alloc, level, h, next, round, (to_a, to_b, to_c))
}
