// A subdivision of the contraction of a level, lifted to a subdivision of its graph.

ghost use Rattle.std.specs.Prelude.{◌≡◌, ◌<◌, ◌+◌, ℕ, false, length, slice_index, IfOk, MatchOption};
ghost use Rattle.multigraph.specs.Graph.{max_vertices};
ghost use Rattle.permutations.specs.Members.{is_member};
ghost use Rattle.graph_theory.specs.Path.{IsWalk};
ghost use Rattle.kuratowski.specs.Subdivision.{branch_at, branch_count, pattern_edges, IsSubdivision};
ghost use Rattle.contractions.specs.Contracted.{contracted_vertex};
ghost use Rattle.planarity.specs.Lift.{spokes, leaves_by, spokes_on, spokes_off, lifted_branch, split_branch, split_over};
ghost use Rattle.contractions.specs.Level.{IsLevel, contraction};
ghost use Rattle.contract_obstruct.specs.Lifting.{with_number, lifted_path, lifted_level_paths, split_level_paths, IsLifted, IsSplit, LeadOverEdges};

use crate::paths::{edges_before, is_listed, lift_path, number_at, path_between, touches};
use contractions::{Level, contracted_vertex};
use kuratowski::{Pattern, Subdivision};
use multigraph::{NumberLists, Numbers};
use std::alloc::{AllocError, Global};

// The vertex whose number is v when y is left out.
fn with_number(y: u32, v: u32) -> u32
    requires { v < max_vertices }
    ensures { result ≡ with_number y v }
{
    if v < y { v } else { v + 1 }
}

// The vertices of the pattern that are joined with its vertex m.
fn spokes(alloc: Global, kind: Pattern, m: usize) -> Result<Vec<usize>, AllocError>
    ensures { IfOk result (λ joined. joined.items ≡ spokes kind m) }
{
    let mut joined = Vec::new(alloc);
    for i in 0..kind.branch_count() {
        if is_listed(kind.edges(), m, i) {
            joined.push(i)?;
        }
    }
    Ok(joined)
}

// Whether the path from vertex m to vertex i of the pattern touches y.
fn leaves_by(
    alloc: Global,
    level: &Level,
    kind: Pattern,
    paths: &[Numbers],
    m: usize,
    i: usize,
) -> Result<bool, AllocError>
    requires one_each { length paths.now ≡ length (pattern_edges kind) }
    requires edges { LeadOverEdges level.now paths.now }
    ensures { IfOk result (λ held. held ≡ leaves_by level.now.graph
        (slice_index level.now.kept.items) kind paths.now level.now.y m i) }
{
    let path = path_between(alloc, kind.edges(), paths, m, i)?;
    let edges = edges_before(alloc, &level.kept, &path)?;
    Ok(touches(&level.graph, level.y, &edges))
}

// The vertices to which the path from vertex m touches y, and those to which it does not.
fn spokes_apart(
    alloc: Global,
    level: &Level,
    kind: Pattern,
    paths: &[Numbers],
    m: usize,
) -> Result<(Vec<usize>, Vec<usize>), AllocError>
    requires one_each { length paths.now ≡ length (pattern_edges kind) }
    requires edges { LeadOverEdges level.now paths.now }
    ensures on { IfOk result (λ both. both.0.items ≡ spokes_on level.now.graph
        (slice_index level.now.kept.items) kind paths.now level.now.y m) }
    ensures off { IfOk result (λ both. both.1.items ≡ spokes_off level.now.graph
        (slice_index level.now.kept.items) kind paths.now level.now.y m) }
{
    let joined = spokes(alloc, kind, m)?;
    let mut on = Vec::new(alloc);
    let mut off = Vec::new(alloc);
    for i in &joined {
        if leaves_by(alloc, level, kind, paths, m, *i)? {
            on.push(*i)?;
        } else {
            off.push(*i)?;
        }
    }
    Ok((on, off))
}

// The path over a pair of vertices of the pattern, lifted to one between two branch vertices.
fn lifted_path(
    alloc: Global,
    level: &Level,
    kind: Pattern,
    paths: &[Numbers],
    branch: &[u32],
    pair: (usize, usize),
    over: (usize, usize),
) -> Result<Numbers, AllocError>
    requires one_each { length paths.now ≡ length (pattern_edges kind) }
    requires walk { IsWalk level.now.graph (branch_at branch.now pair.0)
        (lifted_path level.now kind paths.now branch.now pair over) }
    ensures { IfOk result
        (λ path. path ≡ lifted_path level.now kind paths.now branch.now pair over) }
{
    let path = path_between(alloc, kind.edges(), paths, over.0, over.1)?;
    let edges = edges_before(alloc, &level.kept, &path)?;
    let from = number_at(branch, pair.0);
    let to = number_at(branch, pair.1);
    lift_path(alloc, &level.graph, level.edge, from, &edges, to)
}

// All paths lifted.
fn lifted_paths(
    alloc: Global,
    level: &Level,
    kind: Pattern,
    paths: &[Numbers],
    branch: &[u32],
) -> Result<Vec<Numbers>, AllocError>
    requires one_each { length paths.now ≡ length (pattern_edges kind) }
    requires lifted { IsSubdivision level.now.graph kind branch.now
        (lifted_level_paths level.now kind paths.now branch.now) }
    ensures { IfOk result
        (λ made. made.items ≡ lifted_level_paths level.now kind paths.now branch.now) }
{
    let mut lifted = Vec::new(alloc);
    for pair in kind.edges() {
        lifted.push(lifted_path(alloc, level, kind, paths, branch, *pair, *pair)?)?;
    }
    Ok(lifted)
}

// The branch vertices as vertices of the graph: `foot` for the merged one.
fn lifted_branch(
    alloc: Global,
    level: &Level,
    foot: u32,
    branch: &[u32],
) -> Result<Vec<u32>, AllocError>
    requires { (i : ℕ) → i < length branch.now → slice_index branch.now i < max_vertices }
    ensures { IfOk result (λ made. made.items ≡ lifted_branch
        (contracted_vertex level.now.x level.now.y level.now.x) foot
        (with_number level.now.y) branch.now) }
{
    let top = contracted_vertex(level.x, level.y, level.x);
    let mut lifted = Vec::new(alloc);
    for v in branch {
        lifted.push(if *v == top {
            foot
        } else {
            with_number(level.y, *v)
        })?;
    }
    Ok(lifted)
}

// The same pattern lifted, with `foot` for the merged vertex.
fn lift_at(
    alloc: Global,
    level: &Level,
    foot: u32,
    s: &Subdivision,
) -> Result<Subdivision, AllocError>
    requires of { IsSubdivision (contraction level.now) s.now.kind s.now.branch s.now.paths }
    requires few { (contraction level.now).vertex_count < max_vertices }
    requires lifted { IsLifted level.now foot s.now.kind s.now.branch s.now.paths }
    ensures { IfOk result (λ r. IsSubdivision level.now.graph r.kind r.branch r.paths) }
{
    let branch = lifted_branch(alloc, level, foot, s.branch.as_slice())?;
    let paths = lifted_paths(alloc, level, s.kind, s.paths.as_slice(), &branch)?;
    Ok(Subdivision {
        kind: s.kind,
        branch: Numbers::of(branch),
        paths: NumberLists::of(paths),
    })
}

// The vertex of the graph that branch vertex i becomes.
fn vertex_over(level: &Level, branch: &[u32], i: usize) -> u32
    requires { slice_index branch.now i < max_vertices }
    ensures { result ≡ with_number level.now.y (branch_at branch.now i) }
{
    with_number(level.y, number_at(branch, i))
}

// The branch vertices of K3,3 for K5, of which the paths at the merged vertex go to `on` from y, and to `off` from x.
fn split_branch(
    alloc: Global,
    level: &Level,
    branch: &[u32],
    off: (usize, usize),
    on: (usize, usize),
) -> Result<Vec<u32>, AllocError>
    requires { (i : ℕ) → slice_index branch.now i < max_vertices }
    ensures { IfOk result (λ made. made.items ≡ split_branch level.now.x level.now.y
        (with_number level.now.y) branch.now off.0 off.1 on.0 on.1) }
{
    let made = [
        level.x,
        vertex_over(level, branch, on.0),
        vertex_over(level, branch, on.1),
        level.y,
        vertex_over(level, branch, off.0),
        vertex_over(level, branch, off.1),
    ];
    Vec::from_slice(alloc, &made)
}

// The vertex of K5 that vertex i of K3,3 is over.
fn split_over(m: usize, off: (usize, usize), on: (usize, usize), i: usize) -> usize
    requires { i < 6 }
    ensures { result ≡ split_over m off.0 off.1 on.0 on.1 i }
{
    [m, on.0, on.1, m, off.0, off.1][i]
}

// The paths of K3,3.
fn split_paths(
    alloc: Global,
    level: &Level,
    paths: &[Numbers],
    m: usize,
    off: (usize, usize),
    on: (usize, usize),
    branch: &[u32],
) -> Result<Vec<Numbers>, AllocError>
    requires one_each { length paths.now ≡ length (pattern_edges Pattern.K5) }
    requires lifted { IsSubdivision level.now.graph Pattern.K33 branch.now
        (split_level_paths level.now paths.now m off on branch.now) }
    ensures { IfOk result
        (λ made. made.items ≡ split_level_paths level.now paths.now m off on branch.now) }
{
    let mut made = Vec::new(alloc);
    for pair in Pattern::K33.edges() {
        let over = (
            split_over(m, off, on, pair.0),
            split_over(m, off, on, pair.1),
        );
        made.push(lifted_path(alloc, level, Pattern::K5, paths, branch, *pair, over)?)?;
    }
    Ok(made)
}

// K5 lifted to K3,3, where at the merged vertex two paths begin at x and two at y.
fn lift_split(
    alloc: Global,
    level: &Level,
    s: &Subdivision,
    m: usize,
    off: (usize, usize),
    on: (usize, usize),
) -> Result<Subdivision, AllocError>
    requires of { IsSubdivision (contraction level.now) Pattern.K5 s.now.branch s.now.paths }
    requires few { (i : ℕ) → slice_index s.now.branch i < max_vertices }
    requires lifted { IsSplit level.now m off on s.now.branch s.now.paths }
    ensures { IfOk result (λ r. IsSubdivision level.now.graph r.kind r.branch r.paths) }
{
    let branch = split_branch(alloc, level, s.branch.as_slice(), off, on)?;
    let paths = split_paths(alloc, level, s.paths.as_slice(), m, off, on, &branch)?;
    Ok(Subdivision {
        kind: Pattern::K33,
        branch: Numbers::of(branch),
        paths: NumberLists::of(paths),
    })
}

// A subdivision lifted whose branch vertex m is the merged vertex.
fn lift_branch(
    alloc: Global,
    level: &Level,
    s: &Subdivision,
    m: usize,
) -> Result<Subdivision, AllocError>
    requires level { IsLevel level.now }
    requires of { IsSubdivision (contraction level.now) s.now.kind s.now.branch s.now.paths }
    requires place { m < branch_count s.now.kind }
    requires merged { branch_at s.now.branch m
        ≡ contracted_vertex level.now.x level.now.y level.now.x }
    ensures { IfOk result (λ r. IsSubdivision level.now.graph r.kind r.branch r.paths) }
{
    let (on, off) = spokes_apart(alloc, level, s.kind, s.paths.as_slice(), m)?;
    if on.len() < 2 {
        return lift_at(alloc, level, level.x, s);
    }
    if off.len() < 2 {
        return lift_at(alloc, level, level.y, s);
    }
    lift_split(alloc, level, s, m, (off[0], off[1]), (on[0], on[1]))
}

// The place of a number in a list.
fn place_of(list: &[u32], number: u32) -> Option<usize>
    ensures { MatchOption result (is_member number list.now ≡ false) (λ m. (m < length list.now)
        × (slice_index list.now m ≡ number)) }
{
    list.iter().position(|&member| member == number)
}

/// A subdivision of the graph of a level, lifted from one of its contraction (Thomassen 1980): paths are led over the contracted
/// edge, and where at the merged vertex two paths of K5 begin at either of its ends, K5 becomes K3,3. Fails only if memory runs
/// out.
pub fn lift(alloc: Global, level: &Level, s: &Subdivision) -> Result<Subdivision, AllocError>
    requires level { IsLevel level.now }
    requires of { IsSubdivision (contraction level.now) s.now.kind s.now.branch s.now.paths }
    ensures { IfOk result (λ r. IsSubdivision level.now.graph r.kind r.branch r.paths) }
{
    let merged = contracted_vertex(level.x, level.y, level.x);
    match place_of(s.branch.as_slice(), merged) {
        Some(m) => lift_branch(alloc, level, s, m),
        None => lift_at(alloc, level, level.x, s),
    }
}
