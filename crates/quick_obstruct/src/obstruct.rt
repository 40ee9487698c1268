// The finder as a whole.

use crate::chart::needed_segments;
use crate::itself::itself;
use crate::reading::{Proposal, read};
use crate::shortening::shorten;
use crate::sliding::slide;
use kuratowski::{Pattern, Subdivision};
use multigraph::Graph;
use quick_minors::{few_edges, few_edges_near, shrunk_edges};
use quick_rotation::{Bins, EdgeEnds, PartTest, numbers_below};
use std::alloc::{AllocError, Global};

// How often the search begins again from a branch vertex of what it found.
const AGAIN: usize = 3;

// A subdivision of more edges is long.
const LONG: usize = 600;

// A graph of no more edges is small, and a subdivision of no more edges is K3,3 or K5 itself.
const SMALL: u32 = 40;

const LEAST: usize = 10;

// How many edges tests may examine for each edge of the list.
const STEPS: u64 = 40;

const STEPS_SMALL: u64 = 400;

// What may be a subdivision among these edges, which are not planar.
fn find_among(
    alloc: Global,
    list: &EdgeEnds,
    test: &mut PartTest,
    edges: &[u32],
    steps: u64,
) -> Result<Option<Proposal>, AllocError> {
    let segments = needed_segments(alloc, list, test, edges, steps)?;
    read(alloc, &segments)
}

// Makes the subdivision shorter.
fn tighten(
    alloc: Global,
    list: &EdgeEnds,
    around: &Bins,
    found: &mut Proposal,
) -> Result<(), AllocError> {
    if found.edge_count() <= LEAST {
        return Ok(());
    }
    match found.kind {
        Pattern::K5 => shorten(alloc, list, around, found),
        Pattern::K33 => slide(alloc, list, around, found),
    }
}

// What may be a subdivision among the edges of one, a breadth-first tree from the root, and the first edges off it, if few of its
// edges are off the tree.
fn find_near(
    alloc: Global,
    list: &EdgeEnds,
    around: &Bins,
    test: &mut PartTest,
    found: &Proposal,
    root: u32,
) -> Result<Option<Proposal>, AllocError> {
    let Some(edges) = few_edges_near(alloc, list, around, test, &found.paths, root)? else {
        return Ok(None);
    };
    let Some(mut other) = find_among(alloc, list, test, &edges, STEPS)? else {
        return Ok(None);
    };
    tighten(alloc, list, around, &mut other)?;
    Ok(Some(other))
}

// The branch vertex with the most darts.
fn widest(around: &Bins, found: &Proposal) -> u32 {
    let mut widest = found.branch_vertex(0);
    for vertex in &found.branch {
        if around.bin(*vertex).len() > around.bin(widest).len() {
            widest = *vertex;
        }
    }
    widest
}

// What may be a subdivision, found from the root on by few edges.
fn find_from(
    alloc: Global,
    list: &EdgeEnds,
    around: &Bins,
    test: &mut PartTest,
    root: u32,
) -> Result<Option<Proposal>, AllocError> {
    let Some(edges) = few_edges(alloc, list, around, test, root)? else {
        return Ok(None);
    };
    let Some(mut found) = find_among(alloc, list, test, &edges, STEPS)? else {
        return Ok(None);
    };
    tighten(alloc, list, around, &mut found)?;
    Ok(Some(found))
}

// The shorter of one and another, if there is another.
fn the_shorter(one: Proposal, another: Option<Proposal>) -> Proposal {
    match another {
        Some(other) if other.edge_count() < one.edge_count() => other,
        _ => one,
    }
}

// A shorter subdivision near a branch vertex, or the same.
fn find_shorter(
    alloc: Global,
    list: &EdgeEnds,
    around: &Bins,
    test: &mut PartTest,
    found: Proposal,
) -> Result<Proposal, AllocError> {
    let mut best = found;
    if best.edge_count() > LONG {
        let root = widest(around, &best);
        best = the_shorter(best, find_from(alloc, list, around, test, root)?);
    }
    for k in 0..AGAIN {
        if best.edge_count() <= LEAST || best.edge_count() > LONG {
            break;
        }
        let root = best.branch_vertex(k);
        let other = find_near(alloc, list, around, test, &best, root)?;
        best = the_shorter(best, other);
    }
    Ok(best)
}

// What may be a subdivision in a connected list of edges that is not planar.
fn find_large(alloc: Global, list: &EdgeEnds) -> Result<Option<Proposal>, AllocError> {
    let mut test = PartTest::of(alloc, list)?;
    let all = numbers_below(alloc, list.edge_count())?;
    let around = list.darts_of(alloc, &all)?;
    let edges = match few_edges(alloc, list, &around, &mut test, 0)? {
        Some(edges) => edges,
        None => shrunk_edges(alloc, list)?,
    };
    let Some(mut found) = find_among(alloc, list, &mut test, &edges, STEPS)? else {
        return Ok(None);
    };
    tighten(alloc, list, &around, &mut found)?;
    Ok(Some(find_shorter(alloc, list, &around, &mut test, found)?))
}

// The same in a small list.
fn find_small(alloc: Global, list: &EdgeEnds) -> Result<Option<Proposal>, AllocError> {
    let mut test = PartTest::of(alloc, list)?;
    let all = numbers_below(alloc, list.edge_count())?;
    let Some(mut found) = find_among(alloc, list, &mut test, &all, STEPS_SMALL)? else {
        return Ok(None);
    };
    if found.edge_count() > LEAST {
        let around = list.darts_of(alloc, &all)?;
        shorten(alloc, list, &around, &mut found)?;
    }
    Ok(Some(found))
}

// The same in any list.
fn find(alloc: Global, list: &EdgeEnds) -> Result<Option<Proposal>, AllocError> {
    if let Some(whole) = itself(alloc, list)? {
        return Ok(Some(whole));
    }
    if list.edge_count() <= SMALL {
        return find_small(alloc, list);
    }
    find_large(alloc, list)
}

/// What may be a subdivision of K5 or of K3,3 in a connected graph that is not planar, or `None`, which says nothing of the graph.
/// Fails only if memory runs out.
pub fn propose_subdivision(alloc: Global, g: &Graph) -> Result<Option<Subdivision>, AllocError> {
    let list = EdgeEnds::of(alloc, g)?;
    let Some(found) = find(alloc, &list)? else {
        return Ok(None);
    };
    Ok(Some(found.subdivision(alloc)?))
}
