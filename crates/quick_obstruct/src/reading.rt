// A subdivision of K5 or K3,3 read off its segments.

use crate::segments::Segment;
use kuratowski::{Pattern, Subdivision};
use multigraph::{NumberLists, Numbers};
use quick_rotation::access::{at, number};
use std::alloc::{AllocError, Global};

// A pattern, branch vertices and paths between them that may be a subdivision.
#[derive(Drop)]
pub(crate) struct Proposal {
    pub(crate) kind: Pattern,
    pub(crate) branch: Vec<u32>,
    pub(crate) paths: Vec<Vec<u32>>,
}

impl Proposal {
    // The vertices between which path k is to lead.
    pub(crate) fn ends(&self, k: usize) -> (u32, u32) {
        let (from, to) = self.kind.edges().get(k).copied().unwrap_or((0, 0));
        (at(&self.branch, number(from)), at(&self.branch, number(to)))
    }

    // The number of edges of path k.
    pub(crate) fn length(&self, k: usize) -> usize {
        match self.paths.get(k) {
            None => 0,
            Some(path) => path.len(),
        }
    }

    // Branch vertex k.
    pub(crate) fn branch_vertex(&self, k: usize) -> u32 {
        at(&self.branch, number(k))
    }

    // The number of its edges.
    pub(crate) fn edge_count(&self) -> usize {
        let mut edges: usize = 0;
        for path in &self.paths {
            edges = edges.saturating_add(path.len());
        }
        edges
    }

    // The same as a subdivision.
    pub(crate) fn subdivision(self, alloc: Global) -> Result<Subdivision, AllocError> {
        let Proposal {
            kind,
            branch,
            paths,
        } = self;
        let mut lists = Vec::new(alloc);
        for path in paths {
            lists.push(Numbers::of(path))?;
        }
        Ok(Subdivision {
            kind,
            branch: Numbers::of(branch),
            paths: NumberLists::of(lists),
        })
    }
}

// The segment that leads from one vertex to another.
fn segment_between(segments: &[Segment], from: u32, to: u32) -> Option<&Segment> {
    for segment in segments {
        if segment.from == from && segment.to == to {
            return Some(segment);
        }
    }
    None
}

// The vertices where segments end, in increasing order.
fn branch_vertices(alloc: Global, segments: &[Segment]) -> Result<Vec<u32>, AllocError> {
    let mut branch = Vec::new(alloc);
    for segment in segments {
        branch.push(segment.from)?;
    }
    branch.sort_unstable();
    branch.dedup();
    Ok(branch)
}

// Appends those vertices that a segment joins with the first one, or those that none does.
fn put_side(
    segments: &[Segment],
    branch: &[u32],
    joined: bool,
    order: &mut Vec<u32>,
) -> Result<(), AllocError> {
    for vertex in branch {
        if segment_between(segments, at(branch, 0), *vertex).is_some() == joined {
            order.push(*vertex)?;
        }
    }
    Ok(())
}

// The branch vertices one side after the other.
fn by_sides(alloc: Global, segments: &[Segment], branch: &[u32]) -> Result<Vec<u32>, AllocError> {
    let mut order = Vec::new(alloc);
    put_side(segments, branch, false, &mut order)?;
    put_side(segments, branch, true, &mut order)?;
    Ok(order)
}

// The paths between these branch vertices for the edges of the pattern, if there is a segment for each.
fn paths_between(
    alloc: Global,
    segments: &[Segment],
    kind: Pattern,
    branch: Vec<u32>,
) -> Result<Option<Proposal>, AllocError> {
    let mut paths = Vec::new(alloc);
    for (from, to) in kind.edges() {
        let (from, to) = (at(&branch, number(*from)), at(&branch, number(*to)));
        let Some(segment) = segment_between(segments, from, to) else {
            return Ok(None);
        };
        paths.push(Vec::from_slice(alloc, &segment.edges)?)?;
    }
    Ok(Some(Proposal {
        kind,
        branch,
        paths,
    }))
}

// The subdivision that the segments are, each from either end; `None` where they are not one.
pub(crate) fn read(alloc: Global, segments: &[Segment]) -> Result<Option<Proposal>, AllocError> {
    let branch = branch_vertices(alloc, segments)?;
    match (branch.len(), segments.len()) {
        (5, 20) => paths_between(alloc, segments, Pattern::K5, branch),
        (6, 18) => {
            let order = by_sides(alloc, segments, &branch)?;
            paths_between(alloc, segments, Pattern::K33, order)
        }
        _ => Ok(None),
    }
}
