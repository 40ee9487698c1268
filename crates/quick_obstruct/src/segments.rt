// Segments: the paths between vertices of degree three or more through vertices of degree two.

use quick_rotation::access::NONE;
use quick_rotation::{Bins, EdgeEnds};
use std::alloc::{AllocError, Global};

// A segment from one end to the other, as a list of edges.
#[derive(Drop)]
pub(crate) struct Segment {
    pub(crate) from: u32,
    pub(crate) to: u32,
    pub(crate) edges: Vec<u32>,
}

// The dart by which a path continues that arrives by this one; `NONE` where it ends.
fn onward(list: &EdgeEnds, around: &Bins, dart: u32) -> u32 {
    let darts = around.bin(list.head(dart));
    if darts.len() != 2 {
        return NONE;
    }
    if darts[0] == dart ^ 1 {
        darts[1]
    } else {
        darts[0]
    }
}

// The segment that begins with the dart.
fn segment_from(
    alloc: Global,
    list: &EdgeEnds,
    around: &Bins,
    dart: u32,
) -> Result<Segment, AllocError> {
    let mut edges = Vec::new(alloc);
    let mut last = dart;
    for _ in 0..list.vertices {
        edges.push(last / 2)?;
        let next = onward(list, around, last);
        if next == NONE {
            break;
        }
        last = next;
    }
    Ok(Segment {
        from: list.tail(dart),
        to: list.head(last),
        edges,
    })
}

// The segments of these edges between two different vertices, each once from either end. No other edges are needed for edges not
// to be planar.
pub(crate) fn segments(
    alloc: Global,
    list: &EdgeEnds,
    edges: &[u32],
) -> Result<Vec<Segment>, AllocError> {
    let around = list.darts_of(alloc, edges)?;
    let mut found = Vec::new(alloc);
    for dart in &around.items {
        if around.bin(list.tail(*dart)).len() < 3 {
            continue;
        }
        let segment = segment_from(alloc, list, &around, *dart)?;
        if segment.from != segment.to && around.bin(segment.to).len() >= 3 {
            found.push(segment)?;
        }
    }
    Ok(found)
}
