// Which segments are needed for edges not to be planar. The tests see each segment as one edge, so they take no longer where the
// segments are long.

use crate::segments::{Segment, segments};
use quick_rotation::access::{at, number, put};
use quick_rotation::{EdgeEnds, PartTest, bins_by_key};
use std::alloc::{AllocError, Global};

// In how many batches the segments are tried first.
const BATCHES: usize = 8;

// Of each segment its place, its ends, and a number that is the less the longer it is.
#[derive(Drop)]
struct Keys {
    places: Vec<u32>,
    from: Vec<u32>,
    to: Vec<u32>,
    shortness: Vec<u32>,
}

impl Keys {
    // The keys of the segments, with the places of those that begin at their lesser end.
    fn of(alloc: Global, segments: &[Segment], bound: u32) -> Result<Keys, AllocError> {
        let mut keys = Keys {
            places: Vec::new(alloc),
            from: Vec::with_capacity(alloc, segments.len())?,
            to: Vec::with_capacity(alloc, segments.len())?,
            shortness: Vec::with_capacity(alloc, segments.len())?,
        };
        for segment in segments {
            if segment.from < segment.to {
                keys.places.push(number(keys.from.len()))?;
            }
            keys.from.push(segment.from)?;
            keys.to.push(segment.to)?;
            let length = number(segment.edges.len());
            keys.shortness.push(bound.saturating_sub(length))?;
        }
        Ok(keys)
    }

    // Whether the segments at the two places have the same ends.
    fn are_parallel(&self, first: u32, second: u32) -> bool {
        at(&self.from, first) == at(&self.from, second)
            && at(&self.to, first) == at(&self.to, second)
    }

    // The places of which each is the last with its ends.
    fn last_of_each(&self, alloc: Global, sorted: &[u32]) -> Result<Vec<u32>, AllocError> {
        let mut places = Vec::new(alloc);
        for (k, place) in sorted.iter().enumerate() {
            let next = at(sorted, number(k.saturating_add(1)));
            if !self.are_parallel(*place, next) {
                places.push(*place)?;
            }
        }
        Ok(places)
    }

    // The places of the segments, of parallel ones that of a shortest alone, the longest first.
    fn simple(&self, alloc: Global, bound: u32) -> Result<Vec<u32>, AllocError> {
        let over = bound.saturating_add(1);
        let by_length = bins_by_key(alloc, &self.places, &self.shortness, over)?;
        let by_to = bins_by_key(alloc, &by_length.items, &self.to, bound)?;
        let by_both = bins_by_key(alloc, &by_to.items, &self.from, bound)?;
        let simple = self.last_of_each(alloc, &by_both.items)?;
        Ok(bins_by_key(alloc, &simple, &self.shortness, over)?.items)
    }
}

// Segments as the edges of a list, those that are left of them, and how many edges the tests may still examine. Each vertex that a
// test has met has the number of the last one that did.
#[derive(Drop)]
struct Chart {
    list: EdgeEnds,
    left: Vec<u32>,
    rest: Vec<u32>,
    met: Vec<u32>,
    tests: u32,
    budget: u64,
}

impl Chart {
    // The segments at these places as edges, all of which are left.
    fn of(
        alloc: Global,
        vertices: u32,
        segments: &[Segment],
        places: &[u32],
    ) -> Result<Chart, AllocError> {
        let mut chart = Chart {
            list: EdgeEnds {
                vertices,
                tails: Vec::with_capacity(alloc, places.len().saturating_mul(2))?,
            },
            left: Vec::with_capacity(alloc, places.len())?,
            rest: Vec::with_capacity(alloc, places.len())?,
            met: vec![in alloc; 0; vertices as usize]?,
            tests: 0,
            budget: 0,
        };
        for place in places {
            if let Some(segment) = segments.get(*place as usize) {
                chart.left.push(chart.list.edge_count())?;
                chart.list.tails.push(segment.from)?;
                chart.list.tails.push(segment.to)?;
            }
        }
        Ok(chart)
    }

    // Meets the vertex. Returns whether this test has met it before.
    fn meets_again(&mut self, vertex: u32) -> bool {
        let before = at(&self.met, vertex);
        put(&mut self.met, vertex, self.tests);
        before == self.tests
    }

    // How many vertices the rest has.
    fn vertices(&mut self) -> usize {
        self.tests = self.tests.saturating_add(1);
        let mut count: usize = 0;
        for k in 0..number(self.rest.len()) {
            let dart = at(&self.rest, k).saturating_mul(2);
            let (tail, head) = (self.list.tail(dart), self.list.head(dart));
            if !self.meets_again(tail) {
                count = count.saturating_add(1);
            }
            if !self.meets_again(head) {
                count = count.saturating_add(1);
            }
        }
        count
    }

    // Whether the rest is planar. It is if it is connected and fewer than four of its edges are off a tree.
    fn is_rest_planar(&mut self, test: &mut PartTest) -> Result<bool, AllocError> {
        if self.rest.len() < self.vertices().saturating_add(3) {
            return Ok(true);
        }
        test.is_planar(&self.list, &self.rest)
    }

    // Drops this many edges from a place on, if what is left is not planar. Returns whether they are dropped.
    fn drop_some(
        &mut self,
        test: &mut PartTest,
        start: usize,
        count: usize,
    ) -> Result<bool, AllocError> {
        let start = start.min(self.left.len());
        let end = start.saturating_add(count).min(self.left.len());
        self.rest.clear();
        self.rest.extend_from_slice(&self.left[..start])?;
        self.rest.extend_from_slice(&self.left[end..])?;
        self.budget = self.budget.saturating_sub(self.rest.len() as u64);
        if self.is_rest_planar(test)? {
            return Ok(false);
        }
        self.left.clear();
        self.left.extend_from_slice(&self.rest)?;
        Ok(true)
    }

    // Tries batches of this many edges one after the other.
    fn pass(&mut self, test: &mut PartTest, size: usize) -> Result<(), AllocError> {
        let all = self.left.len();
        let mut start: usize = 0;
        for _ in 0..all {
            if start >= self.left.len() || self.budget == 0 {
                break;
            }
            if !self.drop_some(test, start, size)? {
                start = start.saturating_add(size);
            }
        }
        Ok(())
    }

    // Drops what is not needed, first in large batches, at last single edges.
    fn thin_out(&mut self, test: &mut PartTest) -> Result<(), AllocError> {
        let mut size = self.left.len() / BATCHES;
        for _ in 0..32 {
            self.pass(test, size.max(1))?;
            if size <= 1 {
                break;
            }
            size /= 2;
        }
        Ok(())
    }
}

// The edges of the segments without those that are not needed.
fn fewer_edges(
    alloc: Global,
    list: &EdgeEnds,
    test: &mut PartTest,
    segments: &[Segment],
    budget: &mut u64,
) -> Result<Vec<u32>, AllocError> {
    let bound = list.vertices.saturating_add(1);
    let places = Keys::of(alloc, segments, bound)?.simple(alloc, bound)?;
    let mut chart = Chart::of(alloc, list.vertices, segments, &places)?;
    chart.budget = *budget;
    chart.thin_out(test)?;
    *budget = chart.budget;
    let mut edges = Vec::new(alloc);
    for edge in &chart.left {
        if let Some(segment) = segments.get(at(&places, *edge) as usize) {
            edges.extend_from_slice(&segment.edges)?;
        }
    }
    Ok(edges)
}

// The segments that are left when each that is not needed is dropped, the longest first. The tests examine up to so many edges for
// each edge of the list.
pub(crate) fn needed_segments(
    alloc: Global,
    list: &EdgeEnds,
    test: &mut PartTest,
    edges: &[u32],
    steps: u64,
) -> Result<Vec<Segment>, AllocError> {
    let mut budget = steps.saturating_mul(list.edge_count() as u64);
    let mut found = segments(alloc, list, edges)?;
    let mut count = edges.len();
    for _ in 0..list.edge_count() {
        let fewer = fewer_edges(alloc, list, test, &found, &mut budget)?;
        if fewer.len() >= count || budget == 0 {
            break;
        }
        count = fewer.len();
        found = segments(alloc, list, &fewer)?;
    }
    Ok(found)
}
