// The cyclic order of the darts around each vertex, from the sides of the edges.

use crate::access::{NONE, at, is_marked, put};
use crate::brackets::Brackets;
use crate::edges::{EdgeEnds, numbers_below};
use crate::palm::Palm;
use crate::sorting::{Bins, bins_by_key};
use std::alloc::{AllocError, Global};

// The keys of the darts so far, and the tree edge at each vertex that the way is under.
#[derive(Drop)]
struct DartKeys {
    of_dart: Vec<u32>,
    under: Vec<u32>,
}

impl DartKeys {
    // The edge opens at this place, and gives its darts their keys: by the one it leaves its tail; the other one is the first
    // at the head of a tree edge, and is next to the tree edge under which a back edge returns: on the left the later the farther,
    // on the right the later the nearer.
    fn open(&mut self, list: &EdgeEnds, palm: &Palm, begin: &[u32], left: &[bool], edge: u32) {
        let place = at(begin, edge);
        let size = at(&palm.size, edge);
        let tail = at(&palm.tail, edge);
        let first = edge.saturating_mul(2);
        let leaves = if list.tail(first) == tail {
            first
        } else {
            first ^ 1
        };
        put(
            &mut self.of_dart,
            leaves,
            place.saturating_mul(2).saturating_add(size),
        );
        if palm.is_tree(edge) {
            put(&mut self.under, tail, edge);
            put(&mut self.of_dart, leaves ^ 1, 0);
            return;
        }
        let over = at(&self.under, at(&palm.head, edge));
        let begins = at(begin, over);
        let width = at(&palm.size, over);
        let beside = begins
            .saturating_add(width)
            .saturating_sub(1)
            .saturating_sub(place);
        let side = if is_marked(left, edge) { 0 } else { width };
        let key = begins
            .saturating_mul(2)
            .saturating_add(side)
            .saturating_add(beside);
        put(&mut self.of_dart, leaves ^ 1, key);
    }
}

// The key of each dart.
fn keys(
    alloc: Global,
    list: &EdgeEnds,
    palm: &Palm,
    brackets: &Brackets,
    left: &[bool],
) -> Result<Vec<u32>, AllocError> {
    let mut keys = DartKeys {
        of_dart: vec![in alloc; 0; list.tails.len()]?,
        under: vec![in alloc; NONE; list.vertices as usize]?,
    };
    for bracket in &brackets.way {
        if *bracket % 2 == 0 {
            keys.open(list, palm, &brackets.begin, left, *bracket / 2);
        }
    }
    Ok(keys.of_dart)
}

// The darts at each vertex in their cyclic order.
pub(crate) fn orders(
    alloc: Global,
    list: &EdgeEnds,
    palm: &Palm,
    brackets: &Brackets,
    left: &[bool],
) -> Result<Bins, AllocError> {
    let keys = keys(alloc, list, palm, brackets, left)?;
    let darts = list.edge_count().saturating_mul(2);
    let all = numbers_below(alloc, darts)?;
    let sorted = bins_by_key(
        alloc,
        &all,
        &keys,
        darts.saturating_mul(2).saturating_add(1),
    )?;
    bins_by_key(alloc, &sorted.items, &list.tails, list.vertices)
}
