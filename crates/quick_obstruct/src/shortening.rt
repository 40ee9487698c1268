// Shorter paths for a subdivision.

use crate::reading::Proposal;
use quick_minors::{breadth_first, path_up};
use quick_rotation::access::mark;
use quick_rotation::{Bins, EdgeEnds};
use std::alloc::{AllocError, Global};

// How often all paths are tried.
const ROUNDS: u32 = 4;

// Marks the ends of the edges of all paths but one.
fn mark_others(list: &EdgeEnds, paths: &[Vec<u32>], k: usize, marks: &mut [bool]) {
    for (i, path) in paths.iter().enumerate() {
        if i != k {
            mark_ends(list, path, marks);
        }
    }
}

// Marks the ends of the edges.
fn mark_ends(list: &EdgeEnds, edges: &[u32], marks: &mut [bool]) {
    for edge in edges {
        let dart = edge.saturating_mul(2);
        mark(marks, list.tail(dart));
        mark(marks, list.head(dart));
    }
}

// A shortest path between the ends of path k that avoids all other paths.
fn shortest(
    alloc: Global,
    list: &EdgeEnds,
    around: &Bins,
    proposal: &Proposal,
    k: usize,
) -> Result<Vec<u32>, AllocError> {
    let mut marks = vec![in alloc; false; list.vertices as usize]?;
    mark_others(list, &proposal.paths, k, &mut marks);
    let (from, to) = proposal.ends(k);
    if (from as usize) < marks.len() {
        marks[from as usize] = false;
    }
    let tree = breadth_first(alloc, list, around, to, from, marks)?;
    path_up(alloc, list, &tree, from)
}

// Tries each path once. Returns whether one became shorter.
fn shorten_once(
    alloc: Global,
    list: &EdgeEnds,
    around: &Bins,
    proposal: &mut Proposal,
) -> Result<bool, AllocError> {
    let mut shorter = false;
    for k in 0..proposal.paths.len() {
        if proposal.length(k) <= 1 {
            continue;
        }
        let path = shortest(alloc, list, around, proposal, k)?;
        if let Some(old) = proposal.paths.get_mut(k) {
            if !path.is_empty() && path.len() < old.len() {
                *old = path;
                shorter = true;
            }
        }
    }
    Ok(shorter)
}

// Makes the paths of the subdivision shorter, one after the other, as long as one does become shorter.
pub(crate) fn shorten(
    alloc: Global,
    list: &EdgeEnds,
    around: &Bins,
    proposal: &mut Proposal,
) -> Result<(), AllocError> {
    for _ in 0..ROUNDS {
        if !shorten_once(alloc, list, around, proposal)? {
            break;
        }
    }
    Ok(())
}
