// The side of each edge, determined along the edges that it refers to.

use crate::access::{NONE, at, is_marked, number, put};
use crate::conflicts::Conflicts;
use crate::palm::Palm;
use std::alloc::{AllocError, Global};

// The edges from this one on, each referred to by the one before.
fn chase(refs: &[u32], chain: &mut Vec<u32>, edge: u32) -> Result<(), AllocError> {
    let mut here = edge;
    for _ in 0..refs.len() {
        let next = at(refs, here);
        if next == NONE {
            break;
        }
        chain.push(here)?;
        here = next;
    }
    Ok(())
}

// From the last edge of the chain to the first, each gets its side by that of the one that it refers to.
fn settle(refs: &mut [u32], left: &mut [bool], chain: &mut Vec<u32>) {
    for _ in 0..chain.len() {
        let Some(edge) = chain.pop() else {
            break;
        };
        let side = is_marked(left, edge) != is_marked(left, at(refs, edge));
        if (edge as usize) < left.len() {
            left[edge as usize] = side;
        }
        put(refs, edge, NONE);
    }
}

// For each edge whether it is on the left.
pub(crate) fn sides(
    alloc: Global,
    palm: &Palm,
    conflicts: Conflicts,
) -> Result<Vec<bool>, AllocError> {
    let mut refs = conflicts.refs;
    let mut left = conflicts.turned;
    let mut chain = Vec::new(alloc);
    for edge in &palm.edges {
        chase(&refs, &mut chain, *edge)?;
        settle(&mut refs, &mut left, &mut chain);
    }
    Ok(left)
}

// The keys of the edges by which the search takes those on the left first, from the outermost to the innermost, then those on
// the right, and what all keys are below.
pub(crate) fn sided_keys(
    alloc: Global,
    palm: &Palm,
    left: &[bool],
) -> Result<(Vec<u32>, u32), AllocError> {
    let middle = number(palm.height.len()).saturating_mul(2);
    let mut keys = Vec::with_capacity(alloc, palm.nest.len())?;
    for (edge, nest) in palm.nest.iter().enumerate() {
        if is_marked(left, number(edge)) {
            keys.push(middle.saturating_sub(*nest))?;
        } else {
            keys.push(middle.saturating_add(*nest))?;
        }
    }
    Ok((keys, middle.saturating_mul(2).saturating_add(2)))
}
