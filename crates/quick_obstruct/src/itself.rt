// K5 and K3,3 themselves.

use crate::reading::Proposal;
use kuratowski::Pattern;
use quick_rotation::EdgeEnds;
use quick_rotation::access::{NONE, at, number};
use std::alloc::{AllocError, Global};

// An edge between the two vertices; `NONE` where there is none.
fn edge_between(list: &EdgeEnds, from: u32, to: u32) -> u32 {
    for dart in 0..number(list.tails.len()) {
        if list.tail(dart) == from && list.head(dart) == to {
            return dart / 2;
        }
    }
    NONE
}

// Appends the vertices that are joined with vertex 0, or those that are not.
fn put_joined(list: &EdgeEnds, joined: bool, order: &mut Vec<u32>) -> Result<(), AllocError> {
    for vertex in 0..list.vertices {
        if (edge_between(list, 0, vertex) != NONE) == joined {
            order.push(vertex)?;
        }
    }
    Ok(())
}

// The subdivision that has these branch vertices and an edge for each path, if there are such edges.
fn by_edges(
    alloc: Global,
    list: &EdgeEnds,
    kind: Pattern,
    branch: Vec<u32>,
) -> Result<Option<Proposal>, AllocError> {
    let mut paths = Vec::with_capacity(alloc, list.edge_count() as usize)?;
    for (from, to) in kind.edges() {
        let (from, to) = (at(&branch, number(*from)), at(&branch, number(*to)));
        let edge = edge_between(list, from, to);
        if edge == NONE {
            return Ok(None);
        }
        paths.push(vec![in alloc; edge; 1]?)?;
    }
    Ok(Some(Proposal {
        kind,
        branch,
        paths,
    }))
}

// The whole list as a subdivision, if it is K5 or K3,3.
pub(crate) fn itself(alloc: Global, list: &EdgeEnds) -> Result<Option<Proposal>, AllocError> {
    let kind = match (list.vertices, list.edge_count()) {
        (5, 10) => Pattern::K5,
        (6, 9) => Pattern::K33,
        _ => return Ok(None),
    };
    let mut branch = Vec::with_capacity(alloc, list.vertices as usize)?;
    put_joined(list, false, &mut branch)?;
    put_joined(list, true, &mut branch)?;
    by_edges(alloc, list, kind, branch)
}
