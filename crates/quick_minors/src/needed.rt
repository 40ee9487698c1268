// Few edges that are not planar: of the edges off a tree those are kept without which the rest would be planar.

use crate::prefixes::Prefixes;
use quick_rotation::{Bins, EdgeEnds, PartTest};
use std::alloc::{AllocError, Global};

// How often a search moves to where an obstruction was found, and how often it may examine each edge.
const MOVES: u32 = 3;

const STEPS: u64 = 6;

// With how many edges off a tree a search begins again, and how many other ones are few.
const NEAR: u32 = 40;

const FEW: u32 = 400;

// The prefixes from a root that is near the end of the least one, and the count of that one; `None` where it has too many edges.
fn prefixes_near<'a>(
    alloc: Global,
    list: &'a EdgeEnds,
    around: &Bins,
    test: &mut PartTest,
    root: u32,
) -> Result<Option<(Prefixes<'a>, u32)>, AllocError> {
    let mut prefixes = Prefixes::from(alloc, list, around, root)?;
    let Some(mut count) = prefixes.first(test)? else {
        return Ok(None);
    };
    for _ in 0..MOVES {
        let root = list.tail(prefixes.last_edge(count).saturating_mul(2));
        let mut others = Prefixes::from(alloc, list, around, root)?;
        let Some(fewer) = others.first(test)? else {
            break;
        };
        if fewer >= count {
            break;
        }
        let far = fewer >= count / 4;
        prefixes = others;
        count = fewer;
        if far {
            break;
        }
    }
    Ok(Some((prefixes, count)))
}

// The edges of the least prefix that are needed, and the paths up from them, where the prefix of this many is the least. `None` where
// the search gives up.
fn needed_of(
    alloc: Global,
    test: &mut PartTest,
    prefixes: &mut Prefixes<'_>,
    count: u32,
    budget: u64,
) -> Result<Option<Vec<u32>>, AllocError> {
    let mut needed = vec![in alloc; prefixes.last_edge(count); 1]?;
    let mut rest = count.saturating_sub(1);
    prefixes.spent = 0;
    for _ in 0..prefixes.count() {
        if rest == 0 || !prefixes.is_planar(test, 0, &needed)? {
            return Ok(Some(prefixes.prefix(0, &needed)?));
        }
        if prefixes.spent > budget {
            break;
        }
        let count = prefixes.last(test, rest, &needed)?;
        needed.push(prefixes.last_edge(count))?;
        rest = count.saturating_sub(1);
    }
    Ok(None)
}

/// Few edges of a connected list that are not planar, where the list is not; from the root at first. `None` where the search gives
/// up. Fails only if memory runs out.
pub fn few_edges(
    alloc: Global,
    list: &EdgeEnds,
    around: &Bins,
    test: &mut PartTest,
    root: u32,
) -> Result<Option<Vec<u32>>, AllocError> {
    let Some((mut prefixes, count)) = prefixes_near(alloc, list, around, test, root)? else {
        return Ok(None);
    };
    let budget = STEPS.saturating_mul(u64::from(list.edge_count()));
    needed_of(alloc, test, &mut prefixes, count, budget)
}

/// Few edges that are not planar among these, a breadth-first tree from the root, and the first edges off it, if few of the edges are
/// off the tree. Fails only if memory runs out.
pub fn few_edges_near(
    alloc: Global,
    list: &EdgeEnds,
    around: &Bins,
    test: &mut PartTest,
    paths: &[Vec<u32>],
    root: u32,
) -> Result<Option<Vec<u32>>, AllocError> {
    let mut prefixes = Prefixes::from(alloc, list, around, root)?;
    if prefixes.keep_near(NEAR, paths)? > FEW {
        return Ok(None);
    }
    let all = prefixes.count();
    let count = prefixes.last(test, all, &[])?;
    let budget = STEPS.saturating_mul(u64::from(list.edge_count()));
    needed_of(alloc, test, &mut prefixes, count, budget)
}
