// Finders that propose wrong things.

use kuratowski::Subdivision;
use multigraph::{Graph, NumberLists, Numbers};
use quick_embed::Finder;
use quick_obstruct::propose_subdivision;
use quick_rotation::propose_rotation;
use rotations::Lists;
use std::alloc::{AllocError, Global};

// What a finder gets wrong.
#[derive(Clone, Copy, Debug)]
pub(crate) enum Mistake {
    // It proposes nothing.
    Silent,
    // The edges at the first vertex of a plane rotation system in the other direction; the paths of a subdivision in the other
    // order.
    Turned,
    // An edge at the first vertex left out; the last path left out.
    Short,
    // Numbers that are no edges and no vertices.
    Strange,
}

// A finder that makes the mistake.
#[derive(Debug, Drop)]
pub(crate) struct Mistaken {
    pub(crate) mistake: Mistake,
}

// Appends the list to the others, if its vertex is above theirs.
fn put(lists: &mut Lists, vertex: u32, edges: &[u32]) -> Result<(), AllocError> {
    if lists.is_above(vertex) {
        lists.push(vertex, edges)?;
    }
    Ok(())
}

// The list, spoilt.
fn spoil(alloc: Global, mistake: Mistake, edges: &[u32]) -> Result<Vec<u32>, AllocError> {
    match mistake {
        Mistake::Silent => Ok(Vec::new(alloc)),
        Mistake::Turned => edges.iter().rev().copied().collect(alloc),
        Mistake::Short => edges.iter().skip(1).copied().collect(alloc),
        Mistake::Strange => edges.iter().map(|_| 4_000_000_000).collect(alloc),
    }
}

// The lists, with the first one spoilt.
fn spoil_lists(alloc: Global, mistake: Mistake, lists: &Lists) -> Result<Lists, AllocError> {
    let mut wrong = Lists::new(alloc);
    for i in 0..lists.len() {
        if i == 0 {
            let edges = spoil(alloc, mistake, lists.edges(i))?;
            put(&mut wrong, lists.vertex(i), &edges)?;
        } else {
            put(&mut wrong, lists.vertex(i), lists.edges(i))?;
        }
    }
    Ok(wrong)
}

// The paths, with their order or their edges spoilt.
fn spoil_paths(
    alloc: Global,
    mistake: Mistake,
    paths: &[Numbers],
) -> Result<NumberLists, AllocError> {
    let mut wrong = Vec::new(alloc);
    for (i, path) in paths.iter().enumerate() {
        let edges = match mistake {
            Mistake::Turned => paths[paths.len() - 1 - i].as_slice(),
            _ => path.as_slice(),
        };
        match mistake {
            Mistake::Turned => wrong.push(Numbers::of(Vec::from_slice(alloc, edges)?))?,
            _ => wrong.push(Numbers::of(spoil(alloc, mistake, edges)?))?,
        }
    }
    Ok(NumberLists::of(wrong))
}

impl Finder for Mistaken {
    fn rotation(&mut self, alloc: Global, g: &Graph) -> Result<Option<Lists>, AllocError> {
        let Some(lists) = propose_rotation(alloc, g)? else {
            return Ok(None);
        };
        match self.mistake {
            Mistake::Silent => Ok(None),
            mistake => Ok(Some(spoil_lists(alloc, mistake, &lists)?)),
        }
    }

    fn subdivision(&mut self, alloc: Global, g: &Graph) -> Result<Option<Subdivision>, AllocError> {
        let Some(s) = propose_subdivision(alloc, g)? else {
            return Ok(None);
        };
        let Subdivision {
            kind,
            branch,
            paths,
        } = s;
        match self.mistake {
            Mistake::Silent => Ok(None),
            mistake => Ok(Some(Subdivision {
                kind,
                branch,
                paths: spoil_paths(alloc, mistake, paths.as_slice())?,
            })),
        }
    }
}
