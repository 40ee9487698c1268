// Shorter subdivisions of K3,3: one of the paths is dropped, and a shorter one that makes it a subdivision again is looked for. Its ends
// may be other ones, so branch vertices slide along the paths.

use crate::reading::Proposal;
use crate::tetrahedron::Tetrahedron;
use quick_rotation::access::{NONE, at, number, put};
use quick_rotation::{Bins, EdgeEnds};
use std::alloc::{AllocError, Global};

// How many paths may be replaced, and how often a search may look at each dart.
const ROUNDS: u32 = 60;

const STEPS: u64 = 4;

// What a vertex is in a search.
const FREE: u32 = 0;

const BLOCKED: u32 = 1;

const GOAL: u32 = 2;

// Searches from the inside of one path to the inside of the opposite one, breadth first. Of each vertex what it is, the dart towards
// where the search began, and the depth, which is `NONE` where it is not reached.
#[derive(Drop)]
struct Search {
    role: Vec<u32>,
    up: Vec<u32>,
    depth: Vec<u32>,
    queue: Vec<u32>,
    found: u32,
    budget: u64,
}

impl Search {
    // No search yet.
    fn new(alloc: Global, list: &EdgeEnds) -> Result<Search, AllocError> {
        Ok(Search {
            role: vec![in alloc; FREE; list.vertices as usize]?,
            up: vec![in alloc; NONE; list.vertices as usize]?,
            depth: vec![in alloc; NONE; list.vertices as usize]?,
            queue: Vec::new(alloc),
            found: NONE,
            budget: STEPS.saturating_mul(list.tails.len() as u64),
        })
    }

    // The ends of the darts get the role.
    fn assign(&mut self, list: &EdgeEnds, darts: &[u32], role: u32) {
        for dart in darts {
            put(&mut self.role, list.tail(*dart), role);
            put(&mut self.role, list.head(*dart), role);
        }
    }

    // The vertices of all paths get the role.
    fn assign_all(&mut self, list: &EdgeEnds, paths: &[Vec<u32>], role: u32) {
        for path in paths {
            self.assign(list, path, role);
        }
    }

    // Nothing is reached.
    fn forget(&mut self) {
        for k in 0..number(self.queue.len()) {
            let vertex = at(&self.queue, k);
            put(&mut self.depth, vertex, NONE);
            put(&mut self.up, vertex, NONE);
        }
        self.queue.clear();
        self.found = NONE;
    }

    // The inside of the path is reached.
    fn begin(&mut self, list: &EdgeEnds, darts: &[u32]) -> Result<(), AllocError> {
        for dart in darts.iter().skip(1) {
            let vertex = list.tail(*dart);
            put(&mut self.depth, vertex, 0);
            self.queue.push(vertex)?;
        }
        Ok(())
    }

    // The inside of the path is the goal.
    fn aim(&mut self, list: &EdgeEnds, darts: &[u32]) {
        for dart in darts.iter().skip(1) {
            put(&mut self.role, list.tail(*dart), GOAL);
        }
    }

    // The darts at a vertex of this depth are looked at.
    fn scan(&mut self, list: &EdgeEnds, darts: &[u32], depth: u32) -> Result<(), AllocError> {
        for dart in darts {
            let end = list.head(*dart);
            let role = at(&self.role, end);
            if at(&self.depth, end) != NONE || role == BLOCKED {
                continue;
            }
            put(&mut self.depth, end, depth.saturating_add(1));
            put(&mut self.up, end, *dart ^ 1);
            self.queue.push(end)?;
            if role == GOAL {
                self.found = end;
                break;
            }
        }
        self.budget = self.budget.saturating_sub(darts.len() as u64);
        Ok(())
    }

    // The search for a path of fewer edges than the bound.
    fn run(&mut self, list: &EdgeEnds, around: &Bins, bound: u32) -> Result<(), AllocError> {
        for turn in 0..list.vertices {
            let vertex = at(&self.queue, turn);
            let depth = at(&self.depth, vertex);
            if self.found != NONE || self.budget == 0 || depth.saturating_add(1) >= bound {
                break;
            }
            self.scan(list, around.bin(vertex), depth)?;
        }
        Ok(())
    }

    // The darts from what was found to where the search began.
    fn way(&self, alloc: Global, list: &EdgeEnds) -> Result<Vec<u32>, AllocError> {
        let mut way = Vec::new(alloc);
        let mut here = self.found;
        for _ in 0..list.vertices {
            let dart = at(&self.up, here);
            if dart == NONE {
                break;
            }
            way.push(dart)?;
            here = list.head(dart);
        }
        Ok(way)
    }

    // A shortest way from the inside of path 2k + 1 to the inside of path 2k, past no other vertex of the paths; empty where there
    // is none of fewer edges than the bound.
    fn way_between(
        &mut self,
        alloc: Global,
        list: &EdgeEnds,
        around: &Bins,
        frame: &Tetrahedron,
        k: usize,
        bound: u32,
    ) -> Result<Vec<u32>, AllocError> {
        let first = k.saturating_mul(2);
        self.assign_all(list, &frame.paths, BLOCKED);
        self.aim(list, frame.path(first.saturating_add(1)));
        self.begin(list, frame.path(first))?;
        self.run(list, around, bound)?;
        let way = self.way(alloc, list)?;
        self.assign_all(list, &frame.paths, FREE);
        self.forget();
        Ok(way)
    }

    // A shorter subdivision without path k, if one is found.
    fn without_path(
        &mut self,
        alloc: Global,
        list: &EdgeEnds,
        around: &Bins,
        whole: &Proposal,
        k: usize,
    ) -> Result<Option<Proposal>, AllocError> {
        let bound = number(whole.length(k));
        let frame = Tetrahedron::without(alloc, list, whole, k)?;
        for pair in 0..3 {
            let way = self.way_between(alloc, list, around, &frame, pair, bound)?;
            if !way.is_empty() {
                return Ok(Some(frame.with_way(alloc, list, pair, &way)?));
            }
        }
        Ok(None)
    }

    // A shorter subdivision, if one is found, without one of the paths of more than one edge, the longest first.
    fn shorter(
        &mut self,
        alloc: Global,
        list: &EdgeEnds,
        around: &Bins,
        whole: &Proposal,
    ) -> Result<Option<Proposal>, AllocError> {
        for (_, k) in &by_length(alloc, whole)? {
            let shorter = self.without_path(alloc, list, around, whole, *k as usize)?;
            if shorter.is_some() {
                return Ok(shorter);
            }
        }
        Ok(None)
    }
}

// The places of the paths of more than one edge, each with a number that is the less the longer the path is, in increasing order of
// these.
fn by_length(alloc: Global, whole: &Proposal) -> Result<Vec<(u32, u32)>, AllocError> {
    let mut pairs = Vec::new(alloc);
    for k in 0..whole.paths.len() {
        let length = number(whole.length(k));
        if length > 1 {
            pairs.push((NONE.saturating_sub(length), number(k)))?;
        }
    }
    pairs.sort_unstable_by_key(|pair: &(u32, u32)| pair.0);
    Ok(pairs)
}

// Makes a subdivision of K3,3 shorter, path by path.
pub(crate) fn slide(
    alloc: Global,
    list: &EdgeEnds,
    around: &Bins,
    whole: &mut Proposal,
) -> Result<(), AllocError> {
    let mut search = Search::new(alloc, list)?;
    for _ in 0..ROUNDS {
        match search.shorter(alloc, list, around, whole)? {
            None => break,
            Some(shorter) => *whole = shorter,
        }
    }
    Ok(())
}
