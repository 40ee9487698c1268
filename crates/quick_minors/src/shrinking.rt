// Edges that are not planar, found by minors: a list is made smaller as long as it is not planar.
//
// What has a minor that is not planar is not planar. At first all edges of a forest along the thin places are contracted but those
// in windows, which are at the root and at equal distances from one another; where the rest is planar, those of one half. Then the
// edges of a forest of the minor at hand, and the others, are partitioned into pieces, and each piece is contracted or dropped where
// what is left is still not planar; first few large pieces, then more, until each is one edge. A minor whose edges can neither be
// dropped nor contracted is K5 or K3,3. Last, the edges that hold together what was contracted are added: these and those of the
// minor are few paths.

use crate::along::{Forest, forest_along};
use crate::minors::{Minor, MinorOperation, Pieces};
use crate::prefixes::Prefixes;
use quick_rotation::access::{NONE, at, number, put};
use quick_rotation::{EdgeEnds, LeftRightTest};
use std::alloc::{AllocError, Global};

// How often the minor is partitioned, into how many pieces first, how many edges are few enough, and how often the tests may
// examine each edge.
const PASSES: u32 = 200;

const PIECES: u32 = 4;

const FEW: u32 = 10;

const STEPS: u64 = 400;

// How many windows there are at most, how far one is at least from the next, and how deep they are, that at the root and others.
const WINDOWS: u32 = 32;

const PERIOD: u32 = 8;

const ROOT_WINDOW: u32 = 12;

const WINDOW: u32 = 2;

// A minor as it shrinks, the test of its planarity, and how many edges the tests may still examine.
#[derive(Drop)]
struct Shrinking {
    minor: Minor,
    test: LeftRightTest,
    budget: u64,
}

// The edges are put into this many pieces, in their order, equally many in each; the pieces have the numbers from `first` on.
fn partition(pieces: &mut [u32], edges: &[u32], first: u32, count: u32) {
    let all = number(edges.len());
    let mut piece = first;
    let mut sum: u32 = 0;
    for edge in edges {
        put(pieces, *edge, piece);
        sum = sum.saturating_add(count);
        if sum >= all {
            sum = sum.saturating_sub(all);
            piece = piece.saturating_add(1);
        }
    }
}

// The edges of the forest between windows are put into pieces by their depth, those in a window, and all others, into the last.
// Windows are at the root and where each piece begins. Returns the number of the last piece.
fn put_windows(pieces: &mut [u32], forest: &Forest) -> u32 {
    let deepest = forest.depths.iter().copied().max().unwrap_or(0);
    let count = (deepest / PERIOD).clamp(1, WINDOWS);
    let period = (deepest / count).max(1);
    pieces.fill(count);
    for (edge, depth) in forest.tree.iter().zip(forest.depths.iter()) {
        if *depth > ROOT_WINDOW && depth % period >= WINDOW {
            put(pieces, *edge, (depth / period).min(count.saturating_sub(1)));
        }
    }
    count
}

// Pieces that wait to be contracted, and whether it is known that this leaves a planar rest.
#[derive(Drop)]
struct Waiting {
    pieces: Pieces,
    planar: bool,
}

impl Shrinking {
    // How many edges there are.
    fn count(&self) -> u32 {
        self.minor.list.edge_count()
    }

    // Does the operation if what is left is not planar. Returns whether it is done.
    fn take(
        &mut self,
        alloc: Global,
        pieces: Pieces,
        operation: MinorOperation,
    ) -> Result<bool, AllocError> {
        let next = self.minor.after(alloc, pieces, operation)?;
        self.budget = self.budget.saturating_sub(u64::from(self.count()));
        if self.test.is_planar(&next.list)? {
            return Ok(false);
        }
        self.minor.turn_into(next)?;
        Ok(true)
    }

    // Tries both operations for the pieces from one number up to another, this one first.
    fn take_each(
        &mut self,
        alloc: Global,
        from: u32,
        to: u32,
        operation: MinorOperation,
    ) -> Result<(), AllocError> {
        for piece in from..to {
            let one = Pieces {
                from: piece,
                to: piece.saturating_add(1),
            };
            if self.budget > 0 && !self.take(alloc, one, operation)? {
                let _taken = self.take(alloc, one, operation.other())?;
            }
        }
        Ok(())
    }

    // Contracts the pieces, or else puts their halves on the stack. Where it has contracted the first half, it can't contract the
    // second one.
    fn leap(
        &mut self,
        alloc: Global,
        stack: &mut Vec<Waiting>,
        waiting: Waiting,
    ) -> Result<(), AllocError> {
        let Pieces { from, to } = waiting.pieces;
        let middle = from.saturating_add(to.saturating_sub(from) / 2);
        if !waiting.planar && self.take(alloc, waiting.pieces, MinorOperation::Contract)? {
            return Ok(());
        }
        if middle <= from {
            return Ok(());
        }
        let first = Pieces { from, to: middle };
        let second = Pieces { from: middle, to };
        let taken = self.take(alloc, first, MinorOperation::Contract)?;
        stack.push(Waiting {
            pieces: second,
            planar: taken,
        })?;
        if !taken {
            stack.push(Waiting {
                pieces: first,
                planar: true,
            })?;
        }
        Ok(())
    }

    // Contracts the forest from the root on except in windows, as much of it as possible.
    fn leap_far(&mut self, alloc: Global, root: u32) -> Result<(), AllocError> {
        let forest = forest_along(alloc, &self.minor.list, root)?;
        let count = put_windows(&mut self.minor.piece, &forest);
        let mut stack = Vec::new(alloc);
        stack.push(Waiting {
            pieces: Pieces { from: 0, to: count },
            planar: false,
        })?;
        for _ in 0..WINDOWS.saturating_mul(2) {
            let Some(waiting) = stack.pop() else {
                break;
            };
            self.leap(alloc, &mut stack, waiting)?;
        }
        Ok(())
    }

    // One pass with up to this many pieces of the forest from the root on, and equally many of the other edges.
    fn pass(&mut self, alloc: Global, root: u32, pieces: u32) -> Result<(), AllocError> {
        let forest = forest_along(alloc, &self.minor.list, root)?;
        let first = pieces.min(number(forest.tree.len()));
        let second = first.saturating_add(pieces.min(number(forest.others.len())));
        partition(&mut self.minor.piece, &forest.tree, 0, first);
        partition(
            &mut self.minor.piece,
            &forest.others,
            first,
            second.saturating_sub(first),
        );
        self.take_each(alloc, 0, first, MinorOperation::Contract)?;
        self.take_each(alloc, first, second, MinorOperation::Drop)
    }
}

// The minor that is left when no operation can be done, or when the budget is spent.
fn shrink(alloc: Global, list: &EdgeEnds) -> Result<Minor, AllocError> {
    let mut shrinking = Shrinking {
        minor: Minor::of(alloc, list)?,
        test: LeftRightTest::new(alloc),
        budget: STEPS.saturating_mul(u64::from(list.edge_count())),
    };
    let root = at(&shrinking.minor.list.tails, 0);
    shrinking.leap_far(alloc, root)?;
    let mut pieces = PIECES;
    for pass in 0..PASSES {
        let before = shrinking.count();
        if before <= FEW || shrinking.budget == 0 {
            break;
        }
        let root = at(&shrinking.minor.list.tails, pass);
        shrinking.pass(alloc, root, pieces)?;
        let after = shrinking.count();
        if after == before && pieces >= before {
            break;
        }
        if after >= before.saturating_sub(before / 4) {
            pieces = pieces.saturating_mul(2);
        }
    }
    Ok(shrinking.minor)
}

/// Edges that are not planar, where the list is not: those of a least minor, with the paths that hold it together. Fails only if memory
/// runs out.
pub fn shrunk_edges(alloc: Global, list: &EdgeEnds) -> Result<Vec<u32>, AllocError> {
    let Minor {
        origin: mut edges,
        inner,
        ..
    } = shrink(alloc, list)?;
    let root = list.tail(at(&edges, 0).saturating_mul(2));
    edges.extend_from_slice(&inner)?;
    let around = list.darts_of(alloc, &edges)?;
    Prefixes::from(alloc, list, &around, root)?.prefix(NONE, &[])
}
