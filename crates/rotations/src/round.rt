// The walk around a vertex.

ghost use Rattle.std.specs.Prelude.{◌≡◌, ◌<◌, ℕ, length, slice_index, IfOk};
ghost use Rattle.std.specs.Iterator.{YieldsFirst, item_count};
ghost use Rattle.permutations.specs.Ring.{turns};

use crate::rings::Ring;
use ring_arena::Rings;
use std::alloc::AllocError;
use std::marker::Model;

/// The edges around a vertex in cyclic order, viewed as the list of those that are left.
#[derive(Debug, Drop)]
pub struct RotIter<'a> {
    nodes: &'a Rings,
    dart: u32,
    left: u32,
}

impl<'a> Model for RotIter<'a> {
    ghost use Rattle.std.specs.Prelude.{List, ℕ, ◌<◌, length};
    ghost use Rattle.permutations.specs.Ring.{turns};

    ghost Value = { List ℕ };

    ghost view = { λ it. turns it.nodes.now.next it.dart it.left };

    ghost invariant = { λ it. 0 < it.left → it.dart < length it.nodes.now.next };
}

impl<'a> RotIter<'a> {
    // `left` darts from `dart` on, each the next of the one before it.
    pub(crate) fn from(nodes: &'a Rings, dart: u32, left: u32) -> RotIter<'a>
        requires { 0 < left → dart < length nodes.now.next }
        ensures { result ≡ turns nodes.now.next dart left }
    {
        RotIter { nodes, dart, left }
    }
}

impl<'a> Iterator for RotIter<'a> {
    type Item = u32;

    ghost next_gives = { YieldsFirst (λ left. left) };

    ghost remaining = { item_count (λ left. left) };

    fn next(&mut self) -> Option<u32> {
        if self.left == 0 {
            return None;
        }
        let dart = self.dart;
        self.dart = self.nodes.next(dart);
        self.left -= 1;
        Some(dart / 2)
    }
}

// Makes `round` the edges of a ring, where the list has the dart after each dart.
pub(crate) fn walk_ring(next: &[u32], ring: Ring, round: &mut Vec<u32>) -> Result<(), AllocError>
    requires begins { 0 < ring.degree → ring.first < length next.now }
    requires leads { (d : ℕ) → d < length next.now → slice_index next.now d < length next.now }
    ensures { IfOk result (λ _. round.new.items ≡ turns next.now ring.first ring.degree) }
{
    round.clear();
    let mut dart = ring.first;
    let mut left = ring.degree;
    while left != 0 {
        round.push(dart / 2)?;
        dart = next[dart as usize];
        left -= 1;
    }
    Ok(())
}
