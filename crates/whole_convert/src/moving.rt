// The moves of the blocks of a component from their rotation systems to others.

ghost use Rattle.std.specs.Prelude.{◌≡◌, ℕ, ◌<◌, ◌++◌, length, map, slice_index, IfOk};
ghost use Rattle.skel_embed.specs.Values.{as_moves};
ghost use Rattle.whole_embed.specs.Cuts.{member_at, blocks_in};
ghost use Rattle.whole_convert.specs.Between.{move_block, as_steps, moves_below, is_moved};
ghost use Rattle.whole_convert.specs.Led.{AreAlike, is_marked, moves_between_members};

use crate::steps::WholeMove;
use embed_convert::moves;
use skel_embed::Move;
use std::alloc::{AllocError, Global};
use whole_embed::{Frame, Member};

// The moves from one rotation system of a block to another.
fn moves_between(alloc: Global, old: &Member, new: &Member) -> Result<Vec<Move>, AllocError>
    requires { AreAlike old.now new.now }
    ensures { IfOk result (λ found. as_moves found.items ≡ moves_between_members old.now new.now) }
{
    match &old.plane {
        Some(p) => match &new.plane {
            Some(q) => moves(alloc, p, q),
            None => unreachable!(),
        },
        None => unreachable!(),
    }
}

// Appends moves of block b.
fn add_moves(list: &mut Vec<WholeMove>, b: u32, found: Vec<Move>) -> Result<(), AllocError>
    ensures { IfOk result (λ _. as_steps list.new.items ≡ as_steps list.old.items
        ++ map (move_block b) (as_moves found.items)) }
{
    for one in found {
        list.push(WholeMove::Block(b, one))?;
    }
    Ok(())
}

// The moves of all blocks of the component, in order; those that have any are marked.
pub(crate) fn all_moves(
    alloc: Global,
    frame: &Frame,
    old: &[Member],
    new: &[Member],
    marks: &mut [bool],
) -> Result<Vec<WholeMove>, AllocError>
    requires each { length new.now ≡ length old.now }
    requires marks { length marks.old ≡ length old.now }
    requires within { (j : ℕ) → j < length frame.now.blocks → slice_index frame.now.blocks j < length old.now }
    requires alike { (j : ℕ) → j < length frame.now.blocks → AreAlike (member_at old.now (slice_index frame.now.blocks j)) (member_at new.now (slice_index frame.now.blocks j)) }
    ensures moves { IfOk result (λ list. as_steps list.items ≡ moves_below frame.now
        (blocks_in old.now) (blocks_in new.now) (length frame.now.blocks)) }
    ensures marked { IfOk result (λ _. (j : ℕ) → j < length frame.now.blocks → is_marked marks.new (slice_index frame.now.blocks j) ≡ is_moved (blocks_in old.now) (blocks_in new.now) (slice_index frame.now.blocks j)) }
    ensures long { length marks.new ≡ length marks.old }
{
    let blocks = frame.blocks();
    let mut list = Vec::new(alloc);
    for j in 0..blocks.len() {
        let b = blocks[j] as usize;
        let found = moves_between(alloc, &old[b], &new[b])?;
        marks[b] = !found.is_empty();
        add_moves(&mut list, blocks[j], found)?;
    }
    Ok(list)
}
