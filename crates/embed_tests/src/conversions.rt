// Moves between plane rotation systems of small blocks, worked out by hand.

ghost use Rattle.embed_enum.specs.Walk.{KeepsRest};

use crate::small_blocks::{JOINED, block_of};
use embed_convert::moves;
use embed_enum::next;
use skel_embed::{Move, PlaneBlock};
use std::test::Fail;

// Whether the move flips node k.
fn flips(found: &Move, k: u32) -> bool {
    match found {
        Move::Flip(node) => *node == k,
        Move::Permute(..) => false,
    }
}

// Whether the move permutes node k to these keys.
fn permutes(found: &Move, k: u32, keys: &[u32]) -> bool {
    match found {
        Move::Flip(_) => false,
        Move::Permute(node, order) => *node == k && order.as_slice() == keys,
    }
}

// Whether these are a permute of the bond between the two, and both flips.
fn are_three(list: &[Move]) -> bool {
    match list {
        [a, b, c] => permutes(a, 0, &[0, 6, 1]) && flips(b, 1) && flips(c, 2),
        _ => false,
    }
}

// Goes so many members on.
fn go_on(block: &mut PlaneBlock, members: u32)
    ensures { KeepsRest block.old block.new }
{
    for _step in 0..members {
        next(block);
    }
}

// The bond has the keys 0, 1 and 6; at the last member all three choices are other than at the first.
#[test]
fn leads_from_first_to_last(rt: HostRuntime) -> Result<(), Fail> {
    let block = block_of(rt.alloc(), 6, &JOINED)?;
    let mut last = block.copy(rt.alloc())?;
    go_on(&mut last, 7);
    assert!(rt; are_three(&moves(rt.alloc(), &block, &last)?));
    assert!(rt; moves(rt.alloc(), &block, &block)?.is_empty());
    Ok(())
}
