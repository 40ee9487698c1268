// Moves of small blocks, worked out by hand.

use crate::small_blocks::{JOINED, block_of};
use embed_moves::{PermuteFault, back, carry_out, flip, mirror, permute};
use pair_split::Kind;
use skel_embed::{Keys, Move, PlaneBlock};
use std::test::Fail;

// Three parallel edges.
static PARALLEL: [(u32, u32); 3] = [(0, 1), (0, 1), (0, 1)];

// Whether the block has these edges around the first vertices.
fn stands_at(block: &PlaneBlock, rounds: &[&[u32]]) -> bool {
    let r = block.rotation();
    for v in 0..r.vertex_count() {
        if (v as usize) < rounds.len() && !r.list(v).eq(rounds[v as usize].iter().copied()) {
            return false;
        }
    }
    true
}

// Whether it was refused since the node is no bond.
fn is_wrong_kind(answer: Result<(), PermuteFault>) -> bool {
    match answer {
        Ok(()) => false,
        Err(fault) => match fault {
            PermuteFault::WrongKind => true,
            PermuteFault::BadOrder | PermuteFault::Locked(_) => false,
        },
    }
}

// Whether it was refused since the keys are no arrangement.
fn is_bad_order(answer: Result<(), PermuteFault>) -> bool {
    match answer {
        Ok(()) => false,
        Err(fault) => match fault {
            PermuteFault::BadOrder => true,
            PermuteFault::WrongKind | PermuteFault::Locked(_) => false,
        },
    }
}

#[test]
fn flips_and_permutes(rt: HostRuntime) -> Result<(), Fail> {
    let mut block = block_of(rt.alloc(), 6, &JOINED)?;
    if block.tree().node_count() < 3 {
        return Err(Fail::from("no node"));
    }
    assert!(rt; flip(&mut block, 1).is_ok());
    assert!(rt;
        stands_at(
            &block,
            &[
                &[0, 2, 1, 6, 7],
                &[0, 9, 8, 3, 4],
                &[1, 5, 3],
                &[2, 4, 5],
                &[6, 8, 10],
                &[7, 10, 9]
            ]
        )
    );
    assert!(rt; flip(&mut block, 1).is_ok());
    assert!(rt; permute(&mut block, 0, &[0, 6, 1]).is_ok());
    assert!(rt;
        stands_at(
            &block,
            &[&[0, 6, 7, 1, 2], &[0, 4, 3, 9, 8], &[1, 3, 5], &[2, 5, 4]]
        )
    );
    assert!(rt; is_bad_order(permute(&mut block, 0, &[0, 6, 6])));
    assert!(rt; is_bad_order(permute(&mut block, 0, &[0, 6])));
    assert!(rt; is_wrong_kind(permute(&mut block, 1, &[0, 1, 2])));
    assert!(rt; flip(&mut block, 0).is_err());
    Ok(())
}

#[test]
fn keys_begin_anywhere(rt: HostRuntime) -> Result<(), Fail> {
    let mut block = block_of(rt.alloc(), 2, &PARALLEL)?;
    if block.tree().node_count() < 1 {
        return Err(Fail::from("no node"));
    }
    assert!(rt; permute(&mut block, 0, &[1, 2, 0]).is_ok());
    assert!(rt; stands_at(&block, &[&[0, 1, 2], &[0, 2, 1]]));
    assert!(rt; permute(&mut block, 0, &[1, 0, 2]).is_ok());
    assert!(rt; stands_at(&block, &[&[0, 2, 1], &[0, 1, 2]]));
    assert!(rt; permute(&mut block, 0, &[2, 1, 0]).is_ok());
    assert!(rt; stands_at(&block, &[&[0, 2, 1], &[0, 1, 2]]));
    assert!(rt; is_bad_order(permute(&mut block, 0, &[0, 0, 1])));
    Ok(())
}

#[test]
fn locked_nodes_stay(rt: HostRuntime) -> Result<(), Fail> {
    let mut block = block_of(rt.alloc(), 6, &JOINED)?;
    if block.tree().node_count() < 3 {
        return Err(Fail::from("no node"));
    }
    block.set_lock(2, true);
    assert!(rt; mirror(&mut block).is_err());
    assert!(rt; flip(&mut block, 2).is_err());
    assert!(rt; flip(&mut block, 1).is_ok());
    assert!(rt; flip(&mut block, 1).is_ok());
    block.set_lock(2, false);
    assert!(rt; mirror(&mut block).is_ok());
    assert!(rt;
        stands_at(
            &block,
            &[&[0, 7, 6, 2, 1], &[0, 3, 4, 8, 9], &[1, 5, 3], &[2, 4, 5]]
        )
    );
    Ok(())
}

// Whether the move is a flip of node k.
fn is_flip(m: &Move, k: u32) -> bool {
    match m {
        Move::Flip(node) => *node == k,
        Move::Permute(..) => false,
    }
}

// Whether it is a permute to these keys.
fn has_keys(m: &Move, row: &[u32]) -> bool {
    match m {
        Move::Flip(_) => false,
        Move::Permute(_, keys) => keys.as_slice() == row,
    }
}

#[test]
fn moves_as_values(rt: HostRuntime) -> Result<(), Fail> {
    let mut block = block_of(rt.alloc(), 6, &JOINED)?;
    if block.tree().node_count() < 3 || block.tree().kind(1) != Kind::R {
        return Err(Fail::from("no node"));
    }
    let there = Move::Flip(1);
    let again = back(rt.alloc(), &block, &there)?;
    assert!(rt; is_flip(&again, 1));
    carry_out(&mut block, &there);
    assert!(rt; stands_at(&block, &[&[0, 2, 1, 6, 7], &[0, 9, 8, 3, 4]]));
    let keys = Keys::of(rt.alloc(), &[0, 6, 1])?;
    assert!(rt; has_keys(&Move::Permute(0, keys), &[0, 6, 1]));
    Ok(())
}
