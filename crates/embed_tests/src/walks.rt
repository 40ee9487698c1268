// Lists of small blocks, worked out by hand.

use crate::small_blocks::{JOINED, block_of, go_to, make_all};
use embed_enum::{
    CountOver, GotoFault, count, first, members_after, moves_to_first, moves_to_next, next, rank,
};
use pair_split::Kind;
use skel_embed::PlaneBlock;
use std::alloc::Global;
use std::test::Fail;

// So many edges between two vertices.
fn bundle(alloc: Global, edges: u32) -> Result<PlaneBlock, Fail> {
    let ends = vec![in alloc; (0, 1); edges as usize]?;
    block_of(alloc, 2, &ends)
}

// A cycle of this many vertices with two edges from each to the next.
fn doubled_cycle(alloc: Global, vertices: u32) -> Result<PlaneBlock, Fail> {
    let mut ends = Vec::new(alloc);
    for v in 0..vertices {
        let w = if v + 1 == vertices { 0 } else { v + 1 };
        ends.push((v, w))?;
        ends.push((v, w))?;
    }
    block_of(alloc, vertices, &ends)
}

// How many times one can go on.
fn steps(block: &mut PlaneBlock, limit: u32) -> u32 {
    for n in 0..limit {
        if !next(block) {
            return n;
        }
    }
    limit
}

#[test]
fn walks_through_three_edges(rt: HostRuntime) -> Result<(), Fail> {
    let mut block = bundle(rt.alloc(), 3)?;
    assert!(rt; count(&block) == Ok(2));
    assert!(rt; rank(&block) == Ok(0));
    assert!(rt; next(&mut block));
    assert!(rt; rank(&block) == Ok(1));
    assert!(rt; !next(&mut block));
    assert!(rt; rank(&block) == Ok(1));
    first(&mut block);
    assert!(rt; rank(&block) == Ok(0));
    assert_eq!(rt; members_after(rt.alloc(), &block, 5)?.len(), 1);
    Ok(())
}

// The first bond of two complete graphs has its keys 0, 1 and 6; with 6 before 1 four members are passed.
#[test]
fn ranks_an_exchange(rt: HostRuntime) -> Result<(), Fail> {
    let mut block = block_of(rt.alloc(), 6, &JOINED)?;
    assert!(rt; go_to(rt.alloc(), &mut block, 4) == Ok(true));
    let keys: &[u32] = &[0, 6, 1];
    if block.tree().node_count() == 3 {
        assert!(rt; block.keys(0) == keys);
    }
    assert!(rt; rank(&block) == Ok(4));
    Ok(())
}

#[test]
fn walks_through_two_complete_graphs(rt: HostRuntime) -> Result<(), Fail> {
    let mut block = block_of(rt.alloc(), 6, &JOINED)?;
    assert!(rt; count(&block) == Ok(8));
    assert_eq!(rt; steps(&mut block, 20), 7);
    assert!(rt; rank(&block) == Ok(7));
    assert!(rt; go_to(rt.alloc(), &mut block, 8) == Err(GotoFault::RankOut(8)));
    assert!(rt; go_to(rt.alloc(), &mut block, 3) == Ok(true));
    assert!(rt; rank(&block) == Ok(3));
    assert_eq!(rt; members_after(rt.alloc(), &block, 3)?.len(), 3);
    if block.tree().node_count() == 3 {
        block.set_lock(0, true);
    }
    assert!(rt; count(&block) == Ok(4));
    assert!(rt; rank(&block) == Ok(3));
    assert!(rt; !next(&mut block));
    Ok(())
}

// By the moves to the next member through all eight, and by those to the first one back.
#[test]
fn moves_walk_through_two_complete_graphs(rt: HostRuntime) -> Result<(), Fail> {
    let mut block = block_of(rt.alloc(), 6, &JOINED)?;
    let last: u32 = 7;
    for n in 0..last {
        assert!(rt; rank(&block) == Ok(n as u128));
        match moves_to_next(rt.alloc(), &block)? {
            Some(moves) => assert!(rt; make_all(&mut block, &moves)),
            None => return Err(Fail::from("no next member")),
        }
    }
    assert!(rt; rank(&block) == Ok(7));
    assert!(rt; moves_to_next(rt.alloc(), &block)?.is_none());
    let back = moves_to_first(rt.alloc(), &block)?;
    assert_eq!(rt; back.as_slice().len(), 3);
    assert!(rt; make_all(&mut block, &back));
    assert!(rt; rank(&block) == Ok(0));
    Ok(())
}

// 34 factorial, the cyclic orders of 35 edges.
static ORDERS: u128 = 295232799039604140847618609643520000000;

#[test]
fn counts_up_to_the_limit(rt: HostRuntime) -> Result<(), Fail> {
    let mut block = bundle(rt.alloc(), 35)?;
    assert!(rt; count(&block) == Ok(ORDERS));
    assert!(rt; go_to(rt.alloc(), &mut block, ORDERS) == Err(GotoFault::RankOut(ORDERS)));
    assert!(rt; go_to(rt.alloc(), &mut block, ORDERS - 1) == Ok(true));
    assert!(rt; rank(&block) == Ok(ORDERS - 1));
    assert!(rt; !next(&mut block));
    assert!(rt; go_to(rt.alloc(), &mut block, ORDERS - 2) == Ok(true));
    assert!(rt; next(&mut block));
    assert!(rt; rank(&block) == Ok(ORDERS - 1));
    Ok(())
}

#[test]
fn walks_past_the_limit(rt: HostRuntime) -> Result<(), Fail> {
    let mut block = bundle(rt.alloc(), 36)?;
    assert!(rt; count(&block) == Err(CountOver));
    assert!(rt; rank(&block) == Err(CountOver));
    assert!(rt; go_to(rt.alloc(), &mut block, 0) == Err(GotoFault::CountOver));
    assert!(rt; next(&mut block));
    if block.tree().node_count() == 1 {
        block.set_lock(0, true);
    }
    assert!(rt; count(&block) == Ok(1));
    assert!(rt; rank(&block) == Ok(0));
    assert!(rt; !next(&mut block));
    assert!(rt; go_to(rt.alloc(), &mut block, 0) == Ok(true));
    Ok(())
}

// The number of the last bond.
fn last_bond(block: &PlaneBlock) -> Option<u32> {
    let mut found = None;
    for k in 0..block.tree().node_count() {
        if block.tree().kind(k) == Kind::P {
            found = Some(k);
        }
    }
    found
}

// Each of the 16 bonds of three items has two choices.
#[test]
fn walks_through_a_doubled_cycle(rt: HostRuntime) -> Result<(), Fail> {
    let mut block = doubled_cycle(rt.alloc(), 16)?;
    assert!(rt; count(&block) == Ok(65536));
    assert!(rt; go_to(rt.alloc(), &mut block, 65535) == Ok(true));
    assert!(rt; rank(&block) == Ok(65535));
    assert!(rt; !next(&mut block));
    assert!(rt; go_to(rt.alloc(), &mut block, 32767) == Ok(true));
    assert!(rt; next(&mut block));
    assert!(rt; rank(&block) == Ok(32768));
    if let Some(k) = last_bond(&block) {
        if k < block.tree().node_count() {
            block.set_lock(k, true);
        }
    }
    assert!(rt; count(&block) == Ok(32768));
    assert!(rt; rank(&block) == Ok(16384));
    Ok(())
}
