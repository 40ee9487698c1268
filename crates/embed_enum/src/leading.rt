// The moves to other members of the list: read off from the block, which stays as it is.

ghost use Rattle.std.specs.Prelude.{◌≡◌, ◌+◌, ◌<◌, ◌≤◌, ◌++◌, true, false, length, take, drop, reverse, IfOk, MatchOption};
ghost use Rattle.std.specs.List.{swap};
ghost use Rattle.pair_split.specs.Tutte.{node_at};
ghost use Rattle.pair_split.specs.declared.components.Kind.TheVariants.{P, R};
ghost use Rattle.skeletons.specs.Items.{node_keys};
ghost use Rattle.skeletons.specs.Lists.{choice_count};
ghost use Rattle.skeletons.specs.Moves.{IsNodeOfKind};
ghost use Rattle.skel_embed.specs.Block.{BlockState, lock_at};
ghost use Rattle.skel_embed.specs.Values.{as_move, as_moves};
ghost use Rattle.embed_enum.specs.Digits.{radix_at, digit_at};
ghost use Rattle.embed_enum.specs.Changes.{node_digit, IsMoveTo, AreResetBy};
ghost use Rattle.embed_enum.specs.Walk.{IsAtRank, IsAfter, IsAtLast, AreMovesTo};

use crate::moving::{is_sorted, last_greater, last_rise};
use crate::ranking::is_before_mirror;
use pair_split::Kind;
use skel_embed::{Keys, Move, MoveList, PlaneBlock};
use std::alloc::{AllocError, Global};

// ---- to the first member

// Whether node k is at its first choice.
fn is_at_first(p: &PlaneBlock, k: u32) -> bool
    requires { k < length p.now.tree }
    ensures first { result ≡ true → node_digit p.now k ≡ 0 }
    ensures second { result ≡ false → (node_at p.now.tree k).kind ≡ R → node_digit p.now k ≡ 1 }
{
    p.belongs();
    match p.tree().kind(k) {
        Kind::P => is_sorted(p, k),
        Kind::R => is_before_mirror(p.keys(k)),
        Kind::S | Kind::B => true,
    }
}

// The keys of the items of node k, in order.
fn keys_of(alloc: Global, p: &PlaneBlock, k: u32) -> Result<Keys, AllocError>
    requires { k < length p.now.tree }
    ensures { IfOk result (λ keys. keys ≡ node_keys p.now.tree k) }
{
    let items = p.tree().items(k);
    let mut keys = Vec::with_capacity(alloc, items.len())?;
    for item in items {
        keys.push(item.key)?;
    }
    Keys::of(alloc, &keys)
}

// The move of node k to its first choice, unless it is locked or there.
fn reset(alloc: Global, p: &PlaneBlock, k: u32) -> Result<Option<Move>, AllocError>
    requires { k < length p.now.tree }
    ensures { IfOk result (λ found. MatchOption found
        (lock_at p.now.locks k ≡ false → node_digit p.now k ≡ 0)
        (λ one. (lock_at p.now.locks k ≡ false) × IsMoveTo p.now k 0 (as_move one))) }
{
    p.belongs();
    if p.locked(k) {
        return Ok(None);
    }
    if is_at_first(p, k) {
        return Ok(None);
    }
    match p.tree().kind(k) {
        Kind::P => {
            let keys = keys_of(alloc, p, k)?;
            Ok(Some(Move::Permute(k, keys)))
        }
        Kind::R => Ok(Some(Move::Flip(k))),
        Kind::S | Kind::B => Ok(None),
    }
}

// These moves, and after them those of the nodes from one on that are not locked to their first choices.
fn with_resets(
    alloc: Global,
    p: &PlaneBlock,
    moves: Vec<Move>,
    from: u32,
) -> Result<MoveList, AllocError>
    requires { from ≤ length p.now.tree }
    ensures { (mid : BlockState) → AreResetBy p.now mid from from (as_moves moves.items)
        → IfOk result (λ list. AreResetBy p.now mid from (length p.now.tree) (as_moves list)) }
{
    p.belongs();
    let mut moves = moves;
    for k in from..p.tree().node_count() {
        if let Some(one) = reset(alloc, p, k)? {
            moves.push(one)?;
        }
    }
    Ok(MoveList::of(moves))
}

/// The moves that lead to the first member of the list of the plane rotation systems with the present choices at the locked
/// nodes, in increasing order of their nodes: of each node that is neither locked nor at its first choice. Takes time in proportion to
/// the items of the tree. Fails only if memory runs out.
pub fn moves_to_first(alloc: Global, p: &PlaneBlock) -> Result<MoveList, AllocError>
    ensures { IfOk result (λ moves. AreMovesTo p.now (IsAtRank p.now 0) (as_moves moves)) }
{
    p.belongs();
    with_resets(alloc, p, Vec::new(alloc), 0)
}

// ---- to the next member

// Keys of which those at two places are exchanged, and then those after the first place reversed.
fn advanced(alloc: Global, keys: &[u32], i: usize, j: usize) -> Result<Keys, AllocError>
    requires { (i < j) × (j < length keys.now) }
    ensures { IfOk result (λ list. list ≡ take (i + 1) (swap keys.now i j)
        ++ reverse (drop (i + 1) (swap keys.now i j))) }
{
    let mut list = Vec::from_slice(alloc, keys)?;
    list.swap(i, j);
    list[i + 1..].reverse();
    Keys::of(alloc, &list)
}

// The move of bond k to its next ordering, unless it is at the last.
fn next_order(alloc: Global, p: &PlaneBlock, k: u32) -> Result<Option<Move>, AllocError>
    requires { IsNodeOfKind p.now.tree k P }
    ensures { IfOk result (λ found. MatchOption found
        (node_digit p.now k + 1 ≡ choice_count (node_at p.now.tree k).kind (length (node_at p.now.tree k).items))
        (λ one. IsMoveTo p.now k (node_digit p.now k + 1) (as_move one))) }
{
    p.belongs();
    let i = last_rise(p.keys(k));
    if i == 0 {
        return Ok(None);
    }
    let j = last_greater(p.keys(k), i);
    let keys = advanced(alloc, p.keys(k), i, j)?;
    Ok(Some(Move::Permute(k, keys)))
}

// The move of triconnected node k from its first choice to its second, unless it is at the second.
fn turn(p: &PlaneBlock, k: u32) -> Option<Move>
    requires { IsNodeOfKind p.now.tree k R }
    ensures { MatchOption result (node_digit p.now k ≡ 1)
        (λ one. IsMoveTo p.now k (node_digit p.now k + 1) (as_move one)) }
{
    p.belongs();
    if is_before_mirror(p.keys(k)) {
        Some(Move::Flip(k))
    } else {
        None
    }
}

// The move of node k to its next choice, unless it is locked or at its last.
fn step(alloc: Global, p: &PlaneBlock, k: u32) -> Result<Option<Move>, AllocError>
    requires { k < length p.now.tree }
    ensures { IfOk result (λ found. MatchOption found
        (digit_at p.now.tree (lock_at p.now.locks) p.now.rotation k + 1 ≡ radix_at p.now.tree (lock_at p.now.locks) k)
        (λ one. (lock_at p.now.locks k ≡ false) × IsMoveTo p.now k (node_digit p.now k + 1) (as_move one))) }
{
    p.belongs();
    if p.locked(k) {
        return Ok(None);
    }
    match p.tree().kind(k) {
        Kind::P => next_order(alloc, p, k),
        Kind::R => Ok(turn(p, k)),
        Kind::S | Kind::B => Ok(None),
    }
}

/// The moves that lead to the member of the list that follows the present one, or none exactly where the present one is the last.
/// Looks from the last node up for one that is not at its last choice. Its move is the first, and those of the nodes after it
/// to their first choices follow in increasing order. Takes time in proportion to the items of the nodes that it looks at. Fails only
/// if memory runs out.
pub fn moves_to_next(alloc: Global, p: &PlaneBlock) -> Result<Option<MoveList>, AllocError>
    ensures { IfOk result (λ found. MatchOption found (IsAtLast p.now)
        (λ moves. AreMovesTo p.now (IsAfter p.now) (as_moves moves))) }
{
    p.belongs();
    let mut k = p.tree().node_count();
    while k > 0 {
        k -= 1;
        if let Some(one) = step(alloc, p, k)? {
            let first = vec![in alloc; one]?;
            let moves = with_resets(alloc, p, first, k + 1)?;
            return Ok(Some(moves));
        }
    }
    Ok(None)
}
