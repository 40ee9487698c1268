// The moves to the member of a rank: read off from the block, which stays as it is.

ghost use Rattle.std.specs.Prelude.{◌≡◌, ℕ, List, ◌+◌, ◌-◌, ◌^◌, ◌<◌, ◌≤◌, true, false, length, drop, slice_index_or, IfOk, IfErr, OnOk, MatchOption};
ghost use Rattle.permutations.specs.Members.{is_distinct};
ghost use Rattle.pair_split.specs.declared.components.Kind.TheVariants.{P};
ghost use Rattle.choice_lists.specs.Arrangements.{factorial};
ghost use Rattle.choice_lists.specs.Falling.{smaller};
ghost use Rattle.skeletons.specs.Choices.{choice};
ghost use Rattle.skeletons.specs.Lists.{list_count};
ghost use Rattle.skeletons.specs.Moves.{permute, IsNodeOfKind};
ghost use Rattle.skel_embed.specs.Block.{lock_at};
ghost use Rattle.skel_embed.specs.Values.{as_move, as_moves};
ghost use Rattle.embed_enum.specs.Digits.{radix_at, digit_at};
ghost use Rattle.embed_enum.specs.Changes.{IsMoveTo};
ghost use Rattle.embed_enum.specs.Walk.{IsMemberList, IsAtRank, AreMovesTo, IsGotoRefusal};

use crate::counting::members;
use crate::ranking::{digit, radix, smaller_ones};
use pair_split::Kind;
use skel_embed::{Keys, Move, MoveList, PlaneBlock};
use std::alloc::{AllocError, Global};
use thiserror::Error;

/// Why there are no moves to the member of a rank.
#[derive(Debug, Drop, PartialEq, Eq, Error)]
pub enum GotoFault {
    /// The list has 2^128 members or more.
    #[error("2^128 members or more")]
    CountOver,
    /// It has this many members, and the rank is no less.
    #[error("only {0} members")]
    RankOut(u128),
    /// Memory ran out.
    #[error("out of memory")]
    Memory,
}

// The place from i on of the key that has this many smaller ones from i on.
fn place_with_smaller(keys: &[u32], i: usize, wanted: u128) -> usize
    requires once { is_distinct keys.now ≡ true }
    requires some { (i < length keys.now) × (wanted < length keys.now - i) }
    ensures place { (i ≤ result) × (result < length keys.now) }
    ensures found { smaller (slice_index_or keys.now result 0) (drop i keys.now) ≡ wanted }
{
    for j in i..keys.len() {
        if smaller_ones(keys[j], &keys[i..]) as u128 == wanted {
            return j;
        }
    }
    unreachable!()
}

// The keys of bond k in the ordering that has this number in the factorial number system; `orders` is the number of its
// orderings.
fn numbered_order(
    alloc: Global,
    p: &PlaneBlock,
    k: u32,
    number: u128,
    orders: u128,
) -> Result<Keys, AllocError>
    requires node { IsNodeOfKind p.now.tree k P }
    requires orders { orders ≡ factorial (length (choice p.now.tree p.now.rotation k) - 1) }
    requires below { number < orders }
    ensures { IfOk result (λ keys. IsMoveTo p.now k number (permute k keys)) }
{
    p.belongs();
    let mut keys = p.keys(k).to_vec(alloc)?;
    let mut left = number;
    let mut factor = orders;
    let items = keys.len();
    for i in 1..items {
        factor = factor / ((items - i) as u128);
        let j = place_with_smaller(&keys, i, left / factor);
        keys.swap(i, j);
        left = left % factor;
    }
    Keys::of(alloc, &keys)
}

// The move of node k to its choice at this place, unless it is locked or there.
fn to_place(alloc: Global, p: &PlaneBlock, k: u32, place: u128) -> Result<Option<Move>, AllocError>
    requires node { k < length p.now.tree }
    requires below { place < radix_at p.now.tree (lock_at p.now.locks) k }
    requires fits { radix_at p.now.tree (lock_at p.now.locks) k < 2 ^ 128 }
    ensures { IfOk result (λ found. MatchOption found
        (digit_at p.now.tree (lock_at p.now.locks) p.now.rotation k ≡ place)
        (λ one. (lock_at p.now.locks k ≡ false) × IsMoveTo p.now k place (as_move one))) }
{
    p.belongs();
    if p.locked(k) {
        return Ok(None);
    }
    if digit(p, k) == place {
        return Ok(None);
    }
    match p.tree().kind(k) {
        Kind::P => {
            let orders = radix(p, k);
            let keys = numbered_order(alloc, p, k, place, orders)?;
            Ok(Some(Move::Permute(k, keys)))
        }
        Kind::R => Ok(Some(Move::Flip(k))),
        Kind::S | Kind::B => Ok(None),
    }
}

// The moves that give the nodes that are not locked the choices whose places are the digits of this number.
fn moves_to_number(alloc: Global, p: &PlaneBlock, number: u128) -> Result<MoveList, AllocError>
    requires fits { list_count p.now.tree (lock_at p.now.locks) < 2 ^ 128 }
    requires below { number < list_count p.now.tree (lock_at p.now.locks) }
    ensures { IfOk result (λ moves. AreMovesTo p.now (IsAtRank p.now number) (as_moves moves)) }
{
    p.belongs();
    let mut moves = Vec::new(alloc);
    let mut left = number;
    let mut k = p.tree().node_count();
    while k > 0 {
        k -= 1;
        let choices = radix(p, k);
        if let Some(one) = to_place(alloc, p, k, left % choices)? {
            moves.push(one)?;
        }
        left = left / choices;
    }
    Ok(MoveList::of(moves))
}

/// The moves that lead to the member of the list that has this rank, from 0, in decreasing order of their nodes: of each node that has
/// another choice there. Fails with `CountOver` exactly where the list has 2^128 members or more, else with `RankOut` and the number
/// of members if the rank is not below it, and with `Memory` only if memory runs out.
pub fn moves_to_rank(alloc: Global, p: &PlaneBlock, rank: u128) -> Result<MoveList, GotoFault>
    ensures gone { IfOk result (λ moves. AreMovesTo p.now (IsAtRank p.now rank) (as_moves moves)) }
    ensures within { (l : List (List (List ℕ))) → IsMemberList p.now l
        → OnOk result (length l < 2 ^ 128) }
    ensures refused { (l : List (List (List ℕ))) → IsMemberList p.now l
        → IfErr result (IsGotoRefusal l rank) }
{
    p.belongs();
    match members(p) {
        None => Err(GotoFault::CountOver),
        Some(count) => {
            if rank >= count {
                return Err(GotoFault::RankOut(count));
            }
            match moves_to_number(alloc, p, rank) {
                Ok(moves) => Ok(moves),
                Err(_) => Err(GotoFault::Memory),
            }
        }
    }
}
