// Steps that change several blocks and cut vertices of a component.
ghost use Rattle.std.specs.Prelude.{◌≡◌, ◌++◌, ◌<◌, ℕ, true, [], length, map, slice_index, slice_index_or, None, IfOk, OnErr};
ghost use Rattle.permutations.specs.Members.{is_member};
ghost use Rattle.multigraph.specs.Part.{Rises};
ghost use Rattle.skel_embed.specs.Values.{as_moves};
ghost use Rattle.whole_embed.specs.Component.{IsComponentInPlane};
ghost use Rattle.whole_embed.specs.Cuts.{blocks_in, member_at, HavePlanes};
ghost use Rattle.whole_embed.specs.Walk.{first_around};
ghost use Rattle.spqr_session.specs.Embedded.{view_at, IsInPlane};
ghost use Rattle.spqr_session.specs.History.{as_pairs};
ghost use Rattle.spqr_session.specs.WholeSteps.{moves_forth, moves_back, pairs_of, list_kept, same_kept, change_kept, changes_below, wanted_in, FitsMember, GoesToWhole};

use crate::board::Board;
use crate::embedded::EmbeddedBlock;
use crate::kept::KeptLists;
use embed_convert::moves;
use multigraph::Numbers;
use skel_embed::{Move, Outcome};
use std::alloc::{AllocError, Global};
use undo_log::{Arrangement, BlockMove, BlockMoves, CutChange, CutChanges, SharedNumbers, Step};
use whole_embed::{Cuts, Member};

// ---- moves of blocks

// Appends moves of block b.
fn push_moves(list: &mut Vec<BlockMove>, b: u32, moves: Vec<Move>) -> Result<(), AllocError>
    ensures { IfOk result (λ _. as_pairs list.new.items
        ≡ as_pairs list.old.items ++ map (λ move. (b, move)) (as_moves moves.items)) }
{
    for one in moves {
        list.push(BlockMove { block: b, one })?;
    }
    Ok(())
}

// The moves from block b to the one that takes its place.
fn forth_of(
    alloc: Global,
    blocks: &[EmbeddedBlock],
    all: &[Member],
    b: u32,
) -> Result<Vec<Move>, AllocError>
    requires fits { FitsMember blocks.now all.now b }
    requires within { b < length all.now }
    ensures { IfOk result (λ list. as_moves list.items
        ≡ moves_forth blocks.now (blocks_in all.now) b) }
{
    match (blocks[b as usize].outcome(), &all[b as usize].plane) {
        (Outcome::Plane(old), Some(new)) => moves(alloc, old, new),
        _ => unreachable!(),
    }
}

// The moves back.
fn back_of(
    alloc: Global,
    blocks: &[EmbeddedBlock],
    all: &[Member],
    b: u32,
) -> Result<Vec<Move>, AllocError>
    requires fits { FitsMember blocks.now all.now b }
    requires within { b < length all.now }
    ensures { IfOk result (λ list. as_moves list.items
        ≡ moves_back blocks.now (blocks_in all.now) b) }
{
    match (blocks[b as usize].outcome(), &all[b as usize].plane) {
        (Outcome::Plane(old), Some(new)) => moves(alloc, new, old),
        _ => unreachable!(),
    }
}

// The moves from blocks to those that take their places, block by block.
fn all_forth(
    alloc: Global,
    blocks: &[EmbeddedBlock],
    all: &[Member],
    numbers: &[u32],
) -> Result<BlockMoves, AllocError>
    requires fits { (b : ℕ) → is_member b numbers.now ≡ true → FitsMember blocks.now all.now b }
    requires within { (b : ℕ) → is_member b numbers.now ≡ true → b < length all.now }
    ensures { IfOk result (λ list. as_pairs list
        ≡ pairs_of (moves_forth blocks.now (blocks_in all.now)) numbers.now) }
{
    let mut list = Vec::new(alloc);
    for b in numbers {
        let moves = forth_of(alloc, blocks, all, *b)?;
        push_moves(&mut list, *b, moves)?;
    }
    Ok(BlockMoves::of(list))
}

// The moves back.
fn all_back(
    alloc: Global,
    blocks: &[EmbeddedBlock],
    all: &[Member],
    numbers: &[u32],
) -> Result<BlockMoves, AllocError>
    requires fits { (b : ℕ) → is_member b numbers.now ≡ true → FitsMember blocks.now all.now b }
    requires within { (b : ℕ) → is_member b numbers.now ≡ true → b < length all.now }
    ensures { IfOk result (λ list. as_pairs list
        ≡ pairs_of (moves_back blocks.now (blocks_in all.now)) numbers.now) }
{
    let mut list = Vec::new(alloc);
    for b in numbers {
        let moves = back_of(alloc, blocks, all, *b)?;
        push_moves(&mut list, *b, moves)?;
    }
    Ok(BlockMoves::of(list))
}

// ---- lists at cut vertices

// Whether what is kept at vertex v is what is to be kept of a list, where this is the first arrangement.
fn is_kept(kept: &KeptLists, v: u32, first: &[u32], list: &[u32]) -> bool
    ensures { result ≡ same_kept (slice_index_or kept.now v None) (list_kept first.now list.now) }
{
    match kept.at(v) {
        Some(now) => list != first && now == list,
        None => list == first,
    }
}

// What is to be kept of a list, where this is the first arrangement.
fn kept_of(alloc: Global, first: &[u32], list: &[u32]) -> Result<Arrangement, AllocError>
    ensures { IfOk result (λ kept. kept ≡ list_kept first.now list.now) }
{
    if list == first {
        return Ok(None);
    }
    let numbers = Numbers::of(Vec::from_slice(alloc, list)?);
    Ok(Some(SharedNumbers::of(alloc, numbers)?))
}

// Appends the change at vertex v that keeps a list, where this is the first arrangement; none if it is kept already.
fn push_change(
    alloc: Global,
    cuts: &mut Vec<CutChange>,
    kept: &KeptLists,
    v: u32,
    first: &[u32],
    list: &[u32],
) -> Result<(), AllocError>
    ensures { IfOk result (λ _. cuts.new.items ≡ cuts.old.items
        ++ change_kept v (slice_index_or kept.now v None) (list_kept first.now list.now)) }
{
    if is_kept(kept, v, first, list) {
        return Ok(());
    }
    let before = kept.shared(v)?;
    let after = kept_of(alloc, first, list)?;
    cuts.push(CutChange {
        vertex: v,
        before,
        after,
    })?;
    Ok(())
}

// The changes that keep the lists at the cut vertices of a component, where these are its first arrangements.
fn all_changes(
    alloc: Global,
    kept: &KeptLists,
    first: &Cuts,
    cuts: &Cuts,
) -> Result<CutChanges, AllocError>
    requires { first.now.component ≡ cuts.now.component }
    ensures { IfOk result (λ changes. changes ≡ changes_below cuts.now.component.cuts kept.now
        (wanted_in first.now cuts.now) (length cuts.now.component.cuts)) }
{
    let mut changes = Vec::new(alloc);
    for i in 0..cuts.count() {
        let v = cuts.frame().cuts()[i];
        push_change(alloc, &mut changes, kept, v, first.list(i), cuts.list(i))?;
    }
    Ok(CutChanges::of(changes))
}

// The component with the first arrangement at each cut vertex for these blocks.
fn first_cuts(alloc: Global, cuts: &Cuts, all: &[Member]) -> Result<Cuts, AllocError>
    requires component { IsComponentInPlane cuts.now.component (blocks_in all.now) }
    requires planes { HavePlanes cuts.now.component all.now }
    ensures component { IfOk result (λ first. first.component ≡ cuts.now.component) }
    ensures lists { IfOk result (λ first. (i : ℕ) → i < length cuts.now.component.cuts
        → slice_index_or first.lists i [] ≡ first_around cuts.now.component (blocks_in all.now) i) }
{
    cuts.keeps();
    let mut first = cuts.copy(alloc)?;
    for i in 0..first.count() {
        first.set_first(all, i);
    }
    Ok(first)
}

// ---- the board

/// Gives the blocks of a component these rotation systems, and its cut vertices these lists. Graphs, trees and locks are the same. If memory
/// runs out, everything is as before.
pub(crate) fn put_whole(
    alloc: Global,
    board: &mut Board,
    cuts: &Cuts,
    all: &[Member],
) -> Result<(), AllocError>
    requires component { IsComponentInPlane cuts.now.component (blocks_in all.now) }
    requires planes { HavePlanes cuts.now.component all.now }
    requires fits { (b : ℕ) → is_member b cuts.now.component.blocks ≡ true
        → FitsMember board.old.views all.now b }
    requires right { (b : ℕ) → is_member b cuts.now.component.blocks ≡ true
        → IsInPlane (view_at board.old.views b) }
    requires parts { (b : ℕ) → is_member b cuts.now.component.blocks ≡ true
        → (member_at all.now b).part.graph ≡ (view_at board.old.views b).tree.part.graph }
    requires vertices { (i : ℕ) → i < length cuts.now.component.cuts
        → slice_index cuts.now.component.cuts i < length board.old.lists }
    ensures done { IfOk result (λ _. GoesToWhole board.old cuts.now all.now board.new) }
    ensures memory { OnErr result (board.new ≡ board.old) }
{
    let first = first_cuts(alloc, cuts, all)?;
    let forth = all_forth(alloc, board.blocks(), all, cuts.blocks())?;
    let back = all_back(alloc, board.blocks(), all, cuts.blocks())?;
    let cuts = all_changes(alloc, board.kept(), &first, cuts)?;
    board.carry(alloc, Step::Moves { forth, back, cuts })
}
