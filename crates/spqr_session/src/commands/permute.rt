// `permute B K KEYS`: the groups of a bond of a block are put in the order of keys.
ghost use Rattle.std.specs.Prelude.{◌≡◌, ◌<◌, ◌==◌, ◌↔◌, length, map, slice_index, None, IfOk, OnErr, IsTrue, IsPermutation};
ghost use Rattle.permutations.specs.Count.{least};
ghost use Rattle.multigraph.specs.Part.{Rises};
ghost use Rattle.pair_split.specs.declared.components.Kind.TheVariants.{P};
ghost use Rattle.skeletons.specs.Items.{item_key};
ghost use Rattle.skeletons.specs.Moves.{permute};
ghost use Rattle.skel_embed.specs.Values.{as_move};
ghost use Rattle.spqr_session.specs.State.{State};
ghost use Rattle.spqr_session.specs.Embedded.{view_tree, view_entry, view_at};
ghost use Rattle.spqr_session.specs.Scene.{setting_on};
ghost use Rattle.spqr_session.specs.declared.scene.Scene.{Scene};
ghost use Rattle.spqr_session.specs.BlockCodes.{kind_of};
ghost use Rattle.spqr_session.specs.Board.{state_on, BelongTogether, IsCarried};
ghost use Rattle.spqr_session.specs.Planned.{IsVerdict, AreArranged, IsPermuteVerdict};
ghost use Rattle.spqr_session.specs.Commands.Permute.{inner_edges, permute_ladder, PermuteStep};

use crate::board::Board;
use crate::code::Code;
use crate::embedded::EmbeddedBlock;
use crate::making::{code_of_move, make_move};
use pair_split::{Item, Kind};
use skel_embed::{Keys, Move};
use std::alloc::{AllocError, Global};

// ---- the test of the keys

// The number in a block of an edge of the whole graph; where the block does not have it, the number after the last, which is not an edge.
fn inner_key(block: &EmbeddedBlock, key: u32) -> u32
    ensures { result ≡ least (length block.now.tree.part.edges)
        (λ i. slice_index block.now.tree.part.edges i == key) }
{
    let part = block.part();
    match part.inner_edge(key) {
        Some(edge) => edge,
        None => part.graph().edge_count(),
    }
}

// The keys in the numbers of a block.
fn inner_keys(alloc: Global, block: &EmbeddedBlock, keys: &[u32]) -> Result<Vec<u32>, AllocError>
    ensures { IfOk result (λ own. own.items ≡ inner_edges block.now.tree keys.now) }
{
    let mut own = Vec::with_capacity(alloc, keys.len())?;
    for key in keys {
        own.push(inner_key(block, *key))?;
    }
    Ok(own)
}

// Whether these are the keys of the items, in order.
fn are_keys(items: &[Item], keys: &[u32]) -> bool
    ensures { IsTrue result ↔ (map item_key items.now ≡ keys.now) }
{
    if items.len() != keys.len() {
        return false;
    }
    for i in 0..keys.len() {
        if items[i].key != keys[i] {
            return false;
        }
    }
    true
}

// Whether the keys are a permutation of those of the items, which increase: a copy of them is sorted and compared.
fn are_arranged(alloc: Global, items: &[Item], keys: &[u32]) -> Result<bool, AllocError>
    requires { Rises (map item_key items.now) }
    ensures { IfOk result (λ arranged. IsTrue arranged ↔ IsPermutation
        (map item_key items.now) keys.now) }
{
    let mut sorted = Vec::from_slice(alloc, keys)?;
    sorted.sort_unstable();
    Ok(are_keys(items, &sorted))
}

// ---- the command

// The code that applies to a permute of this bond of a block. The keys are compared with those of its tree, which is there also where the
// block is not planar.
fn code_of_bond(
    alloc: Global,
    block: &EmbeddedBlock,
    k: u32,
    keys: &[u32],
) -> Result<Option<Code>, AllocError>
    requires node { k < length block.now.tree.nodes }
    requires kind { kind_of block.now.tree k ≡ P }
    ensures { IfOk result (IsPermuteVerdict k keys.now block.now) }
{
    // The nodes are the tree of the part, and the part has the number of each of its edges.
    let _ = block.outcome();
    let _ = block.part().graph();
    let own = inner_keys(alloc, block, keys)?;
    if !are_arranged(alloc, block.tree().items(k), &own)? {
        return Ok(Some(Code::BadOrder));
    }
    Ok(code_of_move(block, k))
}

// The code that applies to a permute of node k of a block.
fn code_of_block(
    alloc: Global,
    block: &EmbeddedBlock,
    k: u32,
    keys: &[u32],
) -> Result<Option<Code>, AllocError>
    ensures { IfOk result (IsPermuteVerdict k keys.now block.now) }
{
    if k >= block.tree().node_count() {
        return Ok(Some(Code::NoNode));
    }
    match block.tree().kind(k) {
        Kind::P => code_of_bond(alloc, block, k, keys),
        Kind::S | Kind::R | Kind::B => Ok(Some(Code::WrongKind)),
    }
}

// The code that applies to a permute of node k of block b.
fn code_of(
    alloc: Global,
    blocks: &[EmbeddedBlock],
    b: u32,
    k: u32,
    keys: &[u32],
) -> Result<Option<Code>, AllocError>
    ensures verdict { (s : State) → s.present.entries ≡ map view_entry blocks.now
        → IfOk result (IsVerdict (permute_ladder (map view_tree blocks.now) b k keys.now s)) }
    ensures arranged { IfOk result (λ code. code ≡ None → AreArranged k keys.now (view_at blocks.now b).tree) }
{
    match blocks.get(b as usize) {
        Some(block) => code_of_block(alloc, block, k, keys),
        None => Ok(Some(Code::NoBlock)),
    }
}

// The permute of node k of a block to the keys.
fn move_of(alloc: Global, block: &EmbeddedBlock, k: u32, keys: &[u32]) -> Result<Move, AllocError>
    ensures { IfOk result (λ one. as_move one ≡ permute k (inner_edges block.now.tree keys.now)) }
{
    let own = inner_keys(alloc, block, keys)?;
    Ok(Move::Permute(k, Keys::of(alloc, &own)?))
}

/// Carries out `permute`: the bond is permuted to the keys, or code 1, 2, 3, 4, 5 or 12. Without memory the board stays as it
/// was.
pub(crate) fn carry_permute(
    alloc: Global,
    board: &mut Board,
    b: u32,
    k: u32,
    keys: &[u32],
) -> Result<Vec<u8>, AllocError>
    ensures step { (scene : Scene) → BelongTogether scene board.old → IfOk result (λ text. PermuteStep (setting_on scene board.old.views) b k keys.now
        (state_on scene board.old.views board.old) text.items (state_on scene board.old.views board.new)) }
    ensures setting { IsCarried board.old.views board.new.views }
    ensures memory { OnErr result (board.new ≡ board.old) }
{
    match code_of(alloc, board.blocks(), b, k, keys)? {
        Some(code) => code.line(alloc),
        None => {
            let one = move_of(alloc, &board.blocks()[b as usize], k, keys)?;
            make_move(alloc, board, b, one)
        }
    }
}
