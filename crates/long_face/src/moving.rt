// The moves that make wanted faces faces.

ghost use Rattle.std.specs.Prelude.{◌≡◌, ◌<◌, ◌++◌, ℕ, true, cond, length, option_to_list, IfOk, OnOk};
ghost use Rattle.pair_split.specs.Tutte.{node_at, node_item};
ghost use Rattle.pair_split.specs.declared.components.Kind.TheVariants.{P};
ghost use Rattle.skeletons.specs.Choices.{choice};
ghost use Rattle.skeletons.specs.Moves.{IsNodeOfKind};
ghost use Rattle.skel_embed.specs.Values.{as_moves};
ghost use Rattle.long_face.specs.Moves.{move_towards, moves_towards};
ghost use Rattle.long_face.specs.Settled.{has_want, want_or, want_at};
ghost use Rattle.long_face.specs.Wanted.{IsPair, wanted_choice, choice_wanted};

use crate::exchanged::{exchanged, following};
use crate::wants::Want;
use pair_split::Kind;
use skel_embed::{Keys, Move, PlaneBlock};
use std::alloc::{AllocError, Global};

// The choice that is wanted of the bond k.
fn bond_keys(alloc: Global, p: &PlaneBlock, k: u32, want: Want) -> Result<Vec<u32>, AllocError>
    requires node { IsNodeOfKind p.now.tree k P }
    requires pair { IsPair (length (node_at p.now.tree k).items) want }
    ensures { IfOk result (λ keys. keys.items ≡ wanted_choice P (λ i. (node_item p.now.tree k i).key)
        (choice p.now.tree p.now.rotation k) want) }
{
    p.belongs();
    let items = p.tree().items(k);
    let first = items[want.first as usize].key;
    let second = items[want.second as usize].key;
    let keys = p.keys(k);
    exchanged(alloc, keys, following(keys, first), second)
}

// The move that makes what is wanted of node k a face.
fn move_for(alloc: Global, p: &PlaneBlock, k: u32, want: Want) -> Result<Option<Move>, AllocError>
    requires node { k < length p.now.tree }
    requires pair { (node_at p.now.tree k).kind ≡ P
        → IsPair (length (node_at p.now.tree k).items) want }
    ensures { IfOk result (λ found. as_moves (option_to_list found)
        ≡ move_towards p.now.tree p.now.rotation k (wanted_choice (node_at p.now.tree k).kind
        (λ i. (node_item p.now.tree k i).key) (choice p.now.tree p.now.rotation k) want)) }
{
    p.belongs();
    match p.tree().kind(k) {
        Kind::P => {
            let keys = bond_keys(alloc, p, k, want)?;
            if p.keys(k) == keys.as_slice() {
                return Ok(None);
            }
            Ok(Some(Move::Permute(k, Keys::of(alloc, &keys)?)))
        }
        Kind::R => {
            if want.turned {
                Ok(Some(Move::Flip(k)))
            } else {
                Ok(None)
            }
        }
        Kind::S | Kind::B => Ok(None),
    }
}

// The move of node k, where something is wanted of it.
fn move_at(
    alloc: Global,
    p: &PlaneBlock,
    k: u32,
    own: Option<Want>,
) -> Result<Option<Move>, AllocError>
    requires node { k < length p.now.tree }
    requires pair { has_want own ≡ true → (node_at p.now.tree k).kind ≡ P
        → IsPair (length (node_at p.now.tree k).items) (want_or own) }
    ensures { IfOk result (λ found. as_moves (option_to_list found)
        ≡ move_towards p.now.tree p.now.rotation k (cond (has_want own)
        (wanted_choice (node_at p.now.tree k).kind (λ i. (node_item p.now.tree k i).key)
        (choice p.now.tree p.now.rotation k) (want_or own))
        (choice p.now.tree p.now.rotation k))) }
{
    match own {
        Some(want) => move_for(alloc, p, k, want),
        None => Ok(None),
    }
}

// Appends the move to the others, if there is one.
fn add(list: &mut Vec<Move>, found: Option<Move>) -> Result<(), AllocError>
    ensures { OnOk result (list.new.items ≡ list.old.items ++ option_to_list found) }
{
    match found {
        Some(one) => Ok(list.push(one)?),
        None => Ok(()),
    }
}

// The moves that make wanted faces faces, from the present rotation system of `p`, in order of the nodes: a flip of each triconnected node
// that is to be turned, and a permute of each bond in which another item is to follow an item (Di Battista and Tamassia 1996).
// Locks are not looked at. Fails only if memory runs out.
pub(crate) fn moves_for(
    alloc: Global,
    p: &PlaneBlock,
    wants: &[Option<Want>],
) -> Result<Vec<Move>, AllocError>
    requires number { length wants.now ≡ length p.now.tree }
    requires pairs { (k : ℕ) → k < length p.now.tree → has_want (want_at wants.now k) ≡ true
        → (node_at p.now.tree k).kind ≡ P
        → IsPair (length (node_at p.now.tree k).items) (want_or (want_at wants.now k)) }
    ensures { IfOk result (λ list. as_moves list.items ≡ moves_towards p.now.tree p.now.rotation
        (choice_wanted p.now.tree p.now.rotation (λ k. has_want (want_at wants.now k))
        (λ k. want_or (want_at wants.now k))) (length p.now.tree)) }
{
    let mut list = Vec::new(alloc);
    for k in 0..p.tree().node_count() {
        add(&mut list, move_at(alloc, p, k, wants[k as usize])?)?;
    }
    Ok(list)
}
