// The moves from one member to another.

ghost use Rattle.std.specs.Prelude.{◌≡◌, ◌<◌, ◌++◌, length, option_to_list, IfOk, OnOk};
ghost use Rattle.faces.specs.Euler.{IsPlaneSystem};
ghost use Rattle.skeletons.specs.Moves.{Lead, move_at, moves_between};
ghost use Rattle.skel_embed.specs.Values.{as_moves};

use pair_split::Kind;
use skel_embed::{Keys, Move, PlaneBlock};
use std::alloc::{AllocError, Global};

// The move of node k from p towards q, where their choices differ.
fn move_of(
    alloc: Global,
    p: &PlaneBlock,
    q: &PlaneBlock,
    k: u32,
) -> Result<Option<Move>, AllocError>
    requires tree { q.now.tree ≡ p.now.tree }
    requires node { k < length p.now.tree }
    ensures { IfOk result (λ found. as_moves (option_to_list found)
        ≡ move_at p.now.tree p.now.rotation q.now.rotation k) }
{
    if p.keys(k) == q.keys(k) {
        return Ok(None);
    }
    match p.tree().kind(k) {
        Kind::P => Ok(Some(Move::Permute(k, Keys::of(alloc, q.keys(k))?))),
        Kind::R => Ok(Some(Move::Flip(k))),
        Kind::S | Kind::B => Ok(None),
    }
}

// Appends the move to the others, if there is one.
fn add(list: &mut Vec<Move>, found: Option<Move>) -> Result<(), AllocError>
    ensures { OnOk result (list.new.items ≡ list.old.items ++ option_to_list found) }
{
    match found {
        Some(one) => Ok(list.push(one)?),
        None => Ok(()),
    }
}

/// The moves from the present rotation system of `p` to that of `q`, a block of the same graph and tree: for each node at which
/// the choices differ, in order of the nodes, a flip of a triconnected node, or a permute of a bond to its choice in `q` (Di
/// Battista and Tamassia 1996). One after the other they lead there, through plane rotation systems alone. Fails only if
/// memory runs out.
pub fn moves(alloc: Global, p: &PlaneBlock, q: &PlaneBlock) -> Result<Vec<Move>, AllocError>
    requires graph { q.now.graph ≡ p.now.graph }
    requires tree { q.now.tree ≡ p.now.tree }
    ensures moves { IfOk result (λ list. as_moves list.items
        ≡ moves_between p.now.tree p.now.rotation q.now.rotation) }
    ensures lead { IfOk result (λ list. Lead p.now.graph p.now.tree (IsPlaneSystem p.now.graph)
        (as_moves list.items) p.now.rotation q.now.rotation) }
{
    p.belongs();
    q.belongs();
    let mut list = Vec::new(alloc);
    for k in 0..p.tree().node_count() {
        add(&mut list, move_of(alloc, p, q, k)?)?;
    }
    Ok(list)
}
