// Moves carried out when it is known that they fit, and the moves that lead back.

ghost use Rattle.std.specs.Prelude.{◌≡◌, ◌<◌, true, length, IfOk, IsPermutation};
ghost use Rattle.permutations.specs.Members.{is_member};
ghost use Rattle.pair_split.specs.declared.components.Kind.TheVariants.{P};
ghost use Rattle.skeletons.specs.Items.{node_keys};
ghost use Rattle.skeletons.specs.Moves.{permute, moved_node, IsNodeOfKind};
ghost use Rattle.skel_embed.specs.Values.{as_move};
ghost use Rattle.embed_moves.specs.Made.{IsMade, KeepsOthers, Fits, LeadsBack};

use pair_split::{Item, What};
use skel_embed::{Keys, Move, PlaneBlock};
use std::alloc::{AllocError, Global};

// The most keys that are brought to their places by exchanges, and the most items of a node beyond a group that is exchanged.
const FEW: usize = 8;

// Whether a node with these items is a leaf of the tree with few edges.
fn is_small_leaf(items: &[Item]) -> bool {
    let mut is_linked = false;
    for item in items {
        if let What::Link(_) = item.what {
            if is_linked {
                return false;
            }
            is_linked = true;
        }
    }
    items.len() <= FEW
}

// Whether the item of node k with this key is an edge, or has a leaf of the tree with few edges beyond it.
fn is_small(p: &PlaneBlock, k: u32, key: u32) -> bool
    requires { k < length p.now.tree }
{
    let items = p.tree().items(k);
    let Ok(place) = items.binary_search_by_key(&key, |item| item.key) else {
        return false;
    };
    match items[place].what {
        What::Real(_) => true,
        What::Link(j) => j < p.tree().node_count() && is_small_leaf(p.tree().items(j)),
    }
}

// Whether a few exchanges of small groups lead to these keys: there are as many as the choice of node k has, the first is the same, and
// they differ at few places, where there are small groups.
fn is_near(p: &PlaneBlock, k: u32, keys: &[u32]) -> bool
    requires { k < length p.now.tree }
{
    let now = p.keys(k);
    if now.len() != keys.len() || now.is_empty() || now[0] != keys[0] {
        return false;
    }
    let mut left = FEW;
    for (here, key) in now.iter().zip(keys) {
        if here != key {
            if left == 0 || !is_small(p, k, *key) {
                return false;
            }
            left -= 1;
        }
    }
    true
}

// Brings this key to place i of the present choice of the bond k, in exchange for the key there.
fn exchange_at(p: &mut PlaneBlock, k: u32, i: usize, key: u32)
    requires node { IsNodeOfKind p.old.tree k P }
    requires place { i < length (node_keys p.old.tree k) }
    requires key { is_member key (node_keys p.old.tree k) ≡ true }
    ensures { KeepsOthers p.old p.new k }
{
    p.belongs();
    let here = p.keys(k)[i];
    if here != key {
        p.exchange_groups(k, here, key);
    }
}

// Brings one key after the other to its place in the choice of the bond k. Where the first is there already, each exchange that is made
// puts one more key where it belongs, so there are fewer exchanges than places with another key.
fn exchange_towards(p: &mut PlaneBlock, k: u32, keys: &[u32])
    requires node { IsNodeOfKind p.old.tree k P }
    requires arrangement { IsPermutation (node_keys p.old.tree k) keys.now }
    ensures { KeepsOthers p.old p.new k }
{
    for i in 0..keys.len() {
        exchange_at(p, k, i, keys[i]);
    }
}

// Permutes the bond k to the keys: by a few exchanges of small groups where these lead there, else by one pass over all groups.
fn reorder(p: &mut PlaneBlock, k: u32, keys: &[u32])
    requires node { IsNodeOfKind p.old.tree k P }
    requires arrangement { IsPermutation (node_keys p.old.tree k) keys.now }
    ensures { IsMade (permute k keys.now) p.old p.new }
{
    p.belongs();
    if is_near(p, k, keys) {
        exchange_towards(p, k, keys);
    }
    p.belongs();
    if p.keys(k) != keys {
        p.arrange(k, keys);
    }
    p.belongs();
}

/// Carries a move out, whether its node is locked or not. A permute to keys that differ from the present ones at few places, where
/// there are small groups, takes time in proportion to the number of keys, and does not look at the other groups. Takes no memory.
pub fn carry_out(p: &mut PlaneBlock, m: &Move)
    requires { Fits p.old.tree (as_move m.now) }
    ensures { IsMade (as_move m.now) p.old p.new }
{
    match m {
        Move::Flip(k) => p.turn(*k),
        Move::Permute(k, keys) => reorder(p, *k, keys.as_slice()),
    }
}

/// The move that leads back to the current rotation system from where `m` leads: the same flip, or a permute to the current
/// choice. Fails only if memory runs out.
/// For callers of the library: the program does not call it.
pub fn back(alloc: Global, p: &PlaneBlock, m: &Move) -> Result<Move, AllocError>
    requires { Fits p.now.tree (as_move m.now) }
    ensures leads { IfOk result (λ b. LeadsBack p.now (as_move m.now) (as_move b)) }
    ensures node { IfOk result (λ b. moved_node (as_move b) ≡ moved_node (as_move m.now)) }
{
    p.belongs();
    match m {
        Move::Flip(k) => Ok(Move::Flip(*k)),
        Move::Permute(k, _) => Ok(Move::Permute(*k, Keys::of(alloc, p.keys(*k))?)),
    }
}
