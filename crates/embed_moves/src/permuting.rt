// A bond permuted to given keys, if allowed.

ghost use Rattle.std.specs.Prelude.{◌≡◌, ◌<◌, ◌++◌, ◌↔◌, true, false, length, map, IfOk, IfErr, IsTrue, IsPermutation};
ghost use Rattle.permutations.specs.Members.{is_member, is_distinct};
ghost use Rattle.pair_split.specs.declared.components.Kind.TheVariants.{P};
ghost use Rattle.skeletons.specs.Items.{item_key};
ghost use Rattle.skeletons.specs.Moves.{permute};
ghost use Rattle.skel_embed.specs.Block.{lock_at};
ghost use Rattle.embed_moves.specs.Made.{IsMade, IsPermuteRefusal};

use pair_split::{Item, Kind};
use skel_embed::PlaneBlock;
use thiserror::Error;

/// Why a node is not permuted.
#[derive(Debug, Drop, Error)]
pub enum PermuteFault {
    /// It is not a bond.
    #[error("the node is not a bond")]
    WrongKind,
    /// The keys are not an ordering of its keys.
    #[error("the keys are not an ordering of the node's keys")]
    BadOrder,
    /// It is this node, and locked.
    #[error("node {0} is locked")]
    Locked(u32),
}

// Whether the key is among the keys.
fn has_key(keys: &[u32], key: u32) -> bool
    ensures { result ≡ is_member key keys.now }
{
    keys.contains(&key)
}

// Whether the keys are an ordering of those of the items: equally many, and all of them.
fn is_arrangement(items: &[Item], keys: &[u32]) -> bool
    requires { is_distinct (map item_key items.now) ≡ true }
    ensures { IsTrue result ↔ IsPermutation (map item_key items.now) keys.now }
{
    if items.len() != keys.len() {
        return false;
    }
    for item in items {
        if !has_key(keys, item.key) {
            return false;
        }
    }
    true
}

/// Permutes node `k` to the keys, which may begin anywhere: its groups come into their cyclic order at the lesser pole, and into
/// the reverse at the other, each group as it was (Di Battista and Tamassia 1996).
///
/// Fails with `WrongKind` if the node is not a bond, else with `BadOrder` if the keys are not an ordering of its own, else with
/// `Locked` if it is locked; the block is then unchanged. Takes no memory: the keys are looked up one by one, and the groups are
/// brought into their order in one pass. So it takes time in proportion to the square of the number of keys, and to the degrees of
/// the poles times the time of `Tree::group`.
pub fn permute(p: &mut PlaneBlock, k: u32, keys: &[u32]) -> Result<(), PermuteFault>
    requires { k < length p.old.tree }
    ensures made { IfOk result (λ _. IsMade (permute k keys.now) p.old p.new) }
    ensures unlocked { IfOk result (λ _. lock_at p.old.locks k ≡ false) }
    ensures refused { IfErr result (λ fault. IsPermuteRefusal p.old k keys.now fault
        × (p.new ≡ p.old)) }
{
    if p.tree().kind(k) != Kind::P {
        return Err(PermuteFault::WrongKind);
    }
    if !is_arrangement(p.tree().items(k), keys) {
        return Err(PermuteFault::BadOrder);
    }
    if p.locked(k) {
        return Err(PermuteFault::Locked(k));
    }
    p.arrange(k, keys);
    Ok(())
}
