// The list walked: to its first member, and to the next.

ghost use Rattle.std.specs.Prelude.{◌≡◌, ℕ, List, ◌+◌, ◌<◌, ◌≤◌, true, false, length};
ghost use Rattle.skeletons.specs.Lists.{IsRank};
ghost use Rattle.skel_embed.specs.Block.{lock_at};
ghost use Rattle.embed_enum.specs.Digits.{radix_at, digit_at};
ghost use Rattle.embed_enum.specs.Walk.{IsMemberList, KeepsRest};
ghost use Rattle.embed_enum.specs.Changes.{IsMoved, node_digit, AreReset};

use crate::stepping::{step, to_first};
use skel_embed::PlaneBlock;

// Leads node k to its first choice, unless it is locked.
fn reset(p: &mut PlaneBlock, k: u32)
    requires { k < length p.old.tree }
    ensures locked { lock_at p.old.locks k ≡ true → p.new ≡ p.old }
    ensures open { lock_at p.old.locks k ≡ false → IsMoved p.old p.new k 0 }
{
    if !p.locked(k) {
        to_first(p, k);
    }
}

// Leads all nodes from one on that are not locked to their first choices.
fn first_from(p: &mut PlaneBlock, from: u32)
    requires { from ≤ length p.old.tree }
    ensures { AreReset p.old p.new from (length p.old.tree) }
{
    for k in from..p.tree().node_count() {
        reset(p, k);
    }
}

/// Goes to the first member of the list of the plane rotation systems with the present choices at the locked nodes. Takes no
/// memory.
pub fn first(p: &mut PlaneBlock)
    ensures first { (l : List (List (List ℕ))) → IsMemberList p.old l → IsRank l p.new.rotation 0 }
    ensures list { (l : List (List (List ℕ))) → IsMemberList p.old l → IsMemberList p.new l }
    ensures rest { KeepsRest p.old p.new }
{
    p.belongs();
    first_from(p, 0);
    p.belongs();
}

// Leads node k to its next choice; returns false and changes nothing if it is locked or at the last.
fn step_open(p: &mut PlaneBlock, k: u32) -> bool
    requires { k < length p.old.tree }
    ensures last { result ≡ false → (p.new ≡ p.old) × (digit_at p.old.tree
        (lock_at p.old.locks) p.old.rotation k + 1 ≡ radix_at p.old.tree (lock_at p.old.locks) k) }
    ensures next { result ≡ true → (lock_at p.old.locks k ≡ false)
        × IsMoved p.old p.new k (node_digit p.old k + 1) }
{
    if p.locked(k) {
        return false;
    }
    step(p, k)
}

/// Goes to the member of the list that follows the current one; returns false and changes nothing exactly where the current
/// one is the last. Looks from the last node up, so that a walk through all members rarely touches the first nodes. Takes no
/// memory.
pub fn next(p: &mut PlaneBlock) -> bool
    ensures next { (l : List (List (List ℕ))) (i : ℕ) → IsMemberList p.old l
        → IsRank l p.old.rotation i → result ≡ true → IsRank l p.new.rotation (i + 1) }
    ensures last { (l : List (List (List ℕ))) (i : ℕ) → IsMemberList p.old l
        → IsRank l p.old.rotation i → result ≡ false → i + 1 ≡ length l }
    ensures as_before { result ≡ false → p.new ≡ p.old }
    ensures list { (l : List (List (List ℕ))) → IsMemberList p.old l → IsMemberList p.new l }
    ensures rest { KeepsRest p.old p.new }
{
    p.belongs();
    let mut k = p.tree().node_count();
    while k > 0 {
        k -= 1;
        if step_open(p, k) {
            first_from(p, k + 1);
            p.belongs();
            return true;
        }
    }
    false
}
