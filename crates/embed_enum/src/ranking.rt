// The rank of the present rotation system.

ghost use Rattle.std.specs.Prelude.{◌≡◌, ℕ, List, ◌+◌, ◌*◌, ◌^◌, ◌<◌, ◌≤◌, nat_lt, cond, count_by, length, IfOk, OnOk, OnErr};
ghost use Rattle.choice_lists.specs.Arrangements.{factorial_number};
ghost use Rattle.skeletons.specs.Lists.{IsRank, list_count};
ghost use Rattle.skel_embed.specs.Block.{lock_at};
ghost use Rattle.embed_enum.specs.Walk.{IsMemberList};
ghost use Rattle.embed_enum.specs.Digits.{rigid_digit, radix_at, digit_at, number_to};

use crate::counting::{CountOver, members, times_choices};
use pair_split::Kind;
use skel_embed::PlaneBlock;

// How many of the keys are smaller than x.
pub(crate) fn smaller_ones(x: u32, keys: &[u32]) -> usize
    ensures { result ≡ count_by (λ y. nat_lt y x) keys.now }
{
    let mut found = 0;
    for y in keys {
        if *y < x {
            found += 1;
        }
    }
    found
}

// The number of an ordering in the factorial number system.
fn number_of(keys: &[u32]) -> u128
    requires { factorial_number keys.now < 2 ^ 128 }
    ensures { result ≡ factorial_number keys.now }
{
    let mut number: u128 = 0;
    let items = keys.len();
    for i in 0..items {
        let digit = smaller_ones(keys[i], &keys[i + 1..]);
        number = number * ((items - i) as u128) + digit as u128;
    }
    number
}

// Whether a choice comes before its mirror image: its second key is the smaller.
pub(crate) fn is_before_mirror(keys: &[u32]) -> bool
    requires { 2 ≤ length keys.now }
    ensures { cond result 0 1 ≡ rigid_digit keys.now }
{
    keys[1] < keys[keys.len() - 1]
}

// How many choices are open to node k.
pub(crate) fn radix(p: &PlaneBlock, k: u32) -> u128
    requires node { k < length p.now.tree }
    requires fits { radix_at p.now.tree (lock_at p.now.locks) k < 2 ^ 128 }
    ensures { result ≡ radix_at p.now.tree (lock_at p.now.locks) k }
{
    match times_choices(p, k, 1) {
        Some(n) => n,
        None => unreachable!(),
    }
}

// The place of the present choice of node k among them.
pub(crate) fn digit(p: &PlaneBlock, k: u32) -> u128
    requires node { k < length p.now.tree }
    requires fits { radix_at p.now.tree (lock_at p.now.locks) k < 2 ^ 128 }
    ensures { result ≡ digit_at p.now.tree (lock_at p.now.locks) p.now.rotation k }
{
    if p.locked(k) {
        return 0;
    }
    p.belongs();
    match p.tree().kind(k) {
        Kind::P => number_of(p.keys(k)),
        Kind::R => u128::from(!is_before_mirror(p.keys(k))),
        Kind::S | Kind::B => 0,
    }
}

// The number whose digits are the places of the present choices, the first node most significant.
fn number(p: &PlaneBlock) -> u128
    requires { list_count p.now.tree (lock_at p.now.locks) < 2 ^ 128 }
    ensures { result ≡ number_to (length p.now.tree) (radix_at p.now.tree (lock_at p.now.locks))
        (digit_at p.now.tree (lock_at p.now.locks) p.now.rotation) }
{
    let mut number: u128 = 0;
    for k in 0..p.tree().node_count() {
        number = number * radix(p, k) + digit(p, k);
    }
    number
}

/// The rank of the current rotation system in the list of the plane rotation systems with the current choices at the locked
/// nodes, from 0. Fails with `CountOver` exactly where the list has 2^128 members or more.
pub fn rank(p: &PlaneBlock) -> Result<u128, CountOver>
    ensures ranked { (l : List (List (List ℕ))) → IsMemberList p.now l
        → IfOk result (λ i. IsRank l p.now.rotation i) }
    ensures within { (l : List (List (List ℕ))) → IsMemberList p.now l
        → OnOk result (length l < 2 ^ 128) }
    ensures over { (l : List (List (List ℕ))) → IsMemberList p.now l
        → OnErr result (2 ^ 128 ≤ length l) }
{
    p.belongs();
    match members(p) {
        Some(_) => Ok(number(p)),
        None => Err(CountOver),
    }
}
