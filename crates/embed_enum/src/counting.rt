// How many members the list of a block has.

ghost use Rattle.std.specs.Prelude.{◌≡◌, ℕ, List, ◌*◌, ◌^◌, ◌<◌, ◌≤◌, length, SomeIff, IfOk, OnErr};
ghost use Rattle.skeletons.specs.Lists.{cyclic_orders, list_count};
ghost use Rattle.skel_embed.specs.Block.{lock_at};
ghost use Rattle.embed_enum.specs.Walk.{IsMemberList};
ghost use Rattle.embed_enum.specs.Digits.{radix_at};

use pair_split::Kind;
use skel_embed::PlaneBlock;
use thiserror::Error;

/// The list has 2^128 members or more.
#[derive(Debug, Drop, PartialEq, Eq, Error)]
#[error("2^128 members or more")]
pub struct CountOver;

// n times the number of cyclic orders of this many items, if that is below 2^128.
pub(crate) fn times_orders(n: u128, items: usize) -> Option<u128>
    requires { 0 < n }
    ensures { SomeIff result (n * cyclic_orders items < 2 ^ 128) (n * cyclic_orders items) }
{
    let mut product = n;
    for f in 1..items {
        match product.checked_mul(f as u128) {
            Some(more) => product = more,
            None => return None,
        }
    }
    Some(product)
}

// n times the choices that are open to node k, where that is below 2^128.
pub(crate) fn times_choices(p: &PlaneBlock, k: u32, n: u128) -> Option<u128>
    requires node { k < length p.now.tree }
    requires positive { 0 < n }
    ensures { SomeIff result (n * radix_at p.now.tree (lock_at p.now.locks) k < 2 ^ 128)
        (n * radix_at p.now.tree (lock_at p.now.locks) k) }
{
    if p.locked(k) {
        return Some(n);
    }
    match p.tree().kind(k) {
        Kind::P => times_orders(n, p.tree().items(k).len()),
        Kind::R => n.checked_mul(2),
        Kind::S | Kind::B => Some(n),
    }
}

// The number of members, where it is below 2^128.
pub(crate) fn members(p: &PlaneBlock) -> Option<u128>
    ensures { SomeIff result (list_count p.now.tree (lock_at p.now.locks) < 2 ^ 128)
        (list_count p.now.tree (lock_at p.now.locks)) }
{
    let mut product: u128 = 1;
    for k in 0..p.tree().node_count() {
        match times_choices(p, k, product) {
            Some(more) => product = more,
            None => return None,
        }
    }
    Some(product)
}

/// The length of the list of the plane rotation systems with the present choices at the locked nodes: (n - 1)! for each bond
/// of n items, and 2 for each triconnected node, that is not locked. Fails with `CountOver` exactly
/// where there are 2^128 or more.
pub fn count(p: &PlaneBlock) -> Result<u128, CountOver>
    ensures counted { (l : List (List (List ℕ))) → IsMemberList p.now l
        → IfOk result (λ n. n ≡ length l) }
    ensures over { (l : List (List (List ℕ))) → IsMemberList p.now l
        → OnErr result (2 ^ 128 ≤ length l) }
{
    p.belongs();
    match members(p) {
        Some(n) => Ok(n),
        None => Err(CountOver),
    }
}
