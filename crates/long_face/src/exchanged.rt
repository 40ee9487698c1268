// A choice with two keys exchanged.

ghost use Rattle.std.specs.Prelude.{◌≡◌, ◌<◌, true, IfOk};
ghost use Rattle.permutations.specs.Cyclic.{from_least, successor};
ghost use Rattle.permutations.specs.Members.{is_member, is_distinct};
ghost use Rattle.skel_embed.specs.Exchanges.{other_of, exchanged};

use skel_embed::place_of;
use std::alloc::{AllocError, Global};

// The key that follows another in the cyclic order.
pub(crate) fn following(keys: &[u32], key: u32) -> u32
    requires once { is_distinct keys.now ≡ true }
    requires held { is_member key keys.now ≡ true }
    ensures { result ≡ successor keys.now key }
{
    let next = place_of(keys, key) + 1;
    if next == keys.len() {
        keys[0]
    } else {
        keys[next]
    }
}

// The other one of a and b, and each other key itself.
fn other_of(a: u32, b: u32, key: u32) -> u32
    ensures { result ≡ other_of a b key }
{
    if key == a {
        b
    } else if key == b {
        a
    } else {
        key
    }
}

// A copy with a for b and b for a.
fn copied(alloc: Global, keys: &[u32], a: u32, b: u32) -> Result<Vec<u32>, AllocError>
    ensures { IfOk result (λ copy. copy.items ≡ exchanged a b keys.now) }
{
    let mut copy = Vec::with_capacity(alloc, keys.len())?;
    for key in keys {
        copy.push(other_of(a, b, *key))?;
    }
    Ok(copy)
}

// The choice with a and b exchanged, from the least key on.
pub(crate) fn exchanged(alloc: Global, keys: &[u32], a: u32, b: u32) -> Result<Vec<u32>, AllocError>
    requires written { from_least keys.now ≡ keys.now }
    requires first { is_member a keys.now ≡ true }
    requires second { is_member b keys.now ≡ true }
    ensures { IfOk result (λ copy. copy.items ≡ from_least (exchanged a b keys.now)) }
{
    let mut copy = copied(alloc, keys, a, b)?;
    let place = place_of(&copy, keys[0]);
    copy.rotate_left(place);
    Ok(copy)
}
