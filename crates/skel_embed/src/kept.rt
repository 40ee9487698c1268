// The keys of a choice, from the least on, changed in place.

ghost use Rattle.std.specs.Prelude.{◌≡◌, ◌≤◌, ◌++◌, ◌==◌, true, length, map, reverse, take, drop, IsPermutation};
ghost use Rattle.std.specs.List.{position};
ghost use Rattle.permutations.specs.Cyclic.{from_least, turned};
ghost use Rattle.permutations.specs.Members.{is_member, is_distinct};
ghost use Rattle.skeletons.specs.Items.{item_key};
ghost use Rattle.skel_embed.specs.Exchanges.{other_of, exchanged, turned_choice, StandsAt};

use pair_split::Item;

// Reverses the cyclic order.
pub(crate) fn turn_round(keys: &mut [u32])
    requires once { is_distinct keys.old ≡ true }
    requires written { from_least keys.old ≡ keys.old }
    ensures { keys.new ≡ turned_choice keys.old }
{
    if keys.is_empty() {
        return;
    }
    reverse_from(keys, 1);
}

// Exchanges two keys of the cyclic order.
pub(crate) fn exchange(keys: &mut [u32], a: u32, b: u32)
    requires once { is_distinct keys.old ≡ true }
    requires written { from_least keys.old ≡ keys.old }
    requires first { is_member a keys.old ≡ true }
    requires second { is_member b keys.old ≡ true }
    ensures { keys.new ≡ from_least (exchanged a b keys.old) }
{
    let least = keys[0];
    exchange_all(keys, a, b);
    turn_to(keys, least);
}

// Writes the keys in another cyclic order.
pub(crate) fn arrange(keys: &mut [u32], order: &[u32])
    requires written { from_least keys.old ≡ keys.old }
    requires arrangement { IsPermutation keys.old order.now }
    ensures { keys.new ≡ from_least order.now }
{
    if keys.is_empty() {
        return;
    }
    let least = keys[0];
    keys.copy_from_slice(order);
    turn_to(keys, least);
}

// Writes the keys of the items in their order.
pub(crate) fn write_keys(keys: &mut [u32], items: &[Item])
    requires { length keys.old ≡ length items.now }
    ensures { keys.new ≡ map item_key items.now }
{
    for i in 0..items.len() {
        keys[i] = items[i].key;
    }
}

// Reverses the keys from a place on.
fn reverse_from(keys: &mut [u32], place: usize)
    requires { place ≤ length keys.old }
    ensures { keys.new ≡ take place keys.old ++ reverse (drop place keys.old) }
{
    let end = keys.len();
    keys[place..end].reverse();
}

// The other one of a and b, and each other key itself.
fn other_of(a: u32, b: u32, key: u32) -> u32
    ensures { result ≡ other_of a b key }
{
    if key == a {
        b
    } else if key == b {
        a
    } else {
        key
    }
}

// Puts a for b and b for a.
fn exchange_all(keys: &mut [u32], a: u32, b: u32)
    ensures { keys.new ≡ exchanged a b keys.old }
{
    for i in 0..keys.len() {
        keys[i] = other_of(a, b, keys[i]);
    }
}

// Writes the cyclic order of the keys from this one on.
fn turn_to(keys: &mut [u32], first: u32)
    requires { is_member first keys.old ≡ true }
    ensures { keys.new ≡ turned keys.old first }
{
    keys.rotate_left(place_of(keys, first));
}

/// The place of a key, counted from 0. Takes no memory.
pub fn place_of(keys: &[u32], key: u32) -> usize
    requires { is_member key keys.now ≡ true }
    ensures { StandsAt keys.now result key }
{
    match position(keys, key) {
        Some(place) => place,
        None => unreachable!(),
    }
}

// The first place of a key, if it is there.
pub(crate) fn position(keys: &[u32], key: u32) -> Option<usize>
    ensures { result ≡ position (λ k. k == key) keys.now }
{
    keys.iter().position(|k| *k == key)
}
