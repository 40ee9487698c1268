// The choices of all nodes, as they are kept: the keys of one after those of the other, and where each choice ends. The keys are
// changed in place; the ends never change.

ghost use Rattle.std.specs.Prelude.{◌≡◌, ◌+◌, ◌<◌, ◌≤◌, [], true, length, map, slice_index_or, slice_set, IsPermutation};
ghost use Rattle.std.specs.List.{concat};
ghost use Rattle.permutations.specs.Cyclic.{from_least};
ghost use Rattle.permutations.specs.Members.{is_member, is_distinct};
ghost use Rattle.skeletons.specs.Items.{item_key};
ghost use Rattle.skel_embed.specs.Exchanges.{exchanged, turned_choice, AreWritten};
ghost use Rattle.skel_embed.specs.Flat.{start_at, lists_in, AreFlat};

use crate::kept::{arrange, exchange, turn_round, write_keys};
use pair_split::Item;
use std::marker::Model;

// The choices of the nodes, as they are read.
#[derive(Debug, Drop)]
pub(crate) struct Choices<'a> {
    keys: &'a [u32],
    ends: &'a [usize],
}

impl<'a> Model for Choices<'a> {
    ghost use Rattle.std.specs.Prelude.{List, ℕ};
    ghost use Rattle.skel_embed.specs.Flat.{lists_in, AreFlat};

    ghost Value = { List (List ℕ) };

    ghost view = { λ c. lists_in c.keys.now c.ends.now };

    ghost invariant = { λ c. AreFlat (lists_in c.keys.now c.ends.now) c.keys.now c.ends.now };
}

impl<'a> Choices<'a> {
    // The choices with these keys, which end there.
    pub(crate) fn of(keys: &'a [u32], ends: &'a [usize]) -> Choices<'a>
        requires { AreFlat (lists_in keys.now ends.now) keys.now ends.now }
        ensures { result ≡ lists_in keys.now ends.now }
    {
        Choices { keys, ends }
    }

    // Where the keys of node k begin.
    fn start(&self, k: usize) -> usize
        requires { k < length self.now }
        ensures { result ≡ start_at self.now k }
    {
        if k == 0 {
            return 0;
        }
        end_at(self.ends, k - 1)
    }

    // Where the keys of node k begin, and where they end.
    fn bounds(&self, k: usize) -> (usize, usize)
        requires { k < length self.now }
        ensures start { result.0 ≡ start_at self.now k }
        ensures end { result.1 ≡ start_at self.now (k + 1) }
        ensures order { result.0 ≤ result.1 }
        ensures within { result.1 ≤ length (concat self.now) }
    {
        (self.start(k), end_at(self.ends, k))
    }

    // The keys of node k, in order.
    pub(crate) fn at(&self, k: usize) -> &'a [u32]
        requires { k < length self.now }
        ensures { result.now ≡ slice_index_or self.now k [] }
    {
        let (start, end) = self.bounds(k);
        &self.keys[start..end]
    }
}

// Where the keys of node k end.
fn end_at(ends: &[usize], k: usize) -> usize
    requires { k < length ends.now }
    ensures { result ≡ slice_index_or ends.now k 0 }
{
    ends[k]
}

// Reverses the cyclic order of node k.
pub(crate) fn turn_choice(keys: &mut Vec<u32>, ends: &[usize], k: usize)
    requires flat { AreFlat (lists_in keys.old.items ends.now) keys.old.items ends.now }
    requires node { k < length (lists_in keys.old.items ends.now) }
    requires once { is_distinct (slice_index_or (lists_in keys.old.items ends.now) k []) ≡ true }
    requires written { from_least (slice_index_or (lists_in keys.old.items ends.now) k [])
        ≡ slice_index_or (lists_in keys.old.items ends.now) k [] }
    ensures flat { AreFlat (lists_in keys.new.items ends.now) keys.new.items ends.now }
    ensures turned { lists_in keys.new.items ends.now
        ≡ slice_set (lists_in keys.old.items ends.now) k
        (turned_choice (slice_index_or (lists_in keys.old.items ends.now) k [])) }
{
    let (start, end) = Choices::of(keys.as_slice(), ends).bounds(k);
    turn_round(&mut keys[start..end]);
}

// Exchanges two keys of the cyclic order of node k.
pub(crate) fn exchange_in_choice(keys: &mut Vec<u32>, ends: &[usize], k: usize, a: u32, b: u32)
    requires flat { AreFlat (lists_in keys.old.items ends.now) keys.old.items ends.now }
    requires node { k < length (lists_in keys.old.items ends.now) }
    requires once { is_distinct (slice_index_or (lists_in keys.old.items ends.now) k []) ≡ true }
    requires written { from_least (slice_index_or (lists_in keys.old.items ends.now) k [])
        ≡ slice_index_or (lists_in keys.old.items ends.now) k [] }
    requires first { is_member a (slice_index_or (lists_in keys.old.items ends.now) k []) ≡ true }
    requires second { is_member b (slice_index_or (lists_in keys.old.items ends.now) k []) ≡ true }
    ensures flat { AreFlat (lists_in keys.new.items ends.now) keys.new.items ends.now }
    ensures exchanged { lists_in keys.new.items ends.now
        ≡ slice_set (lists_in keys.old.items ends.now) k (from_least
        (exchanged a b (slice_index_or (lists_in keys.old.items ends.now) k []))) }
{
    let (start, end) = Choices::of(keys.as_slice(), ends).bounds(k);
    exchange(&mut keys[start..end], a, b);
}

// Writes the keys of node k in another cyclic order.
pub(crate) fn arrange_choice(keys: &mut Vec<u32>, ends: &[usize], k: usize, order: &[u32])
    requires flat { AreFlat (lists_in keys.old.items ends.now) keys.old.items ends.now }
    requires node { k < length (lists_in keys.old.items ends.now) }
    requires written { from_least (slice_index_or (lists_in keys.old.items ends.now) k [])
        ≡ slice_index_or (lists_in keys.old.items ends.now) k [] }
    requires arrangement { IsPermutation (slice_index_or (lists_in keys.old.items ends.now) k [])
        order.now }
    ensures flat { AreFlat (lists_in keys.new.items ends.now) keys.new.items ends.now }
    ensures arranged { lists_in keys.new.items ends.now
        ≡ slice_set (lists_in keys.old.items ends.now) k (from_least order.now) }
{
    let (start, end) = Choices::of(keys.as_slice(), ends).bounds(k);
    arrange(&mut keys[start..end], order);
}

// Writes the keys of the items as the choice of node k, in their order.
pub(crate) fn write_choice(keys: &mut Vec<u32>, ends: &[usize], k: usize, items: &[Item])
    requires flat { AreFlat (lists_in keys.old.items ends.now) keys.old.items ends.now }
    requires node { k < length (lists_in keys.old.items ends.now) }
    requires number { length (slice_index_or (lists_in keys.old.items ends.now) k [])
        ≡ length items.now }
    ensures flat { AreFlat (lists_in keys.new.items ends.now) keys.new.items ends.now }
    ensures written { lists_in keys.new.items ends.now
        ≡ slice_set (lists_in keys.old.items ends.now) k (map item_key items.now) }
{
    let (start, end) = Choices::of(keys.as_slice(), ends).bounds(k);
    write_keys(&mut keys[start..end], items);
}

// Reverses the cyclic order of each node.
pub(crate) fn turn_all(keys: &mut Vec<u32>, ends: &[usize])
    requires flat { AreFlat (lists_in keys.old.items ends.now) keys.old.items ends.now }
    requires written { AreWritten (lists_in keys.old.items ends.now) }
    ensures flat { AreFlat (lists_in keys.new.items ends.now) keys.new.items ends.now }
    ensures turned { lists_in keys.new.items ends.now
        ≡ map turned_choice (lists_in keys.old.items ends.now) }
{
    for k in 0..ends.len() {
        turn_choice(keys, ends, k);
    }
}
