// Arrangements made edge by edge: the first one, and the one that follows.

ghost use Rattle.std.specs.Prelude.{◌≡◌, ◌≢◌, ◌+◌, ◌<◌, ◌≤◌, ◌↔◌, ℕ, true, false, length, take, Contains, slice_index};
ghost use Rattle.permutations.specs.Members.{is_member};
ghost use Rattle.permutations.specs.Cyclic.{first_or};
ghost use Rattle.choice_lists.specs.Order.{IsAt};
ghost use Rattle.choice_lists.specs.Products.{IsLast};
ghost use Rattle.arrangements.specs.Arranged.{arrangements_at, first_arrangement};
ghost use Rattle.arrangements.specs.Options.{follower, IsFilled, HasNoGreater, IsFollowing};
ghost use Rattle.arrangements.specs.Tables.{HaveBlocks, HaveArrangement};
ghost use Rattle.arrangements.specs.Prefixes.{ForBlocks, ForBuilt, HaveBuilt, HasGreater, HasRoom, IsNoted, IsIncreased, IsFullyBuilt};

use crate::prefixes::Prefix;
use crate::tables::Tables;

// Puts at each place of the list from a place on the least edge that may come.
pub(crate) fn fill(tables: &Tables, prefix: &mut Prefix, list: &mut [u32], from: usize)
    requires all { length list.old ≡ length tables.now.edges }
    requires place { from ≤ length list.old }
    requires noted { IsNoted tables.now prefix.old (take from list.old) }
    requires blocks { HaveBuilt tables.now (take from list.old) }
    ensures before { take from list.new ≡ take from list.old }
    ensures filled { ForBuilt tables.now (take from list.old) (λ block order. IsFilled block
        (follower block order) tables.now.edges from list.new) }
    ensures room { HasRoom tables.now prefix.new }
{
    let mut low = 0;
    for i in from..list.len() {
        low = prefix.unopened_from(tables, low);
        list[i] = prefix.option_from(tables, 0, low);
        prefix.lay(tables, list, i);
    }
}

// Notes the first edges of the list.
fn lay_first(tables: &Tables, prefix: &mut Prefix, list: &[u32], count: usize)
    requires all { length list.now ≡ length tables.now.edges }
    requires edges { (i : ℕ) → i < length list.now → is_member (slice_index list.now i)
        tables.now.edges ≡ true }
    requires count { count ≤ length list.now }
    requires room { HasRoom tables.now prefix.old }
    ensures { IsNoted tables.now prefix.new (take count list.now) }
{
    prefix.clear(tables);
    for i in 0..count {
        prefix.lay(tables, list, i);
    }
}

// The last place of the list, after the first, at which a greater edge may come; 0 if there is none.
fn last_greater(tables: &Tables, prefix: &mut Prefix, list: &[u32]) -> usize
    requires all { length list.now ≡ length tables.now.edges }
    requires edges { (i : ℕ) → i < length list.now → is_member (slice_index list.now i)
        tables.now.edges ≡ true }
    requires room { HasRoom tables.now prefix.old }
    ensures within { 0 < result → result < length list.now }
    ensures greater { 0 < result → ForBuilt tables.now list.now (λ block order. HasGreater block
        (follower block order) tables.now.edges (take result list.now)
        (slice_index list.now result)) }
    ensures last { ForBuilt tables.now list.now (λ block order. HasNoGreater block
        (follower block order) tables.now.edges (result + 1) list.now) }
    ensures room { HasRoom tables.now prefix.new }
{
    prefix.clear(tables);
    let mut last = 0;
    let mut count = tables.len();
    for i in 0..list.len() {
        count = prefix.unopened_below(tables, count);
        if prefix.may_be_greater(tables, list[i], count) && i > 0 {
            last = i;
        }
        prefix.lay(tables, list, i);
    }
    last
}

// Puts at a place of the list the least edge that may come and is greater than the one there, and after it at each place the
// least that may come.
fn increase(tables: &Tables, prefix: &mut Prefix, list: &mut [u32], place: usize)
    requires all { length list.old ≡ length tables.now.edges }
    requires edges { (i : ℕ) → i < length list.old → is_member (slice_index list.old i)
        tables.now.edges ≡ true }
    requires blocks { HaveBuilt tables.now list.old }
    requires place { place < length list.old }
    requires greater { ForBuilt tables.now list.old (λ block order. HasGreater block
        (follower block order) tables.now.edges (take place list.old)
        (slice_index list.old place)) }
    requires room { HasRoom tables.now prefix.old }
    ensures increased { ForBuilt tables.now list.old (λ block order. IsIncreased block
        (follower block order) tables.now.edges list.old place list.new) }
    ensures room { HasRoom tables.now prefix.new }
{
    tables.keeps();
    lay_first(tables, prefix, list, place);
    let edge = list[place];
    let low = prefix.unopened_from(tables, tables.place(edge) + 1);
    list[place] = prefix.option_from(tables, edge as u64 + 1, low);
    prefix.lay(tables, list, place);
    fill(tables, prefix, list, place + 1);
}

// Goes to the list that follows; returns false and changes nothing if at no place after the first a greater edge may come.
fn step(tables: &Tables, prefix: &mut Prefix, list: &mut [u32]) -> bool
    requires all { length list.old ≡ length tables.now.edges }
    requires edges { (i : ℕ) → i < length list.old → is_member (slice_index list.old i)
        tables.now.edges ≡ true }
    requires blocks { HaveBuilt tables.now list.old }
    requires room { HasRoom tables.now prefix.old }
    ensures next { result ≡ true → ForBuilt tables.now list.old (λ block order. IsFollowing block
        (follower block order) tables.now.edges list.old list.new) }
    ensures last { result ≡ false → ForBuilt tables.now list.old (λ block order. HasNoGreater block
        (follower block order) tables.now.edges 1 list.old) }
    ensures unchanged { result ≡ false → list.new ≡ list.old }
    ensures room { HasRoom tables.now prefix.new }
{
    let place = last_greater(tables, prefix, list);
    if place == 0 {
        return false;
    }
    increase(tables, prefix, list, place);
    true
}

// Whether the list begins with the least edge.
fn begins_least(tables: &Tables, list: &[u32]) -> bool
    requires all { length list.now ≡ length tables.now.edges }
    ensures least { result ≡ true → first_or 0 list.now ≡ first_or 0 tables.now.edges }
    ensures other { result ≡ false → first_or 0 list.now ≢ first_or 0 tables.now.edges }
{
    list.is_empty() || list[0] == tables.edge(0)
}

// Whether the list has all edges, the least first, and each may come after those before it.
fn is_built(tables: &Tables, prefix: &mut Prefix, list: &[u32]) -> bool
    requires room { HasRoom tables.now prefix.old }
    ensures exact { ForBlocks tables.now (λ block order. (result ≡ true) ↔ IsFullyBuilt block
        (follower block order) tables.now.edges list.now) }
    ensures room { HasRoom tables.now prefix.new }
{
    if list.len() != tables.len() {
        return false;
    }
    if !begins_least(tables, list) {
        return false;
    }
    prefix.clear(tables);
    for i in 0..list.len() {
        let Some(place) = tables.find(list[i]) else {
            return false;
        };
        if !prefix.may_come(tables, place) {
            return false;
        }
        prefix.lay(tables, list, i);
    }
    true
}

// Writes the first arrangement.
pub(crate) fn first(tables: &Tables, prefix: &mut Prefix, into: &mut [u32])
    requires blocks { HaveBlocks tables.now }
    requires all { length into.old ≡ length tables.now.edges }
    requires room { HasRoom tables.now prefix.old }
    ensures first { ForBlocks tables.now (λ block order. into.new
        ≡ first_arrangement block order tables.now.edges) }
    ensures room { HasRoom tables.now prefix.new }
{
    prefix.clear(tables);
    fill(tables, prefix, into, 0);
}

// Goes to the arrangement that follows; returns false and changes nothing exactly where the list is the last.
pub(crate) fn next(tables: &Tables, prefix: &mut Prefix, list: &mut [u32]) -> bool
    requires arranged { HaveArrangement tables.now list.old }
    requires room { HasRoom tables.now prefix.old }
    ensures next { result ≡ true → ForBlocks tables.now (λ block order. (i : ℕ)
        → IsAt (arrangements_at block order tables.now.edges) i list.old
        → IsAt (arrangements_at block order tables.now.edges) (i + 1) list.new) }
    ensures last { result ≡ false → ForBlocks tables.now (λ block order.
        Contains (arrangements_at block order tables.now.edges) list.old
        → IsLast (arrangements_at block order tables.now.edges) list.old) }
    ensures unchanged { result ≡ false → list.new ≡ list.old }
    ensures room { HasRoom tables.now prefix.new }
{
    step(tables, prefix, list)
}

// Whether the list is an arrangement.
pub(crate) fn is_arranged(tables: &Tables, prefix: &mut Prefix, list: &[u32]) -> bool
    requires room { HasRoom tables.now prefix.old }
    ensures exact { ForBlocks tables.now (λ block order. (result ≡ true)
        ↔ Contains (arrangements_at block order tables.now.edges) list.now) }
    ensures room { HasRoom tables.now prefix.new }
{
    is_built(tables, prefix, list)
}
