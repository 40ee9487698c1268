// The least block whose cyclic order a list of the edges changes.

ghost use Rattle.std.specs.Prelude.{◌≡◌, ◌<◌, ◌≤◌, ℕ, length, None, Some, slice_index_or, IsPermutation};
ghost use Rattle.arrangements.specs.Changed.{AreKept, IsLeastChangedRank, is_other};
ghost use Rattle.arrangements.specs.Prefixes.{ForBlocks};

use crate::tables::Tables;

// Whether an edge is expected, and this is another one.
fn is_other(expected: Option<u32>, edge: u32) -> bool
    ensures { result ≡ is_other expected edge }
{
    match expected {
        Some(next) => next != edge,
        None => false,
    }
}

// Expects no edge.
fn forget(expected: &mut [Option<u32>])
    ensures none { (k : ℕ) → k < length expected.new → slice_index_or expected.new k None ≡ None }
    ensures room { length expected.new ≡ length expected.old }
{
    for next in expected.iter_mut() {
        *next = None;
    }
}

// The rank of the least block whose cyclic order the list changes, and the number of edges if there is none. `expected` has room
// for the next edge of each block.
pub(crate) fn changed_rank(tables: &Tables, expected: &mut [Option<u32>], list: &[u32]) -> usize
    requires all { IsPermutation tables.now.edges list.now }
    requires room { length expected.old ≡ length tables.now.edges }
    ensures within { result ≤ length tables.now.edges }
    ensures none { length tables.now.edges ≤ result → ForBlocks tables.now (λ block order.
        AreKept block order list.now) }
    ensures some { result < length tables.now.edges → ForBlocks tables.now (λ block order.
        IsLeastChangedRank tables.now block order list.now result) }
    ensures room { length expected.new ≡ length expected.old }
{
    tables.keeps();
    forget(expected);
    let mut least = tables.len();
    for edge in list {
        let place = tables.place(*edge);
        let rank = tables.rank(place);
        if rank < least && is_other(expected[rank], *edge) {
            least = rank;
        }
        expected[rank] = Some(tables.follower(place));
    }
    least
}
