// The least two blocks that cross in a list of edges.

ghost use Rattle.std.specs.Prelude.{◌≡◌, ◌+◌, ◌<◌, ◌≤◌, ◌^◌, ℕ, false, length, map, MatchOption, slice_index, IsPermutation};
ghost use Rattle.arrangements.specs.Arranged.{cross};
ghost use Rattle.arrangements.specs.Refused.{IsLeastCrossing};
ghost use Rattle.arrangements.specs.Tables.{rank_in};
ghost use Rattle.arrangements.specs.Prefixes.{ForBlocks};
ghost use Rattle.arrangements.specs.Groups.{AreNoted, HaveRoom};
ghost use Rattle.arrangements.specs.Crossings.{count_rank, cross_ranks, IsPassed, IsLeastCrossed, IsCrossingOf};

use crate::groups::Groups;
use crate::tables::Tables;

// Noted of a rank of which no edge was met.
const NO_GAP: u32 = u32::MAX;

// How many edges of a block were met in a pass, and the least rank of which edges were met in two of its gaps.
#[derive(Debug, Clone, Copy)]
struct Pass {
    before: u32,
    least: u32,
}

// How often a rank is in the list.
fn count_of(ranks: &[u32], rank: u32) -> u32
    requires few { length ranks.now < 2 ^ 32 }
    ensures { result ≡ count_rank rank ranks.now }
{
    let mut count = 0;
    for i in 0..ranks.len() {
        if ranks[i] == rank {
            count += 1;
        }
    }
    count
}

// Goes past one place in the pass for a block with this rank, which has `total` edges.
fn go_past(met: &mut [u32], ranks: &[u32], rank: u32, total: u32, i: usize, pass: Pass) -> Pass
    requires place { i < length ranks.now }
    requires few { length ranks.now < 2 ^ 32 }
    requires below { slice_index ranks.now i < length met.old }
    requires total { total ≡ count_rank rank ranks.now }
    requires passed { IsPassed rank ranks.now met.old i pass.before pass.least }
    ensures passed { IsPassed rank ranks.now met.new (i + 1) result.before result.least }
    ensures size { length met.new ≡ length met.old }
{
    let other = ranks[i];
    if other == rank {
        return Pass {
            before: pass.before + 1,
            least: pass.least,
        };
    }
    let gap = if pass.before == total { 0 } else { pass.before };
    let first = met[other as usize];
    if first == NO_GAP {
        met[other as usize] = gap;
        return pass;
    }
    if first == gap || other >= pass.least {
        return pass;
    }
    Pass {
        before: pass.before,
        least: other,
    }
}

// The least rank of a block that crosses the one of this rank.
fn crossed(met: &mut [u32], ranks: &[u32], rank: u32) -> Option<u32>
    requires few { length ranks.now < 2 ^ 32 }
    requires size { length met.old < 2 ^ 32 }
    requires below { (i : ℕ) → i < length ranks.now → slice_index ranks.now i < length met.old }
    ensures least { MatchOption result ((c : ℕ) → cross_ranks rank c ranks.now ≡ false)
        (λ c. IsLeastCrossed rank ranks.now c) }
    ensures size { length met.new ≡ length met.old }
{
    let total = count_of(ranks, rank);
    met.fill(NO_GAP);
    let mut pass = Pass {
        before: 0,
        least: met.len() as u32,
    };
    for i in 0..ranks.len() {
        pass = go_past(met, ranks, rank, total, i, pass);
    }
    if (pass.least as usize) < met.len() {
        Some(pass.least)
    } else {
        None
    }
}

// The ranks, all below `bound`, of the least two blocks that cross. Only a block that is noted can be the first of them.
fn crossing(groups: &Groups, met: &mut [u32], ranks: &[u32], bound: u32) -> Option<(u32, u32)>
    requires few { length ranks.now < 2 ^ 32 }
    requires room { HaveRoom groups.now (length ranks.now) }
    requires noted { AreNoted ranks.now groups.now.noted.items }
    requires each { bound ≤ length ranks.now }
    requires size { length met.old < 2 ^ 32 }
    requires bound { bound ≤ length met.old }
    requires below { (i : ℕ) → i < length ranks.now → slice_index ranks.now i < bound }
    ensures least { MatchOption result ((b c : ℕ) → cross_ranks b c ranks.now ≡ false)
        (λ pair. IsLeastCrossing (λ r. r) ranks.now pair.0 pair.1) }
    ensures size { length met.new ≡ length met.old }
{
    for rank in 0..bound {
        if !groups.is_noted(rank) {
            continue;
        }
        if let Some(other) = crossed(met, ranks, rank) {
            return Some((rank, other));
        }
    }
    None
}

// Writes the rank of each edge of the list, and returns a number above all of them.
fn write_ranks(tables: &Tables, ranks: &mut [u32], list: &[u32]) -> u32
    requires list { IsPermutation tables.now.edges list.now }
    requires size { length ranks.old ≡ length tables.now.edges }
    ensures ranks { ranks.new ≡ map (rank_in tables.now) list.now }
    ensures below { (i : ℕ) → i < length ranks.new → slice_index ranks.new i < result }
    ensures bound { result ≤ length tables.now.edges }
{
    tables.keeps();
    let mut bound = 0;
    for i in 0..list.len() {
        let rank = tables.rank(tables.place(list[i])) as u32;
        ranks[i] = rank;
        if rank >= bound {
            bound = rank + 1;
        }
    }
    bound
}

// The ranks of the least two blocks that cross in a list of all edges; `None` exactly where no two do. `ranks` and `met` are room
// for numbers.
pub(crate) fn crossing_ranks(
    tables: &Tables,
    groups: &mut Groups,
    ranks: &mut [u32],
    met: &mut [u32],
    list: &[u32],
) -> Option<(u32, u32)>
    requires list { IsPermutation tables.now.edges list.now }
    requires groups { HaveRoom groups.old (length tables.now.edges) }
    requires ranks { length ranks.old ≡ length tables.now.edges }
    requires met { length met.old ≡ length tables.now.edges }
    ensures least { ForBlocks tables.now (λ block order. MatchOption result ((b c : ℕ)
        → cross block b c list.now ≡ false)
        (λ pair. IsCrossingOf tables.now block list.now pair.0 pair.1)) }
    ensures groups { HaveRoom groups.new (length tables.now.edges) }
    ensures ranks { length ranks.new ≡ length ranks.old }
    ensures met { length met.new ≡ length met.old }
{
    tables.keeps();
    let bound = write_ranks(tables, ranks, list);
    groups.note_crossing(ranks);
    crossing(groups, met, ranks, bound)
}
