// A walk through the list of the plane rotation systems of a component.

ghost use Rattle.std.specs.Prelude.{◌≡◌, ℕ, ◌+◌, ◌<◌, ◌≤◌, true, false, List, [], length};
ghost use Rattle.skeletons.specs.Lists.{IsRank};
ghost use Rattle.whole_embed.specs.Component.{IsComponentInPlane};
ghost use Rattle.whole_embed.specs.Cuts.{blocks_in, HavePlanes};
ghost use Rattle.whole_embed.specs.Whole.{AreArranged, whole_system, IsWholeList};
ghost use Rattle.whole_embed.specs.Walk.{KeepsBlocks, AreFirstLists, AreNextLists, AreLastLists};

use crate::advancing::advance;
use crate::cuts::Cuts;
use crate::members::Member;

// Gives the cut vertices from a place on their first arrangements.
fn first_from(cuts: &mut Cuts, all: &[Member], from: usize)
    requires component { IsComponentInPlane cuts.old.component (blocks_in all.now) }
    requires planes { HavePlanes cuts.old.component all.now }
    requires from { from ≤ length cuts.old.component.cuts }
    ensures component { cuts.new.component ≡ cuts.old.component }
    ensures lists { AreFirstLists cuts.old.component (blocks_in all.now) cuts.old.lists
        cuts.new.lists from (length cuts.old.component.cuts) }
{
    cuts.keeps();
    for i in from..cuts.count() {
        cuts.set_first(all, i);
    }
}

// Leads the cut vertices to the next vector of arrangements; returns false and changes nothing if each is at its last.
fn next_lists(cuts: &mut Cuts, all: &[Member]) -> bool
    requires component { IsComponentInPlane cuts.old.component (blocks_in all.now) }
    requires planes { HavePlanes cuts.old.component all.now }
    requires arranged { AreArranged cuts.old.component (blocks_in all.now) cuts.old.lists }
    ensures component { cuts.new.component ≡ cuts.old.component }
    ensures next { result ≡ true → AreNextLists cuts.old.component (blocks_in all.now)
        cuts.old.lists cuts.new.lists }
    ensures last { result ≡ false → AreLastLists cuts.old.component (blocks_in all.now)
        cuts.old.lists }
    ensures as_before { result ≡ false → cuts.new ≡ cuts.old }
{
    let mut i = cuts.count();
    while i > 0 {
        i -= 1;
        if cuts.set_next(all, i) {
            first_from(cuts, all, i + 1);
            return true;
        }
    }
    false
}

/// Goes to the next member of the list of all plane rotation systems of the component whose part in each block has the present
/// choices at the locked nodes; returns false and changes nothing exactly where the present one is the last. They are ordered by
/// their parts in the first block in which these differ, and where there is none, lexicographically by the first cut vertex around
/// which they differ.
///
/// The last cut vertex that has a next arrangement goes to it, and later ones to their first. Where there is none, the last
/// block that has a next member goes to it, later blocks to their first members, and all cut vertices to their first
/// arrangements. Parts, graphs, trees, locks and the blocks of other components stay. Takes no memory.
pub fn next_whole(cuts: &mut Cuts, all: &mut [Member]) -> bool
    requires component { IsComponentInPlane cuts.old.component (blocks_in all.old) }
    requires planes { HavePlanes cuts.old.component all.old }
    requires arranged { AreArranged cuts.old.component (blocks_in all.old) cuts.old.lists }
    ensures next { (l : List (List (List ℕ))) (i : ℕ)
        → IsWholeList cuts.old.component (blocks_in all.old) l
        → IsRank l (whole_system cuts.old.component (blocks_in all.old) cuts.old.lists) i
        → result ≡ true → IsRank l
        (whole_system cuts.new.component (blocks_in all.new) cuts.new.lists) (i + 1) }
    ensures last { (l : List (List (List ℕ))) (i : ℕ)
        → IsWholeList cuts.old.component (blocks_in all.old) l
        → IsRank l (whole_system cuts.old.component (blocks_in all.old) cuts.old.lists) i
        → result ≡ false → i + 1 ≡ length l }
    ensures as_before { result ≡ false → (cuts.new ≡ cuts.old) × (all.new ≡ all.old) }
    ensures list { (l : List (List (List ℕ)))
        → IsWholeList cuts.old.component (blocks_in all.old) l
        → IsWholeList cuts.new.component (blocks_in all.new) l }
    ensures same { cuts.new.component ≡ cuts.old.component }
    ensures component { IsComponentInPlane cuts.new.component (blocks_in all.new) }
    ensures planes { HavePlanes cuts.new.component all.new }
    ensures arranged { AreArranged cuts.new.component (blocks_in all.new) cuts.new.lists }
    ensures rest { KeepsBlocks cuts.old.component all.old all.new }
{
    cuts.keeps();
    if next_lists(cuts, all) {
        return true;
    }
    if !advance(all, cuts.blocks()) {
        return false;
    }
    first_from(cuts, all, 0);
    true
}
