// The links of a rotation system: each dart to the one that follows it around its vertex.

ghost use Rattle.std.specs.Prelude.{◌≡◌, ◌≢◌, ℕ, ◌≤◌, length, slice_index, true};
ghost use Rattle.multigraph.specs.Graph.{max_darts};
ghost use Rattle.permutations.specs.Members.{is_member};
ghost use Rattle.ring_arena.specs.Links.{AreInverse};
ghost use Rattle.rotations.specs.Rings.{dart_at, StandRound, AreLinked};

use crate::rings::dart_at;
use ring_arena::Rings;

// Links the darts of the edges of a list, which are around v and alone, in their cyclic order.
pub(crate) fn link(tails: &[u32], v: u32, list: &[u32], nodes: &mut Rings)
    requires few { length tails.now ≤ max_darts }
    requires round { StandRound tails.now v list.now }
    requires long { length nodes.old.next ≡ length tails.now }
    requires alone { (e : ℕ) → is_member e list.now ≡ true
        → slice_index nodes.old.next (dart_at tails.now v e) ≡ dart_at tails.now v e }
    requires inverse { AreInverse nodes.old }
    ensures linked { AreLinked tails.now nodes.new.next nodes.new.prev v list.now list.now }
    ensures next_kept { (d : ℕ) → slice_index tails.now d ≢ v
        → slice_index nodes.new.next d ≡ slice_index nodes.old.next d }
    ensures count { length nodes.new.next ≡ length nodes.old.next }
    ensures inverse { AreInverse nodes.new }
{
    for i in 1..list.len() {
        let before = dart_at(tails, v, list[i - 1]);
        let here = dart_at(tails, v, list[i]);
        nodes.link_after(here, before);
    }
}
