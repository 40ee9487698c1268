// Blocks led along their lists: the last one that can advance does so, and all later ones return to their first members.

ghost use Rattle.std.specs.Prelude.{◌≡◌, ℕ, ◌+◌, ◌<◌, ◌≤◌, true, false, length, slice_index, IsSome};
ghost use Rattle.multigraph.specs.Part.{Rises};
ghost use Rattle.embed_enum.specs.Walk.{IsNextOf};
ghost use Rattle.whole_embed.specs.Cuts.{member_at};
ghost use Rattle.whole_embed.specs.Advanced.{IsFirstOf, IsLed, IsLastMember, AreFirstBetween, AreAdvanced};

use crate::members::Member;
use embed_enum::{first, next};

// Leads a block to the next member of its list; returns false and changes nothing if it is at the last.
fn step(member: &mut Member) -> bool
    requires { IsSome member.old.plane }
    ensures next { result ≡ true → IsLed IsNextOf member.old member.new }
    ensures last { result ≡ false → IsLastMember member.old }
    ensures as_before { result ≡ false → member.new ≡ member.old }
{
    match &mut member.plane {
        Some(plane) => {
            plane.belongs();
            let moved = next(plane);
            plane.belongs();
            moved
        }
        None => unreachable!(),
    }
}

// Leads a block to the first member of its list.
fn reset(member: &mut Member)
    requires { IsSome member.old.plane }
    ensures { IsLed IsFirstOf member.old member.new }
{
    match &mut member.plane {
        Some(plane) => {
            plane.belongs();
            first(plane);
            plane.belongs();
        }
        None => unreachable!(),
    }
}

// Leads the blocks from a place of the list on to the first members of their lists.
fn reset_from(all: &mut [Member], blocks: &[u32], from: usize)
    requires increasing { Rises blocks.now }
    requires from { from ≤ length blocks.now }
    requires within { (j : ℕ) → j < length blocks.now → slice_index blocks.now j < length all.old }
    requires planes { (j : ℕ) → j < length blocks.now
        → IsSome (member_at all.old (slice_index blocks.now j)).plane }
    ensures { AreFirstBetween blocks.now all.old all.new from (length blocks.now) }
{
    for j in from..blocks.len() {
        reset(&mut all[blocks[j] as usize]);
    }
}

// Leads the blocks of a list to the next vector of members of their lists; returns false and changes nothing if each is at its last.
// Takes no memory.
pub(crate) fn advance(all: &mut [Member], blocks: &[u32]) -> bool
    requires increasing { Rises blocks.now }
    requires within { (j : ℕ) → j < length blocks.now → slice_index blocks.now j < length all.old }
    requires planes { (j : ℕ) → j < length blocks.now
        → IsSome (member_at all.old (slice_index blocks.now j)).plane }
    ensures next { result ≡ true → AreAdvanced blocks.now all.old all.new }
    ensures last { result ≡ false → (j : ℕ) → j < length blocks.now
        → IsLastMember (member_at all.old (slice_index blocks.now j)) }
    ensures as_before { result ≡ false → all.new ≡ all.old }
{
    let mut j = blocks.len();
    while j > 0 {
        j -= 1;
        if step(&mut all[blocks[j] as usize]) {
            reset_from(all, blocks, j + 1);
            return true;
        }
    }
    false
}
