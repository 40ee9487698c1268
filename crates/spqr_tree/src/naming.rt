// The groups in their order: links lead to places, and each piece has its lesser end first.

ghost use Rattle.std.specs.Prelude.{◌≡◌, ◌<◌, ℕ, [], length, map, slice_set, IfOk};
ghost use Rattle.pair_split.specs.Split.{items_of, component_at};
ghost use Rattle.pair_split.specs.declared.components.Kind.TheVariants.{B};
ghost use Rattle.pair_split.specs.declared.components.What.TheVariants.{Link};
ghost use Rattle.spqr_tree.specs.Merged.{relinked};
ghost use Rattle.spqr_tree.specs.Keys.{AreWithin};
ghost use Rattle.spqr_tree.specs.Merging.{group_of};
ghost use Rattle.spqr_tree.specs.Ranking.{ranks_of, rank_at, value_at, placed, placed_group, in_order};

use crate::merging::group_of;
use crate::ranking::Rank;
use pair_split::{Comp, Kind, Piece, PieceList, What};
use std::alloc::{AllocError, Global};
use std::mem;

// What represents the place where a link leads.
fn rename(lead: &[u32], places: &[u32], what: What) -> What
    requires led { (x : ℕ) → x < length lead.now → group_of lead.now x < length places.now }
    requires within { (j : ℕ) → what ≡ Link j → j < length lead.now }
    ensures { result ≡ relinked (λ x. value_at places.now (group_of lead.now x)) what }
{
    match what {
        What::Real(e) => What::Real(e),
        What::Link(j) => What::Link(places[group_of(lead, j) as usize]),
    }
}

// The piece with its lesser end first, leading to a place.
fn place_piece(lead: &[u32], places: &[u32], piece: Piece) -> Piece
    requires led { (x : ℕ) → x < length lead.now → group_of lead.now x < length places.now }
    requires within { (j : ℕ) → piece.what ≡ Link j → j < length lead.now }
    ensures { result ≡ placed (λ x. value_at places.now (group_of lead.now x)) piece }
{
    let what = rename(lead, places, piece.what);
    Piece {
        a: piece.a.min(piece.b),
        b: piece.a.max(piece.b),
        what,
    }
}

// Makes the pieces so.
fn place_pieces(lead: &[u32], places: &[u32], pieces: &mut [Piece])
    requires led { (x : ℕ) → x < length lead.now → group_of lead.now x < length places.now }
    requires within { AreWithin pieces.old (length lead.now) }
    ensures { pieces.new ≡ map (placed (λ x. value_at places.now (group_of lead.now x))) pieces.old }
{
    for piece in pieces.iter_mut() {
        *piece = place_piece(lead, places, *piece);
    }
}

// The group with its pieces so. Takes no memory.
fn place_group(lead: &[u32], places: &[u32], group: Comp) -> Comp
    requires led { (x : ℕ) → x < length lead.now → group_of lead.now x < length places.now }
    requires within { AreWithin group.items (length lead.now) }
    ensures { result ≡ placed_group (λ x. value_at places.now (group_of lead.now x)) group }
{
    let mut pieces = group.items.into_vec();
    place_pieces(lead, places, &mut pieces);
    Comp {
        kind: group.kind,
        items: PieceList::of(pieces),
    }
}

// Group k, moved out of the list: one without pieces takes its place. Takes no memory.
fn take_group(alloc: Global, groups: &mut Vec<Comp>, k: u32) -> Comp
    requires { k < length groups.old.items }
    ensures taken { result ≡ component_at groups.old.items k }
    ensures left { groups.new.items
        ≡ slice_set groups.old.items k (record { kind = B; items = [] }) }
{
    let none = Comp {
        kind: Kind::B,
        items: PieceList::of(Vec::new(alloc)),
    };
    mem::replace(&mut groups[k as usize], none)
}

// The groups in their order. They are moved.
pub(crate) fn place_groups(
    alloc: Global,
    lead: &[u32],
    groups: Vec<Comp>,
    places: &[u32],
    ranked: &[Rank],
) -> Result<Vec<Comp>, AllocError>
    requires led { (x : ℕ) → x < length lead.now → group_of lead.now x < length places.now }
    requires within { (k : ℕ) → k < length groups.items
        → AreWithin (items_of groups.items k) (length lead.now) }
    requires ranked { (i : ℕ) → i < length ranked.now
        → (rank_at (ranks_of ranked.now) i).1 < length groups.items }
    requires once { (i j : ℕ) → i < length ranked.now → j < length ranked.now
        → (rank_at (ranks_of ranked.now) i).1 ≡ (rank_at (ranks_of ranked.now) j).1 → i ≡ j }
    ensures { IfOk result (λ all. all.items ≡ in_order
        (λ x. value_at places.now (group_of lead.now x)) groups.items (ranks_of ranked.now)) }
{
    let mut left = groups;
    let mut all = Vec::with_capacity(alloc, ranked.len())?;
    for i in 0..ranked.len() {
        let group = take_group(alloc, &mut left, ranked[i].1);
        all.push(place_group(lead, places, group))?;
    }
    Ok(all)
}
