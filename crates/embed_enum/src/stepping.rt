// One node led to its first choice, or to its next one.

ghost use Rattle.std.specs.Prelude.{◌≡◌, ◌+◌, ◌<◌, true, false, length};
ghost use Rattle.pair_split.specs.Tutte.{node_at};
ghost use Rattle.pair_split.specs.declared.components.Kind.TheVariants.{R};
ghost use Rattle.skeletons.specs.Choices.{choice};
ghost use Rattle.skeletons.specs.Lists.{choice_count};
ghost use Rattle.skeletons.specs.Moves.{IsNodeOfKind};
ghost use Rattle.embed_enum.specs.Digits.{rigid_digit};
ghost use Rattle.embed_enum.specs.Changes.{KeepsOthers, IsMoved, node_digit};

use crate::moving::{flip, sort_bond, step_bond};
use crate::ranking::is_before_mirror;
use pair_split::Kind;
use skel_embed::PlaneBlock;

// Leads triconnected node k to its first choice.
fn reset_rigid(p: &mut PlaneBlock, k: u32)
    requires { IsNodeOfKind p.old.tree k R }
    ensures others { KeepsOthers p.old p.new k }
    ensures digit { rigid_digit (choice p.old.tree p.new.rotation k) ≡ 0 }
{
    p.belongs();
    if !is_before_mirror(p.keys(k)) {
        flip(p, k);
    }
}

// Goes from the first choice of triconnected node k to the second; returns false and changes nothing if it is at the second.
fn step_rigid(p: &mut PlaneBlock, k: u32) -> bool
    requires { IsNodeOfKind p.old.tree k R }
    ensures last { result ≡ false → (p.new ≡ p.old) × (rigid_digit
        (choice p.old.tree p.old.rotation k) ≡ 1) }
    ensures next { result ≡ true → KeepsOthers p.old p.new k
        × (rigid_digit (choice p.old.tree p.new.rotation k)
        ≡ rigid_digit (choice p.old.tree p.old.rotation k) + 1) }
{
    p.belongs();
    if !is_before_mirror(p.keys(k)) {
        return false;
    }
    flip(p, k);
    true
}

// Leads node k to its first choice.
pub(crate) fn to_first(p: &mut PlaneBlock, k: u32)
    requires { k < length p.old.tree }
    ensures { IsMoved p.old p.new k 0 }
{
    p.belongs();
    match p.tree().kind(k) {
        Kind::P => sort_bond(p, k),
        Kind::R => reset_rigid(p, k),
        Kind::S | Kind::B => {}
    }
}

// Leads node k to its next choice; returns false and changes nothing if it is at the last.
pub(crate) fn step(p: &mut PlaneBlock, k: u32) -> bool
    requires { k < length p.old.tree }
    ensures last { result ≡ false → (p.new ≡ p.old) × (node_digit p.old k + 1
        ≡ choice_count (node_at p.old.tree k).kind (length (node_at p.old.tree k).items)) }
    ensures next { result ≡ true → IsMoved p.old p.new k (node_digit p.old k + 1) }
{
    p.belongs();
    match p.tree().kind(k) {
        Kind::P => step_bond(p, k),
        Kind::R => step_rigid(p, k),
        Kind::S | Kind::B => false,
    }
}
