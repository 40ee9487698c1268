// The choices of another plane rotation system of a block.

ghost use Rattle.std.specs.Prelude.{◌≡◌, ◌≢◌, ◌<◌, ◌↔◌, ◌⊎◌, ◌++◌, ℕ, List, true, length, IfOk, IsTrue, MatchOption};
ghost use Rattle.std.specs.List.{concat};
ghost use Rattle.permutations.specs.Cyclic.{turned};
ghost use Rattle.permutations.specs.Members.{is_member};
ghost use Rattle.multigraph.specs.Graph.{Multigraph};
ghost use Rattle.rotations.specs.Rotation.{IsRotationSystem};
ghost use Rattle.pair_split.specs.Tutte.{node_at};
ghost use Rattle.pair_split.specs.declared.components.Kind.TheVariants.{P, R};
ghost use Rattle.skeletons.specs.Items.{has_vertex, IsBlockTree};
ghost use Rattle.faces.specs.Euler.{IsPlaneSystem};
ghost use Rattle.skeletons.specs.Choices.{choice};
ghost use Rattle.skeletons.specs.Families.{skeleton_graph, AreSkeletonSystems};
ghost use Rattle.skel_embed.specs.Block.{AreChoices, choices_by};
ghost use Rattle.skel_embed.specs.First.{choice_in};
ghost use Rattle.skel_embed.specs.Flat.{AreFlat};
ghost use Rattle.skel_embed.specs.Outcomes.{choices_in};
ghost use Rattle.skel_embed.specs.Taken.{runs_met, IsFirstOther, NoneOther};

use crate::choices::Choices;
use crate::kept::place_of;
use crate::members::append_round;
use multigraph::Graph;
use pair_split::Kind;
use rotations::Rotation;
use skel_decompose::decompose;
use spqr_tree::Tree;
use std::alloc::{AllocError, Global};

// The keys of the runs around a vertex of node k, which has a choice, from any run on.
fn keys_of_runs(
    alloc: Global,
    g: &Graph,
    t: &Tree,
    r: &Rotation,
    k: u32,
    v: u32,
) -> Result<Vec<u32>, AllocError>
    requires block { IsBlockTree g.now t.now }
    requires node { k < length t.now }
    requires plane { IsPlaneSystem g.now r.now }
    requires vertex { has_vertex t.now k v ≡ true }
    ensures { IfOk result (λ keys. keys.items ≡ runs_met t.now r.now k v) }
{
    let mut keys = Vec::new(alloc);
    let mut round = r.list(v);
    while let Some(e) = round.next() {
        let key = t.group(k, e);
        if t.group(k, r.pred(v, e)) != key {
            keys.push(key)?;
        }
    }
    Ok(keys)
}

// Writes the cyclic order of the keys from this one on.
fn begin_with(keys: &mut Vec<u32>, first: u32)
    requires { is_member first keys.old.items ≡ true }
    ensures { keys.new.items ≡ turned keys.old.items first }
{
    keys.rotate_left(place_of(keys, first));
}

// The choice of node k, which has one; `old` is the one in some plane rotation system.
fn keys_from(
    alloc: Global,
    g: &Graph,
    t: &Tree,
    r: &Rotation,
    k: u32,
    old: &[u32],
) -> Result<Vec<u32>, AllocError>
    requires block { IsBlockTree g.now t.now }
    requires node { k < length t.now }
    requires plane { IsPlaneSystem g.now r.now }
    requires kind { ((node_at t.now k).kind ≡ P) ⊎ ((node_at t.now k).kind ≡ R) }
    requires old { (q : List (List ℕ)) × IsPlaneSystem g.now q × (old.now ≡ choice t.now q k) }
    ensures { IfOk result (λ keys. keys.items ≡ choice t.now r.now k) }
{
    let mut keys = keys_of_runs(alloc, g, t, r, k, t.vertices(k)[0])?;
    begin_with(&mut keys, old[0]);
    Ok(keys)
}

// The choice of node k; `old` is the one in some plane rotation system.
fn choice_of(
    alloc: Global,
    g: &Graph,
    t: &Tree,
    r: &Rotation,
    k: u32,
    old: &[u32],
) -> Result<Vec<u32>, AllocError>
    requires block { IsBlockTree g.now t.now }
    requires node { k < length t.now }
    requires plane { IsPlaneSystem g.now r.now }
    requires old { (q : List (List ℕ)) × IsPlaneSystem g.now q × (old.now ≡ choice t.now q k) }
    ensures { IfOk result (λ keys. keys.items ≡ choice t.now r.now k) }
{
    match t.kind(k) {
        Kind::P | Kind::R => keys_from(alloc, g, t, r, k, old),
        Kind::S | Kind::B => Ok(Vec::new(alloc)),
    }
}

// The keys of the choices of all nodes, read by a walk around the least vertex of each; `old` are those in some plane rotation system.
fn choices_by_walks(
    alloc: Global,
    g: &Graph,
    t: &Tree,
    r: &Rotation,
    old: &Choices<'_>,
) -> Result<Vec<u32>, AllocError>
    requires block { IsBlockTree g.now t.now }
    requires plane { IsPlaneSystem g.now r.now }
    requires old { (q : List (List ℕ)) × IsPlaneSystem g.now q
        × AreChoices t.now q (length t.now) old.now }
    ensures { IfOk result (λ keys. keys.items ≡ concat (choices_by t.now r.now)) }
{
    let mut keys = Vec::new(alloc);
    for k in 0..t.node_count() {
        let list = choice_of(alloc, g, t, r, k, old.at(k as usize))?;
        keys.extend_from_slice(&list)?;
    }
    Ok(keys)
}

// Appends the choice that a rotation system of its skeleton gives node k.
fn append_choice(
    keys: &mut Vec<u32>,
    tree: &Tree,
    k: u32,
    member: &Rotation,
) -> Result<(), AllocError>
    requires node { k < length tree.now }
    requires block { (g : Multigraph) × IsBlockTree g tree.now }
    requires system { IsRotationSystem (skeleton_graph tree.now k) member.now }
    ensures { IfOk result (λ _. keys.new.items ≡ keys.old.items ++ choice_in tree.now k member.now) }
{
    match tree.kind(k) {
        Kind::P | Kind::R => append_round(keys, tree.items(k), member),
        Kind::S | Kind::B => Ok(()),
    }
}

// The keys of the choices that the members give the nodes, and where each choice ends.
fn choices_in(
    alloc: Global,
    tree: &Tree,
    members: &[Rotation],
) -> Result<(Vec<u32>, Vec<usize>), AllocError>
    requires block { (g : Multigraph) × IsBlockTree g tree.now }
    requires systems { AreSkeletonSystems tree.now members.now }
    ensures { IfOk result (λ kept. AreFlat (choices_in tree.now members.now)
        kept.0.items kept.1.items) }
{
    let mut keys = Vec::new(alloc);
    let mut ends = Vec::with_capacity(alloc, tree.node_count() as usize)?;
    for k in 0..tree.node_count() {
        append_choice(&mut keys, tree, k, &members[k as usize])?;
        ends.push(keys.len())?;
    }
    Ok((keys, ends))
}

// The keys of the choices of all nodes, read off the rotation systems of all skeletons.
fn choices_by_members(
    alloc: Global,
    g: &Graph,
    t: &Tree,
    r: &Rotation,
) -> Result<Vec<u32>, AllocError>
    requires block { IsBlockTree g.now t.now }
    requires plane { IsPlaneSystem g.now r.now }
    ensures { IfOk result (λ keys. keys.items ≡ concat (choices_by t.now r.now)) }
{
    let members = decompose(alloc, g, t, r)?;
    let (keys, _ends) = choices_in(alloc, t, &members)?;
    Ok(keys)
}

// A pass over the skeletons takes as long as walks that look at so many times the edges of the block.
const LOOKS_OF_A_PASS: u64 = 4;

// How many edges walks around the least vertices of all nodes with a choice look at.
fn edges_walked(g: &Graph, t: &Tree) -> u64
    requires { IsBlockTree g.now t.now }
{
    let mut sum: u64 = 0;
    for k in 0..t.node_count() {
        if t.kind(k).has_choices() {
            sum = sum.saturating_add(g.degree(t.vertices(k)[0]) as u64);
        }
    }
    sum
}

// The keys of the choices of all nodes, one choice after the other; `old` are those in some plane rotation system. Where many nodes
// have one least vertex, walks around it would look at its edges again and again: the choices are then read off the skeletons.
pub(crate) fn choices_of(
    alloc: Global,
    g: &Graph,
    t: &Tree,
    r: &Rotation,
    old: &Choices<'_>,
) -> Result<Vec<u32>, AllocError>
    requires block { IsBlockTree g.now t.now }
    requires plane { IsPlaneSystem g.now r.now }
    requires old { (q : List (List ℕ)) × IsPlaneSystem g.now q
        × AreChoices t.now q (length t.now) old.now }
    ensures { IfOk result (λ keys. keys.items ≡ concat (choices_by t.now r.now)) }
{
    if edges_walked(g, t) / LOOKS_OF_A_PASS > g.edge_count() as u64 {
        choices_by_members(alloc, g, t, r)
    } else {
        choices_by_walks(alloc, g, t, r, old)
    }
}

// Whether two lists of keys differ.
fn differ(a: &[u32], b: &[u32]) -> bool
    ensures { IsTrue result ↔ (a.now ≢ b.now) }
{
    a != b
}

// The least locked node whose choices differ.
pub(crate) fn first_other(
    n: u32,
    locks: &[bool],
    old: &Choices<'_>,
    new: &Choices<'_>,
) -> Option<u32>
    requires old { length old.now ≡ length locks.now }
    requires new { length new.now ≡ length locks.now }
    requires few { length locks.now ≡ n }
    ensures { MatchOption result (NoneOther locks.now old.now new.now)
        (IsFirstOther locks.now old.now new.now) }
{
    for k in 0..n {
        if locks[k as usize] && differ(old.at(k as usize), new.at(k as usize)) {
            return Some(k);
        }
    }
    None
}
