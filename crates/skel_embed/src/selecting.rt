// A plane rotation system of a block with other choices, composed of what follows each item in the rotation systems of its skeletons.

ghost use Rattle.std.specs.Prelude.{◌≡◌, ◌≢◌, ◌<◌, ◌≤◌, ℕ, List, true, false, length, map, IfOk};
ghost use Rattle.permutations.specs.Members.{is_member, place_of};
ghost use Rattle.multigraph.specs.Graph.{Multigraph, max_edges, IsWithinLimits};
ghost use Rattle.multigraph.specs.Part.{Rises};
ghost use Rattle.pair_split.specs.declared.components.Kind.TheVariants.{P};
ghost use Rattle.skeletons.specs.Items.{item_key, IsBlockTree};
ghost use Rattle.skeletons.specs.Moves.{IsNodeOfKind};
ghost use Rattle.skeletons.specs.Families.{system_at};
ghost use Rattle.rotations.specs.Runs.{mirror_image};
ghost use Rattle.faces.specs.Euler.{IsPlaneSystem};
ghost use Rattle.skel_compose.specs.Followers.{IsTable, IsTableOf, IsRow};
ghost use Rattle.skel_embed.specs.Block.{choices_by};
ghost use Rattle.skel_embed.specs.Selected.{HasChoice, HasChoiceIn, ArePossible, GiveChoices, HaveChoices};

use crate::choices::Choices;
use multigraph::{FlatLists, Graph};
use pair_split::{Item, Kind};
use rotations::Rotation;
use skel_compose::{bond_row, compose, item_with_key, next_edges};
use skel_decompose::{followers, member_of};
use spqr_tree::Tree;
use std::alloc::{AllocError, Global};

// The number of the item with this key.
fn item_with(items: &[Item], key: u32) -> u32
    requires rises { Rises (map item_key items.now) }
    requires few { length items.now ≤ max_edges }
    requires held { is_member key (map item_key items.now) ≡ true }
    ensures { result ≡ place_of (map item_key items.now) key }
{
    item_with_key(items, key)
}

// The numbers of the items with these keys, in the order of the keys.
fn items_with(alloc: Global, items: &[Item], keys: &[u32]) -> Result<Vec<u32>, AllocError>
    requires rises { Rises (map item_key items.now) }
    requires few { length items.now ≤ max_edges }
    requires held { (key : ℕ) → is_member key keys.now ≡ true
        → is_member key (map item_key items.now) ≡ true }
    ensures { IfOk result (λ numbers. numbers.items ≡ map (place_of (map item_key items.now)) keys.now) }
{
    let mut numbers = Vec::with_capacity(alloc, keys.len())?;
    for i in 0..keys.len() {
        numbers.push(item_with(items, keys[i]))?;
    }
    Ok(numbers)
}

// Makes `row` the list of a bond in which the items with these keys follow each other at the lesser pole.
fn bond_with(
    alloc: Global,
    tree: &Tree,
    k: u32,
    keys: &[u32],
    row: &mut Vec<u32>,
) -> Result<(), AllocError>
    requires node { IsNodeOfKind tree.now k P }
    requires block { (g : Multigraph) × IsBlockTree g tree.now × IsWithinLimits g }
    requires possible { (s : List (List ℕ)) × HasChoice tree.now k keys.now s }
    ensures { (s : List (List ℕ)) → HasChoice tree.now k keys.now s
        → IfOk result (λ _. IsRow tree.now k s row.new.items) }
{
    let items = items_with(alloc, tree.items(k), keys)?;
    bond_row(&items, row)
}

// Makes `row` the list of the mirror image of a member, of which the table has the list.
fn mirrored(
    alloc: Global,
    tree: &Tree,
    table: &FlatLists<u32>,
    k: u32,
    row: &mut Vec<u32>,
) -> Result<(), AllocError>
    requires node { k < length tree.now }
    requires block { (g : Multigraph) × IsBlockTree g tree.now × IsWithinLimits g }
    requires table { IsTable tree.now table.now }
    requires family { (family : List (List (List ℕ))) × IsTableOf tree.now table.now family }
    ensures { (family : List (List (List ℕ))) → IsTableOf tree.now table.now family
        → IfOk result (λ _. IsRow tree.now k (mirror_image (system_at family k)) row.new.items) }
{
    let graph = tree.skeleton(alloc, k)?;
    let mut member = member_of(alloc, tree, table, k)?;
    member.mirror();
    next_edges(&graph, &member, row)
}

// Whether two choices are the same.
fn are_same(a: &[u32], b: &[u32]) -> bool
    ensures same { result ≡ true → a.now ≡ b.now }
    ensures other { result ≡ false → a.now ≢ b.now }
{
    a == b
}

// Makes `row` the list of a member that gives node k the new choice, where the one in the table gives it the old.
fn changed_row(
    alloc: Global,
    tree: &Tree,
    table: &FlatLists<u32>,
    k: u32,
    old: &[u32],
    new: &[u32],
    row: &mut Vec<u32>,
) -> Result<(), AllocError>
    requires node { k < length tree.now }
    requires block { (g : Multigraph) × IsBlockTree g tree.now × IsWithinLimits g }
    requires table { IsTable tree.now table.now }
    requires family { (family : List (List (List ℕ))) × IsTableOf tree.now table.now family
        × HasChoice tree.now k old.now (system_at family k) }
    requires possible { (s : List (List ℕ)) × HasChoice tree.now k new.now s }
    ensures { IfOk result (λ _. HasChoiceIn tree.now k new.now row.new.items) }
{
    if are_same(old, new) {
        row.clear();
        row.extend_from_slice(table.at(k as usize))?;
        return Ok(());
    }
    match tree.kind(k) {
        Kind::P => bond_with(alloc, tree, k, new, row),
        Kind::R => mirrored(alloc, tree, table, k, row),
        Kind::S | Kind::B => unreachable!(),
    }
}

// The lists of members that give all nodes the new choices, from the table of what follows each item in those that give them the old ones.
fn changed_table(
    alloc: Global,
    tree: &Tree,
    table: &FlatLists<u32>,
    old: &Choices<'_>,
    new: &Choices<'_>,
) -> Result<FlatLists<u32>, AllocError>
    requires block { (g : Multigraph) × IsBlockTree g tree.now × IsWithinLimits g }
    requires old { length old.now ≡ length tree.now }
    requires new { length new.now ≡ length tree.now }
    requires table { IsTable tree.now table.now }
    requires family { (family : List (List (List ℕ))) × IsTableOf tree.now table.now family
        × GiveChoices tree.now old.now (length tree.now) family }
    requires possible { ArePossible tree.now new.now }
    ensures { IfOk result (HaveChoices tree.now new.now (length tree.now)) }
{
    let mut changed = FlatLists::with_capacity(alloc, tree.node_count() as usize)?;
    let mut row = Vec::new(alloc);
    for k in 0..tree.node_count() {
        let place = k as usize;
        changed_row(
            alloc,
            tree,
            table,
            k,
            old.at(place),
            new.at(place),
            &mut row,
        )?;
        changed.push(&row)?;
    }
    Ok(changed)
}

// The plane rotation system with the new choices, where `r` is the one with the old ones. Takes time n log n.
pub(crate) fn with_choices(
    alloc: Global,
    g: &Graph,
    t: &Tree,
    r: &Rotation,
    old: &Choices<'_>,
    new: &Choices<'_>,
) -> Result<Rotation, AllocError>
    requires block { IsBlockTree g.now t.now }
    requires plane { IsPlaneSystem g.now r.now }
    requires old { old.now ≡ choices_by t.now r.now }
    requires new { (q : List (List ℕ)) × IsPlaneSystem g.now q × (new.now ≡ choices_by t.now q) }
    ensures { (q : List (List ℕ)) → IsPlaneSystem g.now q → new.now ≡ choices_by t.now q
        → IfOk result (λ s. s ≡ q) }
{
    g.keeps_limits();
    let table = followers(alloc, g, t, r)?;
    let changed = changed_table(alloc, t, &table, old, new)?;
    let s = compose(alloc, g, t, &changed)?;
    Ok(s)
}
