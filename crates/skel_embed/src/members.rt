// The first plane rotation systems of the skeletons, from which the first plane rotation system of the block is composed: what follows each
// item in them, and the choices that they give. Those of polygons and bonds are known, and not made.

ghost use Rattle.std.specs.Prelude.{◌≡◌, ◌<◌, ◌++◌, ◌⊎◌, ℕ, true, length, map, IfOk};
ghost use Rattle.permutations.specs.Members.{is_member};
ghost use Rattle.multigraph.specs.Graph.{Multigraph, numbers_below, IsWithinLimits};
ghost use Rattle.rotations.specs.Rotation.{order_at};
ghost use Rattle.pair_split.specs.Tutte.{node_at};
ghost use Rattle.pair_split.specs.declared.components.Kind.TheVariants.{S, P, R, B};
ghost use Rattle.skeletons.specs.Items.{item_key, nth_item, IsBlockTree};
ghost use Rattle.skeletons.specs.Moves.{IsNodeOfKind};
ghost use Rattle.skeletons.specs.Families.{skeleton_graph};
ghost use Rattle.skel_compose.specs.Followers.{IsRow};
ghost use Rattle.skel_embed.specs.Fan.{fan_system};
ghost use Rattle.skel_embed.specs.Members.{IsMember, AreMembers};

use crate::systems::first_embedding;
use kuratowski::Subdivision;
use multigraph::{FlatLists, Graph};
use pair_split::{Item, Kind};
use planarity::{Embedded, Embedder};
use rotations::Rotation;
use skel_compose::{bond_row, next_edges, polygon_row};
use spqr_tree::Tree;
use std::alloc::{AllocError, Global};

// What follows each item of each node in the first plane rotation system of its skeleton, the keys of the choices that these give the
// nodes, and where each choice ends.
#[derive(Drop)]
pub(crate) struct FirstMembers {
    pub(crate) table: FlatLists<u32>,
    pub(crate) keys: Vec<u32>,
    pub(crate) ends: Vec<usize>,
}

// That of a skeleton was found, or the skeleton with a subdivision of K5 or K3,3 in it.
#[derive(Drop)]
pub(crate) enum Member {
    Plane,
    Not(Graph, Subdivision),
}

// Those of all skeletons, or the number of a node with the skeleton and a subdivision in it.
#[derive(Drop)]
pub(crate) enum Members {
    Plane(FirstMembers),
    Not(u32, Graph, Subdivision),
}

// Memory that serves all nodes: the sums over the items at each vertex, the items in order, and the list of a node.
#[derive(Drop)]
struct Buffers {
    sums: Vec<u32>,
    items: Vec<u32>,
    row: Vec<u32>,
}

// Makes the list that of the numbers below `count`.
fn count_up(list: &mut Vec<u32>, count: u32) -> Result<(), AllocError>
    ensures { IfOk result (λ _. list.new.items ≡ numbers_below count) }
{
    list.clear();
    for i in 0..count {
        list.push(i)?;
    }
    Ok(())
}

// Makes `row` the list of a bond, or of a node with one or two items, in which the items are in order at the lesser pole.
fn bond_first(
    tree: &Tree,
    k: u32,
    items: &mut Vec<u32>,
    row: &mut Vec<u32>,
) -> Result<(), AllocError>
    requires node { k < length tree.now }
    requires kind { ((node_at tree.now k).kind ≡ P) ⊎ ((node_at tree.now k).kind ≡ B) }
    requires block { (g : Multigraph) × IsBlockTree g tree.now × IsWithinLimits g }
    ensures { IfOk result (λ _. IsRow tree.now k (fan_system (skeleton_graph tree.now k)) row.new.items) }
{
    let count = tree.items(k).len() as u32;
    count_up(items, count)?;
    bond_row(items, row)
}

// Makes `row` the list of a polygon. `sums` gets a place for each of the n vertices of the block.
fn polygon_first(
    tree: &Tree,
    k: u32,
    n: u32,
    sums: &mut Vec<u32>,
    row: &mut Vec<u32>,
) -> Result<(), AllocError>
    requires polygon { IsNodeOfKind tree.now k S }
    requires block { (g : Multigraph) × IsBlockTree g tree.now × IsWithinLimits g × (n ≡ g.vertex_count) }
    ensures { IfOk result (λ _. IsRow tree.now k (fan_system (skeleton_graph tree.now k)) row.new.items) }
{
    sums.resize(n as usize, 0)?;
    polygon_row(tree, k, sums, row)
}

// Appends the keys of these items.
fn append_keys(keys: &mut Vec<u32>, items: &[Item]) -> Result<(), AllocError>
    ensures { IfOk result (λ _. keys.new.items ≡ keys.old.items ++ map item_key items.now) }
{
    for i in 0..items.len() {
        keys.push(items[i].key)?;
    }
    Ok(())
}

// Appends the keys of the items around vertex 0 of the skeleton.
pub(crate) fn append_round(
    keys: &mut Vec<u32>,
    items: &[Item],
    member: &Rotation,
) -> Result<(), AllocError>
    requires vertex { 0 < length member.now }
    requires within { (i : ℕ) → is_member i (order_at member.now 0) ≡ true → i < length items.now }
    ensures { IfOk result (λ _. keys.new.items ≡ keys.old.items ++ map (λ i. (nth_item items.now i).key)
        (order_at member.now 0)) }
{
    let mut round = member.list(0);
    while let Some(i) = round.next() {
        keys.push(items[i as usize].key)?;
    }
    Ok(())
}

// Makes `row` the list of a triconnected node, and appends its choice, or returns its skeleton with a subdivision in it.
fn rigid_first<E: Embedder>(
    alloc: Global,
    tree: &Tree,
    k: u32,
    embedder: &mut E,
    row: &mut Vec<u32>,
    keys: &mut Vec<u32>,
) -> Result<Member, AllocError>
    requires node { IsNodeOfKind tree.now k R }
    requires block { (g : Multigraph) × IsBlockTree g tree.now × IsWithinLimits g }
    ensures { IfOk result (IsMember tree.now k row.new.items keys.old.items keys.new.items) }
{
    let graph = tree.skeleton(alloc, k)?;
    match first_embedding(alloc, &graph, embedder)? {
        Embedded::Plane(r) => {
            next_edges(&graph, &r, row)?;
            append_round(keys, tree.items(k), &r)?;
            Ok(Member::Plane)
        }
        Embedded::Not(s) => Ok(Member::Not(graph, s)),
    }
}

// Makes the list in the buffers that of node k, and appends its choice.
fn member_of<E: Embedder>(
    alloc: Global,
    g: &Graph,
    tree: &Tree,
    k: u32,
    embedder: &mut E,
    buffers: &mut Buffers,
    keys: &mut Vec<u32>,
) -> Result<Member, AllocError>
    requires node { k < length tree.now }
    requires block { IsBlockTree g.now tree.now }
    requires limits { IsWithinLimits g.now }
    ensures { IfOk result (IsMember tree.now k buffers.new.row.items keys.old.items keys.new.items) }
{
    match tree.kind(k) {
        Kind::S => {
            let n = g.vertex_count();
            polygon_first(tree, k, n, &mut buffers.sums, &mut buffers.row)?;
            Ok(Member::Plane)
        }
        Kind::P => {
            bond_first(tree, k, &mut buffers.items, &mut buffers.row)?;
            append_keys(keys, tree.items(k))?;
            Ok(Member::Plane)
        }
        Kind::R => rigid_first(alloc, tree, k, embedder, &mut buffers.row, keys),
        Kind::B => {
            bond_first(tree, k, &mut buffers.items, &mut buffers.row)?;
            Ok(Member::Plane)
        }
    }
}

// The first plane rotation systems of all skeletons.
pub(crate) fn members_of<E: Embedder>(
    alloc: Global,
    g: &Graph,
    tree: &Tree,
    embedder: &mut E,
) -> Result<Members, AllocError>
    requires block { IsBlockTree g.now tree.now }
    requires limits { IsWithinLimits g.now }
    ensures { IfOk result (AreMembers tree.now) }
{
    let count = tree.node_count() as usize;
    let mut table = FlatLists::with_capacity(alloc, count)?;
    let mut ends = Vec::with_capacity(alloc, count)?;
    let mut keys = Vec::new(alloc);
    let mut buffers = Buffers {
        sums: Vec::new(alloc),
        items: Vec::new(alloc),
        row: Vec::new(alloc),
    };
    for k in 0..tree.node_count() {
        match member_of(alloc, g, tree, k, embedder, &mut buffers, &mut keys)? {
            Member::Plane => {
                table.push(&buffers.row)?;
                ends.push(keys.len())?;
            }
            Member::Not(graph, s) => return Ok(Members::Not(k, graph, s)),
        }
    }
    Ok(Members::Plane(FirstMembers { table, keys, ends }))
}
