// The rotation system that follows a family of rotation systems of the skeletons.

ghost use Rattle.std.specs.Prelude.{◌≡◌, ◌<◌, ℕ, List, length, IfOk};
ghost use Rattle.rotations.specs.Rotation.{order_at, IsRotationSystem};
ghost use Rattle.skeletons.specs.Items.{IsBlockTree};
ghost use Rattle.skeletons.specs.Families.{FollowsFamily};
ghost use Rattle.skel_compose.specs.Followers.{IsTable, IsTableOf};
ghost use Rattle.skel_compose.specs.Homes.{HasHomes};
ghost use Rattle.skel_compose.specs.Orders.{orders_below};

use crate::homes::homes_of;
use crate::walking::edge_behind;
use multigraph::{FlatLists, Graph};
use rotations::{Lists, Rotation};
use spqr_tree::Tree;
use std::alloc::{AllocError, Global};

// Makes the list that of the edges around v, from the least on.
fn edges_round(
    g: &Graph,
    tree: &Tree,
    table: &FlatLists<u32>,
    homes: &[(u32, u32)],
    v: u32,
    edges: &mut Vec<u32>,
) -> Result<(), AllocError>
    requires block { IsBlockTree g.now tree.now }
    requires table { IsTable tree.now table.now }
    requires family { (family : List (List (List ℕ))) × IsTableOf tree.now table.now family }
    requires homes { HasHomes g.now tree.now (length tree.now) 0 homes.now }
    requires vertex { v < g.now.vertex_count }
    ensures { IfOk result (λ _. (family : List (List (List ℕ))) → IsTableOf tree.now table.now family
        → (r : List (List ℕ)) → IsRotationSystem g.now r → FollowsFamily tree.now family r
        → edges.new.items ≡ order_at r v) }
{
    edges.clear();
    let mut e = g.incident(v)[0];
    for _turn in 0..g.degree(v) {
        edges.push(e)?;
        e = edge_behind(g, tree, table, homes, v, e);
    }
    Ok(())
}

// The edges around each vertex.
fn orders(
    alloc: Global,
    g: &Graph,
    tree: &Tree,
    table: &FlatLists<u32>,
) -> Result<Lists, AllocError>
    requires block { IsBlockTree g.now tree.now }
    requires table { IsTable tree.now table.now }
    requires family { (family : List (List (List ℕ))) × IsTableOf tree.now table.now family }
    ensures { IfOk result (λ lists. (family : List (List (List ℕ))) → IsTableOf tree.now table.now family
        → (r : List (List ℕ)) → IsRotationSystem g.now r → FollowsFamily tree.now family r
        → lists ≡ orders_below r g.now.vertex_count) }
{
    let homes = homes_of(alloc, g, tree)?;
    let mut lists = Lists::new(alloc);
    let mut edges = Vec::new(alloc);
    for v in 0..g.vertex_count() {
        edges_round(g, tree, table, &homes, v, &mut edges)?;
        lists.push(v, &edges)?;
    }
    Ok(lists)
}

/// The rotation system of a block that follows a family of rotation systems of the skeletons of its tree, one for each node: at
/// each vertex of each node the groups of edges are in runs, in the order of the node's items (Di Battista and Tamassia 1996). `table` has
/// what follows each item of each node around both of its ends in the family: a list for each node, with two places for each of its items,
/// of which the first is for its lesser end (`item_place`).
///
/// There is exactly one. Fails only if memory runs out.
pub fn compose(
    alloc: Global,
    g: &Graph,
    tree: &Tree,
    table: &FlatLists<u32>,
) -> Result<Rotation, AllocError>
    requires block { IsBlockTree g.now tree.now }
    requires table { IsTable tree.now table.now }
    requires family { (family : List (List (List ℕ))) × IsTableOf tree.now table.now family }
    ensures system { IfOk result (IsRotationSystem g.now) }
    ensures follows { (family : List (List (List ℕ))) → IsTableOf tree.now table.now family
        → IfOk result (FollowsFamily tree.now family) }
{
    let lists = orders(alloc, g, tree, table)?;
    Rotation::of_arranged(alloc, g, &lists)
}
