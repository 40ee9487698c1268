// The rotation system of a skeleton, from the table.

ghost use Rattle.std.specs.Prelude.{◌≡◌, ◌<◌, ℕ, List, length, IfOk};
ghost use Rattle.multigraph.specs.Graph.{Multigraph, IsWithinLimits};
ghost use Rattle.rotations.specs.Rotation.{order_at};
ghost use Rattle.pair_split.specs.Tutte.{node_at};
ghost use Rattle.skeletons.specs.Items.{IsBlockTree};
ghost use Rattle.skeletons.specs.Families.{skeleton_graph, system_at, AreSkeletonSystems};
ghost use Rattle.skel_compose.specs.Orders.{orders_below};
ghost use Rattle.skel_compose.specs.Followers.{IsTable, HasFollowers};

use crate::lists::FlatLists;
use multigraph::Graph;
use rotations::{Lists, Rotation};
use skel_compose::item_place;
use spqr_tree::Tree;
use std::alloc::{AllocError, Global};

// Makes the list that of the items of node k around the vertex at place p among its vertices, from the least on.
fn items_round(
    tree: &Tree,
    graph: &Graph,
    table: &FlatLists,
    k: u32,
    p: u32,
    items: &mut Vec<u32>,
) -> Result<(), AllocError>
    requires block { (g : Multigraph) × IsBlockTree g tree.now × IsWithinLimits g }
    requires node { k < length tree.now }
    requires skeleton { graph.now ≡ skeleton_graph tree.now k }
    requires place { p < length (node_at tree.now k).vertices }
    requires table { IsTable tree.now table.now }
    requires family { (family : List (List (List ℕ))) × AreSkeletonSystems tree.now family
        × HasFollowers tree.now family table.now }
    ensures { IfOk result (λ _. (family : List (List (List ℕ))) → AreSkeletonSystems tree.now family
        → HasFollowers tree.now family table.now → items.new.items ≡ order_at (system_at family k) p) }
{
    let v = tree.vertices(k)[p as usize];
    items.clear();
    let mut i = graph.incident(p)[0];
    for _turn in 0..graph.degree(p) {
        items.push(i)?;
        i = table.number(k as usize, item_place(tree, k, i, v));
    }
    Ok(())
}

// The items around each vertex of node k.
fn orders(
    alloc: Global,
    tree: &Tree,
    graph: &Graph,
    table: &FlatLists,
    k: u32,
) -> Result<Lists, AllocError>
    requires block { (g : Multigraph) × IsBlockTree g tree.now × IsWithinLimits g }
    requires node { k < length tree.now }
    requires skeleton { graph.now ≡ skeleton_graph tree.now k }
    requires table { IsTable tree.now table.now }
    requires family { (family : List (List (List ℕ))) × AreSkeletonSystems tree.now family
        × HasFollowers tree.now family table.now }
    ensures { IfOk result (λ lists. (family : List (List (List ℕ))) → AreSkeletonSystems tree.now family
        → HasFollowers tree.now family table.now
        → lists ≡ orders_below (system_at family k) (length (node_at tree.now k).vertices)) }
{
    let mut lists = Lists::new(alloc);
    let mut items = Vec::new(alloc);
    for p in 0..graph.vertex_count() {
        items_round(tree, graph, table, k, p, &mut items)?;
        lists.push(p, &items)?;
    }
    Ok(lists)
}

/// The rotation system of the skeleton of node `k` of which `table` has what follows each item. In time n log n for n items. Fails only if
/// memory runs out.
pub fn member_of(
    alloc: Global,
    tree: &Tree,
    table: &FlatLists,
    k: u32,
) -> Result<Rotation, AllocError>
    requires block { (g : Multigraph) × IsBlockTree g tree.now × IsWithinLimits g }
    requires node { k < length tree.now }
    requires table { IsTable tree.now table.now }
    requires family { (family : List (List (List ℕ))) × AreSkeletonSystems tree.now family
        × HasFollowers tree.now family table.now }
    ensures { IfOk result (λ member. (family : List (List (List ℕ))) → AreSkeletonSystems tree.now family
        → HasFollowers tree.now family table.now → member ≡ system_at family k) }
{
    let graph = tree.skeleton(alloc, k)?;
    let lists = orders(alloc, tree, &graph, table, k)?;
    Rotation::of_arranged(alloc, &graph, &lists)
}
