// The edge that follows an edge around a vertex, by a walk in the tree.

ghost use Rattle.std.specs.Prelude.{◌≡◌, ◌<◌, ℕ, true, List, length};
ghost use Rattle.permutations.specs.Cyclic.{successor};
ghost use Rattle.multigraph.specs.Graph.{Multigraph, edge_count, is_end, IsWithinLimits};
ghost use Rattle.rotations.specs.Rotation.{order_at, IsRotationSystem};
ghost use Rattle.pair_split.specs.Tutte.{node_at, node_item};
ghost use Rattle.pair_split.specs.declared.components.What.TheVariants.{Link};
ghost use Rattle.skeletons.specs.Items.{ends_item, IsBlockTree};
ghost use Rattle.skeletons.specs.Families.{keys_in, FollowsFamily};
ghost use Rattle.skel_compose.specs.Followers.{IsItemEnd, IsTable, IsTableOf};
ghost use Rattle.skel_compose.specs.Homes.{HasHomes};

use crate::searching::item_with_key;
use crate::table::item_place;
use multigraph::{FlatLists, Graph};
use pair_split::What;
use spqr_tree::Tree;

// The item that follows item i of node k around v, one of its ends.
fn item_behind(tree: &Tree, table: &FlatLists<u32>, k: u32, i: u32, v: u32) -> u32
    requires block { (g : Multigraph) × IsBlockTree g tree.now × IsWithinLimits g }
    requires end { IsItemEnd tree.now k i v }
    requires table { IsTable tree.now table.now }
    requires family { (family : List (List (List ℕ))) × IsTableOf tree.now table.now family }
    ensures item { result < length (node_at tree.now k).items }
    ensures end { ends_item v (node_item tree.now k result) ≡ true }
    ensures key { (family : List (List (List ℕ))) → IsTableOf tree.now table.now family
        → (node_item tree.now k result).key ≡ successor (keys_in tree.now family k v) (node_item tree.now k i).key }
{
    table.number(k as usize, item_place(tree, k, i, v))
}

// The item of node j that is the link back to node k, where item i of node k is the link to j.
fn link_back(tree: &Tree, k: u32, i: u32, j: u32) -> u32
    requires block { (g : Multigraph) × IsBlockTree g tree.now × IsWithinLimits g }
    requires node { k < length tree.now }
    requires item { i < length (node_at tree.now k).items }
    requires link { (node_item tree.now k i).what ≡ Link j }
    ensures item { result < length (node_at tree.now j).items }
    ensures link { (node_item tree.now j result).what ≡ Link k }
{
    let items = tree.items(k);
    let key = if i == 0 { items[1].key } else { items[0].key };
    item_with_key(tree.items(j), key)
}

// The edge that follows e around v, one of its ends.
pub(crate) fn edge_behind(
    g: &Graph,
    tree: &Tree,
    table: &FlatLists<u32>,
    homes: &[(u32, u32)],
    v: u32,
    e: u32,
) -> u32
    requires block { IsBlockTree g.now tree.now }
    requires limits { IsWithinLimits g.now }
    requires table { IsTable tree.now table.now }
    requires family { (family : List (List (List ℕ))) × IsTableOf tree.now table.now family }
    requires homes { HasHomes g.now tree.now (length tree.now) 0 homes.now }
    requires edge { e < edge_count g.now }
    requires end { is_end g.now v e ≡ true }
    ensures { (family : List (List (List ℕ))) → IsTableOf tree.now table.now family
        → (r : List (List ℕ)) → IsRotationSystem g.now r → FollowsFamily tree.now family r
        → result ≡ successor (order_at r v) e }
{
    let (mut k, mut i) = homes[e as usize];
    for _links in 0..tree.node_count() {
        let behind = item_behind(tree, table, k, i, v);
        match tree.items(k)[behind as usize].what {
            What::Real(f) => return f,
            What::Link(j) => {
                i = link_back(tree, k, behind, j);
                k = j;
            }
        }
    }
    unreachable!()
}
