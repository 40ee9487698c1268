// The items of two linked nodes that are the link and the link back.

ghost use Rattle.std.specs.Prelude.{◌≡◌, ◌<◌, ◌^◌, ℕ, length};
ghost use Rattle.multigraph.specs.Graph.{IsWithinLimits, Multigraph};
ghost use Rattle.pair_split.specs.Tutte.{node_at, node_item};
ghost use Rattle.pair_split.specs.declared.components.What.TheVariants.{Link};
ghost use Rattle.skeletons.specs.Items.{IsBlockTree, nth_item};

use pair_split::{Item, What};
use skel_compose::item_with_key;
use spqr_tree::Tree;

// The place of the item that is a link to node j, one after the other.
pub(crate) fn link_to(items: &[Item], j: u32) -> u32
    requires few { length items.now < 2 ^ 31 }
    requires held { (i : ℕ) × (i < length items.now) × ((nth_item items.now i).what ≡ Link j) }
    ensures within { result < length items.now }
    ensures is { (nth_item items.now result).what ≡ Link j }
{
    for i in 0..items.len() {
        if items[i].what == What::Link(j) {
            return i as u32;
        }
    }
    unreachable!()
}

// The item of node j that is the link back to node k, where item i of node k is the link to j: its key is the least of the other items
// of k.
pub(crate) fn link_back(tree: &Tree, k: u32, i: u32, j: u32) -> u32
    requires block { (g : Multigraph) × IsBlockTree g tree.now × IsWithinLimits g }
    requires node { k < length tree.now }
    requires item { i < length (node_at tree.now k).items }
    requires link { (node_item tree.now k i).what ≡ Link j }
    ensures item { result < length (node_at tree.now j).items }
    ensures link { (node_item tree.now j result).what ≡ Link k }
{
    let items = tree.items(k);
    let key = if i == 0 { items[1].key } else { items[0].key };
    item_with_key(tree.items(j), key)
}
