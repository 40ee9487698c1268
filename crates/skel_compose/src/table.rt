// Places in the table of what follows each item of each node around each of its ends: for item i of a node what follows it around its
// lesser end is at place 2i of the node's list, and around the other at 2i + 1.

ghost use Rattle.std.specs.Prelude.{◌≡◌, ◌<◌, length};
ghost use Rattle.multigraph.specs.Graph.{Multigraph, IsWithinLimits};
ghost use Rattle.pair_split.specs.Tutte.{node_at};
ghost use Rattle.skeletons.specs.Items.{IsBlockTree};
ghost use Rattle.skel_compose.specs.Followers.{item_place};

use spqr_tree::Tree;

/// The place of item `i` of node `k` around `v`, one of its ends, in the node's list.
pub fn item_place(tree: &Tree, k: u32, i: u32, v: u32) -> usize
    requires block { (g : Multigraph) × IsBlockTree g tree.now × IsWithinLimits g }
    requires node { k < length tree.now }
    requires item { i < length (node_at tree.now k).items }
    ensures { result ≡ item_place tree.now k i v }
{
    let lesser = 2 * i as usize;
    if tree.items(k)[i as usize].a == v {
        lesser
    } else {
        lesser + 1
    }
}
