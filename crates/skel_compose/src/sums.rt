// Sums over the items at each vertex of a node.

ghost use Rattle.std.specs.Prelude.{◌≡◌, ◌<◌, ℕ, true, length};
ghost use Rattle.multigraph.specs.Graph.{Multigraph, IsWithinLimits};
ghost use Rattle.pair_split.specs.Tutte.{node_at};
ghost use Rattle.skeletons.specs.Items.{has_vertex, IsBlockTree};
ghost use Rattle.skel_compose.specs.EndSums.{AreEndSums};

use spqr_tree::Tree;

// Sets the sums at the vertices of node k to 0.
fn clear(tree: &Tree, k: u32, sums: &mut [u32])
    requires node { k < length tree.now }
    requires within { (v : ℕ) → has_vertex tree.now k v ≡ true → v < length sums.old }
    ensures places { length sums.new ≡ length sums.old }
    ensures sums { AreEndSums tree.now k 0 sums.new }
{
    let vertices = tree.vertices(k);
    for v in vertices {
        sums[*v as usize] = 0;
    }
}

// Adds the place of each item of node k at both of its ends.
fn add_items(tree: &Tree, k: u32, sums: &mut [u32])
    requires block { (g : Multigraph) × IsBlockTree g tree.now × IsWithinLimits g }
    requires node { k < length tree.now }
    requires sums { AreEndSums tree.now k 0 sums.old }
    ensures places { length sums.new ≡ length sums.old }
    ensures sums { AreEndSums tree.now k (length (node_at tree.now k).items) sums.new }
{
    let items = tree.items(k);
    for i in 0..items.len() as u32 {
        let (a, b) = (items[i as usize].a, items[i as usize].b);
        sums[a as usize] += i;
        sums[b as usize] += i;
    }
}

/// Writes the sum of the places of the items that meet at each vertex of node `k`. `sums` has a place for each vertex of the block; those of
/// vertices of other nodes stay. In linear time.
pub fn end_sums(tree: &Tree, k: u32, sums: &mut [u32])
    requires block { (g : Multigraph) × IsBlockTree g tree.now × IsWithinLimits g
        × (length sums.old ≡ g.vertex_count) }
    requires node { k < length tree.now }
    ensures places { length sums.new ≡ length sums.old }
    ensures sums { AreEndSums tree.now k (length (node_at tree.now k).items) sums.new }
{
    clear(tree, k, sums);
    add_items(tree, k, sums);
}
