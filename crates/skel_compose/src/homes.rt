// The homes of the edges: of each edge of the block the node and the item that it is.

ghost use Rattle.std.specs.Prelude.{◌+◌, ◌<◌, length, IfOk};
ghost use Rattle.multigraph.specs.Graph.{edge_count, IsWithinLimits};
ghost use Rattle.skeletons.specs.Items.{IsBlockTree};
ghost use Rattle.skel_compose.specs.Homes.{HasHomes};

use multigraph::Graph;
use pair_split::What;
use spqr_tree::Tree;
use std::alloc::{AllocError, Global};

/// Puts the homes of the edges that node `k` has into the list, which has those of the nodes before. In time in proportion to the items.
pub fn put_homes(g: &Graph, tree: &Tree, k: u32, homes: &mut [(u32, u32)])
    requires node { k < length tree.now }
    requires block { IsBlockTree g.now tree.now }
    requires limits { IsWithinLimits g.now }
    requires before { HasHomes g.now tree.now k 0 homes.old }
    ensures { HasHomes g.now tree.now (k + 1) 0 homes.new }
{
    let items = tree.items(k);
    for i in 0..items.len() as u32 {
        if let What::Real(e) = items[i as usize].what {
            homes[e as usize] = (k, i);
        }
    }
}

/// The homes of the edges of a block: of each edge the node of the tree and the item that it is. In linear time. Fails only if
/// memory runs out.
pub fn homes_of(alloc: Global, g: &Graph, tree: &Tree) -> Result<Vec<(u32, u32)>, AllocError>
    requires block { IsBlockTree g.now tree.now }
    ensures { IfOk result (λ homes. HasHomes g.now tree.now (length tree.now) 0 homes.items) }
{
    let mut homes = vec![in alloc; (0, 0); g.edge_count() as usize]?;
    for k in 0..tree.node_count() {
        put_homes(g, tree, k, &mut homes);
    }
    Ok(homes)
}
