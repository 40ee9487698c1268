// The tree that hangs from the node with edge 0: of each node the link to it from its parent, and ranks that fall on the way up.

ghost use Rattle.std.specs.Prelude.{◌≡◌, ◌+◌, ◌*◌, ◌==◌, if◌then◌else◌, ◌<◌, length, IfOk};
ghost use Rattle.multigraph.specs.Graph.{Multigraph, IsWithinLimits};
ghost use Rattle.skeletons.specs.Items.{IsBlockTree};
ghost use Rattle.skel_decompose.specs.Orders.{HangFromFirst, IsOrderOf};
ghost use Rattle.skel_decompose.specs.Ups.{HaveUps, AreRanks};

use crate::ordering::Order;
use pair_split::What;
use spqr_tree::Tree;
use std::alloc::{AllocError, Global};

/// The link to a node from its parent: the parent, the item, and the lesser end of the item.
#[derive(Clone, Copy, Debug, Drop, PartialEq, Eq)]
pub struct UpLink {
    /// The parent.
    pub node: u32,
    /// The item of the parent.
    pub item: u32,
    /// The lesser end of the item.
    pub lesser: u32,
}

impl UpLink {
    // The place of the item around v, one of its ends, in the list of the parent.
    pub(crate) fn place(self, v: u32) -> usize
        ensures { result ≡ (if self.lesser == v then 2 * self.item else 2 * self.item + 1) }
    {
        let lesser = 2 * self.item as usize;
        if self.lesser == v { lesser } else { lesser + 1 }
    }

    // The place of the first item of the node, which has the same ends, in the list of the node.
    pub(crate) fn first_place(self, v: u32) -> usize
        ensures { result ≡ (if self.lesser == v then 0 else 1) }
    {
        if self.lesser == v { 0 } else { 1 }
    }
}

// Notes the links from node k to its children: all of its links but the first item, which is that to the parent.
pub(crate) fn note_ups(tree: &Tree, k: u32, ups: &mut [UpLink])
    requires block { (g : Multigraph) × IsBlockTree g tree.now × IsWithinLimits g }
    requires node { k < length tree.now }
    requires before { HaveUps tree.now k 1 ups.old }
    ensures { HaveUps tree.now (k + 1) 1 ups.new }
{
    let items = tree.items(k);
    for i in 1..items.len() as u32 {
        if let What::Link(x) = items[i as usize].what {
            ups[x as usize] = UpLink {
                node: k,
                item: i,
                lesser: items[i as usize].a,
            };
        }
    }
}

// Ranks of the nodes: their places in an order in which each is after its parent.
pub(crate) fn ranks_of(alloc: Global, tree: &Tree, order: &Order) -> Result<Vec<u32>, AllocError>
    requires block { (g : Multigraph) × IsBlockTree g tree.now × IsWithinLimits g }
    requires order { IsOrderOf tree.now order.now.parents.items order.now.nodes.items }
    requires first { HangFromFirst tree.now order.now.parents.items }
    ensures { IfOk result (λ ranks. AreRanks tree.now ranks.items) }
{
    let mut ranks = vec![in alloc; 0; tree.node_count() as usize]?;
    for q in 0..order.nodes.len() {
        ranks[order.nodes[q] as usize] = q as u32;
    }
    Ok(ranks)
}
