// The weights of the links of a tree.

ghost use Rattle.std.specs.Prelude.{◌≡◌, ◌<◌, ℕ, true, length, IfOk};
ghost use Rattle.permutations.specs.Members.{is_distinct};
ghost use Rattle.multigraph.specs.Graph.{Multigraph, IsWithinLimits};
ghost use Rattle.skeletons.specs.Items.{IsBlockTree};
ghost use Rattle.pair_split.specs.Tutte.{components, node_at};
ghost use Rattle.spqr_tree.specs.Keys.{AreOrdered};
ghost use Rattle.face_weights.specs.Weights.{weight_of, IsSized};
ghost use Rattle.face_weights.specs.Sums.{weight_in};
ghost use Rattle.skel_decompose.specs.Orders.{IsOrderOf};

use crate::weighing::weights_of;
use skel_decompose::{Order, rooted_at};
use spqr_tree::Tree;
use std::alloc::{AllocError, Global};
use std::marker::Model;

/// The weights of the items of a tree, the greatest weight of a face, and a node that reaches it.
#[derive(Debug, Drop)]
pub struct Weights {
    pub(crate) order: Order,
    pub(crate) below: Vec<u32>,
    pub(crate) above: Vec<u32>,
    pub(crate) most: u32,
    pub(crate) top: u32,
}

impl Model for Weights {
    ghost use Rattle.face_weights.specs.Weights.{Weighing};

    ghost Value = { Weighing };

    ghost view = { λ w. record {
      parents = w.order.parents.items;
      order = w.order.nodes.items;
      below = w.below.items;
      above = w.above.items;
      most = w.most;
      top = w.top;
    } };
}

impl Weights {
    /// The greatest weight of a face.
    pub fn most(&self) -> u32
        ensures { result ≡ self.now.most }
    {
        self.most
    }

    /// A node with a face of the greatest weight.
    pub fn top(&self) -> u32
        ensures { result ≡ self.now.top }
    {
        self.top
    }

    /// The nodes, each after its parent, from the top on. In time in proportion to the nodes. Fails only if memory runs out.
    pub fn order_from_top(&self, alloc: Global, tree: &Tree) -> Result<Order, AllocError>
        requires block { (g : Multigraph) × IsBlockTree g tree.now × IsWithinLimits g }
        requires order { IsOrderOf tree.now self.now.parents self.now.order }
        requires top { self.now.top < length tree.now }
        ensures ordered { IfOk result (λ order. AreOrdered (components tree.now) self.now.top
            order.parents.items order.nodes.items) }
        ensures distinct { IfOk result (λ order. is_distinct order.nodes.items ≡ true) }
    {
        rooted_at(alloc, tree, &self.order, self.top)
    }

    /// Puts the weights of the items of node `k` into `weights`, in their order. Fails only if memory runs out.
    pub fn of_node(&self, tree: &Tree, k: u32, weights: &mut Vec<u32>) -> Result<(), AllocError>
        requires block { (g : Multigraph) × IsBlockTree g tree.now × IsWithinLimits g }
        requires sized { IsSized tree.now self.now }
        requires node { k < length tree.now }
        ensures number { IfOk result (λ _. length weights.new.items
            ≡ length (node_at tree.now k).items) }
        ensures each { IfOk result (λ _. (i : ℕ) → i < length (node_at tree.now k).items
            → weight_in weights.new.items i ≡ weight_of tree.now self.now k i) }
    {
        let parent = self.order.parents[k as usize];
        let above = self.above[k as usize];
        weights_of(tree.items(k), parent, &self.below, above, weights)
    }
}
