// The nodes of a tree in an order in which each is after its parent.
//
// The tree hangs from the node that has edge 0: the first item of each other node is its link to the parent, since it is the one that has edge 0
// beyond it. So the parents are read off the first items, and from each node the way up to one that is on the list already is put on
// it, the upper end first. An order from another root has the way from that root up first, on which parents and children change
// places, and then the other nodes as they were.

ghost use Rattle.std.specs.Prelude.{◌≡◌, ◌<◌, ◌++◌, ℕ, true, length, slice_index_or, IfOk, OnOk};
ghost use Rattle.permutations.specs.Members.{is_distinct, is_member};
ghost use Rattle.multigraph.specs.Graph.{Multigraph, IsWithinLimits};
ghost use Rattle.pair_split.specs.Tutte.{components};
ghost use Rattle.skeletons.specs.Items.{IsBlockTree, nth_item};
ghost use Rattle.spqr_tree.specs.Absent.{absent};
ghost use Rattle.spqr_tree.specs.Keys.{AreOrdered};
ghost use Rattle.skel_decompose.specs.Orders.{HangFromFirst, IsOrderOf, far_end};
ghost use Rattle.skel_decompose.specs.Ways.{AreDown, IsClimbed, IsFalling, others_of, turned};

use pair_split::{Item, What};
use spqr_tree::Tree;
use std::alloc::{AllocError, Global};

/// No node: the parent of the root.
pub const ABSENT: u32 = u32::MAX;

/// The nodes of a tree, each after its parent, and the parents.
#[derive(Debug, Drop)]
pub struct Order {
    /// The parent of each node; `ABSENT` for the root.
    pub parents: Vec<u32>,
    /// The nodes in order, the root first.
    pub nodes: Vec<u32>,
}

// The node at the other end of the first of the items; `ABSENT` where that is an edge.
fn parent_by(items: &[Item]) -> u32
    requires { 0 < length items.now }
    ensures { result ≡ far_end (nth_item items.now 0).what }
{
    match items[0].what {
        What::Link(j) => j,
        What::Real(_) => ABSENT,
    }
}

// The parents of the nodes of a tree that hangs from the node with edge 0.
fn first_parents(alloc: Global, tree: &Tree) -> Result<Vec<u32>, AllocError>
    requires block { (g : Multigraph) × IsBlockTree g tree.now × IsWithinLimits g }
    ensures { IfOk result (λ parents. HangFromFirst tree.now parents.items) }
{
    let mut parents = Vec::with_capacity(alloc, tree.node_count() as usize)?;
    for k in 0..tree.node_count() {
        parents.push(parent_by(tree.items(k)))?;
    }
    Ok(parents)
}

// Makes `way` the nodes from node k up to one that is placed or is the root, and marks them as placed.
fn climb(parents: &[u32], placed: &mut [bool], k: u32, way: &mut Vec<u32>) -> Result<(), AllocError>
    requires node { k < length parents.now }
    requires falling { (rank : ℕ → ℕ) × IsFalling parents.now rank }
    requires places { length placed.old ≡ length parents.now }
    ensures { IfOk result (λ _. IsClimbed parents.now k placed.old placed.new way.new.items) }
{
    way.clear();
    let mut x = k;
    while x != ABSENT && !placed[x as usize] {
        placed[x as usize] = true;
        way.push(x)?;
        x = parents[x as usize];
    }
    Ok(())
}

// The nodes, each after its parent, by the parents.
fn order_by(alloc: Global, parents: &[u32]) -> Result<Vec<u32>, AllocError>
    requires falling { (rank : ℕ → ℕ) × IsFalling parents.now rank }
    requires few { length parents.now < absent }
    ensures down { IfOk result (λ nodes. AreDown parents.now nodes.items) }
    ensures all { IfOk result (λ nodes. (k : ℕ) → k < length parents.now
        → is_member k nodes.items ≡ true) }
{
    let mut nodes = Vec::with_capacity(alloc, parents.len())?;
    let mut placed = vec![in alloc; false; parents.len()]?;
    let mut way = Vec::new(alloc);
    for k in 0..parents.len() as u32 {
        climb(parents, &mut placed, k, &mut way)?;
        way.reverse();
        nodes.extend_from_slice(&way)?;
    }
    Ok(nodes)
}

/// The nodes of a tree, each after its parent, from the node with edge 0 on, and the parents, which are at the other ends of the first
/// items. In linear time. Fails only if memory runs out.
pub fn order_of(alloc: Global, tree: &Tree) -> Result<Order, AllocError>
    requires block { (g : Multigraph) × IsBlockTree g tree.now × IsWithinLimits g }
    ensures order { IfOk result (λ order. IsOrderOf tree.now order.parents.items order.nodes.items) }
    ensures first { IfOk result (λ order. HangFromFirst tree.now order.parents.items) }
{
    let parents = first_parents(alloc, tree)?;
    let nodes = order_by(alloc, &parents)?;
    Ok(Order { parents, nodes })
}

// Makes each node on the way the parent of the next one, and the first the root.
fn turn(parents: &mut [u32], way: &[u32])
    requires within { (q : ℕ) → q < length way.now
        → slice_index_or way.now q 0 < length parents.old }
    ensures { parents.new ≡ turned parents.old absent way.now }
{
    let mut below = ABSENT;
    for x in way {
        parents[*x as usize] = below;
        below = *x;
    }
}

// Appends the nodes that are not placed, in their order.
fn append_others(nodes: &[u32], placed: &[bool], list: &mut Vec<u32>) -> Result<(), AllocError>
    requires within { (q : ℕ) → q < length nodes.now
        → slice_index_or nodes.now q 0 < length placed.now }
    ensures { OnOk result (list.new.items ≡ list.old.items ++ others_of placed.now nodes.now) }
{
    for k in nodes {
        if !placed[*k as usize] {
            list.push(*k)?;
        }
    }
    Ok(())
}

/// The order from another root, where `order` is that of `order_of`. In linear time. Fails only if memory runs out.
pub fn rooted_at(alloc: Global, tree: &Tree, order: &Order, root: u32) -> Result<Order, AllocError>
    requires block { (g : Multigraph) × IsBlockTree g tree.now × IsWithinLimits g }
    requires order { IsOrderOf tree.now order.now.parents.items order.now.nodes.items }
    requires root { root < length tree.now }
    ensures ordered { IfOk result (λ order. AreOrdered (components tree.now) root order.parents.items
        order.nodes.items) }
    ensures distinct { IfOk result (λ order. is_distinct order.nodes.items ≡ true) }
{
    let mut parents = Vec::from_slice(alloc, &order.parents)?;
    let mut placed = vec![in alloc; false; parents.len()]?;
    let mut nodes = Vec::with_capacity(alloc, parents.len())?;
    climb(&parents, &mut placed, root, &mut nodes)?;
    turn(&mut parents, &nodes);
    append_others(&order.nodes, &placed, &mut nodes)?;
    Ok(Order { parents, nodes })
}

/// The nodes of a tree, each after its parent, from the root on, and the parents. In time in proportion to the nodes. Fails only if
/// memory runs out.
pub fn order_from(alloc: Global, tree: &Tree, root: u32) -> Result<Order, AllocError>
    requires block { (g : Multigraph) × IsBlockTree g tree.now × IsWithinLimits g }
    requires root { root < length tree.now }
    ensures ordered { IfOk result (λ order. AreOrdered (components tree.now) root order.parents.items
        order.nodes.items) }
    ensures distinct { IfOk result (λ order. is_distinct order.nodes.items ≡ true) }
{
    let order = order_of(alloc, tree)?;
    rooted_at(alloc, tree, &order, root)
}
