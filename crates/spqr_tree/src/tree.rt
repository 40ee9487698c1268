// The tree of a block, and its readers.

ghost use Rattle.std.specs.Prelude.{◌≡◌, ◌<◌, ◌≤◌, ◌^◌, ℕ, length, slice_index, IfOk};
ghost use Rattle.std.specs.List.Sorted.{IsNonDecreasingBy};
ghost use Rattle.multigraph.specs.Graph.{Multigraph, IsGraph, edge_count};
ghost use Rattle.pair_split.specs.Tutte.{node_at, node_item, group, IsTutte};

use crate::bounds::Bounds;
use crate::nodes::Nodes;
use pair_split::{Item, Kind};
use std::alloc::{AllocError, Global};
use std::marker::Model;

/// The tree of a block: its nodes, in lexicographic order of their vertices. In contracts it is the list of the nodes.
///
/// Beside the nodes it keeps the places of the edges on a walk around the tree, and between which of them each group is.
#[derive(Debug, Drop)]
pub struct Tree {
    pub(crate) nodes: Nodes,
    pub(crate) places: Vec<u32>,
    pub(crate) bounds: Vec<Bounds>,
}

impl Model for Tree {
    ghost use Rattle.std.specs.Prelude.{◌<◌, ◌^◌, List, length};
    ghost use Rattle.pair_split.specs.Tutte.{Node};
    ghost use Rattle.spqr_tree.specs.Tour.{AreToured};

    ghost Value = { List Node };

    ghost view = { λ tree. tree.nodes };

    ghost invariant = { λ tree. (length tree.nodes < 2 ^ 32)
        × AreToured tree.nodes tree.places.items tree.bounds.items };
}

impl Tree {
    /// How many nodes there are.
    pub fn node_count(&self) -> u32
        ensures { result ≡ length self.now }
    {
        self.nodes.len() as u32
    }

    /// The kind of node `k`.
    pub fn kind(&self, k: u32) -> Kind
        requires { k < length self.now }
        ensures { result ≡ (node_at self.now k).kind }
    {
        self.nodes.kind(k)
    }

    /// The vertices of node `k`, in increasing order.
    pub fn vertices(&self, k: u32) -> &[u32]
        requires { k < length self.now }
        ensures { result.now ≡ (node_at self.now k).vertices }
    {
        self.nodes.vertices(k)
    }

    /// The items of node `k`, in order of their keys.
    pub fn items(&self, k: u32) -> &[Item]
        requires { k < length self.now }
        ensures { result.now ≡ (node_at self.now k).items }
    {
        self.nodes.items(k)
    }

    /// The key of the item of node `k` that is edge `e` or has `e` beyond it. Takes no memory; a binary search among the items.
    pub fn group(&self, k: u32, e: u32) -> u32
        requires node { k < length self.now }
        requires tree { (g : Multigraph) × IsGraph g × IsTutte g self.now × (e < edge_count g) }
        ensures { result ≡ group self.now k e }
    {
        self.items(k)[self.item_with(k, e)].key
    }

    /// The place among the items of node `k` of the one that is edge `e` or has `e` beyond it. Takes no memory; a binary search among
    /// the items.
    pub fn item_with(&self, k: u32, e: u32) -> usize
        requires node { k < length self.now }
        requires tree { (g : Multigraph) × IsGraph g × IsTutte g self.now × (e < edge_count g) }
        ensures within { result < length (node_at self.now k).items }
        ensures key { (node_item self.now k result).key ≡ group self.now k e }
    {
        let place = self.places[e as usize];
        let i = bounds_up_to(self.bounds[k as usize].as_slice(), place);
        if i < self.items(k).len() {
            i
        } else {
            // After all bounds: beyond the first item.
            0
        }
    }

    /// A copy of the tree. Fails only if memory runs out.
    pub fn copy(&self, alloc: Global) -> Result<Tree, AllocError>
        ensures { IfOk result (λ tree. tree ≡ self.now) }
    {
        Ok(Tree {
            nodes: self.nodes.copy(alloc)?,
            places: Vec::from_slice(alloc, &self.places)?,
            bounds: copy_lists(alloc, &self.bounds)?,
        })
    }
}

// How many of the bounds, in increasing order, are not above the place.
fn bounds_up_to(bounds: &[u32], place: u32) -> usize
    requires { IsNonDecreasingBy (λ x. x) bounds.now }
    ensures up_to { (y : ℕ) → y < result → slice_index bounds.now y ≤ place }
    ensures above { (y : ℕ) → result ≤ y → y < length bounds.now
        → place < slice_index bounds.now y }
    ensures within { result ≤ length bounds.now }
{
    bounds.partition_point(|bound| *bound <= place)
}

// A copy of the lists.
fn copy_lists(alloc: Global, lists: &[Bounds]) -> Result<Vec<Bounds>, AllocError>
    ensures { IfOk result (λ copies. copies.items ≡ lists.now) }
{
    let mut copies = Vec::with_capacity(alloc, lists.len())?;
    for list in lists {
        copies.push(list.copy(alloc)?)?;
    }
    Ok(copies)
}
