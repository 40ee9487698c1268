// The skeleton of a node of the tree, as a graph of its own.

ghost use Rattle.std.specs.Prelude.{◌≡◌, ◌<◌, true, length, map, IfOk};
ghost use Rattle.multigraph.specs.Graph.{Multigraph, IsGraph, IsWithinLimits};
ghost use Rattle.graph_theory.specs.Triconnected.{IsTriconnected};
ghost use Rattle.pair_split.specs.Tutte.{node_at};
ghost use Rattle.pair_split.specs.declared.components.Kind.TheVariants.{R};
ghost use Rattle.skeletons.specs.Items.{has_vertex, IsBlockTree};
ghost use Rattle.skeletons.specs.Families.{end_places, skeleton_graph};
ghost use Rattle.permutations.specs.Members.{place_of};

use crate::tree::Tree;
use multigraph::Graph;
use std::alloc::{AllocError, Global};

impl Tree {
    /// The place of `v` among the vertices of node `k`, by a binary search.
    pub fn place(&self, k: u32, v: u32) -> u32
        requires node { k < length self.now }
        requires block { (g : Multigraph) × IsBlockTree g self.now × IsWithinLimits g }
        requires vertex { has_vertex self.now k v ≡ true }
        ensures { result ≡ place_of (node_at self.now k).vertices v }
    {
        match self.vertices(k).binary_search(&v) {
            Ok(place) => place as u32,
            Err(_) => unreachable!(),
        }
    }

    // The ends of the items of node k, by their places among the vertices.
    fn places_of_ends(&self, alloc: Global, k: u32) -> Result<Vec<(u32, u32)>, AllocError>
        requires node { k < length self.now }
        requires block { (g : Multigraph) × IsBlockTree g self.now × IsWithinLimits g }
        ensures { IfOk result (λ ends. ends.items
            ≡ map (end_places (node_at self.now k).vertices) (node_at self.now k).items) }
    {
        let items = self.items(k);
        let mut ends = Vec::with_capacity(alloc, items.len())?;
        for item in items {
            ends.push((self.place(k, item.a), self.place(k, item.b)))?;
        }
        Ok(ends)
    }

    /// The skeleton of node `k` as a graph of its own: its vertices and its items by their places, the lesser end of an item
    /// first (Tutte 1966). That of an R node is triconnected.
    ///
    /// Takes time n log n for n items. Fails only if memory runs out.
    pub fn skeleton(&self, alloc: Global, k: u32) -> Result<Graph, AllocError>
        requires node { k < length self.now }
        requires block { (g : Multigraph) × IsBlockTree g self.now × IsWithinLimits g }
        ensures skeleton { IfOk result (λ graph. graph ≡ skeleton_graph self.now k) }
        ensures graph { IfOk result IsGraph }
        ensures triconnected { (node_at self.now k).kind ≡ R → IfOk result IsTriconnected }
    {
        let ends = self.places_of_ends(alloc, k)?;
        Graph::of_ends(alloc, self.vertices(k).len() as u32, ends)
    }
}
