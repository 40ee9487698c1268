// The nodes of a tree, kept as lists.

ghost use Rattle.std.specs.Prelude.{◌≡◌, ◌<◌, ◌++◌, ◌∷◌, [], length, IfOk};
ghost use Rattle.pair_split.specs.Tutte.{node_at};

use multigraph::FlatLists;
use pair_split::{Item, Kind};
use std::alloc::{AllocError, Global};
use std::marker::Model;

// The nodes of a tree, by their kinds, their vertices and their items. In contracts it is the list of the nodes.
#[derive(Debug, Drop)]
pub(crate) struct Nodes {
    kinds: Vec<Kind>,
    vertices: FlatLists<u32>,
    items: FlatLists<Item>,
}

impl Model for Nodes {
    ghost use Rattle.std.specs.Prelude.{◌≡◌, List, length};
    ghost use Rattle.pair_split.specs.Tutte.{Node};
    ghost use Rattle.spqr_tree.specs.NodeLists.{nodes_from};

    ghost Value = { List Node };

    ghost view = { λ nodes. nodes_from nodes.kinds.items nodes.vertices nodes.items };

    ghost invariant = { λ nodes. (length nodes.vertices ≡ length nodes.kinds.items)
        × (length nodes.items ≡ length nodes.kinds.items) };
}

impl Nodes {
    // No nodes, with room for the kinds of this many.
    pub(crate) fn with_capacity(alloc: Global, count: usize) -> Result<Nodes, AllocError>
        ensures { IfOk result (λ nodes. nodes ≡ []) }
    {
        Ok(Nodes {
            kinds: Vec::with_capacity(alloc, count)?,
            vertices: FlatLists::with_capacity(alloc, count)?,
            items: FlatLists::with_capacity(alloc, count)?,
        })
    }

    // One node more.
    pub(crate) fn with(
        self,
        kind: Kind,
        vertices: &[u32],
        items: &[Item],
    ) -> Result<Nodes, AllocError>
        ensures { IfOk result (λ nodes. nodes ≡ self ++ record {
          kind = kind;
          vertices = vertices.now;
          items = items.now;
        } ∷ []) }
    {
        let mut kinds = self.kinds;
        let mut vertex_lists = self.vertices;
        let mut item_lists = self.items;
        kinds.push(kind)?;
        vertex_lists.push(vertices)?;
        item_lists.push(items)?;
        Ok(Nodes {
            kinds,
            vertices: vertex_lists,
            items: item_lists,
        })
    }

    // How many nodes there are.
    pub(crate) fn len(&self) -> usize
        ensures { result ≡ length self.now }
    {
        self.kinds.len()
    }

    // The kind of node k.
    pub(crate) fn kind(&self, k: u32) -> Kind
        requires { k < length self.now }
        ensures { result ≡ (node_at self.now k).kind }
    {
        self.kinds[k as usize]
    }

    // The vertices of node k.
    pub(crate) fn vertices(&self, k: u32) -> &[u32]
        requires { k < length self.now }
        ensures { result.now ≡ (node_at self.now k).vertices }
    {
        self.vertices.at(k as usize)
    }

    // The items of node k.
    pub(crate) fn items(&self, k: u32) -> &[Item]
        requires { k < length self.now }
        ensures { result.now ≡ (node_at self.now k).items }
    {
        self.items.at(k as usize)
    }

    // A copy.
    pub(crate) fn copy(&self, alloc: Global) -> Result<Nodes, AllocError>
        ensures { IfOk result (λ nodes. nodes ≡ self.now) }
    {
        Ok(Nodes {
            kinds: Vec::from_slice(alloc, &self.kinds)?,
            vertices: self.vertices.copy(alloc)?,
            items: self.items.copy(alloc)?,
        })
    }
}
