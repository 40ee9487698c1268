// The blocks, cut vertices and components of a graph.
ghost use Rattle.std.specs.Prelude.{◌≡◌, ◌<◌, length, IfOk, slice_index};
ghost use Rattle.blocks.specs.Blocks.{BlockStructure, IsBlockStructure, block_at};

use crate::cuts::cut_vertices;
use crate::finding::{number_blocks, number_components};
use multigraph::{Graph, Numbers, places_of};
use search_forest::{Forest, Low};
use std::alloc::{AllocError, Global};
use std::marker::{Brand, Model};
use std::sync::ledger::{Blank, Ledger};
use step_count::Steps;

/// The blocks of a graph, its cut vertices and its components.
///
/// Two edges are in the same block where they are equal or lie on a common cycle. Blocks are numbered from 0 by their least
/// edges, components by their least vertices.
#[derive(Debug, Drop)]
pub struct Blocks {
    lists: Vec<Numbers>,
    cut: Vec<u32>,
    total: u32,
    components: Vec<u32>,
}

impl Model for Blocks {
    ghost use Rattle.std.specs.Prelude.{◌<◌, ◌^◌, length};
    ghost use Rattle.blocks.specs.Blocks.{BlockStructure};

    ghost Value = { BlockStructure };

    ghost view = { λ b. record {
      blocks = b.lists.items;
      cut_vertices = b.cut.items;
      component_count = b.total;
      components = b.components.items;
    } };

    ghost invariant = { λ b. length b.lists.items < 2 ^ 32 };
}

impl Blocks {
    /// The number of blocks.
    pub fn block_count(&self) -> u32
        ensures { result ≡ length self.now.blocks }
    {
        self.lists.len() as u32
    }

    /// The edges of block `b`, in increasing order.
    pub fn edges(&self, b: u32) -> &[u32]
        requires { b < length self.now.blocks }
        ensures { result.now ≡ block_at self.now.blocks b }
    {
        self.lists[b as usize].as_slice()
    }

    /// The cut vertices, in increasing order: those with edges of at least two blocks.
    pub fn cut_vertices(&self) -> &[u32]
        ensures { result.now ≡ self.now.cut_vertices }
    {
        self.cut.as_slice()
    }

    /// The number of components. A vertex without edges is one.
    pub fn component_count(&self) -> u32
        ensures { result ≡ self.now.component_count }
    {
        self.total
    }

    /// The component of vertex `v`.
    pub fn component_of(&self, v: u32) -> u32
        requires { v < length self.now.components }
        ensures { result ≡ slice_index self.now.components v }
    {
        self.components[v as usize]
    }
}

/// Splits a graph into its blocks, by the low points of a depth-first search (Hopcroft and Tarjan 1973). Linear in vertices
/// and edges; the search keeps a stack of its own. Fails only if memory runs out.
pub fn split(alloc: Global, graph: &Graph) -> Result<Blocks, AllocError>
    ensures { IfOk result (λ b. IsBlockStructure graph.now b) }
{
    split_from::<Brand>(alloc, graph, Blank::new(1))
}

// The same, with steps that nobody reads.
fn split_from<L: Ledger>(alloc: Global, graph: &Graph, blank: Blank) -> Result<Blocks, AllocError>
    requires name { blank.name ≡ L.name }
    requires parts { blank.parts ≡ L.parts }
    requires some { 0 < blank.parts }
    ensures { IfOk result (λ b. IsBlockStructure graph.now b) }
{
    let mut steps = Steps::<L>::new(blank);
    let search = Forest::of(alloc, graph, &mut steps)?;
    let low = Low::of(alloc, graph, &search, &mut steps)?;
    let (numbers, blocks) = number_blocks(alloc, graph, &search, &low)?;
    let lists = places_of(alloc, &numbers, blocks as usize)?;
    let cut = cut_vertices(alloc, graph, &numbers)?;
    let (components, total) = number_components(alloc, graph, &search)?;
    Ok(Blocks {
        lists,
        cut,
        total,
        components,
    })
}
