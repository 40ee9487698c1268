// A component as a graph of its own, with its blocks and its cut vertices.

ghost use Rattle.std.specs.Prelude.{◌≡◌, ℕ, ◌∷◌, ◌++◌, ◌<◌, ◌==◌, [], length, map, slice_index, if◌then◌else◌, true, false, IfOk, MatchOption};
ghost use Rattle.permutations.specs.Members.{is_member, place_of};
ghost use Rattle.multigraph.specs.Graph.{edge_count};
ghost use Rattle.multigraph.specs.Part.{IsNumbered};
ghost use Rattle.blocks.specs.Blocks.{IsBlockStructure, block_at};
ghost use Rattle.whole_embed.specs.Component.{Component, component_vertices, has_edge, component_edges, component_blocks, component_cuts, block_of, component_of};
ghost use Rattle.whole_embed.specs.Frames.{IsFrame, AreNotedBelow, AreNoted};

use blocks::Blocks;
use multigraph::{Graph, Part};
use std::alloc::{AllocError, Global};
use std::marker::Model;

/// A component of a graph as a graph of its own, with the numbers of its blocks, its cut vertices, and the block of each edge.
#[derive(Debug, Drop)]
pub struct Frame {
    part: Part,
    blocks: Vec<u32>,
    cuts: Vec<u32>,
    edge_blocks: Vec<u32>,
}

impl Model for Frame {
    ghost use Rattle.whole_embed.specs.Component.{Component};
    ghost use Rattle.whole_embed.specs.Frames.{IsFrame};

    ghost Value = { Component };

    ghost view = { λ f. record {
      part = f.part;
      blocks = f.blocks.items;
      cuts = f.cuts.items;
      edge_blocks = f.edge_blocks.items;
    } };

    ghost invariant = { λ f. IsFrame (record {
      part = f.part;
      blocks = f.blocks.items;
      cuts = f.cuts.items;
      edge_blocks = f.edge_blocks.items;
    }) };
}

impl Frame {
    // Component `c` of a graph. Linear in vertices and edges of the graph, but for the binary searches that make the part.
    pub(crate) fn of(
        alloc: Global,
        graph: &Graph,
        blocks: &Blocks,
        c: u32,
    ) -> Result<Frame, AllocError>
        requires { IsBlockStructure graph.now blocks.now }
        ensures { IfOk result (λ frame. frame ≡ component_of graph.now blocks.now c) }
    {
        graph.keeps_limits();
        let vertices = vertices_of(alloc, blocks, c, graph.vertex_count())?;
        let edges = edges_of(alloc, graph, blocks, c)?;
        let edge_blocks = blocks_of_edges(alloc, graph, blocks, &edges)?;
        Ok(Frame {
            part: graph.part_on(alloc, &vertices, &edges)?,
            blocks: blocks_of(alloc, graph, blocks, c)?,
            cuts: cuts_of(alloc, blocks, c)?,
            edge_blocks,
        })
    }

    // A copy. Fails only if memory runs out.
    pub(crate) fn copy(&self, alloc: Global) -> Result<Frame, AllocError>
        ensures { IfOk result (λ frame. frame ≡ self.now) }
    {
        Ok(Frame {
            part: self.part.copy(alloc)?,
            blocks: Vec::from_slice(alloc, &self.blocks)?,
            cuts: Vec::from_slice(alloc, &self.cuts)?,
            edge_blocks: Vec::from_slice(alloc, &self.edge_blocks)?,
        })
    }

    /// The component as a graph of its own.
    pub fn part(&self) -> &Part
        ensures value { result.now ≡ self.now.part }
        ensures numbered { IsNumbered self.now.part }
        ensures frame { IsFrame self.now }
    {
        let _ = self.part.graph(); // for its promise alone
        &self.part
    }

    /// The numbers of its blocks, increasing.
    pub fn blocks(&self) -> &[u32]
        ensures { result.now ≡ self.now.blocks }
    {
        &self.blocks
    }

    /// Its cut vertices, increasing.
    pub fn cuts(&self) -> &[u32]
        ensures value { result.now ≡ self.now.cuts }
        ensures frame { IsFrame self.now }
    {
        &self.cuts
    }

    /// The block of each edge of the part.
    pub fn edge_blocks(&self) -> &[u32]
        ensures { result.now ≡ self.now.edge_blocks }
    {
        &self.edge_blocks
    }

    // The place of a vertex among the cut vertices; `None` where it is not one.
    pub(crate) fn find_cut(&self, v: u32) -> Option<usize>
        ensures { MatchOption result (is_member v self.now.cuts ≡ false)
            (λ i. (is_member v self.now.cuts ≡ true) × (i ≡ place_of self.now.cuts v)) }
    {
        match self.cuts.binary_search(&v) {
            Ok(i) => Some(i),
            Err(_) => None,
        }
    }
}

// Appends the number if it is wanted.
fn note(list: &mut Vec<u32>, number: u32, wanted: bool) -> Result<(), AllocError>
    ensures { IfOk result (λ _. list.new.items ≡ (if wanted then list.old.items ++ number ∷ []
        else list.old.items)) }
{
    if wanted {
        list.push(number)?;
    }
    Ok(())
}

// The vertices of component c, increasing.
fn vertices_of(alloc: Global, blocks: &Blocks, c: u32, count: u32) -> Result<Vec<u32>, AllocError>
    requires { count ≡ length blocks.now.components }
    ensures { IfOk result (λ list. list.items ≡ component_vertices blocks.now c) }
{
    let mut list = Vec::new(alloc);
    for v in 0..count {
        let wanted = blocks.component_of(v) == c;
        note(&mut list, v, wanted)?;
    }
    Ok(list)
}

// Whether the edge is in component c.
fn is_edge_of(graph: &Graph, blocks: &Blocks, c: u32, edge: u32) -> bool
    requires edge { edge < edge_count graph.now }
    requires structure { IsBlockStructure graph.now blocks.now }
    ensures { result ≡ has_edge graph.now blocks.now c edge }
{
    let (first, _) = graph.ends(edge);
    blocks.component_of(first) == c
}

// The edges of component c, increasing.
fn edges_of(alloc: Global, graph: &Graph, blocks: &Blocks, c: u32) -> Result<Vec<u32>, AllocError>
    requires { IsBlockStructure graph.now blocks.now }
    ensures { IfOk result (λ list. list.items ≡ component_edges graph.now blocks.now c) }
{
    let mut list = Vec::new(alloc);
    for edge in 0..graph.edge_count() {
        let wanted = is_edge_of(graph, blocks, c, edge);
        note(&mut list, edge, wanted)?;
    }
    Ok(list)
}

// Whether the block is in component c.
fn is_block_of(graph: &Graph, blocks: &Blocks, c: u32, b: u32) -> bool
    requires block { b < length blocks.now.blocks }
    requires structure { IsBlockStructure graph.now blocks.now }
    ensures { result ≡ has_edge graph.now blocks.now c
        (slice_index (block_at blocks.now.blocks b) 0) }
{
    is_edge_of(graph, blocks, c, blocks.edges(b)[0])
}

// The blocks of component c, increasing.
fn blocks_of(alloc: Global, graph: &Graph, blocks: &Blocks, c: u32) -> Result<Vec<u32>, AllocError>
    requires { IsBlockStructure graph.now blocks.now }
    ensures { IfOk result (λ list. list.items ≡ component_blocks graph.now blocks.now c) }
{
    let mut list = Vec::new(alloc);
    for b in 0..blocks.block_count() {
        let wanted = is_block_of(graph, blocks, c, b);
        note(&mut list, b, wanted)?;
    }
    Ok(list)
}

// The cut vertices in component c, increasing.
fn cuts_of(alloc: Global, blocks: &Blocks, c: u32) -> Result<Vec<u32>, AllocError>
    requires { (i : ℕ) → i < length blocks.now.cut_vertices
        → slice_index blocks.now.cut_vertices i < length blocks.now.components }
    ensures { IfOk result (λ list. list.items ≡ component_cuts blocks.now c) }
{
    let mut list = Vec::new(alloc);
    for v in blocks.cut_vertices() {
        let wanted = blocks.component_of(*v) == c;
        note(&mut list, *v, wanted)?;
    }
    Ok(list)
}

// Notes the number of a block at each of its edges.
fn note_block(table: &mut [u32], edges: &[u32], b: u32)
    requires { (i : ℕ) → i < length edges.now → slice_index edges.now i < length table.old }
    ensures noted { AreNoted edges.now b table.old table.new }
    ensures each { length table.new ≡ length table.old }
{
    for edge in edges {
        table[*edge as usize] = b;
    }
}

// The block of each edge of the graph.
fn block_table(alloc: Global, graph: &Graph, blocks: &Blocks) -> Result<Vec<u32>, AllocError>
    requires { IsBlockStructure graph.now blocks.now }
    ensures { IfOk result (λ table. AreNotedBelow graph.now blocks.now.blocks
        (length blocks.now.blocks) table.items) }
{
    let mut table = vec![in alloc; 0u32; graph.edge_count() as usize]?;
    for b in 0..blocks.block_count() {
        note_block(&mut table, blocks.edges(b), b);
    }
    Ok(table)
}

// The block of each of these edges.
fn blocks_of_edges(
    alloc: Global,
    graph: &Graph,
    blocks: &Blocks,
    edges: &[u32],
) -> Result<Vec<u32>, AllocError>
    requires structure { IsBlockStructure graph.now blocks.now }
    requires within { (i : ℕ) → i < length edges.now → slice_index edges.now i
        < edge_count graph.now }
    ensures { IfOk result (λ list. list.items ≡ map (block_of blocks.now.blocks) edges.now) }
{
    graph.keeps_limits();
    let table = block_table(alloc, graph, blocks)?;
    let mut list = Vec::with_capacity(alloc, edges.len())?;
    for edge in edges {
        list.push(table[*edge as usize])?;
    }
    Ok(list)
}
