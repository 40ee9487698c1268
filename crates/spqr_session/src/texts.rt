// The texts of `gml`: at each vertex of the graph the present order of the edges there, block by block.
//
// The blocks are gone through in increasing order, and the edges of each are appended to the texts of its vertices: so the time is linear
// in what is written.
ghost use Rattle.std.specs.Prelude.{◌≡◌, ◌<◌, ℕ, List, [], length, map, replicate, slice_index, slice_index_or, slice_set, IfOk, OnOk, All};
ghost use Rattle.multigraph.specs.Graph.{Multigraph, IsGraph, edge_count};
ghost use Rattle.spqr_session.specs.Trees.{AreBlockTrees};
ghost use Rattle.spqr_session.specs.Embedded.{view_tree, view_entry};
ghost use Rattle.spqr_session.specs.State.{Family};
ghost use Rattle.spqr_session.specs.Commands.Gml.{block_numbers, marks};
ghost use Rattle.spqr_session.specs.Texts.{AreExtended, bytes_of, own_numbers, with_number, with_numbers};

use crate::embedded::EmbeddedBlock;
use decimals::{push_number, push_word};
use multigraph::Part;
use rotations::RotIter;
use skel_embed::Outcome;
use std::alloc::{AllocError, Global};

// Appends a number to a text, after a space unless the text is empty.
fn push_edge(text: &mut Vec<u8>, e: u32) -> Result<(), AllocError>
    ensures { OnOk result (text.new.items ≡ with_number text.old.items e) }
{
    if !text.is_empty() {
        push_word(text, b" ")?;
    }
    push_number(text, u128::from(e))
}

// Appends the edges of a walk around a vertex of a part to a text.
fn push_round(text: &mut Vec<u8>, part: &Part, mut round: RotIter<'_>) -> Result<(), AllocError>
    requires { All (λ e. e < edge_count part.now.graph) round }
    ensures { OnOk result (text.new.items
        ≡ with_numbers text.old.items (map (slice_index part.now.edges) round.entry)) }
{
    while let Some(e) = round.next() {
        push_edge(text, part.edge(e))?;
    }
    Ok(())
}

// Appends some edges of a part to a text.
fn push_edges(text: &mut Vec<u8>, part: &Part, edges: &[u32]) -> Result<(), AllocError>
    requires { All (λ e. e < edge_count part.now.graph) edges.now }
    ensures { OnOk result (text.new.items
        ≡ with_numbers text.old.items (map (slice_index part.now.edges) edges.now)) }
{
    for e in edges {
        push_edge(text, part.edge(*e))?;
    }
    Ok(())
}

// Appends the edges of a block at its vertex `i` to a text.
fn push_own(text: &mut Vec<u8>, block: &EmbeddedBlock, i: u32) -> Result<(), AllocError>
    requires { i < block.now.tree.part.graph.vertex_count }
    ensures { OnOk result (text.new.items
        ≡ with_numbers text.old.items (own_numbers block.now.tree block.now.entry i)) }
{
    let part = block.part();
    match block.outcome() {
        Outcome::Plane(plane) => push_round(text, part, plane.rotation().list(i)),
        Outcome::Not(_) => push_edges(text, part, part.graph().incident(i)),
    }
}

// Appends them to the text of the vertex of the graph that it is.
fn push_vertex(texts: &mut Vec<Vec<u8>>, block: &EmbeddedBlock, i: u32) -> Result<(), AllocError>
    requires vertex { i < block.now.tree.part.graph.vertex_count }
    requires within { slice_index block.now.tree.part.vertices i < length texts.old.items }
    ensures { OnOk result (bytes_of texts.new.items ≡ slice_set (bytes_of texts.old.items)
        (slice_index block.now.tree.part.vertices i)
        (with_numbers (slice_index_or (bytes_of texts.old.items) (slice_index block.now.tree.part.vertices i) [])
        (own_numbers block.now.tree block.now.entry i))) }
{
    let v = block.part().vertex(i);
    let text = &mut texts[v as usize];
    push_own(text, block, i)
}

// Appends the edges of a block to the texts of its vertices.
fn push_block(texts: &mut Vec<Vec<u8>>, block: &EmbeddedBlock) -> Result<(), AllocError>
    requires { All (λ v. v < length texts.old.items) block.now.tree.part.vertices }
    ensures { OnOk result (AreExtended (block_numbers block.now.tree block.now.entry)
        (bytes_of texts.old.items) (bytes_of texts.new.items)) }
{
    // A rotation system of the block has an order for each of its vertices, and no more.
    let _ = block.outcome();
    for i in 0..block.part().graph().vertex_count() {
        push_vertex(texts, block, i)?;
    }
    Ok(())
}

// `n` empty texts.
fn empty_texts(alloc: Global, n: u32) -> Result<Vec<Vec<u8>>, AllocError>
    ensures { IfOk result (λ texts. bytes_of texts.items ≡ replicate n []) }
{
    let mut texts = Vec::with_capacity(alloc, n as usize)?;
    for _ in 0..n {
        texts.push(Vec::new(alloc))?;
    }
    Ok(texts)
}

/// The texts of the `n` vertices of a graph with these blocks: the numbers of the edges at the vertex, block by block in increasing order,
/// one space between any two. The edges of a planar block are in the present order from its least edge there on, those of another are
/// increasing. Fails only if memory runs out.
pub(crate) fn present_texts(
    alloc: Global,
    n: u32,
    blocks: &[EmbeddedBlock],
) -> Result<Vec<Vec<u8>>, AllocError>
    requires { (g : Multigraph) × (edges : List (List ℕ)) × (g.vertex_count ≡ n) × IsGraph g
        × AreBlockTrees g edges (map view_tree blocks.now) }
    ensures { (family : Family) → family.entries ≡ map view_entry blocks.now
        → IfOk result (λ texts. map (λ t. t.items) texts.items
        ≡ marks n (map view_tree blocks.now) family) }
{
    let mut texts = empty_texts(alloc, n)?;
    for block in blocks {
        push_block(&mut texts, block)?;
    }
    Ok(texts)
}
