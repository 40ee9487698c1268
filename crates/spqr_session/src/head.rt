// The head of the report.
ghost use Rattle.std.specs.Prelude.{◌≡◌, ◌≤◌, ◌++◌, IfOk, OnOk, length, map};
ghost use Rattle.std.specs.List.{concat};
ghost use Rattle.gml_text.specs.Document.{Document};
ghost use Rattle.multigraph.specs.Graph.{Multigraph, max_vertices, IsGraph};
ghost use Rattle.pair_split.specs.Tutte.{IsTutte};
ghost use Rattle.spqr_script.specs.Head.{vertex_text, cut_text};
ghost use Rattle.spqr_session.specs.Embedded.{setting_of, view_tree, view_certificate};
ghost use Rattle.spqr_session.specs.Trees.{AreBlockTrees};
ghost use Rattle.spqr_session.specs.Head.{head_text, nodes_text, block_lines, planarity_text, numbered};

use crate::embedded::EmbeddedBlock;
use blocks::Blocks;
use gml_graph::Named;
use multigraph::{Graph, Part};
use skel_embed::Outcome;
use spqr_script::{
    graph_line, push_block_line, push_cut_line, push_node_line, push_nonplanar_lines,
    push_planar_line, push_vertex_line,
};
use spqr_tree::Tree;
use std::alloc::{AllocError, Global};

// How many bytes of the head room is made for, for each vertex and each edge.
const BYTES_EACH: usize = 128;

// Appends the lines of the vertices to a text.
fn push_vertices(out: &mut Vec<u8>, ids: &[i64]) -> Result<(), AllocError>
    requires { length ids.now ≤ max_vertices }
    ensures { OnOk result (out.new.items ≡ out.old.items ++ numbered vertex_text 0 ids.now) }
{
    for (v, id) in ids.iter().enumerate() {
        push_vertex_line(out, v as u32, *id)?;
    }
    Ok(())
}

// Appends the lines of the cut vertices to a text.
fn push_cuts(out: &mut Vec<u8>, cut_vertices: &[u32]) -> Result<(), AllocError>
    ensures { OnOk result (out.new.items ≡ out.old.items
        ++ concat (map cut_text cut_vertices.now)) }
{
    for v in cut_vertices {
        push_cut_line(out, *v)?;
    }
    Ok(())
}

// Appends the lines of the tree of a part to a text.
fn push_nodes(out: &mut Vec<u8>, part: &Part, tree: &Tree) -> Result<(), AllocError>
    requires graph { IsGraph part.now.graph }
    requires nodes { IsTutte part.now.graph tree.now }
    ensures { OnOk result (out.new.items ≡ out.old.items ++ nodes_text part.now tree.now) }
{
    for k in 0..tree.node_count() {
        push_node_line(out, part, tree, k)?;
    }
    Ok(())
}

// Appends the line of a planar block to a text, or those of its certificate.
fn push_planarity(out: &mut Vec<u8>, b: u32, block: &EmbeddedBlock) -> Result<(), AllocError>
    ensures { OnOk result (out.new.items
        ≡ out.old.items ++ planarity_text b block.now.tree.part block.now.certificate) }
{
    match block.outcome() {
        Outcome::Plane(_) => push_planar_line(out, b),
        Outcome::Not(it) => push_nonplanar_lines(out, b, block.part(), it.certificate()),
    }
}

// Appends the lines of the blocks to a text, with those of their trees, and whether they are planar.
fn push_blocks(
    out: &mut Vec<u8>,
    blocks: &Blocks,
    embedded: &[EmbeddedBlock],
) -> Result<(), AllocError>
    requires { (g : Multigraph) × AreBlockTrees g blocks.now.blocks (map view_tree embedded.now) }
    ensures { OnOk result (out.new.items ≡ out.old.items
        ++ numbered (block_lines (map view_tree embedded.now) (map view_certificate embedded.now)) 0 blocks.now.blocks) }
{
    for b in 0..blocks.block_count() {
        push_block_line(out, b, blocks.edges(b))?;
        let block = &embedded[b as usize];
        push_nodes(out, block.part(), block.tree())?;
        push_planarity(out, b, block)?;
    }
    Ok(())
}

// Room for the head of a graph: twice what the lines of most graphs take. Where it is large, the system gives only the pages that are
// written, and an allocator that learns from the blocks that it gets back (as glibc's does) then keeps what one command has used for the next.
fn room_for(graph: &Graph) -> usize {
    let count = (graph.vertex_count() as usize).saturating_add(graph.edge_count() as usize);
    count.saturating_mul(BYTES_EACH)
}

/// The head: the line of the graph, then a line for each vertex, for each cut vertex and for each block with the nodes of its
/// tree in increasing order, and whether the block is planar, else with its certificate.
pub fn head_of(
    alloc: Global,
    named: &Named,
    blocks: &Blocks,
    embedded: &[EmbeddedBlock],
) -> Result<Vec<u8>, AllocError>
    requires { AreBlockTrees named.now.graph blocks.now.blocks (map view_tree embedded.now) }
    ensures { (document : Document) → IfOk result (λ text. text.items ≡ head_text
        (setting_of document named.now blocks.now embedded.now)) }
{
    let graph = named.graph();
    let mut out = graph_line(alloc, graph.vertex_count(), graph.edge_count())?;
    out.reserve(room_for(graph))?;
    push_vertices(&mut out, named.ids())?;
    push_cuts(&mut out, blocks.cut_vertices())?;
    push_blocks(&mut out, blocks, embedded)?;
    Ok(out)
}
