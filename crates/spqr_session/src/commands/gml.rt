// `gml`: the document with the present embedding.
ghost use Rattle.std.specs.Prelude.{◌≡◌, ℕ, List, ◌++◌, codes, decimal, map, IfOk};
ghost use Rattle.spqr_script.specs.Text.{line_end};
ghost use Rattle.spqr_script.specs.Answers.Gml.{document_text};
ghost use Rattle.spqr_session.specs.Trees.{AreBlockTrees};
ghost use Rattle.spqr_session.specs.Setting.{Setting};
ghost use Rattle.spqr_session.specs.State.{State};
ghost use Rattle.spqr_session.specs.Embedded.{view_tree, view_entry};
ghost use Rattle.spqr_session.specs.Commands.Gml.{GmlStep};

use crate::embedded::EmbeddedBlock;
use crate::lines::put_first;
use crate::texts::present_texts;
use decimals::{push_number, push_word};
use gml_graph::write_marked;
use gml_text::Doc;
use multigraph::Graph;
use std::alloc::{AllocError, Global};

// How many bytes are enough for the document with the present embedding, if its nodes and edges have nothing but ids and ends.
fn document_room(graph: &Graph) -> usize {
    64 * (graph.vertex_count() as usize + graph.edge_count() as usize)
}

// The line `gml T`.
fn length_line(alloc: Global, length: usize) -> Result<Vec<u8>, AllocError>
    ensures { IfOk result (λ line. line.items ≡ codes "gml " ++ decimal length ++ line_end) }
{
    let mut line = Vec::from_slice(alloc, b"gml ")?;
    push_number(&mut line, length as u128)?;
    push_word(&mut line, b"\n")?;
    Ok(line)
}

// The line with the length of a written document, and the document after it.
fn with_length(alloc: Global, mut text: Vec<u8>) -> Result<Vec<u8>, AllocError>
    ensures { IfOk result (λ out. out.items ≡ document_text text.items) }
{
    let line = length_line(alloc, text.len())?;
    put_first(&mut text, &line)?;
    Ok(text)
}

/// Carries out `gml`: the document in the written layout, with the present embedding in its nodes. Nothing changes.
pub(crate) fn carry_gml(
    alloc: Global,
    doc: &Doc,
    graph: &Graph,
    blocks: &[EmbeddedBlock],
) -> Result<Vec<u8>, AllocError>
    requires { (edges : List (List ℕ)) × AreBlockTrees graph.now edges (map view_tree blocks.now) }
    ensures { (setting : Setting) (s : State) → setting.document ≡ doc.now → setting.named.graph ≡ graph.now
        → setting.trees ≡ map view_tree blocks.now → s.present.entries ≡ map view_entry blocks.now
        → IfOk result (λ text. GmlStep setting s text.items s) }
{
    let texts = present_texts(alloc, graph.vertex_count(), blocks)?;
    let text = write_marked(alloc, doc, &texts, document_room(graph))?;
    with_length(alloc, text)
}
