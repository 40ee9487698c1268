// Rows of graphs with scripts and answers, as tables of small graphs have them.
use super::answer;
use spqr_run::status::Status;
use std::alloc::{AllocError, Global};
use std::test::Fail;

// A graph of vertices with these ids and of these edges, all of them repeated this many times; a script, and the answers to its commands.
pub(crate) struct Row {
    pub(crate) vertices: &'static [&'static [u8]],
    pub(crate) edges: &'static [(&'static [u8], &'static [u8])],
    pub(crate) times: u32,
    pub(crate) script: &'static [u8],
    pub(crate) answers: &'static [u8],
}

// The bytes of a GML file of a row's graph.
fn graph_text(alloc: Global, row: &Row) -> Result<Vec<u8>, AllocError> {
    let mut text = Vec::new(alloc);
    text.extend_from_slice(b"graph [")?;
    for id in row.vertices {
        text.extend_from_slice(b" node [ id ")?;
        text.extend_from_slice(id)?;
        text.extend_from_slice(b" ]")?;
    }
    for _ in 0..row.times {
        push_edges(&mut text, row.edges)?;
    }
    text.extend_from_slice(b" ]")?;
    Ok(text)
}

// Appends edges to a text.
fn push_edges(text: &mut Vec<u8>, edges: &[(&[u8], &[u8])]) -> Result<(), AllocError> {
    for (from, to) in edges {
        text.extend_from_slice(b" edge [ source ")?;
        text.extend_from_slice(from)?;
        text.extend_from_slice(b" target ")?;
        text.extend_from_slice(to)?;
        text.extend_from_slice(b" ]")?;
    }
    Ok(())
}

// The last bytes of a text, as many as asked for.
fn last_bytes(text: &[u8], wanted: usize) -> &[u8] {
    match text.get(text.len().saturating_sub(wanted)..) {
        Some(last) => last,
        None => text,
    }
}

// Whether on each row the report ends with these answers.
pub(crate) fn are_answers(alloc: Global, rows: &[Row]) -> Result<bool, Fail> {
    for row in rows {
        let graph = graph_text(alloc, row)?;
        let (found, written) = answer(alloc, (&graph, row.script), (&[], &[]), 1000)?;
        if found != Status::Done || last_bytes(&written, row.answers.len()) != row.answers {
            return Ok(false);
        }
    }
    Ok(true)
}
