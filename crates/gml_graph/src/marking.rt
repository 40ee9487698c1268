// Documents written with texts in their nodes.

ghost use Rattle.std.specs.Prelude.{◌≡◌, ◌+◌, ◌≤◌, ◌++◌, IfOk, OnOk, map, option_map};
ghost use Rattle.std.specs.Slice.Iter.{iter_rest};
ghost use Rattle.gml_text.specs.Document.{empty, depth, max_depth};
ghost use Rattle.gml_text.specs.Pairs.{pair_before, document_of};
ghost use Rattle.gml_text.specs.Grammar.{Spells};
ghost use Rattle.gml_text.specs.Layout.{lines, written};
ghost use Rattle.gml_graph.specs.Start.{start_key};
ghost use Rattle.gml_graph.specs.Marked.{put_first, put_unless, mark_nodes, marked, marked_unless, AreQuotable, list_under, WritesPair};

use gml_text::{Doc, Pair, Pairs, Value, push_closing, push_opening, push_pair, push_string};
use std::alloc::{AllocError, Global};
use std::slice::Iter;

// The key under which a node carries its text.
fn start_key() -> &'static [u8]
    ensures { result.now ≡ start_key }
{
    b"spqrRotation"
}

// The list of a pair, if it has this key and a list.
fn list_under<'a>(pair: &'a Pair, key: &[u8]) -> Option<&'a Pairs>
    ensures { option_map (λ list. list.now) result ≡ list_under key.now pair.now }
{
    if pair.key.as_slice() != key {
        return None;
    }
    match &pair.value {
        Value::Num(_) | Value::Str(_) => None,
        Value::List(inner) => Some(inner),
    }
}

// Writes a pair of a node: this text if the pair is the first under the key of starts, which is noted then.
fn write_node_pair(
    out: &mut Vec<u8>,
    pair: &Pair,
    text: &[u8],
    put: &mut bool,
) -> Result<(), AllocError>
    requires { 2 + depth (pair_before pair.now.key pair.now.value empty) ≤ max_depth }
    ensures { OnOk result (WritesPair 2 (put_unless put.old text.now) (put_unless put.new text.now) pair.now out.old.items out.new.items) }
{
    if *put {
        return push_pair(out, 2, pair);
    }
    if pair.key.as_slice() != start_key() {
        return push_pair(out, 2, pair);
    }
    *put = true;
    push_string(out, 2, start_key(), text)
}

// Writes the pairs of a node with this text under the key of starts.
fn write_node(out: &mut Vec<u8>, node: &[Pair], text: &[u8]) -> Result<(), AllocError>
    requires { 2 + depth (document_of node.now) ≤ max_depth }
    ensures { OnOk result (out.new.items ≡ out.old.items ++ lines 2 (put_first start_key text.now (document_of node.now))) }
{
    let mut put = false;
    for pair in node {
        write_node_pair(out, pair, text, &mut put)?;
    }
    if put {
        return Ok(());
    }
    push_string(out, 2, start_key(), text)
}

// Writes a pair of a graph, with the next of the texts in it if it is a node.
fn write_graph_pair(
    out: &mut Vec<u8>,
    pair: &Pair,
    texts: &mut Iter<'_, Vec<u8>>,
) -> Result<(), AllocError>
    requires { 1 + depth (pair_before pair.now.key pair.now.value empty) ≤ max_depth }
    ensures { OnOk result (WritesPair 1 (mark_nodes (map (λ text. text.items) (iter_rest texts.old)))
        (mark_nodes (map (λ text. text.items) (iter_rest texts.new))) pair.now out.old.items out.new.items) }
{
    match list_under(pair, b"node") {
        None => push_pair(out, 1, pair),
        Some(node) => match texts.next() {
            None => push_pair(out, 1, pair),
            Some(text) => {
                push_opening(out, 1, b"node")?;
                write_node(out, node.as_slice(), text.as_slice())?;
                push_closing(out, 1)
            }
        },
    }
}

// Writes the pairs of a graph with these texts in its nodes, in order.
fn write_graph(out: &mut Vec<u8>, graph: &[Pair], texts: &[Vec<u8>]) -> Result<(), AllocError>
    requires { 1 + depth (document_of graph.now) ≤ max_depth }
    ensures { OnOk result (out.new.items ≡ out.old.items
        ++ lines 1 (mark_nodes (map (λ text. text.items) texts.now) (document_of graph.now))) }
{
    let mut left = texts.iter();
    for pair in graph {
        write_graph_pair(out, pair, &mut left)?;
    }
    Ok(())
}

// Writes a pair of a document, with the texts in its nodes if it is the first graph, which is noted then.
fn write_document_pair(
    out: &mut Vec<u8>,
    pair: &Pair,
    texts: &[Vec<u8>],
    found: &mut bool,
) -> Result<(), AllocError>
    requires { depth (pair_before pair.now.key pair.now.value empty) ≤ max_depth }
    ensures { OnOk result (WritesPair 0 (marked_unless found.old (map (λ text. text.items) texts.now))
        (marked_unless found.new (map (λ text. text.items) texts.now)) pair.now out.old.items out.new.items) }
{
    if *found {
        return push_pair(out, 0, pair);
    }
    match list_under(pair, b"graph") {
        None => push_pair(out, 0, pair),
        Some(graph) => {
            *found = true;
            push_opening(out, 0, b"graph")?;
            write_graph(out, graph.as_slice(), texts)?;
            push_closing(out, 0)
        }
    }
}

/// Writes a document in its layout, as `gml_text::write` does, with these texts in the nodes of the first graph list, in order.
///
/// In each node the first pair under the key `spqrRotation` becomes a string of the text, whatever its value was; where there
/// is no such pair it is added after the others. All else is written as it is, also a node for which there is no text; texts for
/// which there is no node are not used. Where no text has a quote in it, what is written is read again as the document with these
/// texts. At first room is made for `room` bytes. Takes time linear in the bytes of the document and the texts, no memory but for what
/// is written and this room, and fails only if memory runs out.
pub fn write_marked(
    alloc: Global,
    d: &Doc,
    texts: &[Vec<u8>],
    room: usize,
) -> Result<Vec<u8>, AllocError>
    ensures layout { IfOk result (λ text. text.items ≡ written (marked (map (λ text. text.items) texts.now) d.now)) }
    ensures spelled { AreQuotable (map (λ text. text.items) texts.now)
        → IfOk result (λ text. Spells text.items (marked (map (λ text. text.items) texts.now) d.now)) }
{
    let mut out = Vec::with_capacity(alloc, room)?;
    let mut found = false;
    for pair in d.pairs() {
        write_document_pair(&mut out, pair, texts, &mut found)?;
    }
    Ok(out)
}
