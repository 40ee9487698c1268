// The start that a file gives: at each node a text with the numbers of the edges there, in order.

ghost use Rattle.std.specs.Prelude.{◌≡◌, ◌^◌, ◌<◌, ◌≤◌, length, map, option_map, IfOk, IfSome};
ghost use Rattle.decimals.specs.Number.{with_digit};
ghost use Rattle.multigraph.specs.Graph.{incident_edges};
ghost use Rattle.gml_text.specs.Bytes.{is_white};
ghost use Rattle.gml_text.specs.Pairs.{document_of};
ghost use Rattle.gml_graph.specs.Arranged.{is_arrangement};
ghost use Rattle.gml_graph.specs.Answer.{Answers};
ghost use Rattle.gml_graph.specs.Named.{ArrangeEdges};
ghost use Rattle.gml_graph.specs.Start.{start_text, start_texts, spelled_numbers, list_by, lists_by, start_by};

use crate::fault::GraphFault;
use gml_text::{Pair, Pairs, Value};
use multigraph::{Graph, NumberLists, Numbers};
use std::alloc::{AllocError, Global};

// Tab, line feed, vertical tab, form feed, carriage return and space.
fn is_white(byte: u8) -> bool
    ensures { result ≡ is_white byte }
{
    matches!(byte, 9..=13 | 32)
}

// The number so far with one more digit after it, where that is below 2^32.
fn with_digit(value: u32, digit: u8) -> Option<u32>
    ensures { result ≡ with_digit (2 ^ 32) value digit }
{
    if !digit.is_ascii_digit() {
        return None;
    }
    value.checked_mul(10)?.checked_add(u32::from(digit - b'0'))
}

// The numbers of a text, where each of its words between whitespace is one or more digits of a number below 2^32. Fails only if
// memory runs out.
fn spelled_numbers(alloc: Global, text: &[u8]) -> Result<Option<Vec<u32>>, AllocError>
    ensures { IfOk result (λ numbers. option_map (λ v. v.items) numbers
        ≡ spelled_numbers text.now) }
{
    let mut numbers = Vec::new(alloc);
    let mut current = None;
    for byte in text {
        if is_white(*byte) {
            if let Some(number) = current {
                numbers.push(number)?;
                current = None;
            }
        } else {
            match with_digit(current.unwrap_or(0), *byte) {
                Some(number) => current = Some(number),
                None => return Ok(None),
            }
        }
    }
    if let Some(number) = current {
        numbers.push(number)?;
    }
    Ok(Some(numbers))
}

// Whether the numbers are a permutation of the edges at vertex `v`. Fails only if memory runs out.
fn is_arrangement(alloc: Global, g: &Graph, v: u32, numbers: &[u32]) -> Result<bool, AllocError>
    requires { v < g.now.vertex_count }
    ensures { IfOk result (λ answer. answer
        ≡ is_arrangement (incident_edges g.now v) numbers.now) }
{
    let edges = g.incident(v);
    if numbers.len() != edges.len() {
        return Ok(false);
    }
    let mut sorted = Vec::from_slice(alloc, numbers)?;
    sorted.sort_unstable();
    Ok(sorted.as_slice() == edges)
}

// The list of vertex `v` by its text.
fn list_by(alloc: Global, g: &Graph, v: u32, text: &[u8]) -> Result<Numbers, GraphFault>
    requires { v < g.now.vertex_count }
    ensures { Answers (list_by g.now v text.now) (λ list. list) result }
{
    match spelled_numbers(alloc, text)? {
        Some(numbers) => {
            if is_arrangement(alloc, g, v, numbers.as_slice())? {
                Ok(Numbers::of(numbers))
            } else {
                Err(GraphFault::StartVertex(v))
            }
        }
        None => Err(GraphFault::StartVertex(v)),
    }
}

// The lists of the vertices by their texts.
fn lists_by(alloc: Global, g: &Graph, texts: &[&[u8]]) -> Result<NumberLists, GraphFault>
    requires { length texts.now ≤ g.now.vertex_count }
    ensures { Answers (lists_by g.now (map (λ text. text.now) texts.now)) (λ lists. lists) result }
{
    g.keeps_limits();
    let mut lists = Vec::with_capacity(alloc, texts.len())?;
    for (v, text) in texts.iter().enumerate() {
        lists.push(list_by(alloc, g, v as u32, text)?)?;
    }
    Ok(NumberLists::of(lists))
}

// The text of the first pair under a key, where its value is a string. Takes no memory.
fn start_text<'a>(pairs: &'a [Pair], key: &[u8]) -> Option<&'a [u8]>
    ensures { option_map (λ text. text.now) result ≡ start_text key.now (document_of pairs.now) }
{
    for pair in pairs {
        if pair.key.as_slice() == key {
            return match &pair.value {
                Value::Str(text) => Some(text.as_slice()),
                Value::Num(_) | Value::List(_) => None,
            };
        }
    }
    None
}

// The texts of the nodes, where each has one and there is a node. Fails only if memory runs out.
fn start_texts<'a>(alloc: Global, nodes: &[&'a Pairs]) -> Result<Option<Vec<&'a [u8]>>, AllocError>
    ensures { IfOk result (λ texts. option_map (λ found. map (λ text. text.now) found.items) texts
        ≡ start_texts (map (λ node. node.now) nodes.now)) }
{
    if nodes.is_empty() {
        return Ok(None);
    }
    let mut texts = Vec::new(alloc);
    for node in nodes {
        match start_text(node.as_slice(), b"spqrRotation") {
            Some(text) => texts.push(text)?,
            None => return Ok(None),
        }
    }
    Ok(Some(texts))
}

/// The start that the nodes give, where each has a text and there is a node: for each vertex its edges in the order of its text.
/// Fails with the refusal of the least vertex whose text is not numbers, or whose numbers are no permutation of its edges.
pub(crate) fn start_of(
    alloc: Global,
    g: &Graph,
    nodes: &[&Pairs],
) -> Result<Option<NumberLists>, GraphFault>
    requires { length nodes.now ≡ g.now.vertex_count }
    ensures due { Answers (start_by g.now (start_texts (map (λ node. node.now) nodes.now)))
        (λ start. start) result }
    ensures arranged { IfOk result (λ start. IfSome start (ArrangeEdges g.now)) }
{
    match start_texts(alloc, nodes)? {
        Some(texts) => Ok(Some(lists_by(alloc, g, texts.as_slice())?)),
        None => Ok(None),
    }
}
