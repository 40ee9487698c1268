// The lines of refusals, and the usage line.
ghost use Rattle.std.specs.Prelude.{◌≡◌, ◌≢◌, ◌++◌, IfOk, codes, decimal};
ghost use Rattle.spqr_script.specs.Refusal.{read_text, long_text, gml_text, rule_text, start_genus_text, script_text, usage_text};

use decimals::{push_number, push_spaced, push_word};
use gml_graph::GraphFault;
use gml_text::GmlFault;
use std::alloc::{AllocError, Global};

/// One of the two files that the program reads.
#[derive(Debug, Clone, Copy, PartialEq, Eq)]
pub enum Which {
    /// The file of the graph.
    GraphFile,
    /// The file of the script.
    ScriptFile,
}

// The text of `read_line`.
fn read_bytes(w: Which) -> &'static [u8]
    ensures { result.now ≡ read_text w }
{
    match w {
        Which::GraphFile => b"refused read graph\n",
        Which::ScriptFile => b"refused read script\n",
    }
}

/// The line `refused read graph` or `refused read script`: the file could not be read. Fails only if memory runs out.
pub fn read_line(alloc: Global, w: Which) -> Result<Vec<u8>, AllocError>
    ensures { IfOk result (λ text. text.items ≡ read_text w) }
{
    Vec::from_slice(alloc, read_bytes(w))
}

// The text of `long_line`.
fn long_bytes(w: Which) -> &'static [u8]
    ensures { result.now ≡ long_text w }
{
    match w {
        Which::GraphFile => b"refused long graph\n",
        Which::ScriptFile => b"refused long script\n",
    }
}

/// The line `refused long graph` or `refused long script`: the file is past its limit. Fails only if memory runs out.
pub fn long_line(alloc: Global, w: Which) -> Result<Vec<u8>, AllocError>
    ensures { IfOk result (λ text. text.items ≡ long_text w) }
{
    Vec::from_slice(alloc, long_bytes(w))
}

/// The line `refused gml bad AT` or `refused gml end AT`: the bytes are not a document. The fault is not out of
/// memory. Fails only if memory runs out.
pub fn gml_line(alloc: Global, f: &GmlFault) -> Result<Vec<u8>, AllocError>
    requires { f.now ≢ GmlFault.Memory }
    ensures { IfOk result (λ text. text.items ≡ gml_text f.now) }
{
    match f {
        GmlFault::Bad(at) => refused(alloc, b"gml bad", *at as u128),
        GmlFault::End(at) => refused(alloc, b"gml end", *at as u128),
        GmlFault::Memory => unreachable!(),
    }
}

/// The line `refused graph ..`: the document has no graph, by the rule that refuses it. The fault is not out of memory. Fails
/// only if memory runs out.
pub fn rule_line(alloc: Global, f: &GraphFault) -> Result<Vec<u8>, AllocError>
    requires { f.now ≢ GraphFault.Memory }
    ensures { IfOk result (λ text. text.items ≡ rule_text f.now) }
{
    match f {
        GraphFault::NoGraph => Vec::from_slice(alloc, b"refused graph none\n"),
        GraphFault::MoreGraphs => Vec::from_slice(alloc, b"refused graph more\n"),
        GraphFault::TooManyVertices(n) => refused(alloc, b"graph vertices", *n as u128),
        GraphFault::TooManyEdges(m) => refused(alloc, b"graph edges", *m as u128),
        GraphFault::NodeNoId(k) => refused(alloc, b"graph node-no-id", u128::from(*k)),
        GraphFault::NodeBadId(k) => refused(alloc, b"graph node-bad-id", u128::from(*k)),
        GraphFault::SameId(k) => refused(alloc, b"graph same-id", u128::from(*k)),
        GraphFault::EdgeNoEnd(k) => refused(alloc, b"graph edge-no-end", u128::from(*k)),
        GraphFault::EdgeBadEnd(k) => refused(alloc, b"graph edge-bad-end", u128::from(*k)),
        GraphFault::UnknownEnd(k) => refused(alloc, b"graph unknown-end", u128::from(*k)),
        GraphFault::Loop(k) => refused(alloc, b"graph loop", u128::from(*k)),
        GraphFault::StartVertex(v) => refused(alloc, b"graph start-vertex", u128::from(*v)),
        GraphFault::Memory => unreachable!(),
    }
}

// The line of a refusal with a number.
fn refused(alloc: Global, rule: &[u8], n: u128) -> Result<Vec<u8>, AllocError>
    ensures { IfOk result (λ text. text.items ≡ codes "refused " ++ rule.now ++ codes " "
        ++ decimal n ++ codes "\n") }
{
    let mut out = Vec::from_slice(alloc, b"refused ")?;
    push_word(&mut out, rule)?;
    push_word(&mut out, b" ")?;
    push_number(&mut out, n)?;
    push_word(&mut out, b"\n")?;
    Ok(out)
}

/// The line `refused graph start-genus B V E F`: block `b` is planar, and the rotation system at which the file starts it has `v`
/// vertices, `e` edges and `f` faces, and is not plane. Fails only if memory runs out.
pub fn start_genus_line(
    alloc: Global,
    b: u32,
    v: u32,
    e: u32,
    f: u32,
) -> Result<Vec<u8>, AllocError>
    ensures { IfOk result (λ text. text.items ≡ start_genus_text b v e f) }
{
    let mut out = Vec::from_slice(alloc, b"refused graph start-genus")?;
    push_spaced(&mut out, &[b, v, e, f])?;
    push_word(&mut out, b"\n")?;
    Ok(out)
}

/// The line `refused script line L`: the line is not a command. Lines are counted from 1. Fails only if memory runs out.
pub fn script_line(alloc: Global, line: u32) -> Result<Vec<u8>, AllocError>
    ensures { IfOk result (λ text. text.items ≡ script_text line) }
{
    refused(alloc, b"script line", u128::from(line))
}

// The text of `usage_line`.
fn usage_bytes() -> &'static [u8]
    ensures { result.now ≡ usage_text }
{
    b"usage: spqr run GRAPH SCRIPT | spqr make N SEED\n"
}

/// How the program is called, in one line. Fails only if memory runs out.
pub fn usage_line(alloc: Global) -> Result<Vec<u8>, AllocError>
    ensures { IfOk result (λ text. text.items ≡ usage_text) }
{
    Vec::from_slice(alloc, usage_bytes())
}
