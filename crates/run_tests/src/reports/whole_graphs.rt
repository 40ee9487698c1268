// Graphs of several blocks, and what sessions on them answer.
use super::answer;
use spqr_run::status::Status;
use std::alloc::Global;
use std::test::Fail;

// A graph, a script, and the answers to its commands.
pub(crate) type Session = (&'static [u8], &'static [u8], &'static [u8]);

// Whether on each row the report has these answers after the head, and nothing else.
pub(crate) fn are_answers(alloc: Global, rows: &[Session]) -> Result<bool, Fail> {
    for (graph, script, answers) in rows {
        let (_, head) = answer(alloc, (graph, b""), (&[], &[]), 1000)?;
        let (found, written) = answer(alloc, (graph, script), (&[], &[]), 1000)?;
        if found != Status::Done || written.strip_prefix(head.as_slice()) != Some(*answers) {
            return Ok(false);
        }
    }
    Ok(true)
}

// Three edges at vertex 0.
pub(crate) const STAR: &[u8] =
    b"graph [ node [ id 0 ] node [ id 1 ] node [ id 2 ] node [ id 3 ] edge [ source 0 target 1 ] \
    edge [ source 0 target 2 ] edge [ source 0 target 3 ] ]";

// The same; the texts put the edges at vertex 0 in the other order.
pub(crate) const STAR_WITH_START: &[u8] =
    b"graph [ node [ id 0 spqrRotation \"0 2 1\" ] node [ id 1 spqrRotation \"0\" ] \
    node [ id 2 spqrRotation \"1\" ] node [ id 3 spqrRotation \"2\" ] edge [ source 0 target 1 ] \
    edge [ source 0 target 2 ] edge [ source 0 target 3 ] ]";

// K4, and a triangle at its vertex 0.
pub(crate) const K4_TRIANGLE: &[u8] =
    b"graph [ node [ id 0 ] node [ id 1 ] node [ id 2 ] node [ id 3 ] node [ id 4 ] node [ id 5 ] \
    edge [ source 0 target 1 ] edge [ source 0 target 2 ] edge [ source 0 target 3 ] \
    edge [ source 1 target 2 ] edge [ source 1 target 3 ] edge [ source 2 target 3 ] \
    edge [ source 0 target 4 ] edge [ source 4 target 5 ] edge [ source 5 target 0 ] ]";

// K4, a triangle at its vertex 0, and an edge at the vertex 4 of the triangle.
pub(crate) const TWO_CUTS: &[u8] =
    b"graph [ node [ id 0 ] node [ id 1 ] node [ id 2 ] node [ id 3 ] node [ id 4 ] node [ id 5 ] \
    node [ id 6 ] edge [ source 0 target 1 ] edge [ source 0 target 2 ] \
    edge [ source 0 target 3 ] edge [ source 1 target 2 ] edge [ source 1 target 3 ] \
    edge [ source 2 target 3 ] edge [ source 0 target 4 ] edge [ source 4 target 5 ] \
    edge [ source 5 target 0 ] edge [ source 4 target 6 ] ]";

// Three parallel edges, and an edge at their vertex 1.
pub(crate) const BOND_TAIL: &[u8] =
    b"graph [ node [ id 0 ] node [ id 1 ] node [ id 2 ] edge [ source 0 target 1 ] \
    edge [ source 0 target 1 ] edge [ source 0 target 1 ] edge [ source 1 target 2 ] ]";

// Two K4 on an edge, without that edge, and an edge at vertex 0.
pub(crate) const TWO_NODES_TAIL: &[u8] =
    b"graph [ node [ id 0 ] node [ id 1 ] node [ id 2 ] node [ id 3 ] node [ id 4 ] node [ id 5 ] \
    node [ id 6 ] edge [ source 0 target 2 ] edge [ source 0 target 3 ] \
    edge [ source 1 target 2 ] edge [ source 1 target 3 ] edge [ source 2 target 3 ] \
    edge [ source 0 target 4 ] edge [ source 0 target 5 ] edge [ source 1 target 4 ] \
    edge [ source 1 target 5 ] edge [ source 4 target 5 ] edge [ source 0 target 6 ] ]";

// K4, and an edge at its vertex 0.
pub(crate) const K4_TAIL: &[u8] =
    b"graph [ node [ id 0 ] node [ id 1 ] node [ id 2 ] node [ id 3 ] node [ id 4 ] \
    edge [ source 0 target 1 ] edge [ source 0 target 2 ] edge [ source 0 target 3 ] \
    edge [ source 1 target 2 ] edge [ source 1 target 3 ] edge [ source 2 target 3 ] \
    edge [ source 0 target 4 ] ]";

// Two K4 at vertex 3.
pub(crate) const K4_TWICE: &[u8] =
    b"graph [ node [ id 0 ] node [ id 1 ] node [ id 2 ] node [ id 3 ] node [ id 4 ] node [ id 5 ] \
    node [ id 6 ] edge [ source 0 target 1 ] edge [ source 0 target 2 ] \
    edge [ source 0 target 3 ] edge [ source 1 target 2 ] edge [ source 1 target 3 ] \
    edge [ source 2 target 3 ] edge [ source 3 target 4 ] edge [ source 3 target 5 ] \
    edge [ source 3 target 6 ] edge [ source 4 target 5 ] edge [ source 4 target 6 ] \
    edge [ source 5 target 6 ] ]";

// Three triangles at vertex 0.
pub(crate) const TRIANGLES: &[u8] =
    b"graph [ node [ id 0 ] node [ id 1 ] node [ id 2 ] node [ id 3 ] node [ id 4 ] node [ id 5 ] \
    node [ id 6 ] edge [ source 0 target 1 ] edge [ source 1 target 2 ] \
    edge [ source 2 target 0 ] edge [ source 0 target 3 ] edge [ source 3 target 4 ] \
    edge [ source 4 target 0 ] edge [ source 0 target 5 ] edge [ source 5 target 6 ] \
    edge [ source 6 target 0 ] ]";

// Three edges at vertex 1, three at vertex 4, and the vertex 8 alone.
pub(crate) const TWO_STARS: &[u8] =
    b"graph [ node [ id 0 ] node [ id 1 ] node [ id 2 ] node [ id 3 ] node [ id 4 ] node [ id 5 ] \
    node [ id 6 ] node [ id 7 ] node [ id 8 ] edge [ source 1 target 0 ] \
    edge [ source 4 target 2 ] edge [ source 1 target 3 ] edge [ source 4 target 6 ] \
    edge [ source 1 target 5 ] edge [ source 4 target 7 ] ]";

// K3,3, and apart from it three edges at vertex 6.
pub(crate) const K33_STAR: &[u8] =
    b"graph [ node [ id 0 ] node [ id 1 ] node [ id 2 ] node [ id 3 ] node [ id 4 ] node [ id 5 ] \
    node [ id 6 ] node [ id 7 ] node [ id 8 ] node [ id 9 ] edge [ source 0 target 3 ] \
    edge [ source 0 target 4 ] edge [ source 0 target 5 ] edge [ source 1 target 3 ] \
    edge [ source 1 target 4 ] edge [ source 1 target 5 ] edge [ source 2 target 3 ] \
    edge [ source 2 target 4 ] edge [ source 2 target 5 ] edge [ source 6 target 7 ] \
    edge [ source 6 target 8 ] edge [ source 6 target 9 ] ]";
