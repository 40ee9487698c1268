// Graph files that have a start, and files whose start is refused.
use super::{K4_HEAD, answer};
use spqr_run::status::Status;
use std::test::Fail;

// K4 with texts in its four nodes, or in the first three.
const K4_MIRRORED: &[u8] =
    b"graph [ node [ id 0 spqrRotation \"0 2 1\" ] node [ id 1 spqrRotation \"0 3 4\" ] \
    node [ id 2 spqrRotation \"1 5 3\" ] node [ id 3 spqrRotation \"2 4 5\" ] \
    edge [ source 0 target 1 ] edge [ source 0 target 2 ] edge [ source 0 target 3 ] \
    edge [ source 1 target 2 ] edge [ source 1 target 3 ] edge [ source 2 target 3 ] ]";

const K4_TURNED: &[u8] =
    b"graph [ node [ id 0 spqrRotation \" 02 1\t0\" ] node [ id 1 spqrRotation \"4 0 3\" ] \
    node [ id 2 spqrRotation \"5\n3 1\" ] node [ id 3 spqrRotation \"2 4 5 \" ] \
    edge [ source 0 target 1 ] edge [ source 0 target 2 ] edge [ source 0 target 3 ] \
    edge [ source 1 target 2 ] edge [ source 1 target 3 ] edge [ source 2 target 3 ] ]";

const K4_NOT_PLANE: &[u8] =
    b"graph [ node [ id 0 spqrRotation \"0 1 2\" ] node [ id 1 spqrRotation \"0 4 3\" ] \
    node [ id 2 spqrRotation \"1 3 5\" ] node [ id 3 spqrRotation \"2 4 5\" ] \
    edge [ source 0 target 1 ] edge [ source 0 target 2 ] edge [ source 0 target 3 ] \
    edge [ source 1 target 2 ] edge [ source 1 target 3 ] edge [ source 2 target 3 ] ]";

const K4_WITHOUT_AN_EDGE: &[u8] =
    b"graph [ node [ id 0 spqrRotation \"0 2 1\" ] node [ id 1 spqrRotation \"0 3 4\" ] \
    node [ id 2 spqrRotation \"1 5 3\" ] node [ id 3 spqrRotation \"2 5\" ] \
    edge [ source 0 target 1 ] edge [ source 0 target 2 ] edge [ source 0 target 3 ] \
    edge [ source 1 target 2 ] edge [ source 1 target 3 ] edge [ source 2 target 3 ] ]";

const K4_AT_THREE: &[u8] =
    b"graph [ node [ id 0 spqrRotation \"0 2 1\" ] node [ id 1 spqrRotation \"0 3 4\" ] \
    node [ id 2 spqrRotation \"1 5 3\" ] node [ id 3 ] \
    edge [ source 0 target 1 ] edge [ source 0 target 2 ] edge [ source 0 target 3 ] \
    edge [ source 1 target 2 ] edge [ source 1 target 3 ] edge [ source 2 target 3 ] ]";

// Two K4 at vertex 3. There the edges of the two blocks are mixed; the second block is not plane in the second file.
pub(crate) const TWO_K4: &[u8] =
    b"graph [ node [ id 0 spqrRotation \"1 2 0\" ] node [ id 1 spqrRotation \"0 4 3\" ] \
    node [ id 2 spqrRotation \"1 3 5\" ] node [ id 3 spqrRotation \"6 2 8 5 7 4\" ] \
    node [ id 4 spqrRotation \"6 9 10\" ] node [ id 5 spqrRotation \"7 11 9\" ] node [ id 6 spqrRotation \"8 10 11\" ] \
    edge [ source 0 target 1 ] edge [ source 0 target 2 ] edge [ source 0 target 3 ] \
    edge [ source 1 target 2 ] edge [ source 1 target 3 ] edge [ source 2 target 3 ] \
    edge [ source 3 target 4 ] edge [ source 3 target 5 ] edge [ source 3 target 6 ] \
    edge [ source 4 target 5 ] edge [ source 4 target 6 ] edge [ source 5 target 6 ] ]";

const TWO_K4_NOT_PLANE: &[u8] =
    b"graph [ node [ id 0 spqrRotation \"1 2 0\" ] node [ id 1 spqrRotation \"0 4 3\" ] \
    node [ id 2 spqrRotation \"1 3 5\" ] node [ id 3 spqrRotation \"6 2 8 5 7 4\" ] \
    node [ id 4 spqrRotation \"6 9 10\" ] node [ id 5 spqrRotation \"7 11 9\" ] node [ id 6 spqrRotation \"8 11 10\" ] \
    edge [ source 0 target 1 ] edge [ source 0 target 2 ] edge [ source 0 target 3 ] \
    edge [ source 1 target 2 ] edge [ source 1 target 3 ] edge [ source 2 target 3 ] \
    edge [ source 3 target 4 ] edge [ source 3 target 5 ] edge [ source 3 target 6 ] \
    edge [ source 4 target 5 ] edge [ source 4 target 6 ] edge [ source 5 target 6 ] ]";

const TWO_K4_REPORT: &[u8] =
    b"graph 7 12\nvertex 0 0\nvertex 1 1\nvertex 2 2\nvertex 3 3\nvertex 4 4\nvertex 5 5\nvertex 6 6\ncut 3\n\
    block 0: 0 1 2 3 4 5\nnode 0 R 0 1 2 3 | 0:0-1 1:0-2 2:0-3 3:1-2 4:1-3 5:2-3\nplanar 0\n\
    block 1: 6 7 8 9 10 11\nnode 0 R 3 4 5 6 | 6:3-4 7:3-5 8:3-6 9:4-5 10:4-6 11:5-6\nplanar 1\n\
    rotation 0 | 0: 0 1 2; 1: 0 4 3; 2: 1 3 5; 3: 2 5 4\nrank 0\n\
    rotation 1 | 3: 6 8 7; 4: 6 9 10; 5: 7 11 9; 6: 8 10 11\nrank 1\n";

// K3,3 in any order at its vertices, and a triangle at vertex 5.
const K33_TRIANGLE: &[u8] =
    b"graph [ node [ id 0 spqrRotation \"2 0 1\" ] node [ id 1 spqrRotation \"3 4 5\" ] \
    node [ id 2 spqrRotation \"8 7 6\" ] node [ id 3 spqrRotation \"0 6 3\" ] node [ id 4 spqrRotation \"1 4 7\" ] \
    node [ id 5 spqrRotation \"11 2 8 9 5\" ] node [ id 6 spqrRotation \"10 9\" ] node [ id 7 spqrRotation \"10 11\" ] \
    edge [ source 0 target 3 ] edge [ source 0 target 4 ] edge [ source 0 target 5 ] \
    edge [ source 1 target 3 ] edge [ source 1 target 4 ] edge [ source 1 target 5 ] \
    edge [ source 2 target 3 ] edge [ source 2 target 4 ] edge [ source 2 target 5 ] \
    edge [ source 5 target 6 ] edge [ source 6 target 7 ] edge [ source 5 target 7 ] ]";

// Graph files with scripts, and the answers after the head of K4.
static K4_STARTS: [(&[u8], &[u8], &[u8]); 5] = [
    (K4_MIRRORED, b"rank 0", b"rank 1\n"),
    (
        K4_MIRRORED,
        b"show 0\nmirror 0\nrank 0\nundo\nrank 0",
        b"rotation 0 | 0: 0 2 1; 1: 0 3 4; 2: 1 5 3; 3: 2 4 5\nok\nrank 0\nok\nrank 1\n",
    ),
    (K4_TURNED, b"rank 0", b"rank 1\n"),
    (K4_AT_THREE, b"rank 0", b"rank 0\n"),
    (K4_AT_THREE, b"flip 0 0\nrank 0", b"ok\nrank 1\n"),
];

#[test]
fn starts_of_k4(rt: HostRuntime) -> Result<(), Fail> {
    for (graph, script, answers) in K4_STARTS {
        let (found, written) = answer(rt.alloc(), (graph, script), (&[], &[]), 1000)?;
        assert_eq!(rt; found, Status::Done);
        assert_eq!(rt; written.get(..K4_HEAD.len()), Some(K4_HEAD));
        assert_eq!(rt; written.get(K4_HEAD.len()..), Some(answers));
    }
    Ok(())
}

// Graph files with scripts, the status and the text.
static STARTS: [(&[u8], &[u8], Status, &[u8]); 9] = [
    (
        K4_NOT_PLANE,
        b"",
        Status::GraphRefused,
        b"refused graph start-genus 0 4 6 2\n",
    ),
    (
        K4_WITHOUT_AN_EDGE,
        b"",
        Status::GraphRefused,
        b"refused graph start-vertex 3\n",
    ),
    // Before the script is read.
    (
        K4_NOT_PLANE,
        b"shwo 0",
        Status::GraphRefused,
        b"refused graph start-genus 0 4 6 2\n",
    ),
    (
        K4_WITHOUT_AN_EDGE,
        b"shwo 0",
        Status::GraphRefused,
        b"refused graph start-vertex 3\n",
    ),
    // After the rules of nodes and edges.
    (
        b"graph [ node [ id 0 spqrRotation \"x\" ] edge [ source 0 target 0 ] ]",
        b"",
        Status::GraphRefused,
        b"refused graph loop 0\n",
    ),
    (
        TWO_K4,
        b"show 0\nrank 0\nshow 1\nrank 1",
        Status::Done,
        TWO_K4_REPORT,
    ),
    (
        TWO_K4_NOT_PLANE,
        b"",
        Status::GraphRefused,
        b"refused graph start-genus 1 4 6 2\n",
    ),
    // No vertex, and one without edges.
    (b"graph [ ]", b"", Status::Done, b"graph 0 0\n"),
    (
        b"graph [ node [ id 0 spqrRotation \" \" ] ]",
        b"",
        Status::Done,
        b"graph 1 0\nvertex 0 0\n",
    ),
];

#[test]
fn starts_and_refusals(rt: HostRuntime) -> Result<(), Fail> {
    for (graph, script, status, text) in STARTS {
        let (found, written) = answer(rt.alloc(), (graph, script), (&[], &[]), 1000)?;
        assert_eq!(rt; found, status);
        assert_eq!(rt; written.as_slice(), text);
    }
    Ok(())
}

#[test]
fn start_beside_a_block_without_one(rt: HostRuntime) -> Result<(), Fail> {
    let (found, written) = answer(
        rt.alloc(),
        (K33_TRIANGLE, b"show 1\nshow 0"),
        (&[], &[]),
        1000,
    )?;
    let text = b"planar 1\nrotation 1 | 5: 9 11; 6: 9 10; 7: 10 11\nerror 5\n".as_slice();
    assert_eq!(rt; found, Status::Done);
    assert!(rt; written.as_slice().ends_with(text));
    Ok(())
}
