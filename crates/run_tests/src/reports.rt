// Worked runs, over devices in memory.
ghost use Rattle.std.specs.Prelude.{◌<◌};

mod commands;
mod devices;
mod hostile;
mod rows;
mod starts;
mod whole;
mod whole_graphs;
mod whole_history;

use spqr_edge::{MemFile, MemShelf, MemSink};
use spqr_run::run::run;
use spqr_run::status::Status;
use std::alloc::{AllocError, Global};
use std::test::Fail;

const K4: &[u8] = b"graph [ node [ id 0 ] node [ id 1 ] node [ id 2 ] node [ id 3 ] \
    edge [ source 0 target 1 ] edge [ source 0 target 2 ] edge [ source 0 target 3 ] \
    edge [ source 1 target 2 ] edge [ source 1 target 3 ] edge [ source 2 target 3 ] ]";

const K4_PLANE: &[u8] = b"euler 0: 0 1 2; 1: 0 4 3; 2: 1 3 5; 3: 2 5 4\n";

const K4_REPORT: &[u8] =
    b"graph 4 6\nvertex 0 0\nvertex 1 1\nvertex 2 2\nvertex 3 3\nblock 0: 0 1 2 3 4 5\n\
    node 0 R 0 1 2 3 | 0:0-1 1:0-2 2:0-3 3:1-2 4:1-3 5:2-3\n\
    planar 0\neuler 4 6 4 1 plane\n";

const K4_HEAD: &[u8] =
    b"graph 4 6\nvertex 0 0\nvertex 1 1\nvertex 2 2\nvertex 3 3\nblock 0: 0 1 2 3 4 5\n\
    node 0 R 0 1 2 3 | 0:0-1 1:0-2 2:0-3 3:1-2 4:1-3 5:2-3\nplanar 0\n";

// The words of a line, which are parted by single spaces.
fn words_of(alloc: Global, line: &str) -> Result<Vec<String>, AllocError> {
    let mut words = Vec::new(alloc);
    for word in line.split(' ') {
        words.push(String::from_str(alloc, word)?)?;
    }
    Ok(words)
}

// What a run on the files `g` and `s` returns and writes. Calls of these numbers fail.
fn answer(
    alloc: Global,
    files: (&[u8], &[u8]),
    failing: (&[u64], &[u64]),
    piece: usize,
) -> Result<(Status, Vec<u8>), Fail>
    requires { 0 < piece }
{
    let words = words_of(alloc, "run g s")?;
    let held = [
        MemFile {
            name: "g",
            bytes: files.0,
        },
        MemFile {
            name: "s",
            bytes: files.1,
        },
    ];
    let mut shelf = MemShelf::new(&held, failing.0);
    let mut sink = MemSink::new(alloc, failing.1, piece);
    let status = run(alloc, &words, &mut shelf, &mut sink);
    Ok((status, sink.bytes().to_vec(alloc)?))
}

// Graphs and scripts, with the status and the report of a run on them.
static RUNS: [(&[u8], &[u8], Status, &[u8]); 17] = [
    (b"graph [ ]", b"", Status::Done, b"graph 0 0\n"),
    (
        b"graph [ ]",
        b"euler",
        Status::Done,
        b"graph 0 0\neuler 0 0 0 0 plane\n",
    ),
    (K4, K4_PLANE, Status::Done, K4_REPORT),
    (
        K4,
        b"show 0\nfaces 0\neuler 0: 0",
        Status::Done,
        b"graph 4 6\nvertex 0 0\nvertex 1 1\nvertex 2 2\nvertex 3 3\n\
        block 0: 0 1 2 3 4 5\nnode 0 R 0 1 2 3 | 0:0-1 1:0-2 2:0-3 3:1-2 4:1-3 5:2-3\n\
        planar 0\nrotation 0 | 0: 0 1 2; 1: 0 4 3; 2: 1 3 5; 3: 2 5 4\nfaces 0 4\nface 0-0 1-4 3-2\n\
        face 0-1 2-3 1-0\nface 0-2 3-5 2-1\nface 1-3 2-5 3-4\nerror 6 0\n",
    ),
    (TAIL, TAIL_SCRIPT, Status::Done, TAIL_REPORT),
    (
        K33_TRIANGLE,
        b"show 1\nshow 0\nfaces 0\nshow 2",
        Status::Done,
        K33_TRIANGLE_REPORT,
    ),
    (MANY_KINDS, b"gml", Status::Done, MANY_KINDS_REPORT),
    (
        b"graph [ node [ id 0 ] node [ id 1 ] node [ id 2 ] edge [ source 0 target 1 ] \
        edge [ source 1 target 2 ] edge [ source 2 target 2 ] ]",
        b"",
        Status::GraphRefused,
        b"refused graph loop 2\n",
    ),
    (
        b"graph [ node [ id 0",
        b"",
        Status::GmlRefused,
        b"refused gml end 19\n",
    ),
    (b"x 12a", b"", Status::GmlRefused, b"refused gml bad 4\n"),
    (
        b"a[a[a[a[a[a[a[a[a[a[a[a[a[a[a[a[a[a[a[a[a[a[a[a[a[a[a[a[a[a[a[a[a[",
        b"",
        Status::GmlRefused,
        b"refused gml bad 65\n",
    ),
    (
        b"graph [ node [ ] ]",
        b"",
        Status::GraphRefused,
        b"refused graph node-no-id 0\n",
    ),
    (
        b"graph [ node [ id 3 ] node [ id 3 ] ]",
        b"",
        Status::GraphRefused,
        b"refused graph same-id 1\n",
    ),
    (b"a 1", b"", Status::GraphRefused, b"refused graph none\n"),
    (
        K4,
        b"# c\nlist 0 10001\n",
        Status::ScriptRefused,
        b"refused script line 2\n",
    ),
    (
        K4,
        b"shwo 0",
        Status::ScriptRefused,
        b"refused script line 1\n",
    ),
    (
        b"a b",
        b"shwo 0",
        Status::GmlRefused,
        b"refused gml bad 2\n",
    ),
];

#[test]
fn reports_and_refusals(rt: HostRuntime) -> Result<(), Fail> {
    for (graph, script, status, text) in RUNS {
        let (found, written) = answer(rt.alloc(), (graph, script), (&[], &[]), 1000)?;
        assert_eq!(rt; found, status);
        assert_eq!(rt; written.as_slice(), text);
    }
    Ok(())
}

// Two triangles, a tail and a lone vertex.
const TAIL: &[u8] =
    b"graph [ node [ id 0 ] node [ id 1 ] node [ id 2 ] node [ id 3 ] node [ id 4 ] \
    node [ id 5 ] node [ id 6 ] edge [ source 0 target 1 ] edge [ source 1 target 2 ] \
    edge [ source 0 target 2 ] edge [ source 0 target 3 ] edge [ source 3 target 4 ] \
    edge [ source 0 target 4 ] edge [ source 4 target 5 ] ]";

const TAIL_SCRIPT: &[u8] = b"euler 0: 0 2 3 5; 1: 0 1; 2: 1 2; 3: 3 4; 4: 4 5 6; 5: 6\n\
    euler 0: 0 3 2 5; 1: 0 1; 2: 1 2; 3: 3 4; 4: 4 5 6; 5: 6\n";

const TAIL_REPORT: &[u8] =
    b"graph 7 7\nvertex 0 0\nvertex 1 1\nvertex 2 2\nvertex 3 3\nvertex 4 4\n\
    vertex 5 5\nvertex 6 6\ncut 0\ncut 4\nblock 0: 0 1 2\n\
    node 0 S 0 1 2 | 0:0-1 1:1-2 2:0-2\nplanar 0\nblock 1: 3 4 5\nnode 0 S 0 3 4 | 3:0-3 4:3-4 5:0-4\n\
    planar 1\nblock 2: 6\nnode 0 B 4 5 | 6:4-5\nplanar 2\neuler 7 7 4 2 plane\neuler 7 7 2 2 not-plane\n";

// K3,3 and a triangle at its vertex 5.
const K33_TRIANGLE: &[u8] =
    b"graph [ node [ id 0 ] node [ id 1 ] node [ id 2 ] node [ id 3 ] node [ id 4 ] \
    node [ id 5 ] node [ id 6 ] node [ id 7 ] edge [ source 0 target 3 ] \
    edge [ source 0 target 4 ] edge [ source 0 target 5 ] edge [ source 1 target 3 ] \
    edge [ source 1 target 4 ] edge [ source 1 target 5 ] edge [ source 2 target 3 ] \
    edge [ source 2 target 4 ] edge [ source 2 target 5 ] edge [ source 5 target 6 ] \
    edge [ source 6 target 7 ] edge [ source 5 target 7 ] ]";

const K33_TRIANGLE_REPORT: &[u8] =
    b"graph 8 12\nvertex 0 0\nvertex 1 1\nvertex 2 2\nvertex 3 3\nvertex 4 4\nvertex 5 5\n\
    vertex 6 6\nvertex 7 7\ncut 5\nblock 0: 0 1 2 3 4 5 6 7 8\n\
    node 0 R 0 1 2 3 4 5 | 0:0-3 1:0-4 2:0-5 3:1-3 4:1-4 5:1-5 6:2-3 7:2-4 8:2-5\n\
    nonplanar 0 K33 0 1 2 3 4 5\npath 0 3: 0\npath 0 4: 1\npath 0 5: 2\npath 1 3: 3\npath 1 4: 4\n\
    path 1 5: 5\npath 2 3: 6\npath 2 4: 7\npath 2 5: 8\n\
    block 1: 9 10 11\nnode 0 S 5 6 7 | 9:5-6 10:6-7 11:5-7\nplanar 1\n\
    rotation 1 | 5: 9 11; 6: 9 10; 7: 10 11\nerror 5\nerror 5\nerror 1\n";

// A file of many kinds, and its document written back.
const MANY_KINDS: &[u8] =
    b"# x\nCreator \"yFiles\" graph [ directed 1 node [ id 7 label \"\xc3\xa9 &amp; b\" \
    graphics [ x 1.5E+3 y -INF ] ] node [ id -2 ] edge [ source 7 target -2 w_2 .5 ] ]";

const MANY_KINDS_REPORT: &[u8] =
    b"graph 2 1\nvertex 0 7\nvertex 1 -2\nblock 0: 0\nnode 0 B 0 1 | 0:0-1\nplanar 0\n\
    gml 250\nCreator \"yFiles\"\ngraph [\n  \
    directed 1\n  node [\n    id 7\n    label \"\xc3\xa9 &amp; b\"\n    graphics [\n      x 1.5E+3\n      y -INF\n    \
    ]\n    spqrRotation \"0\"\n  ]\n  node [\n    id -2\n    spqrRotation \"0\"\n  ]\n  edge [\n    source 7\n    target -2\n    w_2 .5\n  ]\n]\n";

// Graphs of one block, scripts, and the reports.
static BLOCKS: [(&[u8], &[u8], &[u8]); 15] = [
    // One edge.
    (
        b"graph [ node [ id 0 ] node [ id 1 ] edge [ source 0 target 1 ] ]",
        b"show 0",
        b"graph 2 1\nvertex 0 0\nvertex 1 1\nblock 0: 0\nnode 0 B 0 1 | 0:0-1\nplanar 0\n\
        rotation 0 | 0: 0; 1: 0\n",
    ),
    // Two parallel edges.
    (
        b"graph [ node [ id 0 ] node [ id 1 ] edge [ source 0 target 1 ] edge [ source 0 target 1 ] ]",
        b"show 0",
        b"graph 2 2\nvertex 0 0\nvertex 1 1\nblock 0: 0 1\nnode 0 B 0 1 | 0:0-1 1:0-1\n\
        planar 0\nrotation 0 | 0: 0 1; 1: 0 1\n",
    ),
    // Three parallel edges.
    (
        b"graph [ node [ id 0 ] node [ id 1 ] edge [ source 0 target 1 ] edge [ source 0 target 1 ] edge [ \
        source 0 target 1 ] ]",
        b"show 0",
        b"graph 2 3\nvertex 0 0\nvertex 1 1\nblock 0: 0 1 2\nnode 0 P 0 1 | 0:0-1 1:0-1 2:0-1\n\
        planar 0\nrotation 0 | 0: 0 1 2; 1: 0 2 1\n",
    ),
    // A square with a chord.
    (
        b"graph [ node [ id 0 ] node [ id 1 ] node [ id 2 ] node [ id 3 ] edge [ source 0 target 1 ] edge \
        [ source 1 target 2 ] edge [ source 2 target 3 ] edge [ source 3 target 0 ] edge [ source 0 \
        target 2 ] ]",
        b"show 0",
        b"graph 4 5\nvertex 0 0\nvertex 1 1\nvertex 2 2\nvertex 3 3\nblock 0: 0 1 2 3 4\n\
        node 0 S 0 1 2 | 0:0-1 1:1-2 2:0-2@1\nnode 1 P 0 2 | 0:0-2@0 2:0-2@2 4:0-2\n\
        node 2 S 0 2 3 | 0:0-2@1 2:2-3 3:0-3\n\
        planar 0\nrotation 0 | 0: 0 3 4; 1: 0 1; 2: 1 4 2; 3: 2 3\n",
    ),
    // K2,3.
    (
        b"graph [ node [ id 0 ] node [ id 1 ] node [ id 2 ] node [ id 3 ] node [ id 4 ] edge [ source 0 \
        target 2 ] edge [ source 1 target 2 ] edge [ source 0 target 3 ] edge [ source 1 target 3 ] edge \
        [ source 0 target 4 ] edge [ source 1 target 4 ] ]",
        b"",
        b"graph 5 6\nvertex 0 0\nvertex 1 1\nvertex 2 2\nvertex 3 3\nvertex 4 4\nblock 0: 0 1 2 3 4 5\n\
        node 0 P 0 1 | 0:0-1@1 2:0-1@2 4:0-1@3\nnode 1 S 0 1 2 | 0:0-2 1:1-2 2:0-1@0\n\
        node 2 S 0 1 3 | 0:0-1@0 2:0-3 3:1-3\nnode 3 S 0 1 4 | 0:0-1@0 4:0-4 5:1-4\n\
        planar 0\n",
    ),
    // A pentagon.
    (
        b"graph [ node [ id 0 ] node [ id 1 ] node [ id 2 ] node [ id 3 ] node [ id 4 ] edge [ source 0 \
        target 1 ] edge [ source 1 target 2 ] edge [ source 2 target 3 ] edge [ source 3 target 4 ] edge \
        [ source 4 target 0 ] ]",
        b"",
        b"graph 5 5\nvertex 0 0\nvertex 1 1\nvertex 2 2\nvertex 3 3\nvertex 4 4\nblock 0: 0 1 2 3 4\n\
        node 0 S 0 1 2 3 4 | 0:0-1 1:1-2 2:2-3 3:3-4 4:0-4\n\
        planar 0\n",
    ),
    // K5.
    (
        b"graph [ node [ id 0 ] node [ id 1 ] node [ id 2 ] node [ id 3 ] node [ id 4 ] edge [ source 0 \
        target 1 ] edge [ source 0 target 2 ] edge [ source 0 target 3 ] edge [ source 0 target 4 ] edge \
        [ source 1 target 2 ] edge [ source 1 target 3 ] edge [ source 1 target 4 ] edge [ source 2 \
        target 3 ] edge [ source 2 target 4 ] edge [ source 3 target 4 ] ]",
        b"show 0",
        b"graph 5 10\nvertex 0 0\nvertex 1 1\nvertex 2 2\nvertex 3 3\nvertex 4 4\n\
        block 0: 0 1 2 3 4 5 6 7 8 9\n\
        node 0 R 0 1 2 3 4 | 0:0-1 1:0-2 2:0-3 3:0-4 4:1-2 5:1-3 6:1-4 7:2-3 8:2-4 9:3-4\n\
        nonplanar 0 K5 0 1 2 3 4\npath 0 1: 0\npath 0 2: 1\npath 0 3: 2\npath 0 4: 3\n\
        path 1 2: 4\npath 1 3: 5\npath 1 4: 6\npath 2 3: 7\npath 2 4: 8\npath 3 4: 9\nerror 5\n",
    ),
    // K3,3 with a subdivided edge.
    (
        b"graph [ node [ id 0 ] node [ id 1 ] node [ id 2 ] node [ id 3 ] node [ id 4 ] node [ id 5 ] node \
        [ id 6 ] edge [ source 0 target 3 ] edge [ source 0 target 4 ] edge [ source 0 target 5 ] edge [ \
        source 1 target 3 ] edge [ source 1 target 4 ] edge [ source 1 target 5 ] edge [ source 2 target \
        3 ] edge [ source 2 target 4 ] edge [ source 2 target 6 ] edge [ source 6 target 5 ] ]",
        b"",
        b"graph 7 10\nvertex 0 0\nvertex 1 1\nvertex 2 2\nvertex 3 3\nvertex 4 4\nvertex 5 5\n\
        vertex 6 6\nblock 0: 0 1 2 3 4 5 6 7 8 9\n\
        node 0 R 0 1 2 3 4 5 | 0:0-3 1:0-4 2:0-5 3:1-3 4:1-4 5:1-5 6:2-3 7:2-4 8:2-5@1\n\
        node 1 S 2 5 6 | 0:2-5@0 8:2-6 9:5-6\n\
        nonplanar 0 K33 0 1 2 3 4 5\npath 0 3: 0\npath 0 4: 1\npath 0 5: 2\n\
        path 1 3: 3\npath 1 4: 4\npath 1 5: 5\npath 2 3: 6\npath 2 4: 7\npath 2 5: 8 9\n",
    ),
    // Two K4 on an edge.
    (
        b"graph [ node [ id 0 ] node [ id 1 ] node [ id 2 ] node [ id 3 ] node [ id 4 ] node [ id 5 ] edge \
        [ source 0 target 1 ] edge [ source 0 target 2 ] edge [ source 0 target 3 ] edge [ source 1 \
        target 2 ] edge [ source 1 target 3 ] edge [ source 2 target 3 ] edge [ source 0 target 4 ] edge \
        [ source 0 target 5 ] edge [ source 1 target 4 ] edge [ source 1 target 5 ] edge [ source 4 \
        target 5 ] ]",
        b"show 0",
        b"graph 6 11\nvertex 0 0\nvertex 1 1\nvertex 2 2\nvertex 3 3\nvertex 4 4\nvertex 5 5\n\
        block 0: 0 1 2 3 4 5 6 7 8 9 10\nnode 0 P 0 1 | 0:0-1 1:0-1@1 6:0-1@2\n\
        node 1 R 0 1 2 3 | 0:0-1@0 1:0-2 2:0-3 3:1-2 4:1-3 5:2-3\n\
        node 2 R 0 1 4 5 | 0:0-1@0 6:0-4 7:0-5 8:1-4 9:1-5 10:4-5\n\
        planar 0\n\
        rotation 0 | 0: 0 1 2 6 7; 1: 0 9 8 4 3; 2: 1 3 5; 3: 2 5 4; 4: 6 8 10; 5: 7 10 9\n",
    ),
    // Two K4 without it.
    (
        b"graph [ node [ id 0 ] node [ id 1 ] node [ id 2 ] node [ id 3 ] node [ id 4 ] node [ id 5 ] edge \
        [ source 0 target 2 ] edge [ source 0 target 3 ] edge [ source 1 target 2 ] edge [ source 1 \
        target 3 ] edge [ source 2 target 3 ] edge [ source 0 target 4 ] edge [ source 0 target 5 ] edge \
        [ source 1 target 4 ] edge [ source 1 target 5 ] edge [ source 4 target 5 ] ]",
        b"show 0",
        b"graph 6 10\nvertex 0 0\nvertex 1 1\nvertex 2 2\nvertex 3 3\nvertex 4 4\nvertex 5 5\n\
        block 0: 0 1 2 3 4 5 6 7 8 9\nnode 0 R 0 1 2 3 | 0:0-2 1:0-3 2:1-2 3:1-3 4:2-3 5:0-1@1\n\
        node 1 R 0 1 4 5 | 0:0-1@0 5:0-4 6:0-5 7:1-4 8:1-5 9:4-5\n\
        planar 0\n\
        rotation 0 | 0: 0 1 5 6; 1: 2 8 7 3; 2: 0 2 4; 3: 1 4 3; 4: 5 7 9; 5: 6 9 8\n",
    ),
    // A triangle with a doubled edge.
    (
        b"graph [ node [ id 0 ] node [ id 1 ] node [ id 2 ] edge [ source 0 target 1 ] edge [ source 0 \
        target 1 ] edge [ source 1 target 2 ] edge [ source 2 target 0 ] ]",
        b"",
        b"graph 3 4\nvertex 0 0\nvertex 1 1\nvertex 2 2\nblock 0: 0 1 2 3\n\
        node 0 P 0 1 | 0:0-1 1:0-1 2:0-1@1\nnode 1 S 0 1 2 | 0:0-1@0 2:1-2 3:0-2\n\
        planar 0\n",
    ),
    // A triangle with all edges doubled.
    (
        b"graph [ node [ id 0 ] node [ id 1 ] node [ id 2 ] edge [ source 0 target 1 ] edge [ source 0 \
        target 1 ] edge [ source 1 target 2 ] edge [ source 1 target 2 ] edge [ source 2 target 0 ] edge \
        [ source 2 target 0 ] ]",
        b"",
        b"graph 3 6\nvertex 0 0\nvertex 1 1\nvertex 2 2\nblock 0: 0 1 2 3 4 5\n\
        node 0 P 0 1 | 0:0-1 1:0-1 2:0-1@1\nnode 1 S 0 1 2 | 0:0-1@0 2:1-2@3 4:0-2@2\n\
        node 2 P 0 2 | 0:0-2@1 4:0-2 5:0-2\nnode 3 P 1 2 | 0:1-2@1 2:1-2 3:1-2\n\
        planar 0\n",
    ),
    // A triangulated square with a doubled edge.
    (
        b"graph [ node [ id 0 ] node [ id 1 ] node [ id 2 ] node [ id 3 ] edge [ source 0 target 1 ] edge \
        [ source 1 target 2 ] edge [ source 2 target 3 ] edge [ source 3 target 0 ] edge [ source 0 \
        target 2 ] edge [ source 0 target 2 ] edge [ source 1 target 3 ] ]",
        b"",
        b"graph 4 7\nvertex 0 0\nvertex 1 1\nvertex 2 2\nvertex 3 3\nblock 0: 0 1 2 3 4 5 6\n\
        node 0 R 0 1 2 3 | 0:0-1 1:1-2 2:2-3 3:0-3 4:0-2@1 6:1-3\nnode 1 P 0 2 | 0:0-2@0 4:0-2 5:0-2\n\
        planar 0\n",
    ),
    // A bond with two polygons.
    (
        b"graph [ node [ id 0 ] node [ id 1 ] node [ id 2 ] node [ id 3 ] node [ id 4 ] edge [ source 0 \
        target 1 ] edge [ source 0 target 1 ] edge [ source 0 target 1 ] edge [ source 0 target 2 ] edge \
        [ source 2 target 1 ] edge [ source 0 target 3 ] edge [ source 3 target 4 ] edge [ source 4 \
        target 1 ] ]",
        b"",
        b"graph 5 8\nvertex 0 0\nvertex 1 1\nvertex 2 2\nvertex 3 3\nvertex 4 4\n\
        block 0: 0 1 2 3 4 5 6 7\nnode 0 P 0 1 | 0:0-1 1:0-1 2:0-1 3:0-1@1 5:0-1@2\n\
        node 1 S 0 1 2 | 0:0-1@0 3:0-2 4:1-2\nnode 2 S 0 1 3 4 | 0:0-1@0 5:0-3 6:3-4 7:1-4\n\
        planar 0\n",
    ),
    // Bundles between two triconnected sides.
    (
        b"graph [ node [ id 0 ] node [ id 1 ] node [ id 2 ] node [ id 3 ] node [ id 4 ] edge [ source 0 \
        target 1 ] edge [ source 0 target 2 ] edge [ source 0 target 3 ] edge [ source 1 target 4 ] edge \
        [ source 1 target 3 ] edge [ source 2 target 3 ] edge [ source 4 target 2 ] edge [ source 0 \
        target 2 ] edge [ source 4 target 2 ] ]",
        b"",
        b"graph 5 9\nvertex 0 0\nvertex 1 1\nvertex 2 2\nvertex 3 3\nvertex 4 4\n\
        block 0: 0 1 2 3 4 5 6 7 8\nnode 0 R 0 1 2 3 | 0:0-1 1:0-2@1 2:0-3 3:1-2@2 4:1-3 5:2-3\n\
        node 1 P 0 2 | 0:0-2@0 1:0-2 7:0-2\nnode 2 S 1 2 4 | 0:1-2@0 3:1-4 6:2-4@3\n\
        node 3 P 2 4 | 0:2-4@2 6:2-4 8:2-4\n\
        planar 0\n",
    ),
];

#[test]
fn blocks_and_their_embeddings(rt: HostRuntime) -> Result<(), Fail> {
    for (graph, script, report) in BLOCKS {
        let (found, written) = answer(rt.alloc(), (graph, script), (&[], &[]), 1000)?;
        assert_eq!(rt; found, Status::Done);
        assert_eq!(rt; written.as_slice(), report);
    }
    Ok(())
}

// Graphs with equal blocks, scripts, and the reports.
static EQUAL_BLOCKS: [(&[u8], &[u8], &[u8]); 3] = [
    // A path of three edges, one the other way around, and two parallel edges.
    (
        b"graph [ node [ id 0 ] node [ id 1 ] node [ id 2 ] node [ id 3 ] node [ id 4 ] edge [ source 0 \
        target 1 ] edge [ source 2 target 1 ] edge [ source 2 target 3 ] edge [ source 3 target 4 ] \
        edge [ source 3 target 4 ] ]",
        b"show 0\nshow 1\nshow 2\nshow 3\nwhole 0\n",
        b"graph 5 5\nvertex 0 0\nvertex 1 1\nvertex 2 2\nvertex 3 3\nvertex 4 4\ncut 1\ncut 2\ncut 3\n\
        block 0: 0\nnode 0 B 0 1 | 0:0-1\nplanar 0\nblock 1: 1\nnode 0 B 1 2 | 1:1-2\nplanar 1\nblock \
        2: 2\nnode 0 B 2 3 | 2:2-3\nplanar 2\nblock 3: 3 4\nnode 0 B 3 4 | 3:3-4 4:3-4\nplanar 3\n\
        rotation 0 | 0: 0; 1: 0\nrotation 1 | 1: 1; 2: 1\nrotation 2 | 2: 2; 3: 2\nrotation 3 | 3: 3 4; \
        4: 3 4\nwhole 0 | 0: 0; 1: 0 1; 2: 1 2; 3: 2 3 4; 4: 3 4\n",
    ),
    // Two K4 joined by an edge: a change of one is none of the other.
    (
        b"graph [ node [ id 0 ] node [ id 1 ] node [ id 2 ] node [ id 3 ] node [ id 4 ] node [ id 5 ] \
        node [ id 6 ] node [ id 7 ] edge [ source 0 target 1 ] edge [ source 0 target 2 ] edge [ source \
        0 target 3 ] edge [ source 1 target 2 ] edge [ source 1 target 3 ] edge [ source 2 target 3 ] \
        edge [ source 3 target 4 ] edge [ source 4 target 5 ] edge [ source 4 target 6 ] edge [ source \
        4 target 7 ] edge [ source 5 target 6 ] edge [ source 5 target 7 ] edge [ source 6 target 7 ] ]",
        b"flip 2 0\nshow 0\nshow 2\nundo\nshow 2\nlock 0 0\nmirror 2\nmirror 0\nrank 0\nrank 2\n",
        b"graph 8 13\nvertex 0 0\nvertex 1 1\nvertex 2 2\nvertex 3 3\nvertex 4 4\nvertex 5 5\nvertex 6 6\n\
        vertex 7 7\ncut 3\ncut 4\nblock 0: 0 1 2 3 4 5\nnode 0 R 0 1 2 3 | 0:0-1 1:0-2 2:0-3 3:1-2 \
        4:1-3 5:2-3\nplanar 0\nblock 1: 6\nnode 0 B 3 4 | 6:3-4\nplanar 1\nblock 2: 7 8 9 10 11 12\n\
        node 0 R 4 5 6 7 | 7:4-5 8:4-6 9:4-7 10:5-6 11:5-7 12:6-7\nplanar 2\nok\nrotation 0 | 0: 0 1 2; \
        1: 0 4 3; 2: 1 3 5; 3: 2 5 4\nrotation 2 | 4: 7 9 8; 5: 7 10 11; 6: 8 12 10; 7: 9 11 12\nok\n\
        rotation 2 | 4: 7 8 9; 5: 7 11 10; 6: 8 10 12; 7: 9 12 11\nok\nok\nerror 12 0\nrank 0\nrank 1\n",
    ),
    // Two K3,3 joined by an edge: each certificate has the numbers of its block.
    (
        b"graph [ node [ id 0 ] node [ id 1 ] node [ id 2 ] node [ id 3 ] node [ id 4 ] node [ id 5 ] \
        node [ id 6 ] node [ id 7 ] node [ id 8 ] node [ id 9 ] node [ id 10 ] node [ id 11 ] edge [ \
        source 0 target 3 ] edge [ source 0 target 4 ] edge [ source 0 target 5 ] edge [ source 1 \
        target 3 ] edge [ source 1 target 4 ] edge [ source 1 target 5 ] edge [ source 2 target 3 ] \
        edge [ source 2 target 4 ] edge [ source 2 target 5 ] edge [ source 5 target 6 ] edge [ source \
        6 target 9 ] edge [ source 6 target 10 ] edge [ source 6 target 11 ] edge [ source 7 target 9 ] \
        edge [ source 7 target 10 ] edge [ source 7 target 11 ] edge [ source 8 target 9 ] edge [ \
        source 8 target 10 ] edge [ source 8 target 11 ] ]",
        b"",
        b"graph 12 19\nvertex 0 0\nvertex 1 1\nvertex 2 2\nvertex 3 3\nvertex 4 4\nvertex 5 5\nvertex 6 \
        6\nvertex 7 7\nvertex 8 8\nvertex 9 9\nvertex 10 10\nvertex 11 11\ncut 5\ncut 6\nblock 0: 0 1 2 \
        3 4 5 6 7 8\nnode 0 R 0 1 2 3 4 5 | 0:0-3 1:0-4 2:0-5 3:1-3 4:1-4 5:1-5 6:2-3 7:2-4 8:2-5\n\
        nonplanar 0 K33 0 1 2 3 4 5\npath 0 3: 0\npath 0 4: 1\npath 0 5: 2\npath 1 3: 3\npath 1 4: 4\n\
        path 1 5: 5\npath 2 3: 6\npath 2 4: 7\npath 2 5: 8\nblock 1: 9\nnode 0 B 5 6 | 9:5-6\nplanar 1\n\
        block 2: 10 11 12 13 14 15 16 17 18\nnode 0 R 6 7 8 9 10 11 | 10:6-9 11:6-10 12:6-11 13:7-9 \
        14:7-10 15:7-11 16:8-9 17:8-10 18:8-11\nnonplanar 2 K33 6 7 8 9 10 11\npath 6 9: 10\npath 6 10: \
        11\npath 6 11: 12\npath 7 9: 13\npath 7 10: 14\npath 7 11: 15\npath 8 9: 16\npath 8 10: 17\n\
        path 8 11: 18\n",
    ),
];

#[test]
fn equal_blocks_have_their_own_numbers(rt: HostRuntime) -> Result<(), Fail> {
    for (graph, script, report) in EQUAL_BLOCKS {
        let (found, written) = answer(rt.alloc(), (graph, script), (&[], &[]), 1000)?;
        assert_eq!(rt; found, Status::Done);
        assert_eq!(rt; written.as_slice(), report);
    }
    Ok(())
}

#[test]
fn statuses_have_numbers(rt: HostRuntime) {
    for (status, number) in [
        (Status::Done, 0),
        (Status::Usage, 1),
        (Status::ReadFault, 2),
        (Status::TooLong, 3),
        (Status::GmlRefused, 4),
        (Status::GraphRefused, 5),
        (Status::ScriptRefused, 6),
        (Status::WriteFault, 7),
        (Status::Memory, 8),
    ] {
        assert_eq!(rt; status.number(), number);
    }
}

// What a run on the words of a line, over no files, returns and writes. Puts of these numbers fail.
fn answer_to(
    alloc: Global,
    line: &str,
    failing: &[u64],
    piece: usize,
) -> Result<(Status, Vec<u8>), Fail>
    requires { 0 < piece }
{
    let words = words_of(alloc, line)?;
    let mut shelf = MemShelf::new(&[], &[]);
    let mut sink = MemSink::new(alloc, failing, piece);
    let status = run(alloc, &words, &mut shelf, &mut sink);
    Ok((status, sink.bytes().to_vec(alloc)?))
}

const USAGE: &[u8] = b"usage: spqr run GRAPH SCRIPT | spqr make N SEED\n";

const K4_SUMMARY: &[u8] = b"made 4 6\nnodes S 0 P 0 R 1\ncount 2\nfirst 0: 0 1 2\nlast 0: 0 2 1\n";

// Words, with the status and the text of a run on them over no files.
static WORDS: [(&str, Status, &[u8]); 11] = [
    ("run a", Status::Usage, USAGE),
    ("run a b", Status::ReadFault, b"refused read graph\n"),
    ("run a -b", Status::Usage, USAGE),
    ("make 6 1", Status::Done, K4_SUMMARY),
    ("make 6 18446744073709551615", Status::Done, K4_SUMMARY),
    (
        "make 7 1",
        Status::Done,
        b"made 5 8\nnodes S 1 P 1 R 1\ncount 4\nfirst 0: 0 1 2\nlast 0: 0 2 1\n",
    ),
    ("make 5 1", Status::Usage, USAGE),
    ("make 20001 1", Status::Usage, USAGE),
    ("make 6 18446744073709551616", Status::Usage, USAGE),
    ("make 6 -1", Status::Usage, USAGE),
    ("make 6", Status::Usage, USAGE),
];

#[test]
fn words_and_their_texts(rt: HostRuntime) -> Result<(), Fail> {
    for (line, status, text) in WORDS {
        let (found, written) = answer_to(rt.alloc(), line, &[], 1000)?;
        assert_eq!(rt; found, status);
        assert_eq!(rt; written.as_slice(), text);
    }
    Ok(())
}
