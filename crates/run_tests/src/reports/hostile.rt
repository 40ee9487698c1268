// Runs on files that are made to mislead, and on the greatest ones.
use super::{K4, K4_HEAD, answer};
use spqr_run::status::Status;
use std::test::Fail;

// Graph files, with the status and the text of a run on each and an empty script.
static GRAPHS: [(&[u8], Status, &[u8]); 11] = [
    // Lists within lists, as deep as they may be.
    (
        b"a[a[a[a[a[a[a[a[a[a[a[a[a[a[a[a[a[a[a[a[a[a[a[a[a[a[a[a[a[a[a[a[]]]]]]]]]]]]]]]]]]]]]]]]]]]]]]]]",
        Status::GraphRefused,
        b"refused graph none\n",
    ),
    // A mark of byte order.
    (
        b"\xef\xbb\xbfgraph [ ]",
        Status::GmlRefused,
        b"refused gml bad 0\n",
    ),
    (b"graph [ ] graph 3", Status::Done, b"graph 0 0\n"),
    (
        b"graph [ ] graph [ ]",
        Status::GraphRefused,
        b"refused graph more\n",
    ),
    // The greatest id and one more, the least, and one id written in two ways.
    (
        b"graph [ node [ id 9223372036854775808 ] ]",
        Status::GraphRefused,
        b"refused graph node-bad-id 0\n",
    ),
    (
        b"graph [ node [ id -9223372036854775808 ] node [ id 9223372036854775807 ] ]",
        Status::Done,
        b"graph 2 0\nvertex 0 -9223372036854775808\nvertex 1 9223372036854775807\n",
    ),
    (
        b"graph [ node [ id 7 ] node [ id +007 ] ]",
        Status::GraphRefused,
        b"refused graph same-id 1\n",
    ),
    // Of two faults the first.
    (
        b"graph [ node [ ] edge [ ] ]",
        Status::GraphRefused,
        b"refused graph node-no-id 0\n",
    ),
    (
        b"graph [ node 5 edge [ source 0 ] ]",
        Status::GraphRefused,
        b"refused graph edge-no-end 0\n",
    ),
    (
        b"graph [ node [ id 0 ] edge [ source 0 target 0.0 ] ]",
        Status::GraphRefused,
        b"refused graph edge-bad-end 0\n",
    ),
    (
        b"graph [ node [ id 0 ] edge [ source 0 target 1 ] ]",
        Status::GraphRefused,
        b"refused graph unknown-end 0\n",
    ),
];

#[test]
fn graph_files_that_mislead(rt: HostRuntime) -> Result<(), Fail> {
    for (graph, status, text) in GRAPHS {
        let (found, written) = answer(rt.alloc(), (graph, b""), (&[], &[]), 1000)?;
        assert_eq!(rt; found, status);
        assert_eq!(rt; written.as_slice(), text);
    }
    Ok(())
}

const ONE_VERTEX: &[u8] = b"graph [ node [ id 0 ] ]";

#[test]
fn each_front_of_a_graph_file(rt: HostRuntime) -> Result<(), Fail> {
    let alloc = rt.alloc();
    for length in 0..24 {
        let (status, text) = match length {
            0 => (
                Status::GraphRefused,
                String::from_str(alloc, "refused graph none\n")?,
            ),
            23 => (
                Status::Done,
                String::from_str(alloc, "graph 1 0\nvertex 0 0\n")?,
            ),
            _ => (
                Status::GmlRefused,
                format!(in alloc; "refused gml end {length}\n")?,
            ),
        };
        let front = ONE_VERTEX.get(..length).unwrap_or(ONE_VERTEX);
        let (found, written) = answer(alloc, (front, b""), (&[], &[]), 1000)?;
        assert_eq!(rt; found, status);
        assert_eq!(rt; written.as_slice(), text.as_bytes());
    }
    Ok(())
}

// Scripts on K4, with the status of a run and its text, without the head where the status is that of a report.
static SCRIPTS: [(&[u8], Status, &[u8]); 11] = [
    (b"show 0000", Status::Done, SHOWN),
    (b"show 0\r\n", Status::Done, SHOWN),
    (b"show 4294967295", Status::Done, b"error 1\n"),
    (b"show 4294967296", Status::ScriptRefused, FIRST_LINE),
    (
        b"goto 0 340282366920938463463374607431768211455",
        Status::Done,
        b"error 11 2\n",
    ),
    (
        b"goto 0 340282366920938463463374607431768211456",
        Status::ScriptRefused,
        FIRST_LINE,
    ),
    (b"flip 0", Status::ScriptRefused, FIRST_LINE),
    (b"list 0 0", Status::ScriptRefused, FIRST_LINE),
    (b"euler 1: 0; 0: 1", Status::ScriptRefused, FIRST_LINE),
    (b"euler 0: 1;", Status::ScriptRefused, FIRST_LINE),
    (b"show 0 \t\n#\xff\n \n", Status::Done, SHOWN),
];

const SHOWN: &[u8] = b"rotation 0 | 0: 0 1 2; 1: 0 4 3; 2: 1 3 5; 3: 2 5 4\n";

const FIRST_LINE: &[u8] = b"refused script line 1\n";

#[test]
fn scripts_that_mislead(rt: HostRuntime) -> Result<(), Fail> {
    for (script, status, text) in SCRIPTS {
        let (found, written) = answer(rt.alloc(), (K4, script), (&[], &[]), 1000)?;
        let head = if status == Status::Done { K4_HEAD } else { b"" };
        assert_eq!(rt; found, status);
        assert!(rt; written.strip_prefix(head) == Some(text));
    }
    Ok(())
}

#[test]
fn limits_are_kept(rt: HostRuntime) -> Result<(), Fail> {
    let alloc = rt.alloc();
    let spaces = vec![in alloc; b' '; 16_777_217]?;
    let ends = vec![in alloc; b'\n'; 1_048_577]?;
    let mut nodes = Vec::from_slice(alloc, b"graph [ ")?;
    for _ in 0..20_001 {
        nodes.extend_from_slice(b"node [ ] ")?;
    }
    nodes.push(b']')?;
    let mut edges = Vec::from_slice(alloc, b"graph [ node [ id 0 ] node [ id 1 ] ")?;
    for _ in 0..50_001 {
        edges.extend_from_slice(b"edge [ source 0 target 1 ] ")?;
    }
    edges.push(b']')?;
    for (graph, script, status, text) in [
        (
            spaces.as_slice(),
            b"".as_slice(),
            Status::TooLong,
            b"refused long graph\n".as_slice(),
        ),
        (
            spaces.get(1..).unwrap_or(&spaces),
            b"",
            Status::GraphRefused,
            b"refused graph none\n",
        ),
        (K4, &ends, Status::TooLong, b"refused long script\n"),
        (K4, ends.get(1..).unwrap_or(&ends), Status::Done, K4_HEAD),
        (
            &nodes,
            b"",
            Status::GraphRefused,
            b"refused graph vertices 20001\n",
        ),
        (
            &edges,
            b"",
            Status::GraphRefused,
            b"refused graph edges 50001\n",
        ),
    ] {
        let (found, written) = answer(alloc, (graph, script), (&[], &[]), 1000)?;
        assert_eq!(rt; found, status);
        assert_eq!(rt; written.as_slice(), text);
    }
    Ok(())
}
