// Worked rows: nodes with texts, and the start that they give or the fault that refuses it.
ghost use Rattle.std.specs.Prelude.{◌<◌};

use crate::document_graphs::graph_of_text;
use gml_graph::{GraphFault, Named};
use std::alloc::Global;
use std::test::Fail;

// The graph of four nodes with these texts, with the edges 0 and 1 between the first two, and edge 2 between the second and the
// third.
fn graph_with(alloc: Global, texts: [&str; 4]) -> Result<Named, GraphFault> {
    let [a, b, c, d] = texts;
    let text = format!(in alloc;
        "graph [ node [ id 0 spqrRotation \"{a}\" ] node [ id 1 spqrRotation \"{b}\" ] node [ id 2 spqrRotation \"{c}\" ] node [ id 3 spqrRotation \"{d}\" ] edge [ source 0 target 1 ] edge [ source 1 target 0 ] edge [ source 1 target 2 ] ]"
    )?;
    graph_of_text(alloc, text.as_str())
}

// Whether there is a start that gives a vertex these edges.
fn gives(named: &Named, v: u32, edges: &[u32]) -> bool
    requires { v < named.now.graph.vertex_count }
{
    match named.start(v) {
        Some(given) => given == edges,
        None => false,
    }
}

// Texts that spell the edges 1 0, 2 0 1, 2 and none.
static TAKEN: [[&str; 4]; 4] = [
    ["1 0", "2 0 1", "2", ""],
    ["01 0000", "2 0 1", "00000000000000000000002", " "],
    ["\t1\n0\r", "2\x0b0\x0c1", " 2  ", "\r\n"],
    [
        "\t\n\x0b\x0c\r 1\t\n\x0b\x0c\r 0",
        "2 0 1",
        "2",
        "\t\n\x0b\x0c\r ",
    ],
];

// Texts that are refused, each with the first vertex that is.
static REFUSED: [([&str; 4], u32); 14] = [
    (["1 0", "2 0 0", "2", ""], 1),
    (["1 0", "2 0 1", "0", ""], 2),
    (["1 0", "2 0 1", "2", "0"], 3),
    (["1", "2 0 1", "2", ""], 0),
    (["1 0 2", "2 0 1", "2", ""], 0),
    (["", "2 0 0", "x", "x"], 0),
    (["1 0", "2 0 4294967295", "2", ""], 1),
    (["1 4294967296", "2 0 1", "2", ""], 0),
    (["1 0", "2 0 1", "18446744073709551618", ""], 2),
    (["1 0", "2 0 -1", "2", ""], 1),
    (["+1 0", "2 0 1", "2", ""], 0),
    (["1,0", "2 0 1", "2", ""], 0),
    (["1 0", "2 0 1", "2#", ""], 2),
    (["1 0", "2 0 1", "2", "\x08"], 3),
];

#[test]
fn texts_taken(rt: HostRuntime) -> Result<(), Fail> {
    for texts in TAKEN {
        let named = graph_with(rt.alloc(), texts)?;
        assert_eq!(rt; named.graph().vertex_count(), 4, "in {texts:?}");
        assert!(rt; gives(&named, 0, &[1, 0]), "in {texts:?}");
        assert!(rt; gives(&named, 1, &[2, 0, 1]), "in {texts:?}");
        assert!(rt; gives(&named, 2, &[2]), "in {texts:?}");
        assert!(rt; gives(&named, 3, &[]), "in {texts:?}");
    }
    Ok(())
}

#[test]
fn texts_refused(rt: HostRuntime) -> Result<(), Fail> {
    for (texts, v) in REFUSED {
        assert_eq!(rt;
            graph_with(rt.alloc(), texts).err(),
            Some(GraphFault::StartVertex(v)),
            "in {texts:?}"
        );
    }
    Ok(())
}

// Documents with one or two nodes, in which not each has a string under its first key.
static WITHOUT: [&str; 5] = [
    "graph [ node [ id 0 ] ]",
    "graph [ node [ id 0 spqrRotation \"x\" ] node [ id 1 ] ]",
    "graph [ node [ id 0 ] node [ id 1 spqrRotation \"7\" ] ]",
    "graph [ node [ id 0 spqrRotation 5 spqrRotation \"\" ] ]",
    "graph [ node [ id 0 spqrRotation [ ] spqrRotation \"\" ] ]",
];

#[test]
fn no_start(rt: HostRuntime) -> Result<(), Fail> {
    for text in WITHOUT {
        let named = graph_of_text(rt.alloc(), text)?;
        assert!(rt; 0 < named.graph().vertex_count());
        assert!(rt; named.start(0).is_none(), "in {text:?}");
    }
    Ok(())
}

#[test]
fn first_key_counts(rt: HostRuntime) -> Result<(), Fail> {
    let text = "graph [ node [ id 0 SpqrRotation \"x\" spqrRotation \"\" spqrRotation \"x\" ] ]";
    let named = graph_of_text(rt.alloc(), text)?;
    assert_eq!(rt; named.graph().vertex_count(), 1);
    assert!(rt; gives(&named, 0, &[]));
    Ok(())
}

#[test]
fn loop_before_start(rt: HostRuntime) -> Result<(), Fail> {
    let text = "graph [ node [ id 0 spqrRotation \"x\" ] edge [ source 0 target 0 ] ]";
    assert_eq!(rt;
        graph_of_text(rt.alloc(), text).err(),
        Some(GraphFault::Loop(0))
    );
    Ok(())
}
