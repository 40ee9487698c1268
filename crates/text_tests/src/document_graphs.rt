// Worked rows: texts with their graph or their refusal.

use gml_graph::{GraphFault, Named, graph_of};
use gml_text::read;
use std::alloc::Global;
use std::test::Fail;

// The graph of a text that is a document.
pub(crate) fn graph_of_text(alloc: Global, text: &str) -> Result<Named, GraphFault> {
    match read(alloc, text.as_bytes()) {
        Ok(doc) => graph_of(alloc, &doc),
        Err(_) => Err(GraphFault::Memory),
    }
}

// Texts that have no graph, each with the fault that refuses it.
static REFUSED: [(&str, GraphFault); 18] = [
    ("a 1", GraphFault::NoGraph),
    ("graph 1 a [ graph [ ] ]", GraphFault::NoGraph),
    ("graph [ ] graph [ ]", GraphFault::MoreGraphs),
    ("graph [ node [ a 1 ] ]", GraphFault::NodeNoId(0)),
    (
        "graph [ node [ id 1 ] node [ id [ ] id 2 ] ]",
        GraphFault::NodeBadId(1),
    ),
    ("graph [ node [ id 7.0 ] ]", GraphFault::NodeBadId(0)),
    ("graph [ node [ id \"7\" id 7 ] ]", GraphFault::NodeBadId(0)),
    (
        "graph [ node [ id 9223372036854775808 ] ]",
        GraphFault::NodeBadId(0),
    ),
    (
        "graph [ node [ id -9223372036854775809 ] ]",
        GraphFault::NodeBadId(0),
    ),
    (
        "graph [ node [ id 3 ] node [ id 3 ] ]",
        GraphFault::SameId(1),
    ),
    (
        "graph [ node [ id 7 ] node [ id 1 ] node [ id +007 ] ]",
        GraphFault::SameId(2),
    ),
    (
        "graph [ node [ id -0 ] node [ id 0 ] node [ ] ]",
        GraphFault::SameId(1),
    ),
    ("graph [ edge [ ] node [ ] ]", GraphFault::NodeNoId(0)),
    (
        "graph [ node [ id 0 ] edge [ target [ ] ] ]",
        GraphFault::EdgeNoEnd(0),
    ),
    (
        "graph [ node [ id 0 ] edge [ target [ ] source 5 ] ]",
        GraphFault::EdgeBadEnd(0),
    ),
    (
        "graph [ node [ id 0 ] edge [ source \"0\" target 0 ] ]",
        GraphFault::EdgeBadEnd(0),
    ),
    (
        "graph [ node [ id 0 ] edge [ source 0 target 5 ] edge [ ] ]",
        GraphFault::UnknownEnd(0),
    ),
    (
        "graph [ node [ id 0 ] node [ id 1 ] node [ id 2 ] edge [ source 0 target 1 ] edge [ source 1 target 2 ] edge [ source 2 target 2 ] ]",
        GraphFault::Loop(2),
    ),
];

#[test]
fn refusals(rt: HostRuntime) -> Result<(), Fail> {
    for (text, fault) in REFUSED {
        assert_eq!(rt;
            graph_of_text(rt.alloc(), text).err(),
            Some(fault),
            "in {text:?}"
        );
    }
    Ok(())
}

#[test]
fn file_of_many_kinds(rt: HostRuntime) -> Result<(), Fail> {
    let text =
        "# x\nCreator \"yFiles\" graph [ directed 1 node [ id 7 label \"é &amp; b\" graphics [ x 1.5E+3 y -INF ] ] node [ id -2 ] edge [ source 7 target -2 w_2 .5 ] ]";
    let named = graph_of_text(rt.alloc(), text)?;
    assert_eq!(rt; named.graph().vertex_count(), 2);
    assert_eq!(rt; named.graph().edge_count(), 1);
    assert_eq!(rt; named.graph().ends(0), (0, 1));
    assert_eq!(rt; named.ids(), [7, -2].as_slice());
    assert_eq!(rt; named.vertex_of(-2), Some(1));
    assert_eq!(rt; named.vertex_of(8), None);
    Ok(())
}

#[test]
fn edges_before_nodes(rt: HostRuntime) -> Result<(), Fail> {
    let text =
        "a 1 graph [ edge [ source +7 target -2 source -2 ] node 3 node [ id 7 id 8 ] edge [ target 7 source -2 ] node [ a [ id 9 ] id -2 ] ] b [ graph [ ] ]";
    let named = graph_of_text(rt.alloc(), text)?;
    assert_eq!(rt; named.graph().edge_count(), 2);
    assert_eq!(rt; named.graph().ends(0), (0, 1));
    assert_eq!(rt; named.graph().ends(1), (1, 0));
    assert_eq!(rt; named.ids(), [7, -2].as_slice());
    Ok(())
}

#[test]
fn least_and_greatest_ids(rt: HostRuntime) -> Result<(), Fail> {
    let text = "graph [ node [ id -9223372036854775808 ] node [ id 009223372036854775807 ] ]";
    let named = graph_of_text(rt.alloc(), text)?;
    assert_eq!(rt; named.ids(), [i64::MIN, i64::MAX].as_slice());
    assert_eq!(rt; named.vertex_of(i64::MAX), Some(1));
    Ok(())
}
