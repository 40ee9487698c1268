// Texts that are put into the nodes of a document.

use gml_graph::{graph_of, write_marked};
use gml_text::read;
use std::alloc::{AllocError, Global};
use std::test::Fail;

// The texts of two vertices with an edge.
fn texts_of_an_edge(alloc: Global) -> Result<Vec<Vec<u8>>, AllocError> {
    let mut texts = Vec::new(alloc);
    texts.push(Vec::from_slice(alloc, b"0")?)?;
    texts.push(Vec::from_slice(alloc, b"0")?)?;
    Ok(texts)
}

#[test]
fn texts_are_put_into_nodes(rt: HostRuntime) -> Result<(), Fail> {
    let text =
        "graph [ node [ spqrRotation 5 id 0 spqrRotation \"x\" ] node 3 edge [ source 0 target 1 ] node [ id 1 a [ spqrRotation 2 ] ] ] graph 1";
    let expected =
        "graph [\n  node [\n    spqrRotation \"0\"\n    id 0\n    spqrRotation \"x\"\n  ]\n  node 3\n  edge [\n    source 0\n    target 1\n  ]\n  node [\n    id 1\n    a [\n      spqrRotation 2\n    ]\n    spqrRotation \"0\"\n  ]\n]\ngraph 1\n";
    let document = read(rt.alloc(), text.as_bytes())?;
    let texts = texts_of_an_edge(rt.alloc())?;
    let written = write_marked(rt.alloc(), &document, texts.as_slice(), 0)?;
    assert_eq!(rt; written.as_slice(), expected.as_bytes());
    let again = read(rt.alloc(), written.as_slice())?;
    let named = graph_of(rt.alloc(), &again)?;
    assert_eq!(rt; named.graph().vertex_count(), 2);
    assert_eq!(rt; named.start(1), Some([0].as_slice()));
    Ok(())
}
