// Rows of the format, and texts read and written again.

use gml_text::document::GmlFault;
use gml_text::reader::read;
use gml_text::writer::write;
use std::alloc::{AllocError, Global};
use std::test::Fail;

// What reading returns: a letter for each answer, and the place of a fault.
fn answer(alloc: Global, bytes: &[u8]) -> (char, usize) {
    match read(alloc, bytes) {
        Ok(_) => ('o', 0),
        Err(fault) => match fault {
            GmlFault::Bad(at) => ('b', at),
            GmlFault::End(at) => ('e', at),
            GmlFault::Memory => ('m', 0),
        },
    }
}

// Texts, each with what reading it returns.
static FAULTS: [(&[u8], (char, usize)); 45] = [
    (b"", ('o', 0)),
    (b"a", ('e', 1)),
    (b"a 1.5e", ('e', 6)),
    (b"a b", ('b', 2)),
    (b"a in", ('e', 4)),
    (b"a-1", ('b', 1)),
    (b"x 1[", ('b', 3)),
    (b"]", ('b', 0)),
    (b"a \"xy", ('e', 5)),
    (b"graph [ node [ id 0", ('e', 19)),
    (b"x 12a", ('b', 4)),
    (b"\xef\xbb\xbfa 1", ('b', 0)),
    (b"a .", ('e', 3)),
    (b"a 1.", ('o', 0)),
    (b"a .5", ('o', 0)),
    (b"a +.5e-3", ('o', 0)),
    (b"a 1e", ('e', 4)),
    (b"a inf", ('o', 0)),
    (b"x 1#c", ('o', 0)),
    (b"a 1#b 2\rc 3#d", ('o', 0)),
    (b"a\r1", ('o', 0)),
    (b"a \"\x80\xff\"#\xfe", ('o', 0)),
    (b"a \x80", ('b', 2)),
    (b"a1_Z 1", ('o', 0)),
    (b"_a 1", ('b', 0)),
    (b"1a 1", ('b', 0)),
    (b"a[]b[]", ('o', 0)),
    (b"a\"\"b\"\"", ('o', 0)),
    (b"a 1\"", ('b', 3)),
    (b"a -", ('e', 3)),
    (b"a --1", ('b', 3)),
    (b"a 1..", ('b', 4)),
    (b"a 1.e5", ('o', 0)),
    (b"a .e5", ('b', 3)),
    (b"a 1e+", ('e', 5)),
    (b"a -NaN", ('o', 0)),
    (b"a nano", ('b', 5)),
    (b"a no", ('b', 3)),
    (b"a [ ] ]", ('b', 6)),
    (b"a # b", ('e', 5)),
    (b"a #b\n1", ('o', 0)),
    (b"#", ('o', 0)),
    (b"a [", ('e', 3)),
    (b"a [ b ]", ('b', 6)),
    (b"a 1 2", ('b', 4)),
];

#[test]
fn faults_are_where_no_document_goes_on(rt: HostRuntime) -> Result<(), Fail> {
    for (bytes, expected) in FAULTS {
        assert_eq!(rt; answer(rt.alloc(), bytes), expected);
    }
    Ok(())
}

// A text within this many lists of the key `a`, which are closed.
fn nested(alloc: Global, lists: usize) -> Result<Vec<u8>, AllocError> {
    let mut text = Vec::new(alloc);
    for _ in 0..lists {
        text.extend_from_slice(b"a[")?;
    }
    for _ in 0..lists {
        text.push(b']')?;
    }
    Ok(text)
}

#[test]
fn long_and_deep_texts(rt: HostRuntime) -> Result<(), Fail> {
    let deep = nested(rt.alloc(), 32)?;
    assert_eq!(rt; answer(rt.alloc(), deep.as_slice()), ('o', 0));
    let deeper = nested(rt.alloc(), 33)?;
    assert_eq!(rt; answer(rt.alloc(), deeper.as_slice()), ('b', 65));
    let mut digits = Vec::new(rt.alloc());
    digits.extend_from_slice(b"a ")?;
    digits.resize(10_002, b'7')?;
    assert_eq!(rt; answer(rt.alloc(), digits.as_slice()), ('o', 0));
    digits.push(b'x')?;
    assert_eq!(rt; answer(rt.alloc(), digits.as_slice()), ('b', 10_002));
    Ok(())
}

#[test]
fn each_prefix_of_a_document(rt: HostRuntime) -> Result<(), Fail> {
    let text = b"k [ x -1.5 y \"z\" ] #c\nq 2";
    for n in 0..text.len() + 1 {
        let whole = n == 0 || n >= 18 && n < 23 || n == 25;
        let expected = if whole { ('o', 0) } else { ('e', n) };
        assert_eq!(rt; answer(rt.alloc(), &text[..n]), expected);
    }
    Ok(())
}

#[test]
fn each_front_of_a_graph(rt: HostRuntime) -> Result<(), Fail> {
    let text = b"graph [ node [ id 0 ] ]";
    assert_eq!(rt; text.len(), 23);
    for n in 0..24 {
        let expected = if n == 0 || n == 23 {
            ('o', 0)
        } else {
            ('e', n)
        };
        assert_eq!(rt; answer(rt.alloc(), &text[..n]), expected);
    }
    Ok(())
}

#[test]
fn a_byte_that_goes_on_no_front(rt: HostRuntime) -> Result<(), Fail> {
    let text = b"graph [ node [ id 0 ] ]";
    for n in 0..24 {
        let mut broken = Vec::from_slice(rt.alloc(), &text[..n])?;
        broken.push(b'\\')?;
        broken.extend_from_slice(&text[n..])?;
        assert_eq!(rt; answer(rt.alloc(), broken.as_slice()), ('b', n));
    }
    Ok(())
}

#[test]
fn what_is_read_is_written_in_the_layout(rt: HostRuntime) -> Result<(), Fail> {
    let text =
        "# x\nCreator \"yFiles\" graph [ directed 1 node [ id 7 label \"é &amp; b\" graphics [ x 1.5E+3 y -INF ] ] node [ id -2 ] edge [ source 7 target -2 w_2 .5 ] ]";
    let expected =
        "Creator \"yFiles\"\ngraph [\n  directed 1\n  node [\n    id 7\n    label \"é &amp; b\"\n    graphics [\n      x 1.5E+3\n      y -INF\n    ]\n  ]\n  node [\n    id -2\n  ]\n  edge [\n    source 7\n    target -2\n    w_2 .5\n  ]\n]\n";
    assert_eq!(rt; expected.len(), 208);
    let document = read(rt.alloc(), text.as_bytes())?;
    assert_eq!(rt; document.pairs().len(), 2);
    let written = write(rt.alloc(), &document)?;
    assert_eq!(rt; written.as_slice(), expected.as_bytes());
    let again = read(rt.alloc(), written.as_slice())?;
    assert_eq!(rt; write(rt.alloc(), &again)?.as_slice(), expected.as_bytes());
    let nothing = read(rt.alloc(), b"")?;
    assert_eq!(rt; write(rt.alloc(), &nothing)?.len(), 0);
    Ok(())
}
