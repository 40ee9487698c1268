// Each device at a few calls, some of which fail.
use spqr_edge::*;
use std::test::Fail;

const FILES: [MemFile<'static>; 2] = [
    MemFile {
        name: "a",
        bytes: b"xyz",
    },
    MemFile {
        name: "empty",
        bytes: b"",
    },
];

#[test]
fn shelf_in_memory_fails_when_told(rt: HostRuntime) -> Result<(), Fail> {
    let files = FILES;
    let mut shelf = MemShelf::new(&files, &[2]);
    let mut buf = [0; 2];
    assert_eq!(rt; shelf.open("a"), Ok(()));
    assert_eq!(rt; shelf.read(&mut buf), Ok(2));
    assert_eq!(rt; buf, *b"xy");
    assert_eq!(rt; shelf.read(&mut buf), Err(Failed));
    assert_eq!(rt; shelf.read(&mut buf), Ok(1));
    assert_eq!(rt; buf, *b"zy");
    assert_eq!(rt; shelf.read(&mut buf), Ok(0));
    assert_eq!(rt; shelf.open("b"), Err(Failed));
    assert_eq!(rt; shelf.open("empty"), Ok(()));
    assert_eq!(rt; shelf.read(&mut buf), Ok(0));
    Ok(())
}

#[test]
fn sure_shelf_never_fails(rt: HostRuntime) -> Result<(), Fail> {
    let files = FILES;
    let mut shelf = SureShelf::new(&files);
    let mut buf = [0; 4];
    assert_eq!(rt; shelf.open("b"), Ok(()));
    assert_eq!(rt; shelf.read(&mut buf), Ok(0));
    assert_eq!(rt; shelf.open("a"), Ok(()));
    assert_eq!(rt; shelf.read(&mut buf), Ok(3));
    assert_eq!(rt; buf, *b"xyz\0");
    Ok(())
}

#[test]
fn sink_in_memory_fails_when_told(rt: HostRuntime) -> Result<(), Fail> {
    let mut sink = MemSink::new(rt.alloc(), &[1], 2);
    assert_eq!(rt; sink.put(b"abc"), Ok(2));
    assert_eq!(rt; sink.put(b"c"), Err(Failed));
    assert_eq!(rt; sink.put(b"c"), Ok(1));
    assert_eq!(rt; sink.bytes(), b"abc".as_slice());
    Ok(())
}

#[test]
fn sure_sink_keeps_the_front(rt: HostRuntime) -> Result<(), Fail> {
    let mut sink = SureSink::new(Vec::with_capacity(rt.alloc(), 4)?);
    assert_eq!(rt; sink.put(b"abc"), Ok(3));
    assert_eq!(rt; sink.put(b"de"), Ok(2));
    assert_eq!(rt; sink.front(), b"abcd".as_slice());
    Ok(())
}

#[test]
fn real_files_are_read(rt: HostRuntime) -> Result<(), Fail> {
    let mut shelf = FileShelf::new(&rt);
    let mut buf = [1; 3];
    assert_eq!(rt; shelf.read(&mut buf), Ok(0));
    assert_eq!(rt; shelf.open("/dev/zero"), Ok(()));
    assert_eq!(rt; shelf.read(&mut buf), Ok(3));
    assert_eq!(rt; buf, [0; 3]);
    assert_eq!(rt; shelf.open("/dev/null/no such file"), Err(Failed));
    assert_eq!(rt; shelf.read(&mut buf), Ok(0));
    Ok(())
}

#[test]
fn standard_output_takes_bytes(rt: HostRuntime) -> Result<(), Fail> {
    let mut sink = OutSink::new(&rt);
    assert_eq!(rt; sink.put(b"xy"), Ok(2));
    Ok(())
}
