// Runs over devices in memory of which one call after the other fails, and over devices that never fail.
ghost use Rattle.std.specs.Prelude.{◌<◌, None};

use super::{K4, K4_HEAD, K4_SUMMARY, answer, answer_to, words_of};
use spqr_edge::{Failed, MemFile, MemShelf, Sink, SureShelf, SureSink};
use spqr_run::run::run;
use spqr_run::status::Status;
use std::alloc::Global;
use std::test::Fail;

const SCRIPT: &[u8] = b"show 0\nfaces 0\n";

const SHOWN: &[u8] = b"rotation 0 | 0: 0 1 2; 1: 0 4 3; 2: 1 3 5; 3: 2 5 4\n";

const REPORT: &[u8] =
    b"graph 4 6\nvertex 0 0\nvertex 1 1\nvertex 2 2\nvertex 3 3\nblock 0: 0 1 2 3 4 5\n\
    node 0 R 0 1 2 3 | 0:0-1 1:0-2 2:0-3 3:1-2 4:1-3 5:2-3\nplanar 0\n\
    rotation 0 | 0: 0 1 2; 1: 0 4 3; 2: 1 3 5; 3: 2 5 4\nfaces 0 4\nface 0-0 1-4 3-2\n\
    face 0-1 2-3 1-0\nface 0-2 3-5 2-1\nface 1-3 2-5 3-4\n";

#[test]
fn each_call_of_the_shelf_fails(rt: HostRuntime) -> Result<(), Fail> {
    for (call, status, text) in [
        (0, Status::ReadFault, b"refused read graph\n".as_slice()),
        (1, Status::ReadFault, b"refused read graph\n"),
        (2, Status::ReadFault, b"refused read graph\n"),
        (3, Status::ReadFault, b"refused read script\n"),
        (4, Status::ReadFault, b"refused read script\n"),
        (5, Status::ReadFault, b"refused read script\n"),
        (6, Status::Done, REPORT),
    ] {
        let (found, written) = answer(rt.alloc(), (K4, SCRIPT), (&[call], &[]), 1000)?;
        assert_eq!(rt; found, status);
        assert_eq!(rt; written.as_slice(), text);
    }
    Ok(())
}

// Whether runs of which one put after the other fails end with status 7 and leave this many first bytes of the text, and one of
// which none fails writes the whole text and ends with this status.
fn each_put_fails(
    alloc: Global,
    files: (&[u8], &[u8]),
    piece: usize,
    fronts: &[usize],
    due: (Status, &[u8]),
) -> Result<bool, Fail>
    requires { 0 < piece }
{
    for (put, front) in fronts.iter().enumerate() {
        let (found, written) = answer(alloc, files, (&[], &[put as u64]), piece)?;
        if found != Status::WriteFault || due.1.get(..*front) != Some(written.as_slice()) {
            return Ok(false);
        }
    }
    let (found, written) = answer(alloc, files, (&[], &[fronts.len() as u64]), piece)?;
    Ok(found == due.0 && written.as_slice() == due.1)
}

#[test]
fn each_call_of_the_sink_fails(rt: HostRuntime) -> Result<(), Fail> {
    let alloc = rt.alloc();
    let texts = [0, K4_HEAD.len(), K4_HEAD.len() + SHOWN.len()];
    assert!(rt; each_put_fails(alloc, (K4, SCRIPT), 1000, &texts, (Status::Done, REPORT))?);
    for (script, status, text) in [
        (SCRIPT, Status::Done, REPORT),
        (b"shwo 0", Status::ScriptRefused, b"refused script line 1\n"),
    ] {
        let bytes: Vec<usize> = (0..text.len()).collect(alloc)?;
        assert!(rt; each_put_fails(alloc, (K4, script), 1, &bytes, (status, text))?);
    }
    let (found, written) = answer(alloc, (K4, SCRIPT), (&[0], &[0]), 1000)?;
    assert_eq!(rt; found, Status::WriteFault);
    assert_eq!(rt; written.as_slice(), b"".as_slice());
    for (call, status, text) in [
        (0, Status::WriteFault, b"".as_slice()),
        (4, Status::WriteFault, b"made"),
        (1000, Status::Done, K4_SUMMARY),
    ] {
        let (found, written) = answer_to(alloc, "make 6 1", &[call], 1)?;
        assert_eq!(rt; found, status);
        assert_eq!(rt; written.as_slice(), text);
    }
    Ok(())
}

// A sink whose put of this number, counted from 0, fails, and so do all after it. It counts its puts.
#[derive(Drop)]
struct Broken {
    first: u64,
    puts: u64,
    faults: u64,
}

impl Sink for Broken {
    ghost written = { λ s. None };

    ghost faults = { λ s. s.faults };

    fn put(&mut self, piece: &[u8]) -> Result<usize, Failed> {
        let fails = self.first <= self.puts;
        self.puts = self.puts.saturating_add(1);
        if fails {
            self.faults = self.faults.saturating_add(1);
            return Err(Failed);
        }
        Ok(piece.len())
    }
}

const FILES: [MemFile<'static>; 2] = [
    MemFile {
        name: "g",
        bytes: K4,
    },
    MemFile {
        name: "s",
        bytes: SCRIPT,
    },
];

#[test]
fn no_put_follows_a_failed_one(rt: HostRuntime) -> Result<(), Fail> {
    let alloc = rt.alloc();
    let held = FILES;
    for (first, status, puts) in [
        (0, Status::WriteFault, 1),
        (1, Status::WriteFault, 2),
        (2, Status::WriteFault, 3),
        (3, Status::Done, 3),
    ] {
        let mut shelf = MemShelf::new(&held, &[]);
        let mut sink = Broken {
            first,
            puts: 0,
            faults: 0,
        };
        assert_eq!(rt;
            run(alloc, &words_of(alloc, "run g s")?, &mut shelf, &mut sink),
            status
        );
        assert_eq!(rt; sink.puts, puts);
    }
    Ok(())
}

#[test]
fn devices_that_never_fail(rt: HostRuntime) -> Result<(), Fail> {
    let alloc = rt.alloc();
    let held = FILES;
    for (line, status, text) in [
        ("run g s", Status::Done, REPORT),
        ("run a s", Status::GraphRefused, b"refused graph none\n"),
        ("make 6 1", Status::Done, K4_SUMMARY),
    ] {
        let mut shelf = SureShelf::new(&held);
        let mut sink = SureSink::new(Vec::with_capacity(alloc, 1000)?);
        assert_eq!(rt;
            run(alloc, &words_of(alloc, line)?, &mut shelf, &mut sink),
            status
        );
        assert_eq!(rt; sink.front(), text);
    }
    Ok(())
}
