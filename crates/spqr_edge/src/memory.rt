// Devices in memory: some fail at chosen calls, some never do.
ghost use Rattle.std.specs.Prelude.{◌≡◌, ◌↔◌, ◌<◌, ◌≤◌, ◌+◌, ◌-◌, ◌++◌, ◌⊎◌, min, Ok, Some, None, IsTrue, IsSome, IsOk, IfOk, OnErr, MatchResult, Contains, length, vec_len, [], take as front};
ghost use Rattle.std.specs.Io.{ReadsAtMost, WritesAtMost};
ghost use Rattle.std.specs.Io.KnownBytes.{ReadConsumes, WriteAppends};
ghost use Rattle.std.specs.Option.{option_copied};
ghost use Rattle.std.specs.Vec.{vec_capacity};
ghost use Rattle.spqr_edge.specs.Device.{contents, counted, HasCause, Opens};
ghost use Rattle.spqr_edge.specs.Memory.{bytes_of, OpensWhereHeld, LacksRoom};

use crate::faults::Faults;
use crate::{Failed, Shelf, Sink};
use std::alloc::Global;

/// A file in memory: its name and its bytes.
#[derive(Clone, Copy)]
pub struct MemFile<'a> {
    pub name: &'a str,
    pub bytes: &'a [u8],
}

/// The bytes of the first file of this name.
fn held<'a>(files: &'a [MemFile<'a>], name: &str) -> Option<&'a [u8]>
    ensures { option_copied result ≡ bytes_of files.now name.now }
{
    files
        .iter()
        .find(|file| file.name == name)
        .map(|file| file.bytes)
}

/// Takes the first bytes of what is left into the buffer: as many as are left and fit.
fn take(left: &mut &[u8], buf: &mut [u8]) -> usize
    requires { 0 < length buf.old }
    ensures count { result ≤ length buf.new }
    ensures bytes { left.old.now ≡ front result buf.new ++ left.new.now }
    ensures end { result ≡ 0 → left.new.now ≡ [] }
{
    let taken = buf.len().min(left.len());
    let (first, rest) = left.split_at(taken);
    buf[..taken].copy_from_slice(first);
    *left = rest;
    taken
}

/// A shelf in memory that never fails. A file that it doesn't hold is empty.
#[derive(Drop)]
pub struct SureShelf<'a> {
    files: &'a [MemFile<'a>],
    left: &'a [u8],
    opens: u64,
}

impl<'a> SureShelf<'a> {
    /// A shelf of these files, with none open.
    pub fn new(files: &'a [MemFile<'a>]) -> Self
        ensures files { result.files.now ≡ files.now }
        ensures closed { result.left.now ≡ [] }
        ensures opens { result.opens ≡ 0 }
    {
        SureShelf {
            files,
            left: &[],
            opens: 0,
        }
    }

    /// Whether it holds a file of this name.
    pub fn holds(&self, name: &str) -> bool
        ensures { IsTrue result ↔ IsSome (bytes_of self.now.files.now name.now) }
    {
        held(self.files, name).is_some()
    }

    // Opens the file of this name, or no byte where it holds none.
    fn turn_to(&mut self, name: &str)
        ensures left { self.new.left.now ≡ contents (bytes_of self.old.files.now) name.now }
        ensures files { self.new.files ≡ self.old.files }
        ensures opens { self.new.opens ≡ counted self.old.opens }
    {
        self.opens = self.opens.saturating_add(1);
        self.left = held(self.files, name).unwrap_or(&[]);
    }

    // Closes the open file.
    fn close(&mut self)
        ensures closed { self.new.left.now ≡ [] }
        ensures files { self.new.files ≡ self.old.files }
        ensures opens { self.new.opens ≡ self.old.opens }
    {
        self.left = &[];
    }
}

impl<'a> Shelf for SureShelf<'a> {
    ghost files = { λ s. Some (bytes_of s.files.now) };

    ghost left = { λ s. Some s.left.now };

    ghost opens = { λ s. Some s.opens };

    ghost faults = { λ s. 0 };

    ghost left_told = { λ s told. told };

    fn open(&mut self, name: &str) -> Result<(), Failed>
        ensures files { self.new.files ≡ self.old.files }
        ensures bytes { Opens (Some (bytes_of self.old.files.now)) name.now
            (Some self.new.left.now) result }
        ensures counted { self.new.opens ≡ counted self.old.opens }
        ensures cause { HasCause 0 0 result }
        ensures sure { IsOk result }
    {
        self.turn_to(name);
        Ok(())
    }

    fn read(&mut self, buf: &mut [u8]) -> Result<usize, Failed>
        requires { 0 < length buf.old }
        ensures files { self.new.files ≡ self.old.files }
        ensures count { ReadsAtMost result buf.new }
        ensures bytes { ReadConsumes (Some self.old.left.now)
            (Some self.new.left.now) result buf.new }
        ensures opens { self.new.opens ≡ self.old.opens }
        ensures cause { HasCause 0 0 result }
        ensures sure { IsOk result }
    {
        Ok(take(&mut self.left, buf))
    }
}

/// A shelf in memory whose calls of the given numbers fail. Calls of `open` and `read` are counted together, from 0. To
/// open a file that it doesn't hold fails too.
#[derive(Drop)]
pub struct MemShelf<'a> {
    shelf: SureShelf<'a>,
    failing: &'a [u64],
    calls: u64,
    faults: Faults,
}

impl<'a> MemShelf<'a> {
    /// A shelf of these files, with none open.
    pub fn new(files: &'a [MemFile<'a>], failing: &'a [u64]) -> Self
        ensures files { result.shelf.files.now ≡ files.now }
        ensures failing { result.failing.now ≡ failing.now }
        ensures calls { result.calls ≡ 0 }
        ensures faults { result.faults ≡ 0 }
    {
        MemShelf {
            shelf: SureShelf::new(files),
            failing,
            calls: 0,
            faults: Faults::none(),
        }
    }

    /// Whether the next call is to fail; it is counted.
    fn fails_now(&mut self) -> bool
        ensures fails { IsTrue result ↔ Contains self.old.failing.now self.old.calls }
        ensures counted { self.new ≡ record self.old { calls = counted self.old.calls } }
    {
        let fails = self.failing.contains(&self.calls);
        self.calls = self.calls.saturating_add(1);
        fails
    }
}

impl<'a> Shelf for MemShelf<'a> {
    ghost files = { λ s. Some (bytes_of s.shelf.files.now) };

    ghost left = { λ s. Some s.shelf.left.now };

    ghost opens = { λ s. Some s.shelf.opens };

    ghost faults = { λ s. s.faults };

    ghost left_told = { λ s told. told };

    fn open(&mut self, name: &str) -> Result<(), Failed>
        ensures files { self.new.shelf.files ≡ self.old.shelf.files }
        ensures bytes { Opens (Some (bytes_of self.old.shelf.files.now)) name.now
            (Some self.new.shelf.left.now) result }
        ensures counted { self.new.shelf.opens ≡ counted self.old.shelf.opens }
        ensures cause { HasCause self.old.faults self.new.faults result }
        ensures fails { OpensWhereHeld self.old.shelf.files.now
            self.old.failing.now self.old.calls name.now result }
        ensures calls { self.new.calls ≡ counted self.old.calls }
        ensures failing { self.new.failing ≡ self.old.failing }
    {
        self.shelf.turn_to(name);
        if self.fails_now() || !self.shelf.holds(name) {
            self.shelf.close();
            return Err(self.faults.note());
        }
        Ok(())
    }

    fn read(&mut self, buf: &mut [u8]) -> Result<usize, Failed>
        requires { 0 < length buf.old }
        ensures files { self.new.shelf.files ≡ self.old.shelf.files }
        ensures count { ReadsAtMost result buf.new }
        ensures bytes { ReadConsumes (Some self.old.shelf.left.now)
            (Some self.new.shelf.left.now) result buf.new }
        ensures opens { self.new.shelf.opens ≡ self.old.shelf.opens }
        ensures cause { HasCause self.old.faults self.new.faults result }
        ensures fails { MatchResult result
            (λ _. ¬ Contains self.old.failing.now self.old.calls)
            (λ _. Contains self.old.failing.now self.old.calls) }
        ensures calls { self.new.calls ≡ counted self.old.calls }
        ensures failing { self.new.failing ≡ self.old.failing }
    {
        if self.fails_now() {
            return Err(self.faults.note());
        }
        self.shelf.read(buf)
    }
}

/// A sink in memory. Calls of the given numbers, counted from 0, fail, and so does one for which memory runs out. No
/// call takes more than the greatest piece.
#[derive(Drop)]
pub struct MemSink<'a> {
    bytes: Vec<u8>,
    failing: &'a [u64],
    greatest: usize,
    calls: u64,
    faults: Faults,
    ghost takes_some: { 0 < greatest },
}

impl<'a> MemSink<'a> {
    /// An empty sink.
    pub fn new(alloc: Global, failing: &'a [u64], greatest: usize) -> Self
        requires { 0 < greatest }
        ensures bytes { result.bytes.items ≡ [] }
        ensures failing { result.failing.now ≡ failing.now }
        ensures greatest { result.greatest ≡ greatest }
        ensures calls { result.calls ≡ 0 }
        ensures faults { result.faults ≡ 0 }
    {
        MemSink {
            bytes: Vec::new(alloc),
            failing,
            greatest,
            calls: 0,
            faults: Faults::none(),
        }
    }

    /// What it took.
    pub fn bytes(&self) -> &[u8]
        ensures { result.now ≡ self.now.bytes.items }
    {
        &self.bytes
    }
}

impl<'a> Sink for MemSink<'a> {
    ghost written = { λ s. Some s.bytes.items };

    ghost faults = { λ s. s.faults };

    fn put(&mut self, piece: &[u8]) -> Result<usize, Failed>
        requires { 0 < length piece.now }
        ensures some { IfOk result (λ n. 0 < n) }
        ensures count { WritesAtMost result piece.now }
        ensures bytes { WriteAppends (Some self.old.bytes.items)
            (Some self.new.bytes.items) result piece.now }
        ensures cause { HasCause self.old.faults self.new.faults result }
        ensures taken { IfOk result (λ n. n ≡ min self.old.greatest (length piece.now)) }
        ensures listed { IfOk result (λ _. ¬ Contains self.old.failing.now self.old.calls) }
        ensures fails { OnErr result (Contains self.old.failing.now self.old.calls
            ⊎ LacksRoom self.old.bytes (min self.old.greatest (length piece.now))) }
        ensures calls { self.new.calls ≡ counted self.old.calls }
        ensures failing { self.new.failing ≡ self.old.failing }
        ensures greatest { self.new.greatest ≡ self.old.greatest }
    {
        let fails = self.failing.contains(&self.calls);
        self.calls = self.calls.saturating_add(1);
        if fails {
            return Err(self.faults.note());
        }
        let taken = self.greatest.min(piece.len());
        match self.bytes.extend_from_slice(&piece[..taken]) {
            Ok(()) => Ok(taken),
            Err(_) => Err(self.faults.note()),
        }
    }
}

/// A sink that never fails. It keeps the first bytes, as many as its room holds, and drops the others; so it isn't known
/// what was written.
#[derive(Drop)]
pub struct SureSink {
    front: Vec<u8>,
}

impl SureSink {
    /// A sink that keeps what this list has room for, after what is in it.
    pub fn new(room: Vec<u8>) -> Self
        ensures { result.front ≡ room }
    {
        SureSink { front: room }
    }

    /// The bytes that it kept.
    pub fn front(&self) -> &[u8]
        ensures { result.now ≡ self.now.front.items }
    {
        &self.front
    }
}

impl Sink for SureSink {
    ghost written = { λ s. None };

    ghost faults = { λ s. 0 };

    fn put(&mut self, piece: &[u8]) -> Result<usize, Failed>
        requires { 0 < length piece.now }
        ensures some { IfOk result (λ n. 0 < n) }
        ensures count { WritesAtMost result piece.now }
        ensures bytes { WriteAppends None None result piece.now }
        ensures cause { HasCause 0 0 result }
        ensures all { result ≡ Ok (length piece.now) }
        ensures front { self.new.front.items ≡ self.old.front.items ++
            front (vec_capacity self.old.front - vec_len self.old.front) piece.now }
    {
        let room = self.front.capacity() - self.front.len();
        let _ = self
            .front
            .extend_from_slice(&piece[..room.min(piece.len())]);
        Ok(piece.len())
    }
}
