// The outside: where files are read and where texts are written.
//
// A shelf holds files by name and has at most one of them open; a sink takes bytes. Both may fail at any call. The
// traits say what each call does to the bytes that are left or written, if these are known of a device, and that a call
// fails only if the device's own count of faults increased. So a program over any shelf and sink can promise what it
// writes, and can't invent a fault.
//
// `MemShelf` and `MemSink` are devices in memory that fail at chosen calls, `SureShelf` and `SureSink` never fail, and
// `FileShelf` and `OutSink` are the real files and the standard output.
#![tactic(auto)]

ghost use Rattle.std.specs.Prelude.{◌≡◌, ◌<◌, ℕ, List, Option, IfOk, IsSome, length};
ghost use Rattle.std.specs.Io.{ReadsAtMost, WritesAtMost};
ghost use Rattle.std.specs.Io.KnownBytes.{ReadConsumes, WriteAppends};
ghost use Rattle.spqr_edge.specs.Device.{Files, HasCause, CountsCall, Opens};

mod faults;
pub mod memory;
pub mod real;

pub use memory::{MemFile, MemShelf, MemSink, SureShelf, SureSink};
pub use real::{FileShelf, OutSink};

/// A call of a device failed; the device has counted it.
#[derive(Clone, Copy, Debug, PartialEq, Eq)]
pub struct Failed;

/// Files by their names, of which at most one is open.
pub trait Shelf {
    /// The bytes of each file, if they are known. No call changes them.
    ghost files: { Self → Option Files };

    /// The bytes of the open file that are not yet read, if they are known: no bytes if no file is open.
    ghost left: { Self → Option (List ℕ) };

    /// How often `open` was called, if that is known. The count stops at 2^64 - 1.
    ghost opens: { Self → Option ℕ };

    /// How often a call failed. The count never decreases, and stops at 2^64 - 1.
    ghost faults: { Self → ℕ };

    /// Opens the file of this name, instead of the one that was open. After `Ok` the whole file is left to read, or no byte if
    /// the shelf holds no file of this name. Fails with `Failed` if the device does; then no file is open.
    fn open(&mut self, name: &str) -> Result<(), Failed>
        ensures files { files self.new ≡ files self.old }
        ensures bytes { Opens (files self.old) name.now (left self.new) result }
        ensures counted { CountsCall (opens self.old) (opens self.new) }
        ensures cause { HasCause (faults self.old) (faults self.new) result };

    /// Takes bytes of the open file into the buffer, which isn't empty. `Ok` gives how many: 0 only at the file's end. Fails
    /// with `Failed` if the device does; then no byte is taken.
    fn read(&mut self, buf: &mut [u8]) -> Result<usize, Failed>
        requires { 0 < length buf.old }
        ensures files { files self.new ≡ files self.old }
        ensures count { ReadsAtMost result buf.new }
        ensures bytes { ReadConsumes (left self.old) (left self.new) result buf.new }
        ensures opens { opens self.new ≡ opens self.old }
        ensures cause { HasCause (faults self.old) (faults self.new) result };

    /// If the files of a shelf are known, so is what is left of the open one.
    ghost left_told: { (shelf : Self) → IsSome (files shelf) → IsSome (left shelf) };
}

/// What takes the bytes that are written.
pub trait Sink {
    /// All bytes that it took, if they are known.
    ghost written: { Self → Option (List ℕ) };

    /// How often a call failed. The count never decreases, and stops at 2^64 - 1.
    ghost faults: { Self → ℕ };

    /// Appends a prefix of the piece, which isn't empty. `Ok` gives its length, at least 1. Fails with `Failed` if the device
    /// does; then nothing is appended.
    fn put(&mut self, piece: &[u8]) -> Result<usize, Failed>
        requires { 0 < length piece.now }
        ensures some { IfOk result (λ n. 0 < n) }
        ensures count { WritesAtMost result piece.now }
        ensures bytes { WriteAppends (written self.old) (written self.new) result piece.now }
        ensures cause { HasCause (faults self.old) (faults self.new) result };
}
