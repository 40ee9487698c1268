// The real files and the standard output. They count their faults; nothing is known of contents.
//
// A name is handed to the system as it is, with any blanks at its ends. Since the files of the system are unknown, no clause can
// say which of them a name means.
ghost use Rattle.std.specs.Prelude.{◌≡◌, None};

use crate::faults::Faults;
use crate::{Failed, Shelf, Sink};
use std::fs::{self, File};
use std::io::{self, Read, Write};

/// The files of the system. Neither what they hold nor how often one was opened is known.
#[derive(Drop)]
pub struct FileShelf<'a> {
    rt: &'a HostRuntime,
    file: Option<File>,
    faults: Faults,
}

impl<'a> FileShelf<'a> {
    /// The files, with none open and no fault counted.
    pub fn new(rt: &'a HostRuntime) -> Self
        ensures { result.faults ≡ 0 }
    {
        FileShelf {
            rt,
            file: None,
            faults: Faults::none(),
        }
    }
}

impl<'a> Shelf for FileShelf<'a> {
    ghost files = { λ s. None };

    ghost left = { λ s. None };

    ghost opens = { λ s. None };

    ghost faults = { λ s. s.faults };

    ghost left_told = { λ s told. told };

    fn open(&mut self, name: &str) -> Result<(), Failed> {
        self.file = None;
        match fs::open(self.rt, name) {
            Ok(file) => {
                self.file = Some(file);
                Ok(())
            }
            Err(_) => Err(self.faults.note()),
        }
    }

    /// With no file open there is nothing to read.
    fn read(&mut self, buf: &mut [u8]) -> Result<usize, Failed> {
        let Some(file) = &mut self.file else {
            return Ok(0);
        };
        match file.read(buf) {
            Ok(taken) => Ok(taken),
            Err(_) => Err(self.faults.note()),
        }
    }
}

/// The standard output. Nothing is known of what was written.
#[derive(Drop)]
pub struct OutSink<'a> {
    rt: &'a HostRuntime,
    faults: Faults,
}

impl<'a> OutSink<'a> {
    /// The standard output, with no fault counted.
    pub fn new(rt: &'a HostRuntime) -> Self
        ensures { result.faults ≡ 0 }
    {
        OutSink {
            rt,
            faults: Faults::none(),
        }
    }
}

impl<'a> Sink for OutSink<'a> {
    ghost written = { λ s. None };

    ghost faults = { λ s. s.faults };

    /// Fails also where the output takes no byte, or where it took some and could not pass them on.
    fn put(&mut self, piece: &[u8]) -> Result<usize, Failed> {
        let mut out = io::writer(self.rt);
        match out.write(piece) {
            Ok(taken) if taken > 0 && out.flush().is_ok() => Ok(taken),
            _ => Err(self.faults.note()),
        }
    }
}
