// The program: `spqr run GRAPH SCRIPT` reads a graph in GML and a script, and writes a report; `spqr make N SEED` writes the
// summary of a graph that is made from a number.
//
// It joins `run` of spqr_run, whose contract says what is read and written and how it ends, to the words of the command line, the
// real files and the standard output.
#![tactic(auto)]

use spqr_edge::{FileShelf, OutSink};
use spqr_run::run::run;
use spqr_run::status::Status;
use std::env;
use std::io::{self, ErrorKind};
use std::process::ExitCode;

// The words after the program's name.
fn words_of(rt: &HostRuntime) -> io::Result<Vec<String>> {
    let mut words = Vec::new(rt.alloc());
    for word in env::args(rt)?.skip(1) {
        words.push(word)?;
    }
    Ok(words)
}

fn main(rt: HostRuntime) -> ExitCode {
    let status = match words_of(&rt) {
        Ok(words) => {
            let mut shelf = FileShelf::new(&rt);
            let mut sink = OutSink::new(&rt);
            run(rt.alloc(), &words, &mut shelf, &mut sink)
        }
        Err(fault) if fault.kind() == ErrorKind::OutOfMemory => Status::Memory,
        Err(_) => Status::Usage,
    };
    ExitCode::from(status.number())
}
