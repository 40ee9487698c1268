// How a run ended.
ghost use Rattle.std.specs.Prelude.{◌≡◌};
ghost use Rattle.spqr_run.specs.Status.{status_number};

/// How a run ended.
#[derive(Clone, Copy, Debug, PartialEq, Eq)]
pub enum Status {
    /// The whole report was written.
    Done,
    /// The words have no valid form.
    Usage,
    /// A file could not be read.
    ReadFault,
    /// A file is longer than its limit.
    TooLong,
    /// The bytes of the graph file are not a document.
    GmlRefused,
    /// The document has no graph, or the start that it gives is refused.
    GraphRefused,
    /// A line of the script is not a command.
    ScriptRefused,
    /// A text could not be written.
    WriteFault,
    /// Memory ran out.
    Memory,
}

impl Status {
    /// Its number, the program's exit status.
    pub fn number(self) -> u8
        ensures { result ≡ status_number self }
    {
        match self {
            Status::Done => 0,
            Status::Usage => 1,
            Status::ReadFault => 2,
            Status::TooLong => 3,
            Status::GmlRefused => 4,
            Status::GraphRefused => 5,
            Status::ScriptRefused => 6,
            Status::WriteFault => 7,
            Status::Memory => 8,
        }
    }
}
