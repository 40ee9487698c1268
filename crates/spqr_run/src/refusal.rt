// Why a run is refused, with the status and the line of each refusal.
ghost use Rattle.std.specs.Prelude.{◌≡◌, Err, IfOk};
ghost use Rattle.spqr_run.specs.Decision.{DecisionHasLine};
ghost use Rattle.spqr_run.specs.Ending.{file_text, refusal_text, file_status, refusal_status};

use crate::reading::FileFault;
use crate::status::Status;
use gml_graph::GraphFault;
use gml_text::GmlFault;
use spqr_script::{
    Which, gml_line, long_line, read_line, rule_line, script_line, start_genus_line, usage_line,
};
use std::alloc::{AllocError, Global};

/// Why the graph file is refused.
#[derive(Drop)]
pub enum GraphRefusal {
    /// It was not read.
    File(FileFault),
    /// Its bytes are not a document.
    Gml(GmlFault),
    /// The document has no graph, by this rule.
    Rule(GraphFault),
    /// A planar block would start at a rotation system that is not plane: the block, and the numbers of vertices, edges and faces of
    /// that rotation system.
    Start(u32, u32, u32, u32),
}

/// Why the script file is refused.
#[derive(Drop)]
pub enum ScriptRefusal {
    /// It was not read.
    File(FileFault),
    /// The line of this number is the first that is not a command.
    Line(u32),
}

/// Why a run is refused.
#[derive(Drop)]
pub enum Refusal {
    /// The words have no valid form.
    Usage,
    /// The graph file is refused.
    OfGraph(GraphRefusal),
    /// The script file is refused.
    OfScript(ScriptRefusal),
}

// The line for a file that was not read.
fn file_line(alloc: Global, which: Which, fault: FileFault) -> Result<Vec<u8>, AllocError>
    ensures { IfOk result (λ text. text.items ≡ file_text which fault) }
{
    match fault {
        FileFault::Failed => read_line(alloc, which),
        FileFault::Long => long_line(alloc, which),
    }
}

// The status for a file that was not read.
fn file_status(fault: FileFault) -> Status
    ensures { result ≡ file_status fault }
{
    match fault {
        FileFault::Failed => Status::ReadFault,
        FileFault::Long => Status::TooLong,
    }
}

impl Refusal {
    /// The line that says it.
    pub fn line(&self, alloc: Global) -> Result<Vec<u8>, AllocError>
        requires { DecisionHasLine (Err self.now) }
        ensures { IfOk result (λ text. text.items ≡ refusal_text self.now) }
    {
        match self {
            Refusal::Usage => usage_line(alloc),
            Refusal::OfGraph(refusal) => match refusal {
                GraphRefusal::File(fault) => file_line(alloc, Which::GraphFile, *fault),
                GraphRefusal::Gml(fault) => gml_line(alloc, fault),
                GraphRefusal::Rule(fault) => rule_line(alloc, fault),
                GraphRefusal::Start(b, v, e, f) => start_genus_line(alloc, *b, *v, *e, *f),
            },
            Refusal::OfScript(refusal) => match refusal {
                ScriptRefusal::File(fault) => file_line(alloc, Which::ScriptFile, *fault),
                ScriptRefusal::Line(line) => script_line(alloc, *line),
            },
        }
    }

    /// The status that it has.
    pub fn status(&self) -> Status
        ensures { result ≡ refusal_status self.now }
    {
        match self {
            Refusal::Usage => Status::Usage,
            Refusal::OfGraph(refusal) => match refusal {
                GraphRefusal::File(fault) => file_status(*fault),
                GraphRefusal::Gml(_) => Status::GmlRefused,
                GraphRefusal::Rule(_) => Status::GraphRefused,
                GraphRefusal::Start(_, _, _, _) => Status::GraphRefused,
            },
            Refusal::OfScript(refusal) => match refusal {
                ScriptRefusal::File(fault) => file_status(*fault),
                ScriptRefusal::Line(_) => Status::ScriptRefused,
            },
        }
    }
}
