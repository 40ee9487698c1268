// What the bytes of the two files say, by the crates below, with running out of memory kept apart from the refusals.
ghost use Rattle.std.specs.Prelude.{◌≡◌, ◌≢◌, ◌<◌, ◌^◌, Ok, Err, length};
ghost use Rattle.gml_text.specs.Grammar.{Spells};
ghost use Rattle.gml_graph.specs.Answer.{graph_of_document};
ghost use Rattle.spqr_script.specs.Script.{Commands, IsFirstBadLine};
ghost use Rattle.spqr_run.specs.Outcome.{Answers};
ghost use Rattle.spqr_run.specs.Decision.{IsGmlReason};

use crate::halt::Halt;
use gml_graph::{GraphFault, Named};
use gml_text::{Doc, GmlFault};
use spqr_script::{Command, ScriptFault};
use std::alloc::Global;

/// The document that the bytes spell.
pub fn document_of(alloc: Global, bytes: &[u8]) -> Result<Doc, Halt<GmlFault>>
    ensures { Answers result (Spells bytes.now) (λ fault. IsGmlReason bytes.now fault
        × (fault ≢ GmlFault.Memory)) }
{
    match gml_text::read(alloc, bytes) {
        Ok(doc) => Ok(doc),
        Err(fault) => match fault {
            GmlFault::Bad(at) => Err(Halt::Refused(GmlFault::Bad(at))),
            GmlFault::End(at) => Err(Halt::Refused(GmlFault::End(at))),
            GmlFault::Memory => Err(Halt::Memory),
        },
    }
}

/// The graph of a document.
pub fn graph_of(alloc: Global, doc: &Doc) -> Result<Named, Halt<GraphFault>>
    ensures { Answers result (λ named. graph_of_document doc.now ≡ Ok named)
        (λ fault. (graph_of_document doc.now ≡ Err fault) × (fault ≢ GraphFault.Memory)) }
{
    match gml_graph::graph_of(alloc, doc) {
        Ok(named) => Ok(named),
        Err(fault) => match fault {
            GraphFault::Memory => Err(Halt::Memory),
            rule => Err(Halt::Refused(rule)),
        },
    }
}

/// The commands that the bytes of a script spell, or the first line that is not one.
pub fn commands_of(alloc: Global, bytes: &[u8]) -> Result<Vec<Command>, Halt<u32>>
    requires { length bytes.now < 2 ^ 32 }
    ensures { Answers result (λ commands. Commands bytes.now commands.items)
        (IsFirstBadLine bytes.now) }
{
    match spqr_script::read(alloc, bytes) {
        Ok(commands) => Ok(commands),
        Err(fault) => match fault {
            ScriptFault::BadLine(line) => Err(Halt::Refused(line)),
            ScriptFault::Memory => Err(Halt::Memory),
        },
    }
}
