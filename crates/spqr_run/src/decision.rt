// What is decided before anything is written: what is to be done, or the first refusal.
ghost use Rattle.std.specs.Prelude.{◌≡◌, ◌≤◌, ⊤, Ok, length, map, string_bytes};
ghost use Rattle.spqr_edge.specs.Device.{CountsCall};
ghost use Rattle.gml_graph.specs.Answer.{graph_of_document};
ghost use Rattle.spqr_run.specs.Outcome.{Answers};
ghost use Rattle.spqr_session.specs.Machine.{IsStarted};
ghost use Rattle.spqr_run.specs.Decision.{graph_limit, script_limit, SayDocument, SayCommands, IsStartReason, IsGraphReason, IsScriptReason, GraphFileSays, GraphFileRefused, ScriptFileSays, ScriptFileRefused, HasLine};
ghost use Rattle.spqr_run.specs.Ending.{refusal_status, graph_status, script_status, CountsFaults, IsDecided, IsReady, OnDecision};
ghost use Rattle.spqr_run.specs.Seen.{seen_shelf};

use crate::halt::Halt;
use crate::methods::{block_embedder, block_splitter};
use crate::reading::read_file;
use crate::refusal::{GraphRefusal, Refusal, ScriptRefusal};
use crate::stages::{commands_of, document_of, graph_of};
use command_words::{Form, form_of};
use gml_graph::Named;
use gml_text::Doc;
use spqr_edge::Shelf;
use spqr_script::Command;
use spqr_session::{Session, StartFault};
use std::alloc::Global;

// The greatest length of the graph file.
const GRAPH_LIMIT: usize = 16_777_216;

// The greatest length of the script file.
const SCRIPT_LIMIT: usize = 1_048_576;

/// What a report is on: a session on the graph file, and the commands of the script.
#[derive(Drop)]
pub struct Accepted {
    pub session: Session,
    pub commands: Vec<Command>,
}

/// What is to be done.
#[derive(Drop)]
pub enum Plan {
    /// The report on two files.
    Report(Accepted),
    /// The summary of the graph that is made from a number, of this many edges or a few more.
    Summary { edges: u32, seed: u64 },
}

// A session on a document and its graph.
fn started(alloc: Global, doc: Doc, named: Named) -> Result<Session, Halt<GraphRefusal>>
    requires { graph_of_document doc ≡ Ok named }
    ensures document { Answers result (λ s. s.setting.document ≡ doc) (IsStartReason named) }
    ensures started { Answers result IsStarted (λ _. ⊤) }
    ensures faults { CountsFaults graph_status 0 0 result }
{
    match Session::start(
        alloc,
        doc,
        named,
        &mut block_splitter(),
        &mut block_embedder(),
    ) {
        Ok(session) => Ok(session),
        Err(fault) => match fault {
            StartFault::StartGenus(b, v, e, f) => Err(Halt::Refused(GraphRefusal::Start(
                b, v, e, f,
            ))),
            StartFault::Memory => Err(Halt::Memory),
        },
    }
}

// A session on what the bytes of the graph file say.
fn session_on(alloc: Global, bytes: &[u8]) -> Result<Session, Halt<GraphRefusal>>
    requires { length bytes.now ≤ graph_limit }
    ensures said { Answers result (λ s. SayDocument bytes.now s.setting.document)
        (λ r. IsGraphReason bytes.now r × HasLine r) }
    ensures started { Answers result IsStarted (λ _. ⊤) }
    ensures faults { CountsFaults graph_status 0 0 result }
{
    let doc = match document_of(alloc, bytes) {
        Ok(doc) => doc,
        Err(Halt::Refused(fault)) => return Err(Halt::Refused(GraphRefusal::Gml(fault))),
        Err(Halt::Memory) => return Err(Halt::Memory),
    };
    match graph_of(alloc, &doc) {
        Ok(named) => started(alloc, doc, named),
        Err(Halt::Refused(fault)) => Err(Halt::Refused(GraphRefusal::Rule(fault))),
        Err(Halt::Memory) => Err(Halt::Memory),
    }
}

// Reads the graph file, and starts a session on it.
fn accept_graph<S: Shelf>(
    alloc: Global,
    shelf: &mut S,
    name: &str,
) -> Result<Session, Halt<GraphRefusal>>
    ensures said { Answers result
        (λ s. GraphFileSays (S.files shelf.old) name.now s.setting.document)
        (GraphFileRefused (S.files shelf.old) name.now) }
    ensures line { Answers result (λ _. ⊤) HasLine }
    ensures started { Answers result IsStarted (λ _. ⊤) }
    ensures files { S.files shelf.new ≡ S.files shelf.old }
    ensures opens { CountsCall (S.opens shelf.old) (S.opens shelf.new) }
    ensures faults { CountsFaults graph_status (S.faults shelf.old) (S.faults shelf.new) result }
{
    match read_file(alloc, shelf, name, GRAPH_LIMIT) {
        Ok(bytes) => session_on(alloc, &bytes),
        Err(Halt::Refused(fault)) => Err(Halt::Refused(GraphRefusal::File(fault))),
        Err(Halt::Memory) => Err(Halt::Memory),
    }
}

// The commands that the bytes of the script file say.
fn commands_on(alloc: Global, bytes: &[u8]) -> Result<Vec<Command>, Halt<ScriptRefusal>>
    requires { length bytes.now ≤ script_limit }
    ensures said { Answers result (λ commands. SayCommands bytes.now commands.items)
        (IsScriptReason bytes.now) }
    ensures faults { CountsFaults script_status 0 0 result }
{
    match commands_of(alloc, bytes) {
        Ok(commands) => Ok(commands),
        Err(Halt::Refused(line)) => Err(Halt::Refused(ScriptRefusal::Line(line))),
        Err(Halt::Memory) => Err(Halt::Memory),
    }
}

// Reads the script file, and gives its commands.
fn accept_script<S: Shelf>(
    alloc: Global,
    shelf: &mut S,
    name: &str,
) -> Result<Vec<Command>, Halt<ScriptRefusal>>
    ensures said { Answers result
        (λ commands. ScriptFileSays (S.files shelf.old) name.now commands.items)
        (ScriptFileRefused (S.files shelf.old) name.now) }
    ensures files { S.files shelf.new ≡ S.files shelf.old }
    ensures opens { CountsCall (S.opens shelf.old) (S.opens shelf.new) }
    ensures faults { CountsFaults script_status (S.faults shelf.old) (S.faults shelf.new) result }
{
    match read_file(alloc, shelf, name, SCRIPT_LIMIT) {
        Ok(bytes) => commands_on(alloc, &bytes),
        Err(Halt::Refused(fault)) => Err(Halt::Refused(ScriptRefusal::File(fault))),
        Err(Halt::Memory) => Err(Halt::Memory),
    }
}

/// Decides on the words and the two files that they name, in this order: the form of the words, the graph file, the script
/// file. Each file is opened only where all before it is accepted; none is where a summary is asked for.
pub fn decide<S: Shelf>(
    alloc: Global,
    words: &[String],
    shelf: &mut S,
) -> Result<Plan, Halt<Refusal>>
    ensures decided { OnDecision result (IsDecided (map string_bytes words.now)
        (seen_shelf (S.files shelf.old) (S.opens shelf.old) (S.faults shelf.old))
        (seen_shelf (S.files shelf.new) (S.opens shelf.new) (S.faults shelf.new))) }
    ensures ready { Answers result IsReady (λ _. ⊤) }
    ensures faults { CountsFaults refusal_status (S.faults shelf.old) (S.faults shelf.new) result }
{
    let Some(form) = form_of(alloc, words)? else {
        return Err(Halt::Refused(Refusal::Usage));
    };
    match form {
        Form::Run { graph, script } => {
            let session = match accept_graph(alloc, shelf, graph) {
                Ok(session) => session,
                Err(Halt::Refused(refusal)) => return Err(Halt::Refused(Refusal::OfGraph(refusal))),
                Err(Halt::Memory) => return Err(Halt::Memory),
            };
            match accept_script(alloc, shelf, script) {
                Ok(commands) => Ok(Plan::Report(Accepted { session, commands })),
                Err(Halt::Refused(refusal)) => Err(Halt::Refused(Refusal::OfScript(refusal))),
                Err(Halt::Memory) => Err(Halt::Memory),
            }
        }
        Form::Make { edges, seed } => Ok(Plan::Summary { edges, seed }),
    }
}
