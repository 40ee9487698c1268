// The whole run, from the words to the status.
ghost use Rattle.std.specs.Prelude.{◌≤◌, Err, map, string_bytes};
ghost use Rattle.made_graph.specs.Made.{max_asked};
ghost use Rattle.spqr_session.specs.Machine.{IsStarted};
ghost use Rattle.spqr_run.specs.Writing.{WritesAnswers, WritesReport};
ghost use Rattle.spqr_run.specs.Decision.{DecisionHasLine, Summary};
ghost use Rattle.spqr_run.specs.Ending.{IsReady, task_of};
ghost use Rattle.spqr_run.specs.Seen.{seen, seen_shelf, seen_sink};
ghost use Rattle.spqr_run.specs.Run.{CarriesOut, CountsPut, RefusesWith, CountsPuts, IsRun};

use crate::decision::{Accepted, Plan, decide};
use crate::halt::Halt;
use crate::laws::decisions;
use crate::methods::{block_embedder, block_splitter};
use crate::refusal::Refusal;
use crate::status::Status;
use crate::writing::put_text;
use made_summary::summary;
use spqr_edge::{Failed, Shelf, Sink};
use spqr_script::Command;
use spqr_session::Session;
use std::alloc::Global;

// Writes the answers of the commands, each built whole before it is put.
fn write_answers<K: Sink>(
    alloc: Global,
    session: &mut Session,
    commands: &[Command],
    sink: &mut K,
) -> Result<(), Halt<Failed>>
    ensures texts { WritesAnswers session.old.setting session.old.state commands.now
        (K.written sink.old) (K.written sink.new) result }
    ensures faults { CountsPut (K.faults sink.old) (K.faults sink.new) result }
{
    for command in commands {
        let text = session.step(alloc, command)?;
        put_text(sink, &text)?;
    }
    Ok(())
}

// Writes the report: the head, the memory of which is then given back, and the answers.
fn write_report<K: Sink>(
    alloc: Global,
    accepted: Accepted,
    sink: &mut K,
) -> Result<(), Halt<Failed>>
    requires { IsStarted accepted.session }
    ensures report { WritesReport accepted.session.setting accepted.commands.items
        (K.written sink.old) (K.written sink.new) result }
    ensures faults { CountsPut (K.faults sink.old) (K.faults sink.new) result }
{
    let Accepted {
        mut session,
        commands,
    } = accepted;
    let head = session.head(alloc)?;
    put_text(sink, &head)?;
    drop(head);
    write_answers(alloc, &mut session, &commands, sink)
}

// Writes the summary of the graph that is made from a number, and gives the status.
fn write_summary<K: Sink>(alloc: Global, edges: u32, seed: u64, sink: &mut K) -> Status
    requires least { 6 ≤ edges }
    requires most { edges ≤ max_asked }
    ensures summary { CarriesOut (Summary edges seed) (K.written sink.old)
        (K.written sink.new) result }
    ensures faults { CountsPuts (K.faults sink.old) (K.faults sink.new) result }
{
    match summary(
        alloc,
        edges,
        seed,
        &mut block_splitter(),
        &mut block_embedder(),
    ) {
        Ok(text) => match put_text(sink, &text) {
            Ok(()) => Status::Done,
            Err(_) => Status::WriteFault,
        },
        Err(_) => Status::Memory,
    }
}

// Carries out what is to be done, and gives the status.
fn carry_out<K: Sink>(alloc: Global, plan: Plan, sink: &mut K) -> Status
    requires { IsReady plan }
    ensures text { CarriesOut (task_of plan) (K.written sink.old) (K.written sink.new) result }
    ensures faults { CountsPuts (K.faults sink.old) (K.faults sink.new) result }
{
    match plan {
        Plan::Report(accepted) => match write_report(alloc, accepted, sink) {
            Ok(()) => Status::Done,
            Err(Halt::Refused(_)) => Status::WriteFault,
            Err(Halt::Memory) => Status::Memory,
        },
        Plan::Summary { edges, seed } => write_summary(alloc, edges, seed, sink),
    }
}

// Writes the line of a refusal, and gives its status.
fn refuse<K: Sink>(alloc: Global, refusal: &Refusal, sink: &mut K) -> Status
    requires { DecisionHasLine (Err refusal.now) }
    ensures line { RefusesWith refusal.now (K.written sink.old) (K.written sink.new) result }
    ensures faults { CountsPuts (K.faults sink.old) (K.faults sink.new) result }
{
    match refusal.line(alloc) {
        Ok(line) => match put_text(sink, &line) {
            Ok(()) => refusal.status(),
            Err(_) => Status::WriteFault,
        },
        Err(_) => Status::Memory,
    }
}

/// The whole run: decides on the words and the files that they name, then writes the report, the summary or the line of the
/// refusal, and gives the status.
pub fn run<S: Shelf, K: Sink>(
    alloc: Global,
    words: &[String],
    shelf: &mut S,
    sink: &mut K,
) -> Status
    ensures run { IsRun (map string_bytes words.now)
        (seen (seen_shelf (S.files shelf.old) (S.opens shelf.old) (S.faults shelf.old))
        (seen_sink (K.written sink.old) (K.faults sink.old)))
        (seen (seen_shelf (S.files shelf.new) (S.opens shelf.new) (S.faults shelf.new))
        (seen_sink (K.written sink.new) (K.faults sink.new)))
        result }
{
    match decide(alloc, words, shelf) {
        Ok(plan) => carry_out(alloc, plan, sink),
        Err(Halt::Refused(refusal)) => {
            // That no work is correct follows from the law on decisions.
            decisions();
            refuse(alloc, &refusal, sink)
        }
        Err(Halt::Memory) => Status::Memory,
    }
}
