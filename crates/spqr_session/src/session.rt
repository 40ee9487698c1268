// A session: a document with its graph, the blocks of it with their trees and embeddings, on which commands are carried out.
ghost use Rattle.std.specs.Prelude.{◌≡◌, Ok, IfOk, IfErr, OnErr};
ghost use Rattle.gml_graph.specs.Answer.{graph_of_document};
ghost use Rattle.spqr_session.specs.Head.{head_text};
ghost use Rattle.spqr_session.specs.Start.{IsStartRefusal};
ghost use Rattle.spqr_session.specs.Step.{Step};
ghost use Rattle.spqr_session.specs.Machine.{IsStarted};

use crate::board::Board;
use crate::carrying::carry_out;
use crate::embedded::embedded_blocks;
use crate::fault::StartFault;
use crate::head::head_of;
use crate::scene::Scene;
use crate::starting::take_starts;
use blocks::split;
use gml_graph::Named;
use gml_text::Doc;
use pair_split::Splitter;
use planarity::Embedder;
use spqr_script::Command;
use std::alloc::{AllocError, Global};
use std::marker::Model;

/// A session on a document and its graph. Contracts see its setting, which stays: the document, the graph, the blocks of the
/// graph, and of each block its tree and its certificate, if it has one; and its state, which commands change: the embeddings, and
/// the arrangements at cut vertices. Both are always right ones.
#[derive(Drop)]
pub struct Session {
    scene: Scene,
    board: Board,
}

impl Model for Session {
    ghost use Rattle.spqr_session.specs.Scene.{setting_on};
    ghost use Rattle.spqr_session.specs.Board.{state_on};
    ghost use Rattle.spqr_session.specs.Machine.{Machine, IsMachine};
    ghost use Rattle.gml_text.specs.Code.{document_code};
    ghost use Rattle.std.specs.Coded.{codes};

    ghost Value = { Machine };

    ghost coded = { Prim.hlevel (codes, document_code) };

    ghost view = { λ s. record {
      setting = setting_on s.scene s.board.views;
      state = state_on s.scene s.board.views s.board;
    } };

    ghost invariant = { λ s. IsMachine
        (record {
          setting = setting_on s.scene s.board.views;
          state = state_on s.scene s.board.views s.board;
        }) };
}

impl Session {
    /// Starts a session on a document and its graph, which is split into its blocks, and each block by the splitter; the
    /// embedder is asked once for each triconnected node of their trees. Neither is asked where one of the few blocks before has the
    /// same graph: what was found of that one is copied. The current rotation system of each planar block is then
    /// the one that the file gives, or where it gives none the first plane one, no node is locked, and each cut vertex of a component
    /// whose blocks are planar has its first arrangement.
    ///
    /// Fails with `StartGenus` exactly where the file gives a planar block a rotation system that is not plane, with the least
    /// such block; fails with `Memory` only if memory runs out. Document and graph are dropped then.
    pub fn start<P: Splitter, E: Embedder>(
        alloc: Global,
        doc: Doc,
        named: Named,
        splitter: &mut P,
        embedder: &mut E,
    ) -> Result<Session, StartFault>
        requires { graph_of_document doc ≡ Ok named }
        ensures parts { IfOk result (λ s. (s.setting.document ≡ doc) × (s.setting.named ≡ named)) }
        ensures started { IfOk result IsStarted }
        ensures refused { IfErr result (IsStartRefusal named) }
    {
        let blocks = split(alloc, named.graph())?;
        let mut embedded = embedded_blocks(alloc, named.graph(), &blocks, splitter, embedder)?;
        take_starts(alloc, &named, &blocks, &mut embedded)?;
        let board = Board::of(alloc, named.graph().vertex_count(), embedded)?;
        Ok(Session {
            scene: Scene { doc, named, blocks },
            board,
        })
    }

    /// The head of the report: the line of the graph, then a line for each vertex, each cut vertex and each block, with a line
    /// for each node of the block's tree, and whether the block is planar, else with a certificate.
    pub fn head(&self, alloc: Global) -> Result<Vec<u8>, AllocError>
        ensures { IfOk result (λ text. text.items ≡ head_text self.now.setting) }
    {
        let scene = &self.scene;
        head_of(alloc, &scene.named, &scene.blocks, self.board.blocks())
    }

    /// Carries out a command and gives its answer. If memory runs out, the session stays as it was.
    pub fn step(&mut self, alloc: Global, command: &Command) -> Result<Vec<u8>, AllocError>
        ensures setting { self.new.setting ≡ self.old.setting }
        ensures step { IfOk result (λ text.
            Step self.old.setting self.old.state command.now text.items self.new.state) }
        ensures memory { OnErr result (self.new ≡ self.old) }
    {
        carry_out(alloc, &self.scene, &mut self.board, command)
    }
}
