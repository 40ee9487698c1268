// A block without a plane rotation system.

ghost use Rattle.std.specs.Prelude.{◌≡◌, IfOk};

use kuratowski::Subdivision;
use multigraph::Graph;
use spqr_tree::Tree;
use std::alloc::{AllocError, Global};
use std::marker::Model;
use std::rc::Rc;

// What is known of it; it never changes.
#[derive(Debug, Drop)]
struct Parts {
    graph: Graph,
    tree: Tree,
    certificate: Subdivision,
}

/// A block that has no plane rotation system: its graph, its tree, and a subdivision of K5 or K3,3 in the block, along its own edges.
/// Contracts see all three. Copies share them.
#[derive(Debug, Drop)]
pub struct NonplanarBlock {
    parts: Rc<Parts>,
}

impl Model for NonplanarBlock {
    ghost use Rattle.skel_embed.specs.Nonplanar.{Refused};

    ghost Value = { Refused };

    ghost view = { λ b. record {
      graph = b.parts.value.graph;
      tree = b.parts.value.tree;
      certificate = b.parts.value.certificate;
    } };
}

impl NonplanarBlock {
    /// The block with these parts. Fails only if memory runs out; the parts are then dropped.
    pub fn new(
        alloc: Global,
        graph: Graph,
        tree: Tree,
        certificate: Subdivision,
    ) -> Result<NonplanarBlock, AllocError>
        ensures { IfOk result (λ b. b ≡ record {
          graph = graph;
          tree = tree;
          certificate = certificate;
        }) }
    {
        let parts = Rc::new(
            alloc,
            Parts {
                graph,
                tree,
                certificate,
            },
        )?;
        Ok(NonplanarBlock { parts })
    }

    /// The graph.
    pub fn graph(&self) -> &Graph
        ensures { result.now ≡ self.now.graph }
    {
        &self.parts.as_ref().graph
    }

    /// The tree.
    pub fn tree(&self) -> &Tree
        ensures { result.now ≡ self.now.tree }
    {
        &self.parts.as_ref().tree
    }

    /// The subdivision.
    pub fn certificate(&self) -> &Subdivision
        ensures { result.now ≡ self.now.certificate }
    {
        &self.parts.as_ref().certificate
    }

    /// A copy. Fails only if memory runs out.
    pub fn copy(&self) -> Result<NonplanarBlock, AllocError>
        ensures { IfOk result (λ b. b ≡ self.now) }
    {
        let parts = self.parts.clone()?;
        Ok(NonplanarBlock { parts })
    }
}
