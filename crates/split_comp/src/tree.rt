// The palm tree of a block, by the numbers of its vertices.

ghost use Rattle.std.specs.Prelude.{◌≡◌, ◌+◌, ◌*◌, ◌<◌, ◌≤◌, length, IfOk, slice_index};
ghost use Rattle.multigraph.specs.Graph.{edge_count};
ghost use Rattle.palm_tree.specs.PalmTree.{IsPalmTree, IsConnected};
ghost use Rattle.split_comp.specs.Palm.{AreVertices, tree_dart, tree_degree, tree_parent};
ghost use Rattle.split_comp.specs.Pass.{IsNumbered};

use crate::items::Dart;
use multigraph::Graph;
use palm_tree::PalmTree;
use std::alloc::{AllocError, Global};
use std::marker::Model;
use std::sync::ledger::Ledger;
use step_count::Steps;

/// A palm tree, and the vertex with each number.
#[derive(Drop)]
pub(crate) struct NumberedPalmTree {
    palm: PalmTree,
    vertex: Vec<u32>,
}

impl Model for NumberedPalmTree {
    ghost use Rattle.split_comp.specs.Pass.{NumberedTree};

    ghost Value = { NumberedTree };

    ghost view = { λ t. record { palm = t.palm; vertex = t.vertex.items } };
}

// Notes for each number the vertex that has it.
fn note_numbers<L: Ledger>(vertex: &mut [u32], palm: &PalmTree, g: &Graph, steps: &mut Steps<L>)
    requires tree { IsPalmTree g.now palm.now }
    requires places { length vertex.old ≡ g.now.vertex_count }
    ensures vertices { AreVertices g.now.vertex_count palm.now vertex.new }
    ensures cost { steps.new ≡ steps.old + g.now.vertex_count }
{
    for v in 0..g.vertex_count() {
        steps.tick();
        vertex[palm.number(v) as usize] = v;
    }
}

impl NumberedPalmTree {
    /// The palm tree of a connected graph.
    pub(crate) fn grow<L: Ledger>(
        alloc: Global,
        g: &Graph,
        steps: &mut Steps<L>,
    ) -> Result<NumberedPalmTree, AllocError>
        requires connected { IsConnected g.now }
        ensures tree { IfOk result (λ t. IsPalmTree g.now t.palm) }
        ensures vertices { IfOk result (λ t. AreVertices g.now.vertex_count t.palm t.vertex) }
        ensures at_most { steps.new ≤ steps.old + 101 * g.now.vertex_count
            + 100 * edge_count g.now }
        ensures at_least { IfOk result (λ _. steps.old + edge_count g.now ≤ steps.new) }
    {
        let palm = PalmTree::grow_counted(alloc, g, steps)?;
        let mut vertex = vec![in alloc; 0; g.vertex_count() as usize]?;
        note_numbers(&mut vertex, &palm, g, steps);
        Ok(NumberedPalmTree { palm, vertex })
    }

    /// The vertex with number `x`.
    pub(crate) fn vertex_at(&self, x: u32) -> u32
        requires { x < length self.now.vertex }
        ensures { result ≡ slice_index self.now.vertex x }
    {
        self.vertex[x as usize]
    }

    /// How many darts the vertex with number `x` has.
    pub(crate) fn degree(&self, g: &Graph, x: u32) -> usize
        requires tree { IsNumbered g.now self.now }
        requires within { x < g.now.vertex_count }
        ensures { result ≡ tree_degree self.now.palm self.now.vertex x }
    {
        let _ = g; // for the contract alone
        self.palm.darts(self.vertex_at(x)).len()
    }

    /// Dart `k` of the vertex with number `x`.
    pub(crate) fn dart(&self, g: &Graph, x: u32, k: usize) -> Dart
        requires tree { IsNumbered g.now self.now }
        requires within { x < g.now.vertex_count }
        requires place { k < tree_degree self.now.palm self.now.vertex x }
        ensures { result ≡ tree_dart g.now self.now.palm self.now.vertex x k }
    {
        let v = self.vertex_at(x);
        let edge = self.palm.darts(v)[k];
        let end = g.other_end(edge, v);
        let far = self.palm.number(end);
        if self.palm.is_frond(edge) {
            return Dart {
                edge,
                tree: false,
                far,
                reach: far,
                class: 1,
            };
        }
        Dart {
            edge,
            tree: true,
            far,
            reach: self.palm.low1(end),
            class: if self.palm.low2(end) < self.palm.number(v) {
                0
            } else {
                2
            },
        }
    }

    /// The number of the parent of the vertex with number `x`; 0 for the root.
    pub(crate) fn parent(&self, g: &Graph, x: u32) -> u32
        requires tree { IsNumbered g.now self.now }
        requires within { x < g.now.vertex_count }
        ensures { result ≡ tree_parent self.now.palm self.now.vertex x }
    {
        let _ = g; // for the contract alone
        match self.palm.parent(self.vertex_at(x)) {
            Some(p) => self.palm.number(p),
            None => 0,
        }
    }
}
