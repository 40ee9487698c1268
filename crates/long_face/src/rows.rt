// What is known of a node before anything is wanted.

ghost use Rattle.std.specs.Prelude.{◌<◌, ℕ, List, length, IfOk};
ghost use Rattle.multigraph.specs.Graph.{Multigraph};
ghost use Rattle.face_weights.specs.Weights.{weight_of};
ghost use Rattle.long_face.specs.Ready.{AreKnown, AreNeeded, AreRowsOf, AreSomeKnown};

use face_weights::{Weights, face_sums};
use pair_split::Kind;
use skel_decompose::FlatLists;
use spqr_tree::Tree;
use std::alloc::{AllocError, Global};
use std::marker::Model;

// The weights of the items of a node, and those of the faces of its darts. They are computed for one node after the other in the same
// lists.
#[derive(Debug, Drop)]
pub(crate) struct Rows {
    pub(crate) weights: Vec<u32>,
    pub(crate) sums: Vec<u32>,
    pub(crate) totals: Vec<u32>,
}

impl Model for Rows {
    ghost use Rattle.long_face.specs.Ready.{NodeRows};

    ghost Value = { NodeRows };

    ghost view = { λ rows. record {
      weights = rows.weights.items;
      sums = rows.sums.items;
    } };
}

// Lists that are empty.
pub(crate) fn no_rows(alloc: Global) -> Rows {
    Rows {
        weights: Vec::new(alloc),
        sums: Vec::new(alloc),
        totals: Vec::new(alloc),
    }
}

// Makes them those of node k. In time n log n for n items. Fails only if memory runs out.
pub(crate) fn fill(
    rows: &mut Rows,
    tree: &Tree,
    faces: &FlatLists,
    weights: &Weights,
    k: u32,
) -> Result<(), AllocError>
    requires known { AreSomeKnown tree.now faces.now weights.now }
    requires node { k < length tree.now }
    ensures { IfOk result (λ _. (g : Multigraph) (family : List (List (List ℕ)))
        → AreKnown g tree.now family faces.now weights.now
        → AreRowsOf tree.now family (weight_of tree.now weights.now) k rows.new) }
{
    weights.of_node(tree, k, &mut rows.weights)?;
    let numbers = faces.at(k as usize);
    face_sums(numbers, &rows.weights, &mut rows.totals, &mut rows.sums)?;
    Ok(())
}

// Makes of them what a want of node k takes: of a bond the weights, of a triconnected node the sums. In time n log n for n items. Fails only
// if memory runs out.
pub(crate) fn fill_for(
    rows: &mut Rows,
    tree: &Tree,
    faces: &FlatLists,
    weights: &Weights,
    k: u32,
) -> Result<(), AllocError>
    requires known { AreSomeKnown tree.now faces.now weights.now }
    requires node { k < length tree.now }
    ensures { IfOk result (λ _. (g : Multigraph) (family : List (List (List ℕ)))
        → AreKnown g tree.now family faces.now weights.now
        → AreNeeded tree.now family (weight_of tree.now weights.now) k rows.new) }
{
    match tree.kind(k) {
        Kind::P => weights.of_node(tree, k, &mut rows.weights),
        Kind::R => fill(rows, tree, faces, weights, k),
        Kind::S | Kind::B => Ok(()),
    }
}
