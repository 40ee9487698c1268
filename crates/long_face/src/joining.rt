// What is known of the faces and the weights, and what is wanted of the nodes.

ghost use Rattle.std.specs.Prelude.{◌≡◌, ℕ, List, length, IfOk};
ghost use Rattle.multigraph.specs.Graph.{IsWithinLimits, Multigraph};
ghost use Rattle.skeletons.specs.Items.{IsBlockTree};
ghost use Rattle.face_weights.specs.Numbers.{KnowFaces};
ghost use Rattle.face_weights.specs.Reached.{AreWeights};
ghost use Rattle.face_weights.specs.Weights.{weight_of};
ghost use Rattle.long_face.specs.Walk.{IsWalked};

use crate::walking::wants_from;
use crate::wants::Want;
use face_weights::Weights;
use skel_decompose::FlatLists;
use spqr_tree::Tree;
use std::alloc::{AllocError, Global};

// What is wanted of the nodes for a longest face.
pub(crate) fn wants_of(
    alloc: Global,
    tree: &Tree,
    faces: &FlatLists,
    weights: &Weights,
) -> Result<Vec<Option<Want>>, AllocError>
    requires block { (g : Multigraph) × IsBlockTree g tree.now × IsWithinLimits g }
    requires known { (family : List (List (List ℕ))) × KnowFaces tree.now family faces.now
        × AreWeights tree.now family weights.now }
    ensures number { IfOk result (λ wants. length wants.items ≡ length tree.now) }
    ensures walked { IfOk result (λ wants. (family : List (List (List ℕ)))
        → KnowFaces tree.now family faces.now → AreWeights tree.now family weights.now
        → (g : Multigraph) → IsBlockTree g tree.now → IsWithinLimits g
        → IsWalked g tree.now family (weight_of tree.now weights.now) weights.now.top
        weights.now.most wants.items) }
{
    let order = weights.order_from_top(alloc, tree)?;
    wants_from(
        alloc,
        tree,
        faces,
        weights,
        weights.top(),
        &order.parents,
        &order.nodes,
    )
}
