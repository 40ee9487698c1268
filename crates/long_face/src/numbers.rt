// The faces of the skeletons, by the numbers of their darts: those of bonds from the kept choices, those of polygons from their items, and
// those of other nodes from what follows their items, which is read off the rotation system only where there are such nodes.

ghost use Rattle.std.specs.Prelude.{◌≡◌, ◌<◌, ◌⊎◌, ℕ, false, List, length, IfOk};
ghost use Rattle.faces.specs.Steps.{AreFaceSteps};
ghost use Rattle.pair_split.specs.Tutte.{node_at};
ghost use Rattle.pair_split.specs.declared.components.Kind.TheVariants.{S, P};
ghost use Rattle.skeletons.specs.Families.{AreSkeletonSystems, FollowsFamily, skeleton_graph, system_at};
ghost use Rattle.face_weights.specs.Numbers.{KnowFaces, NumberFaces};
ghost use Rattle.skel_decompose.specs.Orders.{HangFromFirst, IsOrderOf};
ghost use Rattle.long_face.specs.Present.{HaveOtherFollowers};

use crate::bond_faces::bond_numbers;
use crate::polygons::polygon_steps;
use face_weights::number_faces;
use pair_split::Kind;
use skel_decompose::{FlatLists, Order, face_steps, followers_by_steps};
use skel_embed::PlaneBlock;
use spqr_tree::Tree;
use std::alloc::{AllocError, Global};

// Whether what follows the items of node k is read off the rotation system.
fn is_read(tree: &Tree, k: u32) -> bool
    requires { k < length tree.now }
    ensures { result ≡ false → ((node_at tree.now k).kind ≡ S) ⊎ ((node_at tree.now k).kind ≡ P) }
{
    match tree.kind(k) {
        Kind::S | Kind::P => false,
        Kind::R | Kind::B => true,
    }
}

// Whether those of some node are.
fn some_read(tree: &Tree) -> bool
    ensures { result ≡ false → (k : ℕ) → k < length tree.now
        → ((node_at tree.now k).kind ≡ S) ⊎ ((node_at tree.now k).kind ≡ P) }
{
    for k in 0..tree.node_count() {
        if is_read(tree, k) {
            return true;
        }
    }
    false
}

// What follows the items of the nodes, where some node is neither a polygon nor a bond, by the face steps of the present rotation
// system; `order` is that of `order_of`.
fn other_followers(
    alloc: Global,
    p: &PlaneBlock,
    order: &Order,
    block_steps: &[u32],
) -> Result<FlatLists, AllocError>
    requires steps { AreFaceSteps p.now.graph p.now.rotation block_steps.now }
    requires order { IsOrderOf p.now.tree order.now.parents.items order.now.nodes.items }
    requires first { HangFromFirst p.now.tree order.now.parents.items }
    ensures { IfOk result (HaveOtherFollowers p.now.tree p.now.rotation) }
{
    p.belongs();
    p.graph().keeps_limits();
    if some_read(p.tree()) {
        return Ok(followers_by_steps(alloc, p.graph(), p.tree(), order, block_steps)?);
    }
    FlatLists::with_capacity(alloc, 0)
}

// Puts the numbers of the darts of node k into `own`. `sums` has a place for each vertex of the block; `sums` and `steps` are changed on the way.
fn numbers_at(
    p: &PlaneBlock,
    k: u32,
    others: &FlatLists,
    sums: &mut [u32],
    steps: &mut Vec<u32>,
    own: &mut Vec<u32>,
) -> Result<(), AllocError>
    requires node { k < length p.now.tree }
    requires others { HaveOtherFollowers p.now.tree p.now.rotation others.now }
    requires places { length sums.old ≡ p.now.graph.vertex_count }
    ensures places { length sums.new ≡ length sums.old }
    ensures numbers { IfOk result (λ _. (family : List (List (List ℕ))) → AreSkeletonSystems p.now.tree family
        → FollowsFamily p.now.tree family p.now.rotation
        → NumberFaces (skeleton_graph p.now.tree k) (system_at family k) own.new.items) }
{
    p.belongs();
    p.graph().keeps_limits();
    let tree = p.tree();
    match tree.kind(k) {
        Kind::P => bond_numbers(tree.items(k), p.keys(k), own),
        Kind::S => {
            polygon_steps(tree, k, sums, steps)?;
            number_faces(steps, own)
        }
        Kind::R | Kind::B => {
            face_steps(tree, others, k, steps)?;
            number_faces(steps, own)
        }
    }
}

// The faces of the skeletons, in the family that the present rotation system follows, which has these face steps. In time n log n. Fails
// only if memory runs out.
pub(crate) fn present_faces(
    alloc: Global,
    p: &PlaneBlock,
    order: &Order,
    block_steps: &[u32],
) -> Result<FlatLists, AllocError>
    requires steps { AreFaceSteps p.now.graph p.now.rotation block_steps.now }
    requires order { IsOrderOf p.now.tree order.now.parents.items order.now.nodes.items }
    requires first { HangFromFirst p.now.tree order.now.parents.items }
    ensures { IfOk result (λ faces. (family : List (List (List ℕ))) → AreSkeletonSystems p.now.tree family
        → FollowsFamily p.now.tree family p.now.rotation → KnowFaces p.now.tree family faces) }
{
    p.belongs();
    let others = other_followers(alloc, p, order, block_steps)?;
    let mut faces = FlatLists::with_capacity(alloc, p.tree().node_count() as usize)?;
    let mut sums = vec![in alloc; 0; p.graph().vertex_count() as usize]?;
    let (mut steps, mut own) = (Vec::new(alloc), Vec::new(alloc));
    for k in 0..p.tree().node_count() {
        numbers_at(p, k, &others, &mut sums, &mut steps, &mut own)?;
        faces.push(&own)?;
    }
    Ok(faces)
}
