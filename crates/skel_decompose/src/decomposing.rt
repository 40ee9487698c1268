// The rotation systems of the skeletons that a rotation system of the block follows.

ghost use Rattle.std.specs.Prelude.{IfOk};
ghost use Rattle.rotations.specs.Rotation.{IsRotationSystem};
ghost use Rattle.skeletons.specs.Items.{IsBlockTree};
ghost use Rattle.skeletons.specs.Round.{IsContiguous};
ghost use Rattle.skeletons.specs.Families.{AreSkeletonSystems, FollowsFamily};

use crate::filling::followers;
use crate::members::member_of;
use multigraph::Graph;
use rotations::Rotation;
use spqr_tree::Tree;
use std::alloc::{AllocError, Global};

/// The family that a rotation system of a block follows, one rotation system for the skeleton of each node of its tree: the
/// groups of each node are in runs, and the runs around a vertex are its items there, in their cyclic order (Di Battista and
/// Tamassia 1996).
///
/// There is exactly one. Fails only if memory runs out.
pub fn decompose(
    alloc: Global,
    g: &Graph,
    tree: &Tree,
    r: &Rotation,
) -> Result<Vec<Rotation>, AllocError>
    requires block { IsBlockTree g.now tree.now }
    requires system { IsRotationSystem g.now r.now }
    requires runs { IsContiguous tree.now r.now }
    ensures systems { IfOk result (λ members. AreSkeletonSystems tree.now members.items) }
    ensures follows { IfOk result (λ members. FollowsFamily tree.now members.items r.now) }
{
    g.keeps_limits();
    let table = followers(alloc, g, tree, r)?;
    let mut members = Vec::with_capacity(alloc, tree.node_count() as usize)?;
    for k in 0..tree.node_count() {
        members.push(member_of(alloc, tree, &table, k)?)?;
    }
    Ok(members)
}
