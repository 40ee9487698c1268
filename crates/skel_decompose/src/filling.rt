// The table filled by climbs from all edges.

ghost use Rattle.std.specs.Prelude.{List, ℕ, IfOk};
ghost use Rattle.faces.specs.Steps.{AreFaceSteps};
ghost use Rattle.skel_compose.specs.Followers.{IsTable, HasFollowers};
ghost use Rattle.skel_decompose.specs.Followers.{IsInRuns, IsFamily};
ghost use Rattle.skel_decompose.specs.Orders.{HangFromFirst, IsOrderOf};

use crate::climbing::join;
use crate::lists::FlatLists;
use crate::ordering::{Order, order_of};
use crate::survey::{Survey, surveyed};
use faces::face_steps;
use multigraph::Graph;
use rotations::Rotation;
use spqr_tree::Tree;
use std::alloc::{AllocError, Global};

/// What `followers` returns for the rotation system with these face steps (`faces::face_steps`); `order` is that of `order_of`. In linear
/// time: a climb takes as many steps as it writes entries, and each entry is written once. Fails only if memory runs out.
pub fn followers_by_steps(
    alloc: Global,
    g: &Graph,
    tree: &Tree,
    order: &Order,
    steps: &[u32],
) -> Result<FlatLists, AllocError>
    requires steps { (r : List (List ℕ)) × IsInRuns g.now tree.now r × AreFaceSteps g.now r steps.now }
    requires order { IsOrderOf tree.now order.now.parents.items order.now.nodes.items }
    requires first { HangFromFirst tree.now order.now.parents.items }
    ensures table { IfOk result (λ table. IsTable tree.now table) }
    ensures followers { IfOk result (λ table. (r : List (List ℕ)) (family : List (List (List ℕ)))
        → IsInRuns g.now tree.now r → AreFaceSteps g.now r steps.now → IsFamily tree.now r family
        → HasFollowers tree.now family table) }
{
    let Survey {
        homes,
        ups,
        ranks,
        mut table,
    } = surveyed(alloc, g, tree, order)?;
    for e in 0..g.edge_count() {
        let home = homes[e as usize];
        let (a, b) = g.ends(e);
        let after_a = steps[2 * e as usize + 1] / 2;
        let after_b = steps[2 * e as usize] / 2;
        join(tree, &homes, &ups, &ranks, &mut table, home, a, e, after_a);
        join(tree, &homes, &ups, &ranks, &mut table, home, b, e, after_b);
    }
    Ok(table)
}

/// What follows each item of each node around both of its ends, in the family that a rotation system of the block follows: a list for each
/// node, with two places for each of its items. Of an item the first is for its lesser end. It is read off the rotation system, in
/// linear time. Fails only if memory runs out.
pub fn followers(
    alloc: Global,
    g: &Graph,
    tree: &Tree,
    r: &Rotation,
) -> Result<FlatLists, AllocError>
    requires runs { IsInRuns g.now tree.now r.now }
    ensures table { IfOk result (λ table. IsTable tree.now table) }
    ensures followers { IfOk result (λ table. (family : List (List (List ℕ)))
        → IsFamily tree.now r.now family → HasFollowers tree.now family table) }
{
    let order = order_of(alloc, tree)?;
    let steps = face_steps(alloc, g, r)?;
    followers_by_steps(alloc, g, tree, &order, &steps)
}
