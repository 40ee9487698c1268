// The face steps of the skeletons, from the table.

ghost use Rattle.std.specs.Prelude.{◌≡◌, ◌<◌, ℕ, List, length, IfOk};
ghost use Rattle.permutations.specs.Members.{place_of};
ghost use Rattle.multigraph.specs.Graph.{Multigraph, IsWithinLimits};
ghost use Rattle.faces.specs.Euler.{dart_from};
ghost use Rattle.faces.specs.Steps.{AreFaceSteps};
ghost use Rattle.pair_split.specs.Tutte.{node_at};
ghost use Rattle.skeletons.specs.Items.{IsBlockTree};
ghost use Rattle.skeletons.specs.Families.{skeleton_graph, system_at, AreSkeletonSystems};
ghost use Rattle.skel_compose.specs.Followers.{IsItemEnd, follower, IsTable, HasFollowers};

use crate::lists::FlatLists;
use skel_compose::item_place;
use spqr_tree::Tree;
use std::alloc::AllocError;

// The dart by which a face of the skeleton of node k continues that arrives at v by item i.
fn onward(tree: &Tree, table: &FlatLists, k: u32, i: u32, v: u32) -> u32
    requires block { (g : Multigraph) × IsBlockTree g tree.now × IsWithinLimits g }
    requires end { IsItemEnd tree.now k i v }
    requires table { IsTable tree.now table.now }
    requires family { (family : List (List (List ℕ))) × AreSkeletonSystems tree.now family
        × HasFollowers tree.now family table.now }
    ensures { (family : List (List (List ℕ))) → AreSkeletonSystems tree.now family
        → HasFollowers tree.now family table.now → result ≡ dart_from (skeleton_graph tree.now k)
        (place_of (node_at tree.now k).vertices v) (follower tree.now family k i v) }
{
    let next = table.number(k as usize, item_place(tree, k, i, v));
    item_place(tree, k, next, v) as u32
}

/// Puts the face steps of the skeleton of node `k` into `steps`, where `table` has what follows the items (`followers`): for each dart of the
/// skeleton the next one of its face, in the rotation system that the family has there. No skeleton is made as a graph of its own. In
/// linear time. Fails only if memory runs out.
pub fn face_steps(
    tree: &Tree,
    table: &FlatLists,
    k: u32,
    steps: &mut Vec<u32>,
) -> Result<(), AllocError>
    requires block { (g : Multigraph) × IsBlockTree g tree.now × IsWithinLimits g }
    requires node { k < length tree.now }
    requires table { IsTable tree.now table.now }
    requires family { (family : List (List (List ℕ))) × AreSkeletonSystems tree.now family
        × HasFollowers tree.now family table.now }
    ensures { IfOk result (λ _. (family : List (List (List ℕ))) → AreSkeletonSystems tree.now family
        → HasFollowers tree.now family table.now
        → AreFaceSteps (skeleton_graph tree.now k) (system_at family k) steps.new.items) }
{
    let items = tree.items(k);
    steps.clear();
    for i in 0..items.len() as u32 {
        let item = &items[i as usize];
        steps.push(onward(tree, table, k, i, item.b))?;
        steps.push(onward(tree, table, k, i, item.a))?;
    }
    Ok(())
}
