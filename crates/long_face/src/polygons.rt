// The face steps of a polygon: two items meet at each of its vertices, and a face that arrives by one of them continues by the other, whose
// place is the sum of both places without that of the first.

ghost use Rattle.std.specs.Prelude.{◌≡◌, ◌<◌, ◌+◌, ℕ, List, length, IfOk};
ghost use Rattle.permutations.specs.Members.{place_of};
ghost use Rattle.multigraph.specs.Graph.{Multigraph, IsWithinLimits};
ghost use Rattle.faces.specs.Euler.{dart_from};
ghost use Rattle.faces.specs.Steps.{AreFaceSteps};
ghost use Rattle.pair_split.specs.Tutte.{node_at};
ghost use Rattle.pair_split.specs.declared.components.Kind.TheVariants.{S};
ghost use Rattle.skeletons.specs.Items.{IsBlockTree};
ghost use Rattle.skeletons.specs.Moves.{IsNodeOfKind};
ghost use Rattle.skeletons.specs.Families.{skeleton_graph, system_at, AreSkeletonSystems};
ghost use Rattle.skel_compose.specs.Followers.{IsItemEnd, follower};
ghost use Rattle.skel_compose.specs.EndSums.{AreEndSums};

use skel_compose::end_sums;
use spqr_tree::Tree;
use std::alloc::AllocError;

// The dart by which a face of the polygon k continues that arrives at v by item i.
fn onward(tree: &Tree, k: u32, sums: &[u32], i: u32, v: u32) -> u32
    requires block { (g : Multigraph) × IsBlockTree g tree.now × IsWithinLimits g }
    requires polygon { IsNodeOfKind tree.now k S }
    requires end { IsItemEnd tree.now k i v }
    requires sums { AreEndSums tree.now k (length (node_at tree.now k).items) sums.now }
    requires family { (family : List (List (List ℕ))) × AreSkeletonSystems tree.now family }
    ensures { (family : List (List (List ℕ))) → AreSkeletonSystems tree.now family
        → result ≡ dart_from (skeleton_graph tree.now k) (place_of (node_at tree.now k).vertices v)
        (follower tree.now family k i v) }
{
    let next = sums[v as usize] - i;
    if tree.items(k)[next as usize].a == v {
        2 * next
    } else {
        2 * next + 1
    }
}

// Puts the face steps of the polygon k into `steps`, where the sums are known.
fn steps_of(tree: &Tree, k: u32, sums: &[u32], steps: &mut Vec<u32>) -> Result<(), AllocError>
    requires block { (g : Multigraph) × IsBlockTree g tree.now × IsWithinLimits g }
    requires polygon { IsNodeOfKind tree.now k S }
    requires sums { AreEndSums tree.now k (length (node_at tree.now k).items) sums.now }
    requires family { (family : List (List (List ℕ))) × AreSkeletonSystems tree.now family }
    ensures { IfOk result (λ _. (family : List (List (List ℕ))) → AreSkeletonSystems tree.now family
        → AreFaceSteps (skeleton_graph tree.now k) (system_at family k) steps.new.items) }
{
    let items = tree.items(k);
    steps.clear();
    for i in 0..items.len() as u32 {
        let (a, b) = (items[i as usize].a, items[i as usize].b);
        steps.push(onward(tree, k, sums, i, b))?;
        steps.push(onward(tree, k, sums, i, a))?;
    }
    Ok(())
}

// Puts the face steps of the polygon k into `steps`. `sums` has a place for each vertex of the block, and is changed on the way. In linear
// time. Fails only if memory runs out.
pub(crate) fn polygon_steps(
    tree: &Tree,
    k: u32,
    sums: &mut [u32],
    steps: &mut Vec<u32>,
) -> Result<(), AllocError>
    requires block { (g : Multigraph) × IsBlockTree g tree.now × IsWithinLimits g
        × (length sums.old ≡ g.vertex_count) }
    requires polygon { IsNodeOfKind tree.now k S }
    requires family { (family : List (List (List ℕ))) × AreSkeletonSystems tree.now family }
    ensures places { length sums.new ≡ length sums.old }
    ensures steps { IfOk result (λ _. (family : List (List (List ℕ))) → AreSkeletonSystems tree.now family
        → AreFaceSteps (skeleton_graph tree.now k) (system_at family k) steps.new.items) }
{
    end_sums(tree, k, sums);
    steps_of(tree, k, sums, steps)
}
