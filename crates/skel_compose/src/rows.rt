// The list of one node of a table: of a polygon, of a bond, and of any node from a rotation system of its skeleton.

ghost use Rattle.std.specs.Prelude.{◌≡◌, ◌<◌, ◌≤◌, ℕ, List, true, length, IfOk};
ghost use Rattle.permutations.specs.Members.{is_member, is_distinct};
ghost use Rattle.multigraph.specs.Graph.{Multigraph, edge_count, max_edges, IsWithinLimits};
ghost use Rattle.rotations.specs.Rotation.{IsRotationSystem};
ghost use Rattle.pair_split.specs.Tutte.{node_at};
ghost use Rattle.pair_split.specs.declared.components.Kind.TheVariants.{S};
ghost use Rattle.skeletons.specs.Items.{IsBlockTree};
ghost use Rattle.skeletons.specs.Moves.{IsNodeOfKind};
ghost use Rattle.skeletons.specs.Families.{skeleton_graph};
ghost use Rattle.skel_compose.specs.EndSums.{AreEndSums};
ghost use Rattle.skel_compose.specs.Followers.{IsRow, HasNext, HasTurns};

use crate::sums::end_sums;
use multigraph::Graph;
use rotations::Rotation;
use spqr_tree::Tree;
use std::alloc::AllocError;

/// Makes `row` the list of what follows each edge of a graph around its first end, and then around its second. For the skeleton of a node
/// it is the list of the node. In linear time. Fails only if memory runs out.
pub fn next_edges(graph: &Graph, r: &Rotation, row: &mut Vec<u32>) -> Result<(), AllocError>
    requires { IsRotationSystem graph.now r.now }
    ensures { IfOk result (λ _. HasNext graph.now r.now (edge_count graph.now) row.new.items) }
{
    row.clear();
    for i in 0..graph.edge_count() {
        let (first, second) = graph.ends(i);
        row.push(r.succ(first, i))?;
        row.push(r.succ(second, i))?;
    }
    Ok(())
}

// The list of a polygon, where the sums over the items at its vertices are known.
fn others(tree: &Tree, k: u32, sums: &[u32], row: &mut Vec<u32>) -> Result<(), AllocError>
    requires block { (g : Multigraph) × IsBlockTree g tree.now × IsWithinLimits g }
    requires polygon { IsNodeOfKind tree.now k S }
    requires sums { AreEndSums tree.now k (length (node_at tree.now k).items) sums.now }
    ensures { IfOk result (λ _. (s : List (List ℕ)) → IsRotationSystem (skeleton_graph tree.now k) s
        → IsRow tree.now k s row.new.items) }
{
    row.clear();
    let items = tree.items(k);
    for i in 0..items.len() as u32 {
        let (a, b) = (items[i as usize].a, items[i as usize].b);
        let first = sums[a as usize] - i;
        let second = sums[b as usize] - i;
        row.push(first)?;
        row.push(second)?;
    }
    Ok(())
}

/// Makes `row` the list of the polygon `k`: two items meet at each of its vertices, and each follows the other. `sums` has a place for each
/// vertex of the block, and is changed on the way. In linear time. Fails only if memory runs out.
pub fn polygon_row(
    tree: &Tree,
    k: u32,
    sums: &mut [u32],
    row: &mut Vec<u32>,
) -> Result<(), AllocError>
    requires block { (g : Multigraph) × IsBlockTree g tree.now × IsWithinLimits g
        × (length sums.old ≡ g.vertex_count) }
    requires polygon { IsNodeOfKind tree.now k S }
    ensures places { length sums.new ≡ length sums.old }
    ensures row { IfOk result (λ _. (s : List (List ℕ)) → IsRotationSystem (skeleton_graph tree.now k) s
        → IsRow tree.now k s row.new.items) }
{
    end_sums(tree, k, sums);
    others(tree, k, sums, row)
}

/// Makes `row` the list of a bond that has its items in this cyclic order at its lesser pole, and in the reverse at the other. In linear
/// time. Fails only if memory runs out.
pub fn bond_row(items: &[u32], row: &mut Vec<u32>) -> Result<(), AllocError>
    requires once { is_distinct items.now ≡ true }
    requires below { (x : ℕ) → is_member x items.now ≡ true → x < length items.now }
    requires few { length items.now ≤ max_edges }
    ensures { IfOk result (λ _. HasTurns items.now row.new.items) }
{
    row.clear();
    row.resize(2 * items.len(), 0)?;
    for i in 0..items.len() {
        let item = items[i];
        let next = if i + 1 < items.len() {
            items[i + 1]
        } else {
            items[0]
        };
        row[2 * item as usize] = next;
        row[2 * next as usize + 1] = item;
    }
    Ok(())
}
