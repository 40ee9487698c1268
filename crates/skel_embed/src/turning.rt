// A triconnected node flipped: at each of its vertices its groups in the reverse cyclic order. No memory is taken.

ghost use Rattle.std.specs.Prelude.{◌≡◌, ◌<◌, ℕ, true, length};
ghost use Rattle.rotations.specs.Rotation.{order_at, IsRotationSystem};
ghost use Rattle.rotations.specs.Runs.{IsKeptElsewhere};
ghost use Rattle.pair_split.specs.Tutte.{group};
ghost use Rattle.skeletons.specs.Items.{has_vertex, IsBlockTree};
ghost use Rattle.skeletons.specs.Moves.{AreReversed, FlipLeads};
ghost use Rattle.skel_embed.specs.Steps.{StandInTwoRuns};

use crate::runs::run_end;
use crate::sizes::last_of_most;
use multigraph::Graph;
use rotations::Rotation;
use spqr_tree::Tree;

// Reverses the cyclic order of the groups of node k around v: each run after the second is moved to the place after the first. The first
// begins at the edge that last_of_most returns, so that the greatest group is not walked along if that is its last edge.
fn turn_round(g: &Graph, t: &Tree, r: &mut Rotation, k: u32, v: u32)
    requires block { IsBlockTree g.now t.now }
    requires node { k < length t.now }
    requires vertex { v < g.now.vertex_count }
    requires system { IsRotationSystem g.now r.old }
    requires runs { StandInTwoRuns (group t.now k) (order_at r.old v) }
    ensures system { IsRotationSystem g.now r.new }
    ensures turned { AreReversed (group t.now k) (order_at r.old v) (order_at r.new v) }
    ensures elsewhere { IsKeptElsewhere r.old r.new v }
{
    let first = last_of_most(g, t, r, k, v);
    let key = t.group(k, first);
    let front = run_end(g, t, r, k, v, first, key);
    let mut ahead = run_end(g, t, r, k, v, front.next, front.next_key);
    for _turn in 0..g.degree(v) {
        if ahead.next_key == key {
            return;
        }
        let run = run_end(g, t, r, k, v, ahead.next, ahead.next_key);
        r.move_run(v, ahead.next, run.last, front.last);
        ahead = run;
    }
}

// Reverses the cyclic order of the groups of node k around each of its vertices.
pub(crate) fn turn_node(g: &Graph, t: &Tree, r: &mut Rotation, k: u32)
    requires block { IsBlockTree g.now t.now }
    requires node { k < length t.now }
    requires system { IsRotationSystem g.now r.old }
    requires runs { (v : ℕ) → has_vertex t.now k v ≡ true
        → StandInTwoRuns (group t.now k) (order_at r.old v) }
    ensures { FlipLeads g.now t.now k r.old r.new }
{
    for v in t.vertices(k) {
        turn_round(g, t, r, k, *v);
    }
}
