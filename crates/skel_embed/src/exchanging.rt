// Two groups of a bond exchanged, at each pole. No memory is taken.

ghost use Rattle.std.specs.Prelude.{◌≡◌, ◌<◌, true, length};
ghost use Rattle.rotations.specs.Rotation.{order_at, IsRotationSystem};
ghost use Rattle.rotations.specs.Runs.{IsKeptElsewhere};
ghost use Rattle.pair_split.specs.Tutte.{group};
ghost use Rattle.pair_split.specs.declared.components.Kind.TheVariants.{P};
ghost use Rattle.skeletons.specs.Items.{IsBlockTree, node_keys};
ghost use Rattle.faces.specs.Euler.{IsPlaneSystem};
ghost use Rattle.skeletons.specs.Choices.{choice};
ghost use Rattle.skeletons.specs.Moves.{IsNodeOfKind, PermuteLeads};
ghost use Rattle.skel_embed.specs.Exchanges.{AreExchanged, HasKeys, exchanged};
ghost use Rattle.permutations.specs.Members.{is_member};

use crate::runs::{put_run, run_end, run_first};
use multigraph::Graph;
use rotations::Rotation;
use spqr_tree::Tree;

// Exchanges the groups of node k with the keys a and b around v: each run is moved to the place after what was before the other.
fn exchange_round(g: &Graph, t: &Tree, r: &mut Rotation, k: u32, v: u32, a: u32, b: u32)
    requires block { IsBlockTree g.now t.now }
    requires node { k < length t.now }
    requires vertex { v < g.now.vertex_count }
    requires system { IsRotationSystem g.now r.old }
    requires keys { HasKeys (group t.now k) (order_at r.old v) a b }
    ensures system { IsRotationSystem g.now r.new }
    ensures exchanged { AreExchanged (group t.now k) a b (order_at r.old v) (order_at r.new v) }
    ensures elsewhere { IsKeptElsewhere r.old r.new v }
{
    if a == b {
        return;
    }
    let first_a = run_first(g, t, r, k, v, a);
    let end_a = run_end(g, t, r, k, v, first_a, a);
    let first_b = run_first(g, t, r, k, v, b);
    let end_b = run_end(g, t, r, k, v, first_b, b);
    let before_a = r.pred(v, first_a);
    let before_b = r.pred(v, first_b);
    put_run(r, v, first_b, end_b.last, before_a);
    put_run(r, v, first_a, end_a.last, before_b);
}

// Exchanges the groups of the bond k with the keys a and b at both poles.
pub(crate) fn exchange_node(g: &Graph, t: &Tree, r: &mut Rotation, k: u32, a: u32, b: u32)
    requires block { IsBlockTree g.now t.now }
    requires node { IsNodeOfKind t.now k P }
    requires plane { IsPlaneSystem g.now r.old }
    requires first { is_member a (node_keys t.now k) ≡ true }
    requires second { is_member b (node_keys t.now k) ≡ true }
    ensures { PermuteLeads g.now t.now k (exchanged a b (choice t.now r.old k)) r.old r.new }
{
    let vertices = t.vertices(k);
    exchange_round(g, t, r, k, vertices[0], a, b);
    exchange_round(g, t, r, k, vertices[vertices.len() - 1], a, b);
}
