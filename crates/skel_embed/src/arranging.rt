// The groups of a bond brought into the cyclic order of given keys at both poles, in one pass. No memory is taken. One group stays where it
// is and is not looked at: that beyond which there is most.

ghost use Rattle.std.specs.Prelude.{◌≡◌, ◌<◌, ◌≤◌, length, slice_index_or, IsPermutation};
ghost use Rattle.rotations.specs.Rotation.{order_at, IsRotationSystem};
ghost use Rattle.rotations.specs.Runs.{IsKeptElsewhere};
ghost use Rattle.pair_split.specs.Tutte.{group};
ghost use Rattle.pair_split.specs.declared.components.Kind.TheVariants.{P};
ghost use Rattle.skeletons.specs.Items.{IsBlockTree, node_keys};
ghost use Rattle.faces.specs.Euler.{IsPlaneSystem};
ghost use Rattle.skeletons.specs.Moves.{AreRegrouped, IsNodeOfKind, PermuteLeads};
ghost use Rattle.skel_embed.specs.Arranged.{directed, from_place, HasGroupsOf};

use crate::kept::position;
use crate::runs::run_with;
use crate::sizes::extremes_at;
use multigraph::Graph;
use rotations::Rotation;
use spqr_tree::Tree;

// The key at place i of the cyclic order written from a place on.
fn key_from(keys: &[u32], place: usize, i: usize) -> u32
    requires place { place ≤ length keys.now }
    requires within { i < length keys.now }
    ensures { result ≡ slice_index_or (from_place place keys.now) i 0 }
{
    let rest = keys.len() - place;
    if i < rest {
        keys[place + i]
    } else {
        keys[i - rest]
    }
}

// The key at place i of the cyclic order, or of the reverse order if `backwards`, written such that the key at `end` is the last.
fn key_at(keys: &[u32], end: usize, backwards: bool, i: usize) -> u32
    requires end { end < length keys.now }
    requires within { i < length keys.now }
    ensures { result ≡ slice_index_or (directed backwards end keys.now) i 0 }
{
    if backwards {
        key_from(keys, end, keys.len() - 1 - i)
    } else {
        key_from(keys, end + 1, i)
    }
}

// Brings the groups of node k around v into the cyclic order of the keys, or into the reverse order: each run after the first is moved to
// the place after the one before it. The run of the key at `end` comes last, and so is not looked at.
fn arrange_round(
    g: &Graph,
    t: &Tree,
    r: &mut Rotation,
    k: u32,
    v: u32,
    keys: &[u32],
    end: usize,
    backwards: bool,
)
    requires block { IsBlockTree g.now t.now }
    requires node { k < length t.now }
    requires vertex { v < g.now.vertex_count }
    requires system { IsRotationSystem g.now r.old }
    requires end { end < length keys.now }
    requires groups { HasGroupsOf (group t.now k) (order_at r.old v) (directed backwards end keys.now) }
    ensures system { IsRotationSystem g.now r.new }
    ensures arranged { AreRegrouped (group t.now k) (order_at r.old v)
        (directed backwards end keys.now) (order_at r.new v) }
    ensures elsewhere { IsKeptElsewhere r.old r.new v }
{
    let first = key_at(keys, end, backwards, 0);
    let start = run_with(g, t, r, k, v, first);
    let mut last = start.last;
    for i in 1..keys.len() - 1 {
        let key = key_at(keys, end, backwards, i);
        let run = run_with(g, t, r, k, v, key);
        r.move_run(v, run.first, run.last, last);
        last = run.last;
    }
}

// The place of the key beyond which there are the most items.
fn place_of_most(t: &Tree, k: u32, v: u32, keys: &[u32]) -> usize
    requires node { k < length t.now }
    requires some { 0 < length keys.now }
    ensures { result < length keys.now }
{
    match position(keys, extremes_at(t, k, v).most) {
        Some(place) if place < keys.len() => place,
        _ => 0,
    }
}

// Brings the groups of the bond k into the cyclic order of the keys at the lesser pole, and into the reverse at the other.
pub(crate) fn arrange_node(g: &Graph, t: &Tree, r: &mut Rotation, k: u32, keys: &[u32])
    requires block { IsBlockTree g.now t.now }
    requires node { IsNodeOfKind t.now k P }
    requires plane { IsPlaneSystem g.now r.old }
    requires arrangement { IsPermutation (node_keys t.now k) keys.now }
    ensures { PermuteLeads g.now t.now k keys.now r.old r.new }
{
    let vertices = t.vertices(k);
    let end = place_of_most(t, k, vertices[0], keys);
    arrange_round(g, t, r, k, vertices[0], keys, end, false);
    arrange_round(g, t, r, k, vertices[vertices.len() - 1], keys, end, true);
}
