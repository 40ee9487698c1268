// Beyond which item of a node at a vertex there is most, and beyond which least. Groups of many edges are left where they are where a node
// is moved; which they are changes no result.

ghost use Rattle.std.specs.Prelude.{◌≡◌, ◌<◌, true, length};
ghost use Rattle.permutations.specs.Members.{is_member};
ghost use Rattle.rotations.specs.Rotation.{order_at, IsRotationSystem};
ghost use Rattle.skeletons.specs.Items.{IsBlockTree};

use crate::runs::first_nearby;
use multigraph::Graph;
use pair_split::{Item, What};
use rotations::Rotation;
use spqr_tree::Tree;

// Two keys of items.
#[derive(Clone, Copy)]
pub(crate) struct Extremes {
    pub(crate) least: u32,
    pub(crate) most: u32,
}

// How many items the node beyond the item has, if it is a link.
fn items_beyond(t: &Tree, item: &Item) -> usize {
    match item.what {
        What::Link(j) if j < t.node_count() => t.items(j).len(),
        _ => 0,
    }
}

// The keys of the items of node k at v beyond which there are the fewest items and the most.
pub(crate) fn extremes_at(t: &Tree, k: u32, v: u32) -> Extremes
    requires { k < length t.now }
{
    let (mut least, mut most) = (0, 0);
    let (mut few, mut many) = (usize::MAX, 0);
    for item in t.items(k) {
        if item.a == v || item.b == v {
            let number = items_beyond(t, item);
            if number < few {
                few = number;
                least = item.key;
            }
            if many <= number {
                many = number;
                most = item.key;
            }
        }
    }
    Extremes { least, most }
}

// The nearest edge before e around v whose group has this key.
fn edge_before(g: &Graph, t: &Tree, r: &Rotation, k: u32, v: u32, e: u32, key: u32) -> u32
    requires block { IsBlockTree g.now t.now }
    requires node { k < length t.now }
    requires system { IsRotationSystem g.now r.now }
    requires vertex { v < g.now.vertex_count }
    requires around { is_member e (order_at r.now v) ≡ true }
    ensures { is_member result (order_at r.now v) ≡ true }
{
    let mut at = e;
    for _step in 0..g.degree(v) {
        at = r.pred(v, at);
        if t.group(k, at) == key {
            return at;
        }
    }
    at
}

// An edge at v: the last of the run of the item of node k beyond which there is most, if node k has no more items than v has edges and an
// edge of another group is found nearby; else the least.
pub(crate) fn last_of_most(g: &Graph, t: &Tree, r: &Rotation, k: u32, v: u32) -> u32
    requires block { IsBlockTree g.now t.now }
    requires node { k < length t.now }
    requires system { IsRotationSystem g.now r.now }
    requires vertex { v < g.now.vertex_count }
    requires some { 0 < length (order_at r.now v) }
    ensures { is_member result (order_at r.now v) ≡ true }
{
    let edges = g.incident(v);
    if t.items(k).len() <= edges.len() {
        let keys = extremes_at(t, k, v);
        if let Some(first) = first_nearby(g, t, r, k, v, keys.least) {
            return edge_before(g, t, r, k, v, first, keys.most);
        }
    }
    edges[0]
}
