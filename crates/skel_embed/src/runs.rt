// Runs of edges of one group around a vertex of a node, found and moved elsewhere. No memory is taken.

ghost use Rattle.std.specs.Prelude.{◌≡◌, ◌≢◌, ◌<◌, ◌↔◌, ℕ, true, length, IfSome, IsTrue};
ghost use Rattle.permutations.specs.Cyclic.{successor};
ghost use Rattle.permutations.specs.Members.{is_member};
ghost use Rattle.rotations.specs.Rotation.{order_at, IsRotationSystem};
ghost use Rattle.rotations.specs.Runs.{IsOutside, IsKeptElsewhere};
ghost use Rattle.pair_split.specs.Tutte.{group};
ghost use Rattle.skeletons.specs.Items.{IsBlockTree};
ghost use Rattle.skel_embed.specs.Steps.{EndsRun, BeginsRun, IsPut, StandInTwoRuns};

use multigraph::Graph;
use pair_split::{Item, What};
use rotations::Rotation;
use spqr_tree::Tree;

// The end of a run around a vertex: its last edge, and the edge after it with the key of its group.
#[derive(Clone, Copy)]
pub(crate) struct RunEnd {
    pub(crate) last: u32,
    pub(crate) next: u32,
    pub(crate) next_key: u32,
}

// The end of the run around v, by the groups of node k, that e is in, whose edges have this key.
pub(crate) fn run_end(g: &Graph, t: &Tree, r: &Rotation, k: u32, v: u32, e: u32, key: u32) -> RunEnd
    requires block { IsBlockTree g.now t.now }
    requires node { k < length t.now }
    requires system { IsRotationSystem g.now r.now }
    requires vertex { v < g.now.vertex_count }
    requires key { key ≡ group t.now k e }
    requires ends { (last : ℕ) × EndsRun (group t.now k) (order_at r.now v) e last }
    ensures ends { EndsRun (group t.now k) (order_at r.now v) e result.last }
    ensures next { result.next ≡ successor (order_at r.now v) result.last }
    ensures key { result.next_key ≡ group t.now k result.next }
{
    let mut at = e;
    for _step in 0..g.degree(v) {
        let next = r.succ(v, at);
        let next_key = t.group(k, next);
        if next_key != key {
            return RunEnd {
                last: at,
                next,
                next_key,
            };
        }
        at = next;
    }
    unreachable!()
}

// Whether e is the first edge of the run around v whose edges have this key.
fn is_first(g: &Graph, t: &Tree, r: &Rotation, k: u32, v: u32, e: u32, key: u32) -> bool
    requires block { IsBlockTree g.now t.now }
    requires node { k < length t.now }
    requires system { IsRotationSystem g.now r.now }
    requires vertex { v < g.now.vertex_count }
    requires around { is_member e (order_at r.now v) ≡ true }
    ensures { IsTrue result ↔ BeginsRun (group t.now k) (order_at r.now v) key e }
{
    t.group(k, e) == key && t.group(k, r.pred(v, e)) != key
}

// The first edge of the run around v that e is in, if its edges have this key: it is looked for from edge to edge, against the cyclic order.
fn first_from(g: &Graph, t: &Tree, r: &Rotation, k: u32, v: u32, e: u32, key: u32) -> Option<u32>
    requires block { IsBlockTree g.now t.now }
    requires node { k < length t.now }
    requires system { IsRotationSystem g.now r.now }
    requires vertex { v < g.now.vertex_count }
    requires around { is_member e (order_at r.now v) ≡ true }
    ensures { IfSome result (BeginsRun (group t.now k) (order_at r.now v) key) }
{
    if t.group(k, e) != key {
        return None;
    }
    let mut at = e;
    for _step in 0..g.degree(v) {
        let before = r.pred(v, at);
        if t.group(k, before) != key {
            return Some(at);
        }
        at = before;
    }
    None
}

// The first edge of the run around v whose edges have this key, if e is in it.
fn first_at(g: &Graph, t: &Tree, r: &Rotation, k: u32, v: u32, e: u32, key: u32) -> Option<u32>
    requires block { IsBlockTree g.now t.now }
    requires node { k < length t.now }
    requires system { IsRotationSystem g.now r.now }
    requires vertex { v < g.now.vertex_count }
    ensures { IfSome result (BeginsRun (group t.now k) (order_at r.now v) key) }
{
    if g.is_edge_at(e, v) {
        first_from(g, t, r, k, v, e, key)
    } else {
        None
    }
}

// The node beyond the item of node k with this key, if it is a link to one.
fn node_beyond(t: &Tree, k: u32, key: u32) -> Option<u32>
    requires { k < length t.now }
    ensures { IfSome result (λ j. j < length t.now) }
{
    let items = t.items(k);
    let Ok(place) = items.binary_search_by_key(&key, |item| item.key) else {
        return None;
    };
    match items[place].what {
        What::Link(j) if j < t.node_count() => Some(j),
        _ => None,
    }
}

// The items of the node beyond the item of node k with this key, if they are no more than this.
fn few_beyond(t: &Tree, k: u32, key: u32, most: u32) -> &[Item]
    requires { k < length t.now }
{
    match node_beyond(t, k, key) {
        Some(j) if t.items(j).len() <= most as usize => t.items(j),
        _ => &[],
    }
}

// The first edge of the run around v whose edges have this key, if the least edge of its group is at v, or that of an item at v of the node
// beyond, which has no more items than v has edges.
pub(crate) fn first_nearby(
    g: &Graph,
    t: &Tree,
    r: &Rotation,
    k: u32,
    v: u32,
    key: u32,
) -> Option<u32>
    requires block { IsBlockTree g.now t.now }
    requires node { k < length t.now }
    requires system { IsRotationSystem g.now r.now }
    requires vertex { v < g.now.vertex_count }
    ensures { IfSome result (BeginsRun (group t.now k) (order_at r.now v) key) }
{
    if let Some(first) = first_at(g, t, r, k, v, key, key) {
        return Some(first);
    }
    for item in few_beyond(t, k, key, g.degree(v)) {
        if item.a == v || item.b == v {
            if let Some(first) = first_at(g, t, r, k, v, item.key, key) {
                return Some(first);
            }
        }
    }
    None
}

// The first edge of the run around v whose edges have this key. Often it is found without a look at all edges at v.
pub(crate) fn run_first(g: &Graph, t: &Tree, r: &Rotation, k: u32, v: u32, key: u32) -> u32
    requires block { IsBlockTree g.now t.now }
    requires node { k < length t.now }
    requires system { IsRotationSystem g.now r.now }
    requires vertex { v < g.now.vertex_count }
    requires begins { (first : ℕ) × BeginsRun (group t.now k) (order_at r.now v) key first }
    ensures { BeginsRun (group t.now k) (order_at r.now v) key result }
{
    if let Some(e) = first_nearby(g, t, r, k, v, key) {
        return e;
    }
    for e in g.incident(v) {
        if is_first(g, t, r, k, v, *e, key) {
            return *e;
        }
    }
    0
}

// A run around a vertex: its first edge and its last.
#[derive(Clone, Copy)]
pub(crate) struct Run {
    pub(crate) first: u32,
    pub(crate) last: u32,
}

// The run around v whose edges have this key.
pub(crate) fn run_with(g: &Graph, t: &Tree, r: &Rotation, k: u32, v: u32, key: u32) -> Run
    requires block { IsBlockTree g.now t.now }
    requires node { k < length t.now }
    requires system { IsRotationSystem g.now r.now }
    requires vertex { v < g.now.vertex_count }
    requires runs { StandInTwoRuns (group t.now k) (order_at r.now v) }
    requires begins { (first : ℕ) × BeginsRun (group t.now k) (order_at r.now v) key first }
    ensures begins { BeginsRun (group t.now k) (order_at r.now v) key result.first }
    ensures ends { EndsRun (group t.now k) (order_at r.now v) result.first result.last }
{
    let first = run_first(g, t, r, k, v, key);
    let end = run_end(g, t, r, k, v, first, key);
    Run {
        first,
        last: end.last,
    }
}

// Moves the run from `first` to `last` to the place after `after`, unless this is its own last edge.
pub(crate) fn put_run(r: &mut Rotation, v: u32, first: u32, last: u32, after: u32)
    requires { after ≢ last → IsOutside (order_at r.old v) first last after }
    ensures put { IsPut (order_at r.old v) (order_at r.new v) first last after }
    ensures elsewhere { IsKeptElsewhere r.old r.new v }
{
    if after != last {
        r.move_run(v, first, last, after);
    }
}
