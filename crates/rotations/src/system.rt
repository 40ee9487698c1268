// Rotation systems, kept as rings of darts.

ghost use Rattle.std.specs.Prelude.{◌≡◌, ℕ, ◌<◌, ◌↔◌, List, length, map, slice_index, IfOk, IfErr, IsTrue};
ghost use Rattle.std.specs.List.{Contains};
ghost use Rattle.permutations.specs.Cyclic.{successor, predecessor};
ghost use Rattle.rotations.specs.Rotation.{order_at, IsRotationSystem};
ghost use Rattle.rotations.specs.Rings.{StandOnRings};
ghost use Rattle.rotations.specs.Runs.{IsOutside, IsRunMoved, IsRunTurned, IsKeptElsewhere, mirror_image};
ghost use Rattle.rotations.specs.Given.{AreArranged, IsRefusal, given_order};
ghost use Rattle.rotations.specs.PartLists.{ArrangePart, IsPartRefusal, outer_order};

use crate::arrangement::check_lists;
use crate::entries::Lists;
use crate::faults::RotFault;
use crate::linking::link;
use crate::outer::{check_part, inner_lists};
use crate::rings::{Frame, dart_at, ring_of, tails_of};
use crate::round::{RotIter, walk_ring};
use multigraph::{FlatLists, Graph, Part, dart_count};
use ring_arena::Rings;
use std::alloc::{AllocError, Global};
use std::marker::Model;
use std::rc::Rc;

/// A rotation system: for each vertex a cyclic order of the edges at it.
///
/// It is kept without the graph, as one ring of darts around each vertex: a step takes constant time, and a run of edges is moved
/// without looking at it. The dart of edge e at its first end is node 2e, that at its second node 2e + 1. Copies share what never
/// changes: the vertex that each dart leaves, and the first dart and the number of darts of each vertex.
#[derive(Debug, Drop)]
pub struct Rotation {
    nodes: Rings,
    frame: Rc<Frame>,
}

impl Model for Rotation {
    ghost use Rattle.std.specs.Prelude.{List, ℕ};

    ghost Value = { List (List ℕ) };

    ghost use Rattle.rotations.specs.Rings.{orders, AreRings};

    ghost view = { λ r. orders r.nodes.next r.frame.value.rings.items };

    ghost invariant = { λ r.
        AreRings r.frame.value.tails.items r.nodes.next r.nodes.prev r.frame.value.rings.items };
}

impl Rotation {
    /// The rotation system that has at each vertex the cyclic order of the list given for it; a vertex that is not named has
    /// the empty list.
    ///
    /// Fails where the lists are not a rotation system, with the least number that is a vertex whose list is not a permutation
    /// of the edges at it, or that is named and not a vertex. Else fails only if memory runs out.
    pub fn from_lists(alloc: Global, g: &Graph, lists: &Lists) -> Result<Rotation, RotFault>
        ensures arranged { IfOk result (λ _. AreArranged g.now lists.now) }
        ensures orders { IfOk result (λ r. (v : ℕ) → v < g.now.vertex_count
            → order_at r v ≡ given_order g.now lists.now v) }
        ensures system { IfOk result (IsRotationSystem g.now) }
        ensures refused { IfErr result (λ fault. IsRefusal g.now lists.now fault) }
    {
        check_lists(alloc, g, lists)?;
        let r = Rotation::of_arranged(alloc, g, lists)?;
        Ok(r)
    }

    /// The rotation system of a part of a graph, from lists in the numbers of the whole graph: it has at each vertex of the part
    /// the cyclic order of the list given for it, in the numbers of the part.
    ///
    /// Fails where the lists are not one, with the least number that is a vertex of the part whose list is not a permutation of
    /// its edges in the part, or that is named and not a vertex of the part. Else fails only if memory runs out.
    pub fn from_part(alloc: Global, p: &Part, lists: &Lists) -> Result<Rotation, RotFault>
        ensures arranged { IfOk result (λ _. ArrangePart p.now lists.now) }
        ensures orders { IfOk result (λ r. (i : ℕ) → i < p.now.graph.vertex_count
            → map (slice_index p.now.edges) (order_at r i) ≡ outer_order p.now lists.now i) }
        ensures system { IfOk result (IsRotationSystem p.now.graph) }
        ensures refused { IfErr result (λ fault. IsPartRefusal p.now lists.now fault) }
    {
        let inner = inner_lists(alloc, p, lists)?;
        check_part(alloc, p, lists, &inner)?;
        let r = Rotation::of_arranged(alloc, p.graph(), &inner)?;
        Ok(r)
    }

    /// The same of lists that are known to be a rotation system: each vertex's list is a permutation of the edges at it, and
    /// only vertices are named. Nothing is checked. Fails only if memory runs out.
    pub fn of_arranged(alloc: Global, g: &Graph, lists: &Lists) -> Result<Rotation, AllocError>
        requires { AreArranged g.now lists.now }
        ensures orders { IfOk result (λ r. (v : ℕ) → v < g.now.vertex_count
            → order_at r v ≡ given_order g.now lists.now v) }
        ensures system { IfOk result (IsRotationSystem g.now) }
    {
        let tails = tails_of(alloc, g)?;
        let mut nodes = Rings::new(alloc, dart_count(g))?;
        let mut rings = Vec::with_capacity(alloc, g.vertex_count() as usize)?;
        let mut at = 0;
        for v in 0..g.vertex_count() {
            let (list, after) = lists.given(at, v);
            link(&tails, v, list, &mut nodes);
            rings.push(ring_of(g, &tails, v))?;
            at = after;
        }
        let frame = Rc::new(alloc, Frame { tails, rings })?;
        Ok(Rotation { nodes, frame })
    }

    /// The number of vertices.
    pub fn vertex_count(&self) -> u32
        ensures { result ≡ length self.now }
    {
        self.frame.rings.len() as u32
    }

    /// The edge that follows edge `e` around `v`.
    pub fn succ(&self, v: u32, e: u32) -> u32
        requires { Contains (order_at self.now v) e }
        ensures { result ≡ successor (order_at self.now v) e }
    {
        let dart = dart_at(&self.frame.tails, v, e);
        self.nodes.next(dart) / 2
    }

    /// The edge that edge `e` follows around `v`.
    pub fn pred(&self, v: u32, e: u32) -> u32
        requires { Contains (order_at self.now v) e }
        ensures { result ≡ predecessor (order_at self.now v) e }
    {
        let dart = dart_at(&self.frame.tails, v, e);
        self.nodes.prev(dart) / 2
    }

    /// The edges around `v` in cyclic order, from the least on.
    pub fn list(&self, v: u32) -> RotIter<'_>
        requires { v < length self.now }
        ensures { result ≡ order_at self.now v }
    {
        let ring = self.frame.rings[v as usize];
        RotIter::from(&self.nodes, ring.first, ring.degree)
    }

    /// The edges around each vertex in cyclic order, each list from the least on. In linear time. Fails only if memory runs out.
    pub fn lists(&self, alloc: Global) -> Result<FlatLists<u32>, AllocError>
        ensures { IfOk result (λ lists. lists ≡ self.now) }
    {
        let next = self.nodes.list_next(alloc)?;
        let mut lists = FlatLists::with_capacity(alloc, self.frame.rings.len())?;
        let mut round = Vec::new(alloc);
        for ring in &self.frame.rings {
            walk_ring(&next, *ring, &mut round)?;
            lists.push(&round)?;
        }
        Ok(lists)
    }

    /// The rings on which it is kept, with two nodes for each edge e, 2e and 2e + 1, one at each of its ends.
    ///
    /// Around each vertex the node after that of an edge is that of the edge which follows it there. Node 2e is at the end
    /// that the graph names first; this the contract can't say, since the cyclic orders are also those of the graph in which the
    /// two ends of e have changed places. It says that the two nodes leave the two ends, one each, of whatever graph the value
    /// is a rotation system of.
    /// For callers of the library: the program does not call it.
    pub fn rings(&self) -> &Rings
        ensures { (tails : List ℕ) × StandOnRings self.now result.now tails }
    {
        &self.nodes
    }

    /// Takes the run of edges from `first` to `last` around `v` out, and inserts it after `after`, which is not in it. Takes constant
    /// time and no memory.
    pub fn move_run(&mut self, v: u32, first: u32, last: u32, after: u32)
        requires { IsOutside (order_at self.old v) first last after }
        ensures moved { IsRunMoved (order_at self.old v) (order_at self.new v) first last after }
        ensures elsewhere { IsKeptElsewhere self.old self.new v }
    {
        let before = dart_at(&self.frame.tails, v, self.pred(v, first));
        let back = dart_at(&self.frame.tails, v, last);
        let place = dart_at(&self.frame.tails, v, after);
        self.nodes.exchange(before, back);
        self.nodes.exchange(place, back);
    }

    /// Reverses the run of edges from `first` to `last` around `v` in its place, in as many steps as it has edges; it is all of
    /// them where `first` follows `last`. Takes no memory.
    /// For callers of the library: the program does not call it.
    pub fn turn_run(&mut self, v: u32, first: u32, last: u32)
        requires first { Contains (order_at self.old v) first }
        requires last { Contains (order_at self.old v) last }
        ensures turned { IsRunTurned (order_at self.old v) (order_at self.new v) first last }
        ensures elsewhere { IsKeptElsewhere self.old self.new v }
    {
        self.nodes.keeps_rings();
        let edge_before = self.pred(v, first);
        let head = dart_at(&self.frame.tails, v, first);
        if edge_before == last {
            self.nodes.reverse(head);
            return;
        }
        let before = dart_at(&self.frame.tails, v, edge_before);
        let end = dart_at(&self.frame.tails, v, last);
        self.nodes.exchange(before, end);
        self.nodes.reverse(head);
        self.nodes.exchange(before, head);
    }

    /// Reverses the cyclic order of each vertex: the drawing viewed from the other side. Takes no memory.
    pub fn mirror(&mut self)
        ensures { self.new ≡ mirror_image self.old }
    {
        self.nodes.reverse_all();
    }

    /// A copy. Fails only if memory runs out.
    pub fn copy(&self, alloc: Global) -> Result<Rotation, AllocError>
        ensures { IfOk result (λ r. r ≡ self.now) }
    {
        let nodes = self.nodes.copy(alloc)?;
        let frame = self.frame.clone()?;
        Ok(Rotation { nodes, frame })
    }

    /// Whether the other has equally many vertices and the same cyclic order at each.
    /// For callers of the library: the program does not call it.
    pub fn same(&self, other: &Rotation) -> bool
        ensures { IsTrue result ↔ (self.now ≡ other.now) }
    {
        if self.vertex_count() != other.vertex_count() {
            return false;
        }
        for v in 0..self.vertex_count() {
            if !same_round(self.list(v), other.list(v)) {
                return false;
            }
        }
        true
    }
}

// Whether two walks give the same edges in the same order.
fn same_round(mut left: RotIter<'_>, mut right: RotIter<'_>) -> bool
    ensures { IsTrue result ↔ (left.entry ≡ right.entry) }
{
    while let Some(e) = left.next() {
        match right.next() {
            Some(f) => {
                if e != f {
                    return false;
                }
            }
            None => return false,
        }
    }
    right.next().is_none()
}
