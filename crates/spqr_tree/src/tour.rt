// The walk around the tree from the node that has edge 0: over the items of each node in order, down each link, and back by the
// first item. It gives each edge a place, and each node a bound before each item but the first and one after the last: the
// places of the edges in a group are those between the bounds of its item (Euler tours: Tarjan and Vishkin 1985).

ghost use Rattle.std.specs.Prelude.{◌≡◌, ◌+◌, ◌<◌, ◌^◌, ℕ, true, false, length, slice_set, IfOk};
ghost use Rattle.multigraph.specs.Graph.{Multigraph, edge_count};
ghost use Rattle.pair_split.specs.Tutte.{IsTutte};
ghost use Rattle.pair_split.specs.declared.components.What.TheVariants.{Real};
ghost use Rattle.spqr_tree.specs.Tour.{what_at, bound_count, AreToured, HasBegun, IsTouring, noted, tour_left};
ghost use Rattle.spqr_tree.specs.Absent.{absent};

use crate::ABSENT;
use crate::bounds::Bounds;
use crate::nodes::Nodes;
use pair_split::What;
use std::alloc::{AllocError, Global};
use std::marker::Model;

// The node where the walk is, how many edges it visited, the places of these, and the bounds of each node so far.
#[derive(Drop)]
pub(crate) struct Tour {
    at: u32,
    met: u32,
    pub(crate) places: Vec<u32>,
    pub(crate) bounds: Vec<Bounds>,
}

impl Model for Tour {
    ghost use Rattle.spqr_tree.specs.Tour.{TourState};

    ghost Value = { TourState };

    ghost view = { λ s. record {
      at = s.at;
      met = s.met;
      places = s.places.items;
      bounds = s.bounds.items;
    } };
}

// The node whose first item is edge 0.
fn root_of(nodes: &Nodes) -> u32
    requires { (g : Multigraph) × IsTutte g nodes.now × (0 < edge_count g)
        × (length nodes.now < 2 ^ 32) }
    ensures within { result < length nodes.now }
    ensures first { what_at nodes.now result 0 ≡ Real 0 }
{
    for k in 0..nodes.len() as u32 {
        if nodes.items(k)[0].what == What::Real(0) {
            return k;
        }
    }
    unreachable!()
}

// An empty list for each node, with room for its bounds.
fn empty_lists(alloc: Global, nodes: &Nodes) -> Result<Vec<Bounds>, AllocError>
    requires { length nodes.now < 2 ^ 32 }
    ensures number { IfOk result (λ lists. length lists.items ≡ length nodes.now) }
    ensures empty { IfOk result (λ lists. (k : ℕ) → bound_count lists.items k ≡ 0) }
{
    let mut lists = Vec::with_capacity(alloc, nodes.len())?;
    for k in 0..nodes.len() as u32 {
        lists.push(Bounds::with_capacity(alloc, nodes.items(k).len())?)?;
    }
    Ok(lists)
}

impl Tour {
    // The walk is at the root, and has visited edge 0.
    fn new(alloc: Global, nodes: &Nodes, m: u32, root: u32) -> Result<Tour, AllocError>
        requires some { 0 < m }
        requires few { length nodes.now < 2 ^ 32 }
        ensures { IfOk result (HasBegun nodes.now m root) }
    {
        let mut places = vec![in alloc; ABSENT; m as usize]?;
        places[0] = 0;
        Ok(Tour {
            at: root,
            met: 1,
            places,
            bounds: empty_lists(alloc, nodes)?,
        })
    }

    // Notes how many edges were visited as a bound of the node.
    fn note(&mut self) -> Result<(), AllocError>
        requires { self.old.at < length self.old.bounds }
        ensures { IfOk result (λ _. self.new ≡ record {
          at = self.old.at;
          met = self.old.met;
          places = self.old.places;
          bounds = noted self.old;
        }) }
    {
        self.bounds[self.at as usize].push(self.met)?;
        Ok(())
    }

    // The place of the item that is entered next, among those of the node.
    fn next(&self) -> usize
        requires { self.now.at < length self.now.bounds }
        ensures { result ≡ bound_count self.now.bounds self.now.at }
    {
        self.bounds[self.at as usize].as_slice().len()
    }

    // Visits edge e.
    fn meet(&mut self, e: u32)
        requires place { e < length self.old.places }
        requires few { self.old.met < absent }
        ensures { self.new ≡ record {
          at = self.old.at;
          met = self.old.met + 1;
          places = slice_set self.old.places e self.old.met;
          bounds = self.old.bounds;
        } }
    {
        self.places[e as usize] = self.met;
        self.met += 1;
    }

    // Notes a bound of the node, and enters its next item, or leaves it where no item is left; whether the walk is at its end.
    fn step(&mut self, nodes: &Nodes) -> Result<bool, AllocError>
        requires tree { (g : Multigraph) × IsTutte g nodes.now × (0 < edge_count g) }
        requires touring { IsTouring nodes.now self.old }
        ensures touring { IfOk result (λ done. done ≡ false → IsTouring nodes.now self.new) }
        ensures falls { IfOk result
            (λ done. tour_left nodes.now self.new.bounds < tour_left nodes.now self.old.bounds) }
        ensures toured { IfOk result (λ done. done ≡ true
            → AreToured nodes.now self.new.places self.new.bounds) }
    {
        self.note()?;
        let items = nodes.items(self.at);
        let next = self.next();
        if next < items.len() {
            match items[next].what {
                What::Real(e) => self.meet(e),
                What::Link(j) => self.at = j,
            }
            return Ok(false);
        }
        match items[0].what {
            What::Real(_) => Ok(true),
            What::Link(p) => {
                self.at = p;
                Ok(false)
            }
        }
    }
}

// The places of the m edges, and the bounds of the nodes.
pub(crate) fn tour_of(alloc: Global, nodes: &Nodes, m: u32) -> Result<Tour, AllocError>
    requires tree { (g : Multigraph) × IsTutte g nodes.now × (0 < edge_count g)
        × (m ≡ edge_count g) }
    requires few { length nodes.now < 2 ^ 32 }
    ensures { IfOk result (λ tour. AreToured nodes.now tour.places tour.bounds) }
{
    let mut tour = Tour::new(alloc, nodes, m, root_of(nodes))?;
    while !tour.step(nodes)? {}
    Ok(tour)
}
