// In which order the items of what is left are left out: the fronds of a palm tree, or the edges off a breadth-first tree.

ghost use Rattle.std.specs.Prelude.{◌<◌};
ghost use Rattle.multigraph.specs.Graph.{edge_count, IsGraph};
ghost use Rattle.graph_theory.specs.Triconnected.{IsTriconnected};
ghost use Rattle.palm_tree.specs.PalmTree.{IsPalmTree};
ghost use Rattle.path_embed.specs.Found.{IsRest};

use crate::marks::{is_marked, mark};
use crate::rest::Rest;
use multigraph::Graph;
use palm_tree::PalmTree;
use std::alloc::{AllocError, Global};

// Which items may be left out, and in which order.
#[derive(Clone, Copy)]
pub(crate) enum Order {
    // The fronds of a palm tree, by the numbers of their lower ends.
    Fronds,
    // The edges off a breadth-first tree, as the search meets them.
    OffTree,
}

// The number of the lower end of the edge.
fn lower_number(g: &Graph, palm: &PalmTree, edge: u32) -> u32
    requires graph { IsGraph g.now }
    requires palm { IsPalmTree g.now palm.now }
    requires edge { edge < edge_count g.now }
{
    let (first, second) = g.ends(edge);
    palm.number(first).max(palm.number(second))
}

// The numbers of the lower ends of the fronds, each with its frond.
fn numbered_fronds(alloc: Global, g: &Graph, palm: &PalmTree) -> Result<Vec<(u32, u32)>, AllocError>
    requires graph { IsGraph g.now }
    requires palm { IsPalmTree g.now palm.now }
{
    let mut pairs = Vec::new(alloc);
    for edge in 0..g.edge_count() {
        if palm.is_frond(edge) {
            pairs.push((lower_number(g, palm, edge), edge))?;
        }
    }
    Ok(pairs)
}

// The fronds of a palm tree of the graph.
fn fronds(alloc: Global, g: &Graph) -> Result<Vec<u32>, AllocError>
    requires { IsTriconnected g.now }
{
    g.keeps_limits();
    let palm = PalmTree::grow(alloc, g)?;
    let mut pairs = numbered_fronds(alloc, g, &palm)?;
    pairs.sort_unstable_by_key(|pair: &(u32, u32)| pair.0);
    let mut list = Vec::with_capacity(alloc, pairs.len())?;
    for pair in &pairs {
        list.push(pair.1)?;
    }
    Ok(list)
}

// A breadth-first search: the vertices in the order in which they are reached, the edges off the tree, and marks.
#[derive(Drop)]
struct Growth {
    order: Vec<u32>,
    others: Vec<u32>,
    reached: Vec<bool>,
    met: Vec<bool>,
}

impl Growth {
    // The edge leads to the vertex.
    fn look(&mut self, edge: u32, vertex: u32) -> Result<(), AllocError> {
        if is_marked(&self.met, edge) {
            return Ok(());
        }
        mark(&mut self.met, edge);
        if is_marked(&self.reached, vertex) {
            self.others.push(edge)?;
            return Ok(());
        }
        mark(&mut self.reached, vertex);
        self.order.push(vertex)?;
        Ok(())
    }

    // The edges at the vertex are looked at.
    fn scan(&mut self, g: &Graph, vertex: u32) -> Result<(), AllocError>
        requires { vertex < g.now.vertex_count }
    {
        for edge in g.incident(vertex) {
            if let Some(end) = g.far_end(*edge, vertex) {
                self.look(*edge, end)?;
            }
        }
        Ok(())
    }
}

// The edges off a breadth-first tree of the graph from its first vertex.
fn off_tree(alloc: Global, g: &Graph) -> Result<Vec<u32>, AllocError> {
    let mut growth = Growth {
        order: vec![in alloc; 0; 1]?,
        others: Vec::new(alloc),
        reached: vec![in alloc; false; g.vertex_count() as usize]?,
        met: vec![in alloc; false; g.edge_count() as usize]?,
    };
    mark(&mut growth.reached, 0);
    for q in 0..g.vertex_count() as usize {
        let Some(vertex) = growth.order.get(q).copied() else {
            break;
        };
        if vertex < g.vertex_count() {
            growth.scan(g, vertex)?;
        }
    }
    Ok(growth.others)
}

// The items of a triconnected graph in this order.
fn items_of(alloc: Global, g: &Graph, order: Order) -> Result<Vec<u32>, AllocError>
    requires { IsTriconnected g.now }
{
    match order {
        Order::Fronds => fronds(alloc, g),
        Order::OffTree => off_tree(alloc, g),
    }
}

// The items of what is left of the graph in this order.
pub(crate) fn items_in(
    alloc: Global,
    g: &Graph,
    rest: &Rest,
    order: Order,
) -> Result<Vec<u32>, AllocError>
    requires triconnected { IsTriconnected g.now }
    requires rest { IsRest g.now rest.now }
{
    match &rest.found {
        None => items_of(alloc, g, order),
        Some(found) => items_of(alloc, &found.obstacle.skeleton, order),
    }
}
