// Rings of nodes in one block of memory.

ghost use Rattle.std.specs.Prelude.{◌≡◌, ◌≢◌, ◌<◌, ◌≤◌, length, slice_index, IfOk};
ghost use Rattle.std.specs.Vec.{vec_ptr, vec_capacity};
ghost use Rattle.permutations.specs.Exchange.{exchange};
ghost use Rattle.ring_arena.specs.Links.{AreInverse, AreNow, AreAlone, reversed_at};
ghost use Rattle.ring_arena.specs.Nodes.{max_nodes, links_of, IsLinked, AreNodes, AreRelinked, AreTurned};

use crate::places::{behind, fits, place};
use std::alloc::{AllocError, Global};
use std::marker::Model;

// A node: its number, and the places of the nodes after it and before it. It also holds the number of the node after it, so that
// a step reads one node and not two.
#[derive(Clone, Copy, Drop)]
struct Node {
    number: u32,
    after: u32,
    next: *const Node,
    prev: *const Node,
}

// The nodes 0 to n - 1 in rings, viewed as two lists: the node after each node and the node before it.
#[derive(Drop)]
pub(crate) struct Nodes {
    nodes: Vec<Node>,
}

impl Model for Nodes {
    ghost use Rattle.ring_arena.specs.Links.{Links};

    ghost Value = { Links };

    ghost use Rattle.std.specs.Vec.{vec_ptr};
    ghost use Rattle.ring_arena.specs.Nodes.{links_of, KeepRings};

    ghost view = { λ r. links_of (vec_ptr r.nodes) r.nodes.items };

    ghost invariant = { λ r. KeepRings (vec_ptr r.nodes) r.nodes.items };
}

impl Nodes {
    // `n` nodes, at most 100,000, each alone on a ring. Fails only if memory runs out.
    pub fn new(alloc: Global, n: u32) -> Result<Nodes, AllocError>
        requires { n ≤ max_nodes }
        ensures { IfOk result (AreAlone n) }
    {
        let mut nodes = Vec::with_capacity(alloc, n as usize)?;
        for d in 0..n {
            let node = node_at(&nodes, d, d, d);
            nodes.push_reserved(node);
        }
        fits(&nodes);
        Ok(Nodes { nodes })
    }

    // A copy, in a block of its own. Fails only if memory runs out.
    pub fn copy(&self, alloc: Global) -> Result<Nodes, AllocError>
        ensures { IfOk result (λ r. r ≡ self.now) }
    {
        let mut nodes = Vec::with_capacity(alloc, self.len() as usize)?;
        for d in 0..self.len() {
            let node = node_at(&nodes, d, self.next(d), self.prev(d));
            nodes.push_reserved(node);
        }
        fits(&nodes);
        Ok(Nodes { nodes })
    }

    // The two lists are inverse to each other. For proofs alone: does nothing.
    pub fn keeps_rings(&self)
        ensures { AreInverse self.now }
    {
        let _ = self.len();
    }

    // The number of nodes.
    pub fn len(&self) -> u32
        ensures value { result ≡ length self.now.next }
        ensures few { result ≤ max_nodes }
        ensures inverse { AreInverse self.now }
    {
        self.nodes.len() as u32
    }

    // The node after node `d` on its ring.
    pub fn next(&self, d: u32) -> u32
        requires { d < length self.now.next }
        ensures value { result ≡ slice_index self.now.next d }
        ensures within { result < length self.now.next }
    {
        self.nodes[d as usize].after
    }

    // The node before node `d` on its ring.
    pub fn prev(&self, d: u32) -> u32
        requires { d < length self.now.next }
        ensures value { result ≡ slice_index self.now.prev d }
        ensures within { result < length self.now.next }
    {
        behind(&self.nodes, self.nodes[d as usize].prev).number
    }

    // Exchanges the nodes after `a` and `b`: two rings become one, or one becomes two. Nothing changes where `a` is `b`.
    pub fn exchange(&mut self, a: u32, b: u32)
        requires first { a < length self.old.next }
        requires second { b < length self.old.next }
        ensures { AreNow self.old self.new (exchange a b (slice_index self.old.next)) }
    {
        let behind_a = self.next(a);
        let behind_b = self.next(b);
        link(&mut self.nodes, a, behind_b);
        link(&mut self.nodes, b, behind_a);
    }

    // Reverses the ring of `d`: after each of its nodes comes the node that was before it. Other rings are unchanged.
    pub fn reverse(&mut self, d: u32)
        requires { d < length self.old.next }
        ensures { AreNow self.old self.new (reversed_at self.old d) }
    {
        let mut at = d as usize;
        for _ in 0..self.nodes.len() {
            at = turn(&mut self.nodes, at);
            if at == d as usize {
                break;
            }
        }
    }
}

// A node of a block, by its number and those of the nodes after it and before it.
fn node_at(nodes: &Vec<Node>, number: u32, next: u32, prev: u32) -> Node
    requires next_in { next < vec_capacity nodes.now }
    requires prev_in { prev < vec_capacity nodes.now }
    ensures { IsLinked (vec_ptr nodes.now) number next prev result }
{
    Node {
        number,
        after: next,
        next: place(nodes, next as usize),
        prev: place(nodes, prev as usize),
    }
}

// Node b comes after node a, and node a before node b. Nothing else is written.
fn link(nodes: &mut Vec<Node>, a: u32, b: u32)
    requires nodes { AreNodes (vec_ptr nodes.old) nodes.old.items }
    requires first { a < length nodes.old.items }
    requires second { b < length nodes.old.items }
    ensures { AreRelinked (vec_ptr nodes.old) nodes.old.items
        (vec_ptr nodes.new) nodes.new.items a b }
{
    let from = place(nodes, a as usize);
    let to = place(nodes, b as usize);
    let node = nodes[a as usize];
    nodes[a as usize] = Node {
        number: node.number,
        after: b,
        next: to,
        prev: node.prev,
    };
    nodes[b as usize].prev = from;
}

// Exchanges the nodes after and before node k, and returns the node that was after it.
fn turn(nodes: &mut Vec<Node>, k: usize) -> usize
    requires nodes { AreNodes (vec_ptr nodes.old) nodes.old.items }
    requires node { k < length nodes.old.items }
    ensures turned { AreTurned (vec_ptr nodes.old) nodes.old.items
        (vec_ptr nodes.new) nodes.new.items k }
    ensures after { result ≡ slice_index (links_of (vec_ptr nodes.old) nodes.old.items).next k }
{
    let node = nodes[k];
    let before = behind(nodes, node.prev).number;
    nodes[k] = Node {
        number: node.number,
        after: before,
        next: node.prev,
        prev: node.next,
    };
    node.after as usize
}
