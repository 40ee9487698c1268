// Rings that are reversed all at once: the nodes, and whether each of them is read backwards.

ghost use Rattle.std.specs.Prelude.{◌≡◌, ◌≢◌, ◌<◌, ◌≤◌, length, slice_index, IfOk};
ghost use Rattle.permutations.specs.Exchange.{exchange, unlink};
ghost use Rattle.ring_arena.specs.Links.{AreInverse, AreNow, AreAlone, linked_after, reversed_at};
ghost use Rattle.ring_arena.specs.Nodes.{max_nodes};

use crate::arena::Nodes;
use std::alloc::{AllocError, Global};
use std::fmt;
use std::marker::Model;

/// Nodes 0 to n - 1 in rings.
///
/// Viewed as two lists, the node after each node and the node before it; both are permutations, and each is the inverse of the
/// other. No call but `new`, `copy` and `list_next` takes memory.
#[derive(Drop)]
pub struct Rings {
    nodes: Nodes,
    turned: bool,
}

impl Model for Rings {
    ghost use Rattle.ring_arena.specs.Links.{Links};

    ghost Value = { Links };

    ghost use Rattle.ring_arena.specs.Links.{seen};

    ghost view = { λ r. seen r.turned r.nodes };
}

impl Rings {
    /// `n` nodes, at most 100,000, each alone on a ring. Fails only if memory runs out.
    pub fn new(alloc: Global, n: u32) -> Result<Rings, AllocError>
        requires { n ≤ max_nodes }
        ensures { IfOk result (AreAlone n) }
    {
        let nodes = Nodes::new(alloc, n)?;
        Ok(Rings {
            nodes,
            turned: false,
        })
    }

    /// A copy, in a block of its own. Fails only if memory runs out.
    pub fn copy(&self, alloc: Global) -> Result<Rings, AllocError>
        ensures { IfOk result (λ r. r ≡ self.now) }
    {
        let nodes = self.nodes.copy(alloc)?;
        Ok(Rings {
            nodes,
            turned: self.turned,
        })
    }

    /// The two lists are inverse to each other. For proofs alone: does nothing.
    pub fn keeps_rings(&self)
        ensures { AreInverse self.now }
    {
        self.nodes.keeps_rings();
    }

    /// The number of nodes.
    pub fn len(&self) -> u32
        ensures value { result ≡ length self.now.next }
        ensures few { result ≤ max_nodes }
        ensures inverse { AreInverse self.now }
    {
        self.nodes.keeps_rings();
        self.nodes.len()
    }

    /// The node after node `d` on its ring.
    pub fn next(&self, d: u32) -> u32
        requires { d < length self.now.next }
        ensures value { result ≡ slice_index self.now.next d }
        ensures within { result < length self.now.next }
    {
        self.nodes.keeps_rings();
        if self.turned {
            self.nodes.prev(d)
        } else {
            self.nodes.next(d)
        }
    }

    /// The node before node `d` on its ring.
    pub fn prev(&self, d: u32) -> u32
        requires { d < length self.now.next }
        ensures value { result ≡ slice_index self.now.prev d }
        ensures within { result < length self.now.next }
    {
        self.nodes.keeps_rings();
        if self.turned {
            self.nodes.next(d)
        } else {
            self.nodes.prev(d)
        }
    }

    /// The nodes after nodes 0 to n - 1, in one pass over the nodes. Fails only if memory runs out.
    pub fn list_next(&self, alloc: Global) -> Result<Vec<u32>, AllocError>
        ensures { IfOk result (λ list. list.items ≡ self.now.next) }
    {
        let mut list = Vec::with_capacity(alloc, self.len() as usize)?;
        for d in 0..self.len() {
            list.push(self.next(d))?;
        }
        Ok(list)
    }

    /// Exchanges the nodes after `a` and `b`: two rings become one, or one becomes two. Nothing changes where `a` is `b`.
    pub fn exchange(&mut self, a: u32, b: u32)
        requires first { a < length self.old.next }
        requires second { b < length self.old.next }
        ensures { AreNow self.old self.new (exchange a b (slice_index self.old.next)) }
    {
        self.nodes.keeps_rings();
        if self.turned {
            let before_a = self.nodes.prev(a);
            let before_b = self.nodes.prev(b);
            self.nodes.exchange(before_a, before_b);
        } else {
            self.nodes.exchange(a, b);
        }
    }

    /// Takes node `d` out of its ring: it is alone then, and the nodes before and after it are adjacent.
    /// For callers of the library: the program does not call it.
    pub fn unlink(&mut self, d: u32)
        requires { d < length self.old.next }
        ensures { AreNow self.old self.new (unlink d (slice_index self.old.next)) }
    {
        self.keeps_rings();
        let before = self.prev(d);
        self.exchange(before, d);
    }

    /// Inserts node `d`, which is alone, after node `x`: it is between `x` and the node that was after `x`.
    pub fn link_after(&mut self, d: u32, x: u32)
        requires node { d < length self.old.next }
        requires place { x < length self.old.next }
        requires alone { slice_index self.old.next d ≡ d }
        requires other { d ≢ x }
        ensures { AreNow self.old self.new (linked_after d x (slice_index self.old.next)) }
    {
        self.exchange(x, d);
    }

    /// Reverses the ring of `d`: after each of its nodes comes the node that was before it. Other rings are unchanged.
    pub fn reverse(&mut self, d: u32)
        requires { d < length self.old.next }
        ensures { AreNow self.old self.new (reversed_at self.old d) }
    {
        self.nodes.keeps_rings();
        self.nodes.reverse(d);
    }

    /// Reverses every ring: after each node comes the node that was before it. In constant time.
    pub fn reverse_all(&mut self)
        ensures { AreNow self.old self.new (slice_index self.old.prev) }
    {
        self.nodes.keeps_rings();
        self.turned = !self.turned;
    }
}

impl fmt::Debug for Rings {
    fn fmt<W: fmt::Write>(&self, f: &mut fmt::Formatter<W>) -> fmt::Result {
        write!(f, "Rings of {} nodes", self.len())
    }
}
