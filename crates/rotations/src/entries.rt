// Lists of edges as they are given from outside, in order of the vertices.

ghost use Rattle.std.specs.Prelude.{◌≡◌, ◌+◌, ◌<◌, ◌∷◌, ◌++◌, ◌==◌, ◌↔◌, [], length, is_ok, if◌then◌else◌, IsTrue};
ghost use Rattle.rotations.specs.Entries.{entry, IsRising, IsAbove, IsReachedAt, list_at};

use multigraph::FlatLists;
use std::alloc::{AllocError, Global};
use std::marker::Model;

/// Entries of a vertex and a list of edges, their vertices strictly increasing. All lists are kept as one.
#[derive(Debug, Drop)]
pub struct Lists {
    vertices: Vec<u32>,
    lists: FlatLists<u32>,
}

impl Model for Lists {
    ghost use Rattle.std.specs.Prelude.{◌≡◌, List, ℕ, length};
    ghost use Rattle.std.specs.List.{zip};
    ghost use Rattle.rotations.specs.Entries.{IsRising};

    ghost Value = { List (ℕ × List ℕ) };

    ghost view = { λ l. zip l.vertices.items l.lists };

    ghost invariant = { λ l. IsRising (zip l.vertices.items l.lists)
        × (length l.lists ≡ length l.vertices.items) };
}

impl Lists {
    /// No entries. Takes no memory.
    pub fn new(alloc: Global) -> Lists
        ensures { result ≡ [] }
    {
        Lists {
            vertices: Vec::new(alloc),
            lists: FlatLists::new(alloc),
        }
    }

    /// Whether `v` is above the last vertex, or the list is empty.
    pub fn is_above(&self, v: u32) -> bool
        ensures { IsTrue result ↔ IsAbove self.now v }
    {
        let count = self.len();
        count == 0 || self.vertex(count - 1) < v
    }

    /// Appends an entry of `v` and a copy of `edges`. Fails only if memory runs out; the list is unchanged then.
    pub fn push(&mut self, v: u32, edges: &[u32]) -> Result<(), AllocError>
        requires { IsAbove self.old v }
        ensures { self.new ≡ (if is_ok result then self.old ++ (v, edges.now) ∷ [] else self.old) }
    {
        self.vertices.reserve(1)?;
        self.lists.push(edges)?;
        self.vertices.push_reserved(v);
        Ok(())
    }

    /// The number of entries.
    pub fn len(&self) -> usize
        ensures value { result ≡ length self.now }
        ensures rising { IsRising self.now }
    {
        self.vertices.len()
    }

    /// Whether there is no entry.
    pub fn is_empty(&self) -> bool
        ensures { result ≡ (length self.now == 0) }
    {
        self.len() == 0
    }

    /// The vertex of entry `i`, counted from 0.
    pub fn vertex(&self, i: usize) -> u32
        requires { i < length self.now }
        ensures { result ≡ (entry self.now i).0 }
    {
        self.vertices[i]
    }

    /// The edges of entry `i`, counted from 0, in the order given.
    pub fn edges(&self, i: usize) -> &[u32]
        requires { i < length self.now }
        ensures { result.now ≡ (entry self.now i).1 }
    {
        self.lists.at(i)
    }

    // The list that is given for `v`, and the place of the first entry that is for a larger vertex, where `at` is the place of
    // the first that is for no smaller one.
    pub(crate) fn given(&self, at: usize, v: u32) -> (&[u32], usize)
        requires { IsReachedAt self.now at v }
        ensures list { result.0.now ≡ list_at self.now v }
        ensures place { IsReachedAt self.now result.1 (v + 1) }
    {
        if at < self.len() && self.vertex(at) == v {
            (self.edges(at), at + 1)
        } else {
            (&[], at)
        }
    }
}
