// The ids of vertices: a list without repetition, in which an id is found at once.

ghost use Rattle.std.specs.Prelude.{◌≡◌, ◌<◌, ◌++◌, ◌∷◌, [], not, length, position, IfOk, OnErr, if◌then◌else◌};
ghost use Rattle.std.specs.List.{IsDistinct, list_any};
ghost use Rattle.std.specs.Ordering.{int_eq};
ghost use Rattle.multigraph.specs.Graph.{max_vertices};

use crate::hashing::BehindAllIds;
use indexmap::IndexSet;
use std::alloc::{AllocError, Global};
use std::marker::Model;

/// Ids, each once, in the order in which they were added; at most as many as a graph may have vertices. Contracts see the list.
#[derive(Drop)]
pub struct Ids {
    held: IndexSet<i64, BehindAllIds>,
}

impl Model for Ids {
    ghost use Rattle.std.specs.Prelude.{List, ℤ, length, ◌≤◌};
    ghost use Rattle.std.specs.List.{IsDistinct};
    ghost use Rattle.std.specs.Ordering.{int_eq};
    ghost use Rattle.multigraph.specs.Graph.{max_vertices};

    ghost Value = { List ℤ };

    ghost view = { λ ids. ids.held.keys };

    ghost invariant = { λ ids. (length ids.held.keys ≤ max_vertices)
        × IsDistinct int_eq ids.held.keys };
}

impl Ids {
    /// No ids, with room for `n`, which will be found by these hashers. Fails only if memory runs out.
    pub(crate) fn with_room(
        alloc: Global,
        n: usize,
        hashers: BehindAllIds,
    ) -> Result<Ids, AllocError>
        ensures { IfOk result (λ ids. ids ≡ []) }
    {
        let held = IndexSet::with_capacity_and_hasher(alloc, n, hashers)?;
        Ok(Ids { held })
    }

    /// Adds an id after the others, unless it is there already; returns whether it was new. Fails only if memory runs out; the ids
    /// are then as before.
    pub fn add(&mut self, id: i64) -> Result<bool, AllocError>
        requires { length self.old < max_vertices }
        ensures new { IfOk result (λ new. new ≡ not (list_any (int_eq id) self.old)) }
        ensures added { IfOk result (λ new. self.new ≡ (if new then self.old ++ id ∷ []
            else self.old)) }
        ensures kept { OnErr result (self.new ≡ self.old) }
    {
        match self.held.insert(id) {
            Ok(new) => Ok(new),
            Err(_) => Err(AllocError),
        }
    }

    /// The place of an id, counted from 0, or None if it is not there. Takes no memory.
    pub fn position(&self, id: i64) -> Option<u32>
        ensures { result ≡ position (int_eq id) self.now }
    {
        match self.held.get_index_of(&id) {
            Some(index) => Some(index as u32),
            None => None,
        }
    }

    /// How many ids there are.
    pub fn len(&self) -> u32
        ensures { result ≡ length self.now }
    {
        self.held.len() as u32
    }

    /// The ids, in order. Takes no memory.
    pub fn as_slice(&self) -> &[i64]
        ensures value { result.now ≡ self.now }
        ensures distinct { IsDistinct int_eq self.now }
    {
        self.held.as_slice()
    }
}
