// Moves as values: a triconnected node flipped, or a bond permuted to given keys.

ghost use Rattle.std.specs.Prelude.{◌≡◌, IfOk};

use multigraph::Sequence;
use smallvec::SmallVec;
use std::alloc::{AllocError, Global};
use std::marker::Model;

/// A list of keys. Up to eight take no memory of their own.
#[derive(Debug, Drop)]
pub struct Keys {
    held: SmallVec<u32, 8>,
}

impl Model for Keys {
    ghost use Rattle.std.specs.Prelude.{List, ℕ};

    ghost Value = { List ℕ };

    ghost view = { λ keys. keys.held.items };
}

impl Keys {
    /// The list of these keys. Fails only if memory runs out.
    pub fn of(alloc: Global, keys: &[u32]) -> Result<Keys, AllocError>
        ensures { IfOk result (λ list. list ≡ keys.now) }
    {
        Ok(Keys {
            held: SmallVec::from_slice(alloc, keys)?,
        })
    }

    /// Its keys, in order.
    pub fn as_slice(&self) -> &[u32]
        ensures { result.now ≡ self.now }
    {
        self.held.as_slice()
    }
}

/// A move of a node (Di Battista and Tamassia 1996).
#[derive(Debug, Drop)]
pub enum Move {
    /// A triconnected node is flipped.
    Flip(u32),
    /// A bond is permuted: its groups come into the cyclic order of these keys at the lesser pole.
    Permute(u32, Keys),
}

/// A list of moves.
pub type MoveList = Sequence<Move>;
