// The bounds of a node, as the walk around the tree notes them.

ghost use Rattle.std.specs.Prelude.{◌≡◌, ◌∷◌, ◌++◌, [], IfOk};

use smallvec::SmallVec;
use std::alloc::{AllocError, Global};
use std::marker::Model;

// The bounds of a node. In contracts it is the list of them. Up to four take no memory of their own.
#[derive(Debug, Drop)]
pub(crate) struct Bounds {
    held: SmallVec<u32, 4>,
}

impl Model for Bounds {
    ghost use Rattle.std.specs.Prelude.{List, ℕ};

    ghost Value = { List ℕ };

    ghost view = { λ bounds. bounds.held.items };
}

impl Bounds {
    // No bounds, with room for this many.
    pub(crate) fn with_capacity(alloc: Global, count: usize) -> Result<Bounds, AllocError>
        ensures { IfOk result (λ bounds. bounds ≡ []) }
    {
        Ok(Bounds {
            held: SmallVec::with_capacity(alloc, count)?,
        })
    }

    // One bound more.
    pub(crate) fn push(&mut self, bound: u32) -> Result<(), AllocError>
        ensures { IfOk result (λ _. self.new ≡ self.old ++ bound ∷ []) }
    {
        self.held.push(bound)?;
        Ok(())
    }

    // The bounds, in order.
    pub(crate) fn as_slice(&self) -> &[u32]
        ensures { result.now ≡ self.now }
    {
        self.held.as_slice()
    }

    // A copy.
    pub(crate) fn copy(&self, alloc: Global) -> Result<Bounds, AllocError>
        ensures { IfOk result (λ bounds. bounds ≡ self.now) }
    {
        Ok(Bounds {
            held: SmallVec::from_slice(alloc, self.held.as_slice())?,
        })
    }
}
