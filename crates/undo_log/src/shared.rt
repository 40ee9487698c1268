// Lists of numbers that several owners share.

ghost use Rattle.std.specs.Prelude.{◌≡◌, IfOk};

use multigraph::Numbers;
use std::alloc::{AllocError, Global};
use std::marker::Model;
use std::rc::Rc;

/// A list of numbers that several owners share. Contracts see the list.
#[derive(Debug, Drop)]
pub struct SharedNumbers {
    held: Rc<Numbers>,
}

impl Model for SharedNumbers {
    ghost use Rattle.std.specs.Prelude.{List, ℕ};

    ghost Value = { List ℕ };

    ghost view = { λ shared. shared.held.value };
}

impl SharedNumbers {
    /// The list with one owner. Fails only if memory runs out.
    pub fn of(alloc: Global, list: Numbers) -> Result<SharedNumbers, AllocError>
        ensures { IfOk result (λ shared. shared ≡ list) }
    {
        Ok(SharedNumbers {
            held: Rc::new(alloc, list)?,
        })
    }

    /// The list for one more owner, without a copy. Fails only if there are too many.
    pub fn share(&self) -> Result<SharedNumbers, AllocError>
        ensures { IfOk result (λ shared. shared ≡ self.now) }
    {
        Ok(SharedNumbers {
            held: self.held.clone()?,
        })
    }

    /// Its numbers, in order.
    pub fn as_slice(&self) -> &[u32]
        ensures { result.now ≡ self.now }
    {
        self.held.as_slice()
    }
}
