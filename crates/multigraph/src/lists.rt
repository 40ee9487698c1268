// Vectors that contracts view as lists, of numbers and of any values.

ghost use Rattle.std.specs.Prelude.{◌≡◌, ◌∷◌, ◌++◌, [], is_ok, if◌then◌else◌, reverse, IfOk};

use std::alloc::{AllocError, Global};
use std::marker::Model;

/// A list of values. Contracts view it as the list of their views of the values.
#[derive(Debug, Drop)]
pub struct Sequence<T> {
    held: Vec<T>,
}

impl<T> Model for Sequence<T> {
    ghost use Rattle.std.specs.Prelude.{List};

    ghost Value = { List T };

    ghost view = { λ list. list.held.items };
}

impl<T> Sequence<T> {
    /// The list of these values. Takes no memory.
    pub fn of(v: Vec<T>) -> Sequence<T>
        ensures { result ≡ v.items }
    {
        Sequence { held: v }
    }

    /// Its values, in order.
    pub fn as_slice(&self) -> &[T]
        ensures { result.now ≡ self.now }
    {
        self.held.as_slice()
    }

    /// Its values, moved out. Takes no memory.
    pub fn into_vec(self) -> Vec<T>
        ensures { result.items ≡ self }
    {
        self.held
    }
}

impl<T: Copy> Sequence<T> {
    /// A copy. Fails only if memory runs out.
    pub fn copy(&self, alloc: Global) -> Result<Sequence<T>, AllocError>
        ensures { IfOk result (λ list. list ≡ self.now) }
    {
        Ok(Sequence {
            held: Vec::from_slice(alloc, self.held.as_slice())?,
        })
    }

    /// The values in reverse order. Fails only if memory runs out.
    pub fn reversed(&self, alloc: Global) -> Result<Sequence<T>, AllocError>
        ensures { IfOk result (λ list. list ≡ reverse self.now) }
    {
        let mut held = Vec::from_slice(alloc, self.held.as_slice())?;
        held.reverse();
        Ok(Sequence { held })
    }
}

/// A list of numbers.
pub type Numbers = Sequence<u32>;

/// A list of lists of numbers.
pub type NumberLists = Sequence<Numbers>;

impl Sequence<u32> {
    /// The list without numbers. Takes no memory.
    pub fn empty(alloc: Global) -> Sequence<u32>
        ensures { result ≡ [] }
    {
        Sequence {
            held: Vec::new(alloc),
        }
    }

    /// Appends a number. Fails only if memory runs out; the list is unchanged then.
    pub fn push(&mut self, x: u32) -> Result<(), AllocError>
        ensures { self.new ≡ (if is_ok result then self.old ++ x ∷ [] else self.old) }
    {
        match self.held.push(x) {
            Ok(()) => Ok(()),
            Err(_) => Err(AllocError),
        }
    }
}
