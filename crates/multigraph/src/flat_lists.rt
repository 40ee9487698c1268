// Lists, kept as one list.

ghost use Rattle.std.specs.Prelude.{◌≡◌, ◌+◌, ◌<◌, ◌≤◌, ◌++◌, ◌∷◌, [], length, slice_index_or, slice_set, is_ok, if◌then◌else◌, IfOk};
ghost use Rattle.multigraph.specs.Flat.{joined, start_at};

use std::alloc::{AllocError, Global};
use std::marker::Model;

/// Lists of values, which are kept one after the other, with the places where they end. In contracts it is the list of these lists.
#[derive(Debug, Drop)]
pub struct FlatLists<T> {
    values: Vec<T>,
    ends: Vec<usize>,
}

impl<T> Model for FlatLists<T> {
    ghost use Rattle.std.specs.Prelude.{List};
    ghost use Rattle.multigraph.specs.Flat.{cut_from, AreFlat};

    ghost Value = { List (List T) };

    ghost view = { λ l. cut_from 0 l.ends.items l.values.items };

    ghost invariant = { λ l. AreFlat (cut_from 0 l.ends.items l.values.items) l.values.items l.ends.items };
}

// Writes a value of a list.
fn write<T: Copy>(list: &mut [T], place: usize, value: T)
    requires { place < length list.old }
    ensures { list.new ≡ slice_set list.old place value }
{
    list[place] = value;
}

impl<T: Copy> FlatLists<T> {
    /// No lists. Takes no memory.
    pub fn new(alloc: Global) -> FlatLists<T>
        ensures { result ≡ [] }
    {
        FlatLists {
            values: Vec::new(alloc),
            ends: Vec::new(alloc),
        }
    }

    /// No lists, with room for the ends of this many. Fails only if memory runs out.
    pub fn with_capacity(alloc: Global, count: usize) -> Result<FlatLists<T>, AllocError>
        ensures { IfOk result (λ lists. lists ≡ []) }
    {
        Ok(FlatLists {
            values: Vec::new(alloc),
            ends: Vec::with_capacity(alloc, count)?,
        })
    }

    /// Appends a list. Fails only if memory runs out; the lists are unchanged then.
    pub fn push(&mut self, list: &[T]) -> Result<(), AllocError>
        ensures { self.new ≡ (if is_ok result then self.old ++ list.now ∷ [] else self.old) }
    {
        self.ends.reserve(1)?;
        self.values.extend_from_slice(list)?;
        self.ends.push_reserved(self.values.len());
        Ok(())
    }

    // Where list k begins.
    fn start(&self, k: usize) -> usize
        requires { k < length self.now }
        ensures { result ≡ start_at self.now k }
    {
        if k == 0 {
            return 0;
        }
        self.ends[k - 1]
    }

    // Where list k begins, and where it ends.
    fn bounds(&self, k: usize) -> (usize, usize)
        requires { k < length self.now }
        ensures start { result.0 ≡ start_at self.now k }
        ensures end { result.1 ≡ start_at self.now (k + 1) }
        ensures order { result.0 ≤ result.1 }
        ensures within { result.1 ≤ length (joined self.now) }
    {
        (self.start(k), self.ends[k])
    }

    /// How many lists there are.
    pub fn len(&self) -> usize
        ensures { result ≡ length self.now }
    {
        self.ends.len()
    }

    /// List `k`.
    pub fn at(&self, k: usize) -> &[T]
        requires { k < length self.now }
        ensures { result.now ≡ slice_index_or self.now k [] }
    {
        let (start, end) = self.bounds(k);
        &self.values[start..end]
    }

    /// Writes a value at a place of list `k`.
    pub fn set(&mut self, k: usize, place: usize, value: T)
        requires list { k < length self.old }
        requires place { place < length (slice_index_or self.old k []) }
        ensures { self.new ≡ slice_set self.old k (slice_set (slice_index_or self.old k []) place value) }
    {
        let (start, end) = self.bounds(k);
        write(&mut self.values[start..end], place, value);
    }

    /// A copy. Fails only if memory runs out.
    pub fn copy(&self, alloc: Global) -> Result<FlatLists<T>, AllocError>
        ensures { IfOk result (λ lists. lists ≡ self.now) }
    {
        Ok(FlatLists {
            values: Vec::from_slice(alloc, &self.values)?,
            ends: Vec::from_slice(alloc, &self.ends)?,
        })
    }
}

impl FlatLists<u32> {
    /// The number at a place of list `k`.
    pub fn number(&self, k: usize, place: usize) -> u32
        requires list { k < length self.now }
        requires place { place < length (slice_index_or self.now k []) }
        ensures { result ≡ slice_index_or (slice_index_or self.now k []) place 0 }
    {
        self.at(k)[place]
    }
}
