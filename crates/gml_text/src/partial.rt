// A document of which some pairs have been read.

ghost use Rattle.std.specs.Prelude.{◌≡◌, List, [], IfOk, OnOk, MatchBool};
ghost use Rattle.gml_text.specs.Pairs.{document_of};
ghost use Rattle.gml_text.specs.Document.{empty};
ghost use Rattle.gml_text.specs.Partial.{frames_of, pairs_of, IsAdded, IsOpened, IsClosed, IsTaken, IsTooDeep, IsPartial, Stepped};

use crate::document::{Bytes, Pair, Pairs, Value};
use crate::item::{Found, Item, next_item};
use std::alloc::{AllocError, Global};
use std::mem;

// How many lists may be nested.
const DEPTH: usize = 32;

// A list that is open, with the pairs before it in the list around it.
#[derive(Drop)]
pub(crate) struct OpenList {
    before: Vec<Pair>,
    key: Bytes,
}

// The lists that are open, the innermost last, and the pairs of the innermost.
#[derive(Drop)]
pub(crate) struct Partial {
    open_lists: Vec<OpenList>,
    pairs: Vec<Pair>,
}

// Why no more is read: no document continues where this many bytes are left, or memory ran out.
pub(crate) enum Stop {
    Fault(usize),
    Memory,
}

impl Partial {
    // Nothing read.
    pub(crate) fn new(alloc: Global) -> Partial
        ensures frames { frames_of result ≡ [] }
        ensures pairs { pairs_of result ≡ empty }
    {
        Partial {
            open_lists: Vec::new(alloc),
            pairs: Vec::new(alloc),
        }
    }

    // The pairs that have been read.
    pub(crate) fn into_pairs(self) -> Vec<Pair>
        ensures { document_of result.items ≡ pairs_of self }
    {
        self.pairs
    }

    // Adds a pair to the innermost list.
    fn add(&mut self, key: Bytes, value: Value) -> Result<(), AllocError>
        ensures { OnOk result (IsAdded key value self.old self.new) }
    {
        self.pairs.push(Pair { key, value })?;
        Ok(())
    }

    // Opens a list.
    fn open(&mut self, alloc: Global, key: Bytes) -> Result<(), AllocError>
        ensures { OnOk result (IsOpened key self.old self.new) }
    {
        let before = mem::replace(&mut self.pairs, Vec::new(alloc));
        self.open_lists.push(OpenList { before, key })?;
        Ok(())
    }

    // Closes the innermost list; false where none is open.
    fn close(&mut self) -> Result<bool, AllocError>
        ensures { IfOk result (λ done. MatchBool done (IsClosed self.old self.new)
            (frames_of self.old ≡ [])) }
    {
        match self.open_lists.pop() {
            None => Ok(false),
            Some(OpenList { before, key }) => {
                let mut inner = mem::replace(&mut self.pairs, before);
                inner.shrink_to_fit();
                let value = Value::List(Pairs::of(inner));
                self.pairs.push(Pair { key, value })?;
                Ok(true)
            }
        }
    }

    // Takes a pair, or opens its list; false where that would be nested too deep.
    fn take_pair(&mut self, alloc: Global, key: &[u8], found: Found<'_>) -> Result<bool, AllocError>
        ensures { IfOk result
            (λ done. MatchBool done (IsTaken key.now found.entry self.old self.new)
            (IsTooDeep found.entry self.old)) }
    {
        match found {
            Found::Number(text) => {
                let value = Value::Num(Bytes::from_slice(alloc, text)?);
                self.add(Bytes::from_slice(alloc, key)?, value)?;
                Ok(true)
            }
            Found::Text(text) => {
                let value = Value::Str(Bytes::from_slice(alloc, text)?);
                self.add(Bytes::from_slice(alloc, key)?, value)?;
                Ok(true)
            }
            Found::Open => {
                if self.open_lists.len() < DEPTH {
                    self.open(alloc, Bytes::from_slice(alloc, key)?)?;
                    Ok(true)
                } else {
                    Ok(false)
                }
            }
        }
    }

    // Takes the next item and returns the bytes after it, or None at the end of the document.
    pub(crate) fn step<'a>(
        &mut self,
        alloc: Global,
        rest: &'a [u8],
    ) -> Result<Option<&'a [u8]>, Stop>
        requires { IsPartial self.old }
        ensures { Stepped self.old rest.now result self.new }
    {
        match next_item(rest) {
            Err(left) => Err(Stop::Fault(left)),
            Ok(item) => match item {
                Item::End => {
                    if self.open_lists.is_empty() {
                        Ok(None)
                    } else {
                        Err(Stop::Fault(0))
                    }
                }
                Item::Close(after) => match self.close() {
                    Ok(closed) => {
                        if closed {
                            Ok(Some(after))
                        } else {
                            Err(Stop::Fault(after.len() + 1))
                        }
                    }
                    Err(_) => Err(Stop::Memory),
                },
                Item::Pair(key, found, behind) => match self.take_pair(alloc, key, found) {
                    Ok(taken) => {
                        if taken {
                            Ok(Some(behind))
                        } else {
                            Err(Stop::Fault(behind.len() + 1))
                        }
                    }
                    Err(_) => Err(Stop::Memory),
                },
            },
        }
    }
}
