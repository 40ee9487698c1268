// Documents: pairs of a key and a value, which may be pairs again.

ghost use Rattle.std.specs.Prelude.{◌≡◌, IfOk};
ghost use Rattle.gml_text.specs.Pairs.{document_of};
ghost use Rattle.gml_text.specs.WellFormed.{IsWellFormed};
ghost use Rattle.gml_text.specs.declared.document.GmlFault.TheVariants.{Memory};

use smallvec::SmallVec;
use std::alloc::{AllocError, AllocFailed, Global};
use std::marker::Model;

/// A list of bytes, up to 16 of them without an allocation. Contracts see the list of numbers from 0 to 255.
#[derive(Drop)]
pub struct Bytes {
    held: SmallVec<u8, 16>,
}

impl Model for Bytes {
    ghost use Rattle.std.specs.Prelude.{ℕ, List};

    ghost Value = { List ℕ };

    ghost view = { λ b. b.held.items };
}

impl Bytes {
    /// A copy of some bytes. Fails only if memory runs out.
    pub fn from_slice(alloc: Global, bytes: &[u8]) -> Result<Bytes, AllocError>
        ensures { IfOk result (λ copy. copy ≡ bytes.now) }
    {
        let held = SmallVec::from_slice(alloc, bytes)?;
        Ok(Bytes { held })
    }

    /// The bytes, in order.
    pub fn as_slice(&self) -> &[u8]
        ensures { result.now ≡ self.now }
    {
        self.held.as_slice()
    }
}

/// A key and its value.
#[cycle(document)]
#[derive(Drop)]
pub struct Pair {
    /// A letter, then letters, digits and `_`.
    pub key: Bytes,
    /// The number, the string or the list under the key.
    pub value: Value,
}

/// The value of a pair.
#[cycle(document)]
#[derive(Drop)]
pub enum Value {
    /// A number, as it is written.
    Num(Bytes),
    /// A string: the bytes between its quotes.
    Str(Bytes),
    /// A list: its pairs.
    List(Pairs),
}

/// Pairs in order. Contracts see the document that they are.
#[cycle(document)]
#[derive(Drop)]
pub struct Pairs {
    held: Vec<Pair>,
}

impl Model for Pairs {
    ghost use Rattle.gml_text.specs.Document.{Document, pair_count};
    ghost use Rattle.gml_text.specs.Code.{document_code};

    ghost Value = { Document };

    ghost coded = { document_code };

    ghost use Rattle.gml_text.specs.Pairs.{document_of};

    ghost view = { λ p. document_of p.held.items };

    ghost size = { pair_count };

    ghost use Rattle.std.proofs.Common.{arith};
    ghost use Rattle.gml_text.specs.Smaller.{most_deep-le};

    ghost size_decreases = { λ p h. omega (arith, most_deep-le p.held.items) };
}

impl Pairs {
    /// The pairs of a vector.
    pub fn of(held: Vec<Pair>) -> Pairs
        ensures { result ≡ document_of held.items }
    {
        Pairs { held }
    }

    /// The pairs, in order.
    pub fn as_slice(&self) -> &[Pair]
        ensures { document_of result.now ≡ self.now }
    {
        self.held.as_slice()
    }
}

/// A document that has a text: its keys and numbers are those of the grammar, no string has a quote in it, and lists are nested
/// at most 32 deep.
#[derive(Drop)]
pub struct Doc {
    top: Pairs,
}

impl Model for Doc {
    ghost use Rattle.gml_text.specs.Document.{Document};
    ghost use Rattle.gml_text.specs.WellFormed.{IsWellFormed};
    ghost use Rattle.gml_text.specs.Code.{document_code};

    ghost Value = { Document };

    ghost coded = { document_code };

    ghost view = { λ d. d.top };

    ghost invariant = { λ d. IsWellFormed d.top };
}

impl Doc {
    /// The document of these pairs.
    pub fn of(pairs: Vec<Pair>) -> Doc
        requires { IsWellFormed (document_of pairs.items) }
        ensures { result ≡ document_of pairs.items }
    {
        Doc {
            top: Pairs::of(pairs),
        }
    }

    // All pairs.
    pub(crate) fn top(&self) -> &Pairs
        ensures pairs { result.now ≡ self.now }
        ensures well_formed { IsWellFormed self.now }
    {
        &self.top
    }

    /// The pairs of the document itself, in order.
    pub fn pairs(&self) -> &[Pair]
        ensures pairs { document_of result.now ≡ self.now }
        ensures well_formed { IsWellFormed self.now }
    {
        self.top.as_slice()
    }
}

/// Why bytes are no document: at a byte, at their end, or because memory ran out.
#[derive(Clone, Copy, Debug, PartialEq, Eq)]
pub enum GmlFault {
    /// No document continues with the byte at this place, counted from 0.
    Bad(usize),
    /// The bytes, of which there are this many, end within a document.
    End(usize),
    /// Memory ran out.
    Memory,
}

impl From<AllocError> for GmlFault {
    ghost from_gives = { λ _ e. e ≡ Memory };

    fn from(_error: AllocError) -> GmlFault {
        GmlFault::Memory
    }
}

impl<T: Drop> From<AllocFailed<T>> for GmlFault {
    ghost from_gives = { λ _ e. e ≡ Memory };

    fn from(_error: AllocFailed<T>) -> GmlFault {
        GmlFault::Memory
    }
}
