// The reader of documents.

ghost use Rattle.std.specs.Prelude.{◌≡◌, ◌-◌, ◌≤◌, ◌==◌, cond, IfOk, IfErr};
ghost use Rattle.gml_text.specs.Grammar.{Spells};
ghost use Rattle.gml_text.specs.Faults.{IsFault};
ghost use Rattle.gml_text.specs.declared.document.GmlFault.TheVariants.{Bad, End};

use crate::document::{Doc, GmlFault};
use crate::partial::{Partial, Stop};
use std::alloc::Global;

/// Reads the document that all of the bytes spell, in time linear in their number. The grammar is that of Himsolt's report on
/// GML (1997), with comments wherever a token may start, strings without escapes, and lists nested at most 32 deep.
///
/// Fails with `Bad(at)` or `End(at)` exactly where the bytes spell no document: `at` is the length of their longest prefix with
/// which some document begins, and the fault is `End` if that is all of them. Fails with `Memory` if memory runs out.
pub fn read(alloc: Global, bytes: &[u8]) -> Result<Doc, GmlFault>
    ensures spelled { IfOk result (λ d. Spells bytes.now d) }
    ensures fault { IfErr result (λ e. IsFault e bytes.now) }
{
    let mut partial = Partial::new(alloc);
    let mut rest = bytes;
    'items: loop {
        match partial.step(alloc, rest) {
            Ok(next) => match next {
                Some(behind) => rest = behind,
                None => return Ok(Doc::of(partial.into_pairs())),
            },
            Err(stop) => match stop {
                Stop::Fault(left) => return Err(fault(bytes.len(), left)),
                Stop::Memory => return Err(GmlFault::Memory),
            },
        }
    }
}

// The fault where this many of the bytes are left.
fn fault(len: usize, left: usize) -> GmlFault
    requires { left ≤ len }
    ensures { result ≡ cond (left == 0) (End len) (Bad (len - left)) }
{
    if left == 0 {
        GmlFault::End(len)
    } else {
        GmlFault::Bad(len - left)
    }
}
