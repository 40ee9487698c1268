// The text of the answer to `gml`.
ghost use Rattle.std.specs.Prelude.{◌≡◌, IfOk};
ghost use Rattle.spqr_script.specs.Answers.Gml.{document_text};

use decimals::{push_number, push_word};
use std::alloc::{AllocError, Global};

/// The line `gml T` and the T bytes given. Fails only if memory runs out.
pub fn gml_lines(alloc: Global, text: &[u8]) -> Result<Vec<u8>, AllocError>
    ensures { IfOk result (λ out. out.items ≡ document_text text.now) }
{
    let mut out = Vec::from_slice(alloc, b"gml ")?;
    push_number(&mut out, text.len() as u128)?;
    push_word(&mut out, b"\n")?;
    push_word(&mut out, text)?;
    Ok(out)
}
