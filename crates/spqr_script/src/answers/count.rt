// The text of the answer to `count`.
ghost use Rattle.std.specs.Prelude.{◌≡◌, IfOk};
ghost use Rattle.spqr_script.specs.Answers.Count.{count_text};

use decimals::{push_number, push_word};
use std::alloc::{AllocError, Global};

/// The line `count C`: how many members a block's list has. Fails only if memory runs out.
pub fn count_line(alloc: Global, c: u128) -> Result<Vec<u8>, AllocError>
    ensures { IfOk result (λ text. text.items ≡ count_text c) }
{
    let mut out = Vec::from_slice(alloc, b"count ")?;
    push_number(&mut out, c)?;
    push_word(&mut out, b"\n")?;
    Ok(out)
}
