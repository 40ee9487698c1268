// The lines around the members that `list` prints.
ghost use Rattle.std.specs.Prelude.{◌≡◌, IfOk};
ghost use Rattle.spqr_script.specs.Answers.List.{list_text, more_text};

use decimals::{push_number, push_word};
use std::alloc::{AllocError, Global};

/// The line `list B T`: how many members of the block's list follow. Fails only if memory runs out.
pub fn list_line(alloc: Global, b: u32, t: u32) -> Result<Vec<u8>, AllocError>
    ensures { IfOk result (λ text. text.items ≡ list_text b t) }
{
    let mut out = Vec::from_slice(alloc, b"list ")?;
    push_number(&mut out, u128::from(b))?;
    push_word(&mut out, b" ")?;
    push_number(&mut out, u128::from(t))?;
    push_word(&mut out, b"\n")?;
    Ok(out)
}

/// The line `more`: a member follows the last one printed. Fails only if memory runs out.
pub fn more_line(alloc: Global) -> Result<Vec<u8>, AllocError>
    ensures { IfOk result (λ text. text.items ≡ more_text) }
{
    Vec::from_slice(alloc, b"more\n")
}
