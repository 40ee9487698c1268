// The text of the answer to `rank`.
ghost use Rattle.std.specs.Prelude.{◌≡◌, IfOk};
ghost use Rattle.spqr_script.specs.Answers.Rank.{rank_text};

use decimals::{push_number, push_word};
use std::alloc::{AllocError, Global};

/// The line `rank R`: the place of the current member in the block's list. Fails only if memory runs out.
pub fn rank_line(alloc: Global, r: u128) -> Result<Vec<u8>, AllocError>
    ensures { IfOk result (λ text. text.items ≡ rank_text r) }
{
    let mut out = Vec::from_slice(alloc, b"rank ")?;
    push_number(&mut out, r)?;
    push_word(&mut out, b"\n")?;
    Ok(out)
}
