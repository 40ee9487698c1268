// The text of the answer to a command that is refused.
ghost use Rattle.std.specs.Prelude.{◌≡◌, IfOk};
ghost use Rattle.spqr_script.specs.Answers.Error.{error_text};

use decimals::{push_number, push_spaced_wide, push_word};
use std::alloc::{AllocError, Global};

/// The line `error CODE N N ..`: a refused command, with the numbers of its code. Fails only if memory runs out.
pub fn error_line(alloc: Global, code: u32, numbers: &[u128]) -> Result<Vec<u8>, AllocError>
    ensures { IfOk result (λ text. text.items ≡ error_text code numbers.now) }
{
    let mut out = Vec::from_slice(alloc, b"error ")?;
    push_number(&mut out, u128::from(code))?;
    push_spaced_wide(&mut out, numbers)?;
    push_word(&mut out, b"\n")?;
    Ok(out)
}
