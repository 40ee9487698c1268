// The text of the answer to `euler`.
ghost use Rattle.std.specs.Prelude.{◌≡◌, IfOk};
ghost use Rattle.spqr_script.specs.Answers.Euler.{plane_word, euler_text};

use decimals::{push_number, push_word};
use faces::Euler;
use std::alloc::{AllocError, Global};

/// The line `euler V E F C plane`, or `euler V E F C not-plane`. Fails only if memory runs out.
pub fn euler_line(alloc: Global, e: &Euler) -> Result<Vec<u8>, AllocError>
    ensures { IfOk result (λ text. text.items ≡ euler_text e.now) }
{
    let mut out = Vec::from_slice(alloc, b"euler ")?;
    push_number(&mut out, u128::from(e.v))?;
    push_word(&mut out, b" ")?;
    push_number(&mut out, u128::from(e.e))?;
    push_word(&mut out, b" ")?;
    push_number(&mut out, u128::from(e.f))?;
    push_word(&mut out, b" ")?;
    push_number(&mut out, u128::from(e.c))?;
    push_word(&mut out, plane_word(e.plane))?;
    push_word(&mut out, b"\n")?;
    Ok(out)
}

// The word for whether a rotation system is plane, with the space before it.
fn plane_word(plane: bool) -> &'static [u8]
    ensures { result.now ≡ plane_word plane }
{
    if plane { b" plane" } else { b" not-plane" }
}
