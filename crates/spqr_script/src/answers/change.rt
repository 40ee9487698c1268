// The texts of the answers to commands that change an embedding.
ghost use Rattle.std.specs.Prelude.{◌≡◌, IfOk};
ghost use Rattle.spqr_script.specs.Answers.Change.{ok_text, end_text};

use std::alloc::{AllocError, Global};

/// The line `ok`: a change was made. Fails only if memory runs out.
pub fn ok_line(alloc: Global) -> Result<Vec<u8>, AllocError>
    ensures { IfOk result (λ text. text.items ≡ ok_text) }
{
    Vec::from_slice(alloc, b"ok\n")
}

/// The line `end`: no member follows. Fails only if memory runs out.
pub fn end_line(alloc: Global) -> Result<Vec<u8>, AllocError>
    ensures { IfOk result (λ text. text.items ≡ end_text) }
{
    Vec::from_slice(alloc, b"end\n")
}
