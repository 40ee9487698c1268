// A line put before a text.
ghost use Rattle.std.specs.Prelude.{◌≡◌, ◌++◌, OnOk};

use std::alloc::AllocError;

/// Puts a line before the text that is there. The text is moved within its own memory, and takes more only for the line. Fails only if memory
/// runs out.
pub(crate) fn put_first(text: &mut Vec<u8>, line: &[u8]) -> Result<(), AllocError>
    ensures { OnOk result (text.new.items ≡ line.now ++ text.old.items) }
{
    text.extend_from_slice(line)?;
    text.rotate_right(line.len());
    Ok(())
}
