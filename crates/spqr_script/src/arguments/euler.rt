// The arguments of `euler`: a rotation.
ghost use Rattle.std.specs.Prelude.{◌≡◌, IfOk};
ghost use Rattle.std.specs.Option.{option_map};
ghost use Rattle.spqr_script.specs.Line.{tokens_of};
ghost use Rattle.spqr_script.specs.Reading.{rotation_of};
ghost use Rattle.spqr_script.specs.declared.command.Command.TheVariants.{Euler};

use crate::command::Command;
use crate::rotation::read_rotation;
use std::alloc::{AllocError, Global};

// The command with the rotation that the text is, where it is one.
pub(crate) fn read_euler(alloc: Global, text: &[u8]) -> Result<Option<Command>, AllocError>
    ensures { IfOk result (λ command. command ≡ option_map (λ entries. Euler entries)
        (rotation_of (tokens_of text.now))) }
{
    match read_rotation(alloc, text)? {
        Some(entries) => Ok(Some(Command::Euler(entries))),
        None => Ok(None),
    }
}
