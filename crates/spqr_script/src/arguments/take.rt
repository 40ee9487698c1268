// The arguments of `take` and `convertwhole`: a block or a component, and a rotation.
ghost use Rattle.std.specs.Prelude.{◌≡◌, ℕ, List, IfOk};
ghost use Rattle.std.specs.Option.{option_map};
ghost use Rattle.spqr_script.specs.Line.{tokens_of};
ghost use Rattle.spqr_script.specs.Reading.{index_then, with_rotation, arguments_of};
ghost use Rattle.spqr_script.specs.declared.command.Command.{Command};

use crate::arguments::next_index;
use crate::command::Command;
use crate::rotation::read_rotation;
use crate::word::Word;
use rotations::Lists;
use std::alloc::{AllocError, Global};

// The number of a block or a component and the rotation after it, where the text is these.
fn number_and_rotation(alloc: Global, text: &[u8]) -> Result<Option<(u32, Lists)>, AllocError>
    ensures { IfOk result (λ given. (make : ℕ → List (ℕ × List ℕ) → Command) →
        option_map (λ pair. make pair.0 pair.1) given
        ≡ index_then (λ b. with_rotation (make b)) (tokens_of text.now)) }
{
    let Some((b, rest)) = next_index(text) else {
        return Ok(None);
    };
    match read_rotation(alloc, rest)? {
        Some(entries) => Ok(Some((b, entries))),
        None => Ok(None),
    }
}

// The command `take`, if the text is the number of a block and a rotation.
pub(crate) fn read_take(alloc: Global, text: &[u8]) -> Result<Option<Command>, AllocError>
    ensures { IfOk result (λ command. command ≡ arguments_of Word.Take (tokens_of text.now)) }
{
    match number_and_rotation(alloc, text)? {
        Some((b, entries)) => Ok(Some(Command::Take(b, entries))),
        None => Ok(None),
    }
}

// The command `convertwhole`, if the text is the number of a component and a rotation.
pub(crate) fn read_convert_whole(alloc: Global, text: &[u8]) -> Result<Option<Command>, AllocError>
    ensures { IfOk result (λ command. command ≡ arguments_of Word.ConvertWhole
        (tokens_of text.now)) }
{
    match number_and_rotation(alloc, text)? {
        Some((c, entries)) => Ok(Some(Command::ConvertWhole(c, entries))),
        None => Ok(None),
    }
}
