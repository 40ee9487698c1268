// The arguments of `permute`: a block, a node of its tree, and one or more keys.
ghost use Rattle.std.specs.Prelude.{◌≡◌, IfOk};
ghost use Rattle.spqr_script.specs.Line.{tokens_of};
ghost use Rattle.spqr_script.specs.Reading.{arguments_of};

use crate::arguments::next_index;
use crate::command::Command;
use crate::numbers::read_keys;
use crate::word::Word;
use std::alloc::{AllocError, Global};

// The command, where the text is the numbers of a block and a node, and one or more keys.
pub(crate) fn read_permute(alloc: Global, text: &[u8]) -> Result<Option<Command>, AllocError>
    ensures { IfOk result (λ command. command ≡ arguments_of Word.Permute (tokens_of text.now)) }
{
    let Some((b, rest)) = next_index(text) else {
        return Ok(None);
    };
    let Some((k, rest)) = next_index(rest) else {
        return Ok(None);
    };
    match read_keys(alloc, rest)? {
        Some(keys) => Ok(Some(Command::Permute(b, k, keys))),
        None => Ok(None),
    }
}
