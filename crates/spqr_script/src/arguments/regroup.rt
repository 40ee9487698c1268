// The arguments of `regroup`: a vertex, and one or more edges.
ghost use Rattle.std.specs.Prelude.{◌≡◌, IfOk};
ghost use Rattle.spqr_script.specs.Line.{tokens_of};
ghost use Rattle.spqr_script.specs.Reading.{arguments_of};

use crate::arguments::next_index;
use crate::command::Command;
use crate::numbers::read_keys;
use crate::word::Word;
use std::alloc::{AllocError, Global};

// The command, where the text is the number of a vertex, and one or more edges.
pub(crate) fn read_regroup(alloc: Global, text: &[u8]) -> Result<Option<Command>, AllocError>
    ensures { IfOk result (λ command. command ≡ arguments_of Word.Regroup (tokens_of text.now)) }
{
    let Some((v, rest)) = next_index(text) else {
        return Ok(None);
    };
    match read_keys(alloc, rest)? {
        Some(edges) => Ok(Some(Command::Regroup(v, edges))),
        None => Ok(None),
    }
}
