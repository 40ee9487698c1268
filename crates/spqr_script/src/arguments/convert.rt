// The arguments of `convert`: a block, and `rank` and a rank, or `to` and a rotation.
ghost use Rattle.std.specs.Prelude.{◌≡◌, IfOk};
ghost use Rattle.spqr_script.specs.Line.{tokens_of};
ghost use Rattle.spqr_script.specs.Reading.{with_rank, with_rotation, convert_of, arguments_of};
ghost use Rattle.spqr_script.specs.declared.command.Command.TheVariants.{ConvertRank, ConvertTo};

use crate::arguments::{alone, next_index, next_rank};
use crate::command::Command;
use crate::rotation::read_rotation;
use crate::tokens::next_token;
use crate::word::Word;
use std::alloc::{AllocError, Global};

// The conversion of a block to the rank that the text is.
fn to_rank(b: u32, text: &[u8]) -> Option<Command>
    ensures { result ≡ with_rank (ConvertRank b) (tokens_of text.now) }
{
    let (r, rest) = next_rank(text)?;
    alone(Command::ConvertRank(b, r), rest)
}

// The conversion of a block to the rotation that the text is.
fn to_rotation(alloc: Global, b: u32, text: &[u8]) -> Result<Option<Command>, AllocError>
    ensures { IfOk result (λ command. command ≡ with_rotation (ConvertTo b) (tokens_of text.now)) }
{
    match read_rotation(alloc, text)? {
        Some(entries) => Ok(Some(Command::ConvertTo(b, entries))),
        None => Ok(None),
    }
}

// The conversion of a block that the text spells.
fn read_target(alloc: Global, b: u32, text: &[u8]) -> Result<Option<Command>, AllocError>
    ensures { IfOk result (λ command. command ≡ convert_of b (tokens_of text.now)) }
{
    let Some((name, rest)) = next_token(text) else {
        return Ok(None);
    };
    if name == b"rank".as_slice() {
        return Ok(to_rank(b, rest));
    }
    if name == b"to".as_slice() {
        return to_rotation(alloc, b, rest);
    }
    Ok(None)
}

// The command, where the text is the number of a block and a target.
pub(crate) fn read_convert(alloc: Global, text: &[u8]) -> Result<Option<Command>, AllocError>
    ensures { IfOk result (λ command. command ≡ arguments_of Word.Convert (tokens_of text.now)) }
{
    match next_index(text) {
        Some((b, rest)) => read_target(alloc, b, rest),
        None => Ok(None),
    }
}
