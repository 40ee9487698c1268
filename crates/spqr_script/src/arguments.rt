// The arguments of commands: a shape for each word, where the shapes that are more than numbers have files of their own.
ghost use Rattle.std.specs.Prelude.{◌≡◌, ℕ, None, Some, IfOk, MatchOption};
ghost use Rattle.std.specs.Option.{option_map};
ghost use Rattle.spqr_script.specs.Line.{tokens_of};
ghost use Rattle.spqr_script.specs.Number.{index_limit, rank_limit};
ghost use Rattle.spqr_script.specs.Reading.{alone, first_number, index_then, arguments_of};
ghost use Rattle.spqr_script.specs.declared.command.Command.{Command};

mod convert;
mod euler;
mod goto;
mod list;
mod nodes;
mod permute;
mod regroup;
mod take;

use crate::command::Command;
use crate::numbers::index;
use crate::tokens::next_token;
use crate::word::Word;
use convert::read_convert;
use decimals::number;
use euler::read_euler;
use goto::read_goto;
use list::{read_list, read_list_whole};
use nodes::{read_flip, read_lock, read_unlock};
use permute::read_permute;
use regroup::read_regroup;
use std::alloc::{AllocError, Global};
use take::{read_convert_whole, read_take};

// The command, if no token comes after its word.
pub(crate) fn alone(command: Command, text: &[u8]) -> Option<Command>
    ensures { result ≡ alone command (tokens_of text.now) }
{
    match next_token(text) {
        None => Some(command),
        Some(_) => None,
    }
}

// The number of a block, a node or a key that the first token of a text is, and the text after it.
pub(crate) fn next_index(text: &[u8]) -> Option<(u32, &[u8])>
    ensures { MatchOption result
        (first_number index_limit (tokens_of text.now) ≡ None)
        (λ first. first_number index_limit (tokens_of text.now) ≡ Some (first.0, tokens_of first.1.now)) }
{
    let (token, rest) = next_token(text)?;
    let number = index(token)?;
    Some((number, rest))
}

// The rank that the first token of a text is, and the text after it.
pub(crate) fn next_rank(text: &[u8]) -> Option<(u128, &[u8])>
    ensures { MatchOption result
        (first_number rank_limit (tokens_of text.now) ≡ None)
        (λ first. first_number rank_limit (tokens_of text.now) ≡ Some (first.0, tokens_of first.1.now)) }
{
    let (token, rest) = next_token(text)?;
    let number = number(token)?;
    Some((number, rest))
}

// The number of a block or a component that is the whole text.
fn block(text: &[u8]) -> Option<u32>
    ensures { (make : ℕ → Command) → option_map make result
        ≡ index_then (λ b. alone (make b)) (tokens_of text.now) }
{
    let (b, rest) = next_index(text)?;
    match next_token(rest) {
        None => Some(b),
        Some(_) => None,
    }
}

// The command of a word with the text after it, if these are one.
pub(crate) fn read_arguments(
    alloc: Global,
    word: Word,
    text: &[u8],
) -> Result<Option<Command>, AllocError>
    ensures { IfOk result (λ command. command ≡ arguments_of word (tokens_of text.now)) }
{
    match word {
        Word::Euler => read_euler(alloc, text),
        Word::Show => Ok(block(text).map(Command::Show)),
        Word::Faces => Ok(block(text).map(Command::Faces)),
        Word::Flip => Ok(read_flip(text)),
        Word::Permute => read_permute(alloc, text),
        Word::Mirror => Ok(block(text).map(Command::Mirror)),
        Word::First => Ok(block(text).map(Command::First)),
        Word::Next => Ok(block(text).map(Command::Next)),
        Word::List => Ok(read_list(text)),
        Word::Goto => Ok(read_goto(text)),
        Word::Convert => read_convert(alloc, text),
        Word::Take => read_take(alloc, text),
        Word::Undo => Ok(alone(Command::Undo, text)),
        Word::Redo => Ok(alone(Command::Redo, text)),
        Word::Gml => Ok(alone(Command::Gml, text)),
        Word::Count => Ok(block(text).map(Command::Count)),
        Word::Rank => Ok(block(text).map(Command::Rank)),
        Word::Longest => Ok(block(text).map(Command::Longest)),
        Word::Draw => Ok(block(text).map(Command::Draw)),
        Word::Lock => Ok(read_lock(text)),
        Word::Unlock => Ok(read_unlock(text)),
        Word::Whole => Ok(block(text).map(Command::Whole)),
        Word::Regroup => read_regroup(alloc, text),
        Word::NextWhole => Ok(block(text).map(Command::NextWhole)),
        Word::ListWhole => Ok(read_list_whole(text)),
        Word::ConvertWhole => read_convert_whole(alloc, text),
    }
}
