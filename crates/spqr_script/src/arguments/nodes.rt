// The arguments of `flip`, `lock` and `unlock`: a block and a node of its tree.
ghost use Rattle.std.specs.Prelude.{◌≡◌};
ghost use Rattle.spqr_script.specs.Line.{tokens_of};
ghost use Rattle.spqr_script.specs.Reading.{arguments_of};

use crate::arguments::{alone, next_index};
use crate::command::Command;
use crate::word::Word;

// The command `flip`, if the text is the numbers of a block and a node.
pub(crate) fn read_flip(text: &[u8]) -> Option<Command>
    ensures { result ≡ arguments_of Word.Flip (tokens_of text.now) }
{
    let (b, rest) = next_index(text)?;
    let (k, rest) = next_index(rest)?;
    alone(Command::Flip(b, k), rest)
}

// The command `lock`, if the text is the numbers of a block and a node.
pub(crate) fn read_lock(text: &[u8]) -> Option<Command>
    ensures { result ≡ arguments_of Word.Lock (tokens_of text.now) }
{
    let (b, rest) = next_index(text)?;
    let (k, rest) = next_index(rest)?;
    alone(Command::Lock(b, k), rest)
}

// The command `unlock`, if the text is the numbers of a block and a node.
pub(crate) fn read_unlock(text: &[u8]) -> Option<Command>
    ensures { result ≡ arguments_of Word.Unlock (tokens_of text.now) }
{
    let (b, rest) = next_index(text)?;
    let (k, rest) = next_index(rest)?;
    alone(Command::Unlock(b, k), rest)
}
