// The arguments of `goto`: a block and a rank.
ghost use Rattle.std.specs.Prelude.{◌≡◌};
ghost use Rattle.spqr_script.specs.Line.{tokens_of};
ghost use Rattle.spqr_script.specs.Reading.{arguments_of};

use crate::arguments::{alone, next_index, next_rank};
use crate::command::Command;
use crate::word::Word;

// The command, where the text is the number of a block and a rank.
pub(crate) fn read_goto(text: &[u8]) -> Option<Command>
    ensures { result ≡ arguments_of Word.Goto (tokens_of text.now) }
{
    let (b, rest) = next_index(text)?;
    let (r, rest) = next_rank(rest)?;
    alone(Command::Goto(b, r), rest)
}
