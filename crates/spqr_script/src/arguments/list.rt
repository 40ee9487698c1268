// The arguments of `list` and `listwhole`: a block or a component, and how many of its members are printed.
ghost use Rattle.std.specs.Prelude.{◌≡◌, ℕ};
ghost use Rattle.std.specs.Option.{option_map};
ghost use Rattle.spqr_script.specs.Line.{tokens_of};
ghost use Rattle.spqr_script.specs.Reading.{can_list, list_of, index_then, arguments_of};
ghost use Rattle.spqr_script.specs.declared.command.Command.{Command};

use crate::arguments::next_index;
use crate::command::Command;
use crate::tokens::next_token;
use crate::word::Word;

// The most members that one command prints.
const MAX_LISTED: u32 = 10_000;

// Whether this many members can be listed at once.
fn can_list(n: u32) -> bool
    ensures { result ≡ can_list n }
{
    0 < n && n <= MAX_LISTED
}

// The number of a block or a component and how many of its members are printed, where the text is these.
fn number_and_count(text: &[u8]) -> Option<(u32, u32)>
    ensures { (make : ℕ → ℕ → Command) → option_map (λ pair. make pair.0 pair.1) result
        ≡ index_then (λ b. index_then (list_of (make b))) (tokens_of text.now) }
{
    let (b, rest) = next_index(text)?;
    let (n, rest) = next_index(rest)?;
    if can_list(n) && next_token(rest).is_none() {
        Some((b, n))
    } else {
        None
    }
}

// The command `list`, if the text is the number of a block and how many members are printed.
pub(crate) fn read_list(text: &[u8]) -> Option<Command>
    ensures { result ≡ arguments_of Word.List (tokens_of text.now) }
{
    let (b, n) = number_and_count(text)?;
    Some(Command::List(b, n))
}

// The command `listwhole`, if the text is the number of a component and how many members are printed.
pub(crate) fn read_list_whole(text: &[u8]) -> Option<Command>
    ensures { result ≡ arguments_of Word.ListWhole (tokens_of text.now) }
{
    let (c, n) = number_and_count(text)?;
    Some(Command::ListWhole(c, n))
}
