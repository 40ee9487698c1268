// Words that `clap` reads as three positionals.
ghost use Rattle.std.specs.Prelude.{◌≡◌, IfOk, map, option_map, string_bytes, true};
ghost use Rattle.std.specs.List.{list_all};
ghost use Rattle.clap.specs.Matches.{found_of};
ghost use Rattle.clap.specs.Simple.{app_of};
ghost use Rattle.clap.specs.Walk.{rows_of};
ghost use Rattle.command_words.specs.Form.{is_plain, three_in};
ghost use Rattle.command_words.specs.Positionals.{all_three, three, texts_in};

use clap::error::ErrorKind;
use clap::{Arg, ArgMatches, Command};
use std::alloc::{AllocError, Global};

// Three words.
#[derive(Clone, Copy)]
pub(crate) struct Three<'a> {
    pub(crate) command: &'a str,
    pub(crate) first: &'a str,
    pub(crate) second: &'a str,
}

// The command with three required positionals.
fn positionals<'a>(alloc: Global) -> Result<Command<'a>, AllocError>
    ensures { IfOk result (λ c. app_of c ≡ three) }
{
    let command = Arg::new(alloc, "command").required(true);
    let first = Arg::new(alloc, "first").required(true);
    let second = Arg::new(alloc, "second").required(true);
    Command::new(alloc, "spqr")
        .no_binary_name(true)
        .disable_help_flag(true)
        .arg(command)?
        .arg(first)?
        .arg(second)
}

// Three texts, where each is there.
fn all_three<'a>(
    command: Option<&'a str>,
    first: Option<&'a str>,
    second: Option<&'a str>,
) -> Option<Three<'a>>
    ensures { option_map (λ t. (t.command.now, t.first.now, t.second.now)) result
        ≡ all_three (option_map (λ t. t.now) command.entry)
        (option_map (λ t. t.now) first.entry) (option_map (λ t. t.now) second.entry) }
{
    Some(Three {
        command: command?,
        first: first?,
        second: second?,
    })
}

// The three texts that were found.
fn texts<'a>(matches: &ArgMatches<'a>) -> Option<Three<'a>>
    ensures { option_map (λ t. (t.command.now, t.first.now, t.second.now)) result
        ≡ texts_in (rows_of (found_of matches.now)) }
{
    all_three(
        matches.get_str("command"),
        matches.get_str("first"),
        matches.get_str("second"),
    )
}

// The words, where they are three.
pub(crate) fn three_words<'a>(
    alloc: Global,
    words: &'a [String],
) -> Result<Option<Three<'a>>, AllocError>
    requires { list_all is_plain (map string_bytes words.now) ≡ true }
    ensures { IfOk result (λ three. option_map (λ t. (t.command.now, t.first.now, t.second.now)) three
        ≡ three_in (map string_bytes words.now)) }
{
    let command = positionals(alloc)?;
    match command.try_get_matches_from(words) {
        Ok(matches) => Ok(texts(&matches)),
        Err(fault) => match fault.kind() {
            ErrorKind::OutOfMemory => Err(AllocError),
            _ => Ok(None),
        },
    }
}
