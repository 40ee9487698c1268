// What the words ask for.
ghost use Rattle.std.specs.Prelude.{◌≡◌, IfOk, map, option_map, string_bytes};
ghost use Rattle.std.specs.List.{list_all};
ghost use Rattle.command_words.specs.Form.{asked, command_of, is_plain, form_of};

use crate::numbers::{edges, seed};
use crate::positionals::{Three, three_words};
use std::alloc::{AllocError, Global};

/// What the program is asked to do.
#[derive(Clone, Copy)]
pub enum Form<'a> {
    /// `run GRAPH SCRIPT`: the report on the graph of a file and a script, by the names of the two files.
    Run { graph: &'a str, script: &'a str },
    /// `make N SEED`: the summary of the graph of `edges` edges, or up to four more, that is made from `seed`.
    Make { edges: u32, seed: u64 },
}

// Whether a word does not begin with `-`.
fn is_plain(word: &str) -> bool
    ensures { result ≡ is_plain word.now }
{
    match word.as_bytes().first() {
        Some(first) => *first != b'-',
        None => true,
    }
}

// Whether none of the words begins with `-`.
fn are_plain(words: &[String]) -> bool
    ensures { result ≡ list_all is_plain (map string_bytes words.now) }
{
    let mut rest = words;
    while let Some((word, others)) = rest.split_first() {
        if !is_plain(word) {
            return false;
        }
        rest = others;
    }
    true
}

// The form that three words are.
fn command_of(three: Three<'_>) -> Option<Form<'_>>
    ensures { option_map asked result
        ≡ command_of (three.entry.command.now, three.entry.first.now, three.entry.second.now) }
{
    match three.command {
        "run" => Some(Form::Run {
            graph: three.first,
            script: three.second,
        }),
        "make" => Some(Form::Make {
            edges: edges(three.first)?,
            seed: seed(three.second)?,
        }),
        _ => None,
    }
}

/// The form of the words after the program's name, and `None` exactly where they have no form: three words, none of which
/// begins with `-`, `run` with two names or `make` with two numbers in decimal digits, the first from 6 to 20,000 and the
/// second below 2^64. Fails only if memory runs out.
pub fn form_of(alloc: Global, words: &[String]) -> Result<Option<Form<'_>>, AllocError>
    ensures { IfOk result (λ form. option_map asked form ≡ form_of (map string_bytes words.now)) }
{
    if !are_plain(words) {
        return Ok(None);
    }
    match three_words(alloc, words)? {
        Some(three) => Ok(command_of(three)),
        None => Ok(None),
    }
}
