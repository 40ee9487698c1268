// Commands read from lines, and scripts.
ghost use Rattle.std.specs.Prelude.{◌≡◌, ◌<◌, ◌^◌, ◌∷◌, List, length, IfOk, IfErr};
ghost use Rattle.spqr_script.specs.Line.{cut_lines, without_return, lines_of, is_passed_over, tokens_of};
ghost use Rattle.spqr_script.specs.Script.{Commands};
ghost use Rattle.spqr_script.specs.Reading.{command_of, commands_from, Gives};
ghost use Rattle.spqr_script.specs.Outcome.{IsReading, IsFault};
ghost use Rattle.spqr_script.specs.declared.command.Command.{Command};

use crate::arguments::read_arguments;
use crate::command::{Command, ScriptFault};
use crate::tokens::{cut, next_token, skip_blanks};
use crate::word::find_word;
use std::alloc::{AllocError, Global};

// The command that a line is, where it is one.
fn read_command(alloc: Global, line: &[u8]) -> Result<Option<Command>, AllocError>
    ensures { IfOk result (λ command. command ≡ command_of (tokens_of line.now)) }
{
    let Some((name, text)) = next_token(line) else {
        return Ok(None);
    };
    match find_word(name) {
        Some(word) => read_arguments(alloc, word, text),
        None => Ok(None),
    }
}

// The first line without its line feed, and the text after it.
fn first_line(bytes: &[u8]) -> (&[u8], &[u8])
    requires { 0 < length bytes.now }
    ensures { (cut_lines bytes.now ≡ result.0.now ∷ cut_lines result.1.now)
        × (length result.1.now < length bytes.now) }
{
    match cut(bytes, b'\n') {
        Some((line, rest)) => (line, rest),
        None => bytes.split_at(bytes.len()),
    }
}

// The line without one carriage return at its end.
fn without_return(line: &[u8]) -> &[u8]
    ensures { result.now ≡ without_return line.now }
{
    if line.is_empty() {
        return line;
    }
    let last = line.len() - 1;
    if line[last] == b'\r' {
        &line[..last]
    } else {
        line
    }
}

// Whether a line has only blanks, or `#` as its first byte other than these.
fn is_passed_over(line: &[u8]) -> bool
    ensures { result ≡ is_passed_over line.now }
{
    match skip_blanks(line).split_first() {
        None => true,
        Some((b, _)) => *b == b'#',
    }
}

// The commands of the lines, or the first line that is not a command.
fn read_lines(alloc: Global, bytes: &[u8]) -> Result<Vec<Command>, ScriptFault>
    requires { length bytes.now < 2 ^ 32 }
    ensures { Gives result (commands_from 1 (lines_of bytes.now)) }
{
    let mut commands = Vec::new(alloc);
    let mut rest = bytes;
    let mut line: u32 = 0;
    while !rest.is_empty() {
        let (text, after) = first_line(rest);
        rest = after;
        line += 1;
        let text = without_return(text);
        if is_passed_over(text) {
            continue;
        }
        match read_command(alloc, text)? {
            Some(command) => commands.push(command)?,
            None => return Err(ScriptFault::BadLine(line)),
        }
    }
    Ok(commands)
}

/// The commands that the bytes of a script spell, in order. A script has fewer than 2^32 bytes. Fails with `BadLine(l)` if line
/// `l`, counted from 1, is the first that is not a command and not skipped; fails with `Memory` if memory runs out.
pub fn read(alloc: Global, bytes: &[u8]) -> Result<Vec<Command>, ScriptFault>
    requires { length bytes.now < 2 ^ 32 }
    // What is read is spelled.
    ensures spelled { IfOk result (λ commands. Commands bytes.now commands.items) }
    // What is spelled is read, unless memory runs out.
    ensures all_spelled { (commands : List Command) → Commands bytes.now commands
        → IsReading result commands }
    // A bad line is the first one, and then nothing is spelled.
    ensures bad_line { IfErr result (IsFault bytes.now) }
{
    read_lines(alloc, bytes)
}
