// The writer of documents.

ghost use Rattle.std.specs.Prelude.{◌≡◌, ◌+◌, ◌≤◌, ◌++◌, OnOk, IfOk};
ghost use Rattle.gml_text.specs.Document.{empty, depth, max_depth};
ghost use Rattle.gml_text.specs.Pairs.{pair_before};
ghost use Rattle.gml_text.specs.Grammar.{Spells};
ghost use Rattle.gml_text.specs.Layout.{indent, number_line, string_line, open_line, close_line, lines, written};

use crate::document::{Doc, Pair, Pairs, Value};
use std::alloc::{AllocError, Global};

/// Writes a document in its one layout: each pair on lines of its own, with two spaces for each list around it, as `key number`,
/// `key "string"`, or `key [`, the pairs of the list, and `]`. Reading what is written gives the document again. Fails only
/// if memory runs out.
pub fn write(alloc: Global, d: &Doc) -> Result<Vec<u8>, AllocError>
    ensures layout { IfOk result (λ text. text.items ≡ written d.now) }
    ensures spelled { IfOk result (λ text. Spells text.items d.now) }
{
    let mut out = Vec::new(alloc);
    write_pairs(&mut out, 0, d.top())?;
    Ok(out)
}

// Writes the lines of pairs within this many lists.
#[cycle(lines)]
fn write_pairs(out: &mut Vec<u8>, lists: usize, pairs: &Pairs) -> Result<(), AllocError>
    requires { lists + depth pairs.now ≤ max_depth }
    ensures { OnOk result (out.new.items ≡ out.old.items ++ lines lists pairs.now) }
{
    for pair in pairs.as_slice() {
        push_pair(out, lists, pair)?;
    }
    Ok(())
}

/// Writes the lines of one pair after what has been written, as they stand in the layout of `write` within this many lists. Fails
/// only if memory runs out.
#[cycle(lines)]
pub fn push_pair(out: &mut Vec<u8>, lists: usize, pair: &Pair) -> Result<(), AllocError>
    requires { lists + depth (pair_before pair.now.key pair.now.value empty) ≤ max_depth }
    ensures { OnOk result (out.new.items ≡ out.old.items
        ++ lines lists (pair_before pair.now.key pair.now.value empty)) }
{
    let key = pair.key.as_slice();
    match &pair.value {
        Value::Num(text) => number_line(out, lists, key, text.as_slice()),
        Value::Str(text) => push_string(out, lists, key, text.as_slice()),
        Value::List(inner) => {
            push_opening(out, lists, key)?;
            write_pairs(out, lists + 1, inner)?;
            push_closing(out, lists)
        }
    }
}

// Writes two spaces for each list.
fn indent(out: &mut Vec<u8>, lists: usize) -> Result<(), AllocError>
    requires { lists ≤ max_depth }
    ensures { OnOk result (out.new.items ≡ out.old.items ++ indent lists) }
{
    out.resize(out.len() + 2 * lists, b' ')?;
    Ok(())
}

// Writes the line of a number.
fn number_line(out: &mut Vec<u8>, lists: usize, key: &[u8], text: &[u8]) -> Result<(), AllocError>
    requires { lists ≤ max_depth }
    ensures { OnOk result (out.new.items ≡ out.old.items ++ number_line lists key.now text.now) }
{
    indent(out, lists)?;
    out.extend_from_slice(key)?;
    out.push(b' ')?;
    out.extend_from_slice(text)?;
    out.push(b'\n')?;
    Ok(())
}

/// Writes the line of a string under a key after what has been written, within this many lists. Fails only if memory runs out.
pub fn push_string(
    out: &mut Vec<u8>,
    lists: usize,
    key: &[u8],
    text: &[u8],
) -> Result<(), AllocError>
    requires { lists ≤ max_depth }
    ensures { OnOk result (out.new.items ≡ out.old.items ++ string_line lists key.now text.now) }
{
    indent(out, lists)?;
    out.extend_from_slice(key)?;
    out.extend_from_slice(b" \"")?;
    out.extend_from_slice(text)?;
    out.extend_from_slice(b"\"\n")?;
    Ok(())
}

/// Writes the first line of a list under a key after what has been written, within this many other lists. Fails only if memory
/// runs out.
pub fn push_opening(out: &mut Vec<u8>, lists: usize, key: &[u8]) -> Result<(), AllocError>
    requires { lists ≤ max_depth }
    ensures { OnOk result (out.new.items ≡ out.old.items ++ open_line lists key.now) }
{
    indent(out, lists)?;
    out.extend_from_slice(key)?;
    out.extend_from_slice(b" [\n")?;
    Ok(())
}

/// Writes the last line of a list after what has been written, within this many other lists. Fails only if memory runs out.
pub fn push_closing(out: &mut Vec<u8>, lists: usize) -> Result<(), AllocError>
    requires { lists ≤ max_depth }
    ensures { OnOk result (out.new.items ≡ out.old.items ++ close_line lists) }
{
    indent(out, lists)?;
    out.extend_from_slice(b"]\n")?;
    Ok(())
}
