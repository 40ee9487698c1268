// The lines of the summary, each appended to a text.
ghost use Rattle.std.specs.Prelude.{◌≡◌, ◌++◌, IfOk, OnOk, codes};
ghost use Rattle.made_summary.specs.Text.{count_text, made_line, nodes_line, choice_line};

use crate::kinds::Kinds;
use decimals::{push_number, push_spaced, push_word};
use std::alloc::{AllocError, Global};

// How many vertices and edges.
fn push_made(out: &mut Vec<u8>, v: u32, e: u32) -> Result<(), AllocError>
    ensures { OnOk result (out.new.items ≡ out.old.items ++ made_line v e) }
{
    push_word(out, b"made ")?;
    push_number(out, u128::from(v))?;
    push_word(out, b" ")?;
    push_number(out, u128::from(e))?;
    push_word(out, b"\n")
}

// How many polygons, bonds and triconnected nodes.
fn push_nodes(out: &mut Vec<u8>, s: u32, p: u32, r: u32) -> Result<(), AllocError>
    ensures { OnOk result (out.new.items ≡ out.old.items ++ nodes_line s p r) }
{
    push_word(out, b"nodes S ")?;
    push_number(out, u128::from(s))?;
    push_word(out, b" P ")?;
    push_number(out, u128::from(p))?;
    push_word(out, b" R ")?;
    push_number(out, u128::from(r))?;
    push_word(out, b"\n")
}

// How many plane rotation systems, where these are fewer than 2^128.
fn push_count(out: &mut Vec<u8>, count: Option<u128>) -> Result<(), AllocError>
    ensures { OnOk result (out.new.items ≡ out.old.items ++ count_text count) }
{
    match count {
        Some(n) => {
            push_word(out, b"count ")?;
            push_number(out, n)?;
            push_word(out, b"\n")
        }
        None => push_word(out, b"count over\n"),
    }
}

// A node and its choice.
fn push_choice(out: &mut Vec<u8>, word: &[u8], k: u32, keys: &[u32]) -> Result<(), AllocError>
    ensures { OnOk result (out.new.items ≡ out.old.items ++ choice_line word.now k keys.now) }
{
    push_word(out, word)?;
    push_number(out, u128::from(k))?;
    push_word(out, b":")?;
    push_spaced(out, keys)?;
    push_word(out, b"\n")
}

// The lines of vertices and edges, nodes of each kind, plane rotation systems, and a node with its choices at the first and the
// last of these.
pub(crate) fn lines(
    alloc: Global,
    numbers: (u32, u32),
    kinds: Kinds,
    count: Option<u128>,
    k: u32,
    choices: (&[u32], &[u32]),
) -> Result<Vec<u8>, AllocError>
    ensures { IfOk result (λ text. text.items ≡ made_line numbers.0 numbers.1
        ++ nodes_line kinds.polygons kinds.bonds kinds.rigid ++ count_text count
        ++ choice_line (codes "first ") k choices.entry.0.now
        ++ choice_line (codes "last ") k choices.entry.1.now) }
{
    let mut text = Vec::new(alloc);
    push_made(&mut text, numbers.0, numbers.1)?;
    push_nodes(&mut text, kinds.polygons, kinds.bonds, kinds.rigid)?;
    push_count(&mut text, count)?;
    push_choice(&mut text, b"first ", k, choices.0)?;
    push_choice(&mut text, b"last ", k, choices.1)?;
    Ok(text)
}
