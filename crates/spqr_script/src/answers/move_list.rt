// The text of the answer to `convert`.
ghost use Rattle.std.specs.Prelude.{◌≡◌, ◌++◌, IfOk, OnOk, All};
ghost use Rattle.spqr_script.specs.Answers.Moves.{move_text, move_texts, move_count_text, moves_text, IsMoveOf};

use crate::outer::push_edges;
use decimals::{push_number, push_word};
use moves::Move;
use multigraph::Part;
use std::alloc::{AllocError, Global};

// Appends the line of a move to a text.
fn push_move(out: &mut Vec<u8>, part: &Part, step: &Move) -> Result<(), AllocError>
    requires { IsMoveOf part.now.graph step.now }
    ensures { OnOk result (out.new.items ≡ out.old.items ++ move_text part.now step.now) }
{
    match step {
        Move::Flip(k) => {
            push_word(out, b"flip ")?;
            push_number(out, u128::from(*k))?;
        }
        Move::Permute(k, keys) => {
            push_word(out, b"permute ")?;
            push_number(out, u128::from(*k))?;
            push_edges(out, part, keys.as_slice())?;
        }
    }
    push_word(out, b"\n")
}

// Appends the lines of all moves to a text.
fn push_moves(out: &mut Vec<u8>, part: &Part, ms: &[Move]) -> Result<(), AllocError>
    requires { All (IsMoveOf part.now.graph) ms.now }
    ensures { OnOk result (out.new.items ≡ out.old.items ++ move_texts part.now ms.now) }
{
    for step in ms {
        push_move(out, part, step)?;
    }
    Ok(())
}

/// Appends the line `moves T` to a text: how many moves follow. Fails only if memory runs out; the text may then end in a part of
/// the line.
pub fn push_move_count_line(out: &mut Vec<u8>, t: usize) -> Result<(), AllocError>
    ensures { OnOk result (out.new.items ≡ out.old.items ++ move_count_text t) }
{
    push_word(out, b"moves ")?;
    push_number(out, t as u128)?;
    push_word(out, b"\n")
}

// Appends the line of how many moves there are to a text, and theirs.
pub(crate) fn push_moves_lines(
    out: &mut Vec<u8>,
    part: &Part,
    ms: &[Move],
) -> Result<(), AllocError>
    requires { All (IsMoveOf part.now.graph) ms.now }
    ensures { OnOk result (out.new.items ≡ out.old.items ++ moves_text part.now ms.now) }
{
    push_move_count_line(out, ms.len())?;
    push_moves(out, part, ms)
}

/// The line `moves T` and a line `flip K` or `permute K KEY ..` for each of the T moves of a block, the keys in the numbers of the
/// whole graph. Fails only if memory runs out.
pub fn moves_lines(alloc: Global, part: &Part, ms: &[Move]) -> Result<Vec<u8>, AllocError>
    requires { All (IsMoveOf part.now.graph) ms.now }
    ensures { IfOk result (λ text. text.items ≡ moves_text part.now ms.now) }
{
    let mut out = Vec::new(alloc);
    push_moves_lines(&mut out, part, ms)?;
    Ok(out)
}
