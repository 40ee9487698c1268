// The text of the answer to `longest`.
ghost use Rattle.std.specs.Prelude.{◌≡◌, IfOk, All};
ghost use Rattle.spqr_script.specs.Answers.Moves.{IsMoveOf};
ghost use Rattle.spqr_script.specs.Answers.Longest.{longest_text};

use super::move_list::push_moves_lines;
use decimals::{push_number, push_word};
use moves::Move;
use multigraph::Part;
use std::alloc::{AllocError, Global};

/// The line `longest LEN`, where LEN is the length of a face of a block, and then the line `moves T` and a line for each of the T
/// moves that lead to it, the keys in the numbers of the whole graph. Fails only if memory runs out.
pub fn longest_lines(
    alloc: Global,
    len: u32,
    part: &Part,
    ms: &[Move],
) -> Result<Vec<u8>, AllocError>
    requires { All (IsMoveOf part.now.graph) ms.now }
    ensures { IfOk result (λ text. text.items ≡ longest_text part.now len ms.now) }
{
    let mut out = Vec::from_slice(alloc, b"longest ")?;
    push_number(&mut out, u128::from(len))?;
    push_word(&mut out, b"\n")?;
    push_moves_lines(&mut out, part, ms)?;
    Ok(out)
}
