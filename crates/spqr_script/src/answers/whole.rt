// The texts of the answers to commands on whole components.
ghost use Rattle.std.specs.Prelude.{◌≡◌, ◌++◌, codes, IfOk, OnOk};
ghost use Rattle.spqr_script.specs.Answers.Rotation.{entries_text};
ghost use Rattle.spqr_script.specs.Answers.Moves.{IsMoveOf};
ghost use Rattle.spqr_script.specs.Answers.Whole.{whole_text, list_whole_text, block_move_text, regroup_text};

use crate::outer::push_edges;
use decimals::{push_number, push_spaced, push_word};
use moves::Move;
use multigraph::Part;
use rotations::Lists;
use std::alloc::{AllocError, Global};

// Appends the entries to a text, a space before the first and `; ` before each other.
fn push_lists(out: &mut Vec<u8>, lists: &Lists) -> Result<(), AllocError>
    ensures { OnOk result (out.new.items ≡ out.old.items ++ entries_text (codes " ") lists.now) }
{
    let mut before: &'static [u8] = b" ";
    for i in 0..lists.len() {
        push_word(out, before)?;
        push_number(out, u128::from(lists.vertex(i)))?;
        push_word(out, b":")?;
        push_spaced(out, lists.edges(i))?;
        before = b"; ";
    }
    Ok(())
}

/// Appends the line `whole C | V: E ..; V: E ..` to a text: a rotation system of component `c`, given as an entry for each vertex
/// in the numbers of the whole graph. Fails only if memory runs out; the text may then end in a part of the line.
pub fn push_whole_line(out: &mut Vec<u8>, c: u32, lists: &Lists) -> Result<(), AllocError>
    ensures { OnOk result (out.new.items ≡ out.old.items ++ whole_text c lists.now) }
{
    push_word(out, b"whole ")?;
    push_number(out, u128::from(c))?;
    push_word(out, b" |")?;
    push_lists(out, lists)?;
    push_word(out, b"\n")
}

/// The line `listwhole C T`: how many members of the component's list follow. Fails only if memory runs out.
pub fn list_whole_line(alloc: Global, c: u32, t: u32) -> Result<Vec<u8>, AllocError>
    ensures { IfOk result (λ text. text.items ≡ list_whole_text c t) }
{
    let mut out = Vec::from_slice(alloc, b"listwhole ")?;
    push_number(&mut out, u128::from(c))?;
    push_word(&mut out, b" ")?;
    push_number(&mut out, u128::from(t))?;
    push_word(&mut out, b"\n")?;
    Ok(out)
}

/// Appends the line `flip B K` or `permute B K KEY ..` to a text: a move of a node of block `b`, the keys in the numbers of the
/// whole graph. Fails only if memory runs out; the text may then end in a part of the line.
pub fn push_block_move_line(
    out: &mut Vec<u8>,
    b: u32,
    part: &Part,
    step: &Move,
) -> Result<(), AllocError>
    requires { IsMoveOf part.now.graph step.now }
    ensures { OnOk result (out.new.items ≡ out.old.items ++ block_move_text part.now b step.now) }
{
    match step {
        Move::Flip(k) => {
            push_word(out, b"flip ")?;
            push_number(out, u128::from(b))?;
            push_word(out, b" ")?;
            push_number(out, u128::from(*k))?;
        }
        Move::Permute(k, keys) => {
            push_word(out, b"permute ")?;
            push_number(out, u128::from(b))?;
            push_word(out, b" ")?;
            push_number(out, u128::from(*k))?;
            push_edges(out, part, keys.as_slice())?;
        }
    }
    push_word(out, b"\n")
}

/// Appends the line `regroup V E ..` to a text: edges around vertex `v`, in order. Fails only if memory runs out; the text may then
/// end in a part of the line.
pub fn push_regroup_line(out: &mut Vec<u8>, v: u32, edges: &[u32]) -> Result<(), AllocError>
    ensures { OnOk result (out.new.items ≡ out.old.items ++ regroup_text v edges.now) }
{
    push_word(out, b"regroup ")?;
    push_number(out, u128::from(v))?;
    push_spaced(out, edges)?;
    push_word(out, b"\n")
}
