// The text of the answer to `show`, which is also that of `list` for each member.
ghost use Rattle.std.specs.Prelude.{◌≡◌, ◌<◌, ◌++◌, map, slice_index, codes, IfOk, OnOk};
ghost use Rattle.rotations.specs.Rotation.{order_at, IsRotationSystem};
ghost use Rattle.spqr_script.specs.Answers.Rotation.{entry_text, entries_text, outer_entries, rotation_text};

use crate::outer::push_edges;
use decimals::{push_number, push_word};
use multigraph::{FlatLists, Part};
use rotations::Rotation;
use std::alloc::{AllocError, Global};

// Appends the entry of a vertex to a text.
fn push_entry(
    out: &mut Vec<u8>,
    part: &Part,
    lists: &FlatLists<u32>,
    v: u32,
) -> Result<(), AllocError>
    requires system { IsRotationSystem part.now.graph lists.now }
    requires vertex { v < part.now.graph.vertex_count }
    ensures { OnOk result
        (out.new.items ≡ out.old.items
        ++ entry_text (slice_index part.now.vertices v, map (slice_index part.now.edges) (order_at lists.now v))) }
{
    push_number(out, u128::from(part.vertex(v)))?;
    push_word(out, b":")?;
    push_edges(out, part, lists.at(v as usize))
}

// Appends the entries of all vertices to a text, a space before the first and `; ` before each other.
fn push_entries(out: &mut Vec<u8>, part: &Part, lists: &FlatLists<u32>) -> Result<(), AllocError>
    requires { IsRotationSystem part.now.graph lists.now }
    ensures { OnOk result
        (out.new.items ≡ out.old.items ++ entries_text (codes " ") (outer_entries part.now lists.now)) }
{
    let mut before: &'static [u8] = b" ";
    for v in 0..part.graph().vertex_count() {
        push_word(out, before)?;
        push_entry(out, part, lists, v)?;
        before = b"; ";
    }
    Ok(())
}

/// How many bytes are enough for the line of a rotation system of a block, since no number of a vertex, an edge or a block has more than
/// five digits.
pub fn rotation_room(part: &Part) -> usize {
    let graph = part.graph();
    32 + 12 * graph.edge_count() as usize + 8 * graph.vertex_count() as usize
}

/// Appends the line `rotation B | V: E ..; V: E ..` to a text: a rotation system of a block, its vertices increasing, each list
/// from its least edge on, in the numbers of the whole graph. Fails only if memory runs out; the text may then end in a part of
/// the line.
pub fn push_rotation_line(
    alloc: Global,
    out: &mut Vec<u8>,
    b: u32,
    part: &Part,
    r: &Rotation,
) -> Result<(), AllocError>
    requires { IsRotationSystem part.now.graph r.now }
    ensures { OnOk result (out.new.items ≡ out.old.items ++ rotation_text part.now b r.now) }
{
    let lists = r.lists(alloc)?;
    push_word(out, b"rotation ")?;
    push_number(out, u128::from(b))?;
    push_word(out, b" |")?;
    push_entries(out, part, &lists)?;
    push_word(out, b"\n")
}

/// The line `rotation B | V: E ..; V: E ..`: a rotation system of a block, its vertices increasing, each list from its least edge
/// on, in the numbers of the whole graph. Fails only if memory runs out.
pub fn rotation_line(
    alloc: Global,
    b: u32,
    part: &Part,
    r: &Rotation,
) -> Result<Vec<u8>, AllocError>
    requires { IsRotationSystem part.now.graph r.now }
    ensures { IfOk result (λ text. text.items ≡ rotation_text part.now b r.now) }
{
    let mut out = Vec::with_capacity(alloc, rotation_room(part))?;
    push_rotation_line(alloc, &mut out, b, part, r)?;
    Ok(out)
}
