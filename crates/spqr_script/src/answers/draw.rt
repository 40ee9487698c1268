// The text of the answer to `draw`.
ghost use Rattle.std.specs.Prelude.{◌≡◌, ◌++◌, length, IfOk, OnOk};
ghost use Rattle.spqr_script.specs.Answers.Draw.{point_text, point_texts, draw_text};

use decimals::{push_number, push_word};
use multigraph::Part;
use std::alloc::{AllocError, Global};

// Appends the line of a vertex and its point to a text.
fn push_point(out: &mut Vec<u8>, v: u32, point: (u32, u32)) -> Result<(), AllocError>
    ensures { OnOk result (out.new.items ≡ out.old.items ++ point_text v point) }
{
    push_word(out, b"point ")?;
    push_number(out, u128::from(v))?;
    push_word(out, b" ")?;
    push_number(out, u128::from(point.0))?;
    push_word(out, b" ")?;
    push_number(out, u128::from(point.1))?;
    push_word(out, b"\n")
}

// Appends the lines of all vertices and their points to a text.
fn push_points(out: &mut Vec<u8>, part: &Part, points: &[(u32, u32)]) -> Result<(), AllocError>
    requires { length points.now ≡ part.now.graph.vertex_count }
    ensures { OnOk result
        (out.new.items ≡ out.old.items ++ point_texts part.now.vertices points.now) }
{
    for v in 0..part.graph().vertex_count() {
        push_point(out, part.vertex(v), points[v as usize])?;
    }
    Ok(())
}

/// The line `draw B T` and a line `point V X Y` for each of the T vertices of a block, increasing, in the numbers of the whole
/// graph: the point at the vertex's place. Fails only if memory runs out.
pub fn draw_lines(
    alloc: Global,
    b: u32,
    part: &Part,
    points: &[(u32, u32)],
) -> Result<Vec<u8>, AllocError>
    requires { length points.now ≡ part.now.graph.vertex_count }
    ensures { IfOk result (λ text. text.items ≡ draw_text part.now b points.now) }
{
    let mut out = Vec::from_slice(alloc, b"draw ")?;
    push_number(&mut out, u128::from(b))?;
    push_word(&mut out, b" ")?;
    push_number(&mut out, points.len() as u128)?;
    push_word(&mut out, b"\n")?;
    push_points(&mut out, part, points)?;
    Ok(out)
}
