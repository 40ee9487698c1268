// The text of the answer to `faces`.
ghost use Rattle.std.specs.Prelude.{◌≡◌, ◌<◌, ◌++◌, IfOk, OnOk, All};
ghost use Rattle.multigraph.specs.Graph.{edge_count};
ghost use Rattle.spqr_script.specs.Answers.Faces.{spaced_pairs, face_text, face_texts, faces_text, AreFaces};

use decimals::{push_number, push_word};
use faces::Faces;
use multigraph::Part;
use std::alloc::{AllocError, Global};

// Appends the pairs of a vertex and an edge, each as `V-E` with a space before it to a text.
fn push_pairs(out: &mut Vec<u8>, part: &Part, pairs: &[(u32, u32)]) -> Result<(), AllocError>
    requires { All
        (λ pair. (pair.0 < part.now.graph.vertex_count) × (pair.1 < edge_count part.now.graph)) pairs.now }
    ensures { OnOk result (out.new.items ≡ out.old.items ++ spaced_pairs part.now pairs.now) }
{
    for (v, e) in pairs {
        push_word(out, b" ")?;
        push_number(out, u128::from(part.vertex(*v)))?;
        push_word(out, b"-")?;
        push_number(out, u128::from(part.edge(*e)))?;
    }
    Ok(())
}

// Appends the line of a face to a text.
fn push_face(out: &mut Vec<u8>, part: &Part, pairs: &[(u32, u32)]) -> Result<(), AllocError>
    requires { All
        (λ pair. (pair.0 < part.now.graph.vertex_count) × (pair.1 < edge_count part.now.graph)) pairs.now }
    ensures { OnOk result (out.new.items ≡ out.old.items ++ face_text part.now pairs.now) }
{
    push_word(out, b"face")?;
    push_pairs(out, part, pairs)?;
    push_word(out, b"\n")
}

// Appends the lines of all faces to a text.
fn push_faces(out: &mut Vec<u8>, part: &Part, f: &Faces) -> Result<(), AllocError>
    requires { AreFaces part.now.graph f.now }
    ensures { OnOk result (out.new.items ≡ out.old.items ++ face_texts part.now f.now) }
{
    // The part is a graph.
    let _ = part.graph();
    for i in 0..f.count() {
        push_face(out, part, f.face(i))?;
    }
    Ok(())
}

/// The line `faces B F` and a line `face V-E V-E ..` for each of the F faces of a rotation system of a block: the pairs of a vertex
/// and an edge along it, in the numbers of the whole graph. Fails only if memory runs out.
pub fn faces_lines(alloc: Global, b: u32, part: &Part, f: &Faces) -> Result<Vec<u8>, AllocError>
    requires { AreFaces part.now.graph f.now }
    ensures { IfOk result (λ text. text.items ≡ faces_text part.now b f.now) }
{
    let mut out = Vec::from_slice(alloc, b"faces ")?;
    push_number(&mut out, u128::from(b))?;
    push_word(&mut out, b" ")?;
    push_number(&mut out, u128::from(f.count()))?;
    push_word(&mut out, b"\n")?;
    push_faces(&mut out, part, f)?;
    Ok(out)
}
