// The lines of a block that is not planar.
ghost use Rattle.std.specs.Prelude.{◌≡◌, ◌<◌, ◌++◌, IfOk, OnOk, All};
ghost use Rattle.multigraph.specs.Graph.{edge_count};
ghost use Rattle.kuratowski.specs.Subdivision.{pattern_edges, IsSubdivision};
ghost use Rattle.spqr_script.specs.Nonplanar.{pattern_word, path_text, path_texts, nonplanar_text};

use crate::outer::{push_edges, push_vertices};
use decimals::{push_number, push_word};
use kuratowski::{Pattern, Subdivision};
use multigraph::{Numbers, Part};
use std::alloc::{AllocError, Global};

// The word for a pattern.
fn word_of(kind: Pattern) -> &'static [u8]
    ensures { result.now ≡ pattern_word kind }
{
    match kind {
        Pattern::K5 => b"K5",
        Pattern::K33 => b"K33",
    }
}

// Appends the line of a path between two vertices to a text.
fn push_path(
    out: &mut Vec<u8>,
    part: &Part,
    from: u32,
    to: u32,
    path: &[u32],
) -> Result<(), AllocError>
    requires from { from < part.now.graph.vertex_count }
    requires to { to < part.now.graph.vertex_count }
    requires edges { All (λ e. e < edge_count part.now.graph) path.now }
    ensures { OnOk result (out.new.items ≡ out.old.items ++ path_text part.now from to path.now) }
{
    push_word(out, b"path ")?;
    push_number(out, u128::from(part.vertex(from)))?;
    push_word(out, b" ")?;
    push_number(out, u128::from(part.vertex(to)))?;
    push_word(out, b":")?;
    push_edges(out, part, path)?;
    push_word(out, b"\n")
}

// Appends the line of the path for each edge of the pattern to a text.
fn push_paths(
    out: &mut Vec<u8>,
    part: &Part,
    kind: Pattern,
    branch: &[u32],
    paths: &[Numbers],
) -> Result<(), AllocError>
    requires { IsSubdivision part.now.graph kind branch.now paths.now }
    ensures { OnOk result
        (out.new.items ≡ out.old.items
        ++ path_texts part.now branch.now (pattern_edges kind) paths.now) }
{
    for (k, pair) in kind.edges().iter().enumerate() {
        let path = paths[k].as_slice();
        push_path(out, part, branch[pair.0], branch[pair.1], path)?;
    }
    Ok(())
}

/// Appends the line `nonplanar B K5 V ..` or `nonplanar B K33 V ..`, and the line `path U W: E E ..` of each path, to a text: a
/// subdivision in a block, in the numbers of the whole graph. Fails only if memory runs out; the text may then end in a part of
/// the lines.
pub fn push_nonplanar_lines(
    out: &mut Vec<u8>,
    b: u32,
    part: &Part,
    s: &Subdivision,
) -> Result<(), AllocError>
    requires { IsSubdivision part.now.graph s.now.kind s.now.branch s.now.paths }
    ensures { OnOk result
        (out.new.items ≡ out.old.items
        ++ nonplanar_text part.now b s.now.kind s.now.branch s.now.paths) }
{
    let branch = s.branch.as_slice();
    push_word(out, b"nonplanar ")?;
    push_number(out, u128::from(b))?;
    push_word(out, b" ")?;
    push_word(out, word_of(s.kind))?;
    push_vertices(out, part, branch)?;
    push_word(out, b"\n")?;
    push_paths(out, part, s.kind, branch, s.paths.as_slice())
}

/// The line `nonplanar B K5 V ..` or `nonplanar B K33 V ..`, and the line `path U W: E E ..` of each path: a subdivision in a
/// block, in the numbers of the whole graph. Fails only if memory runs out.
/// For callers of the library: the program does not call it.
pub fn nonplanar_lines(
    alloc: Global,
    b: u32,
    part: &Part,
    s: &Subdivision,
) -> Result<Vec<u8>, AllocError>
    requires { IsSubdivision part.now.graph s.now.kind s.now.branch s.now.paths }
    ensures { IfOk result
        (λ text. text.items ≡ nonplanar_text part.now b s.now.kind s.now.branch s.now.paths) }
{
    let mut out = Vec::new(alloc);
    push_nonplanar_lines(&mut out, b, part, s)?;
    Ok(out)
}
