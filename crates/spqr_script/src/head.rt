// The lines of the head.
ghost use Rattle.std.specs.Prelude.{◌≡◌, ◌++◌, IfOk, OnOk};
ghost use Rattle.spqr_script.specs.Head.{graph_text, vertex_text, cut_text, block_text, planar_text};

use decimals::{push_number, push_signed, push_spaced, push_word};
use std::alloc::{AllocError, Global};

/// The line `graph N M`: how many vertices and edges the graph has. Fails only if memory runs out.
pub fn graph_line(alloc: Global, n: u32, m: u32) -> Result<Vec<u8>, AllocError>
    ensures { IfOk result (λ text. text.items ≡ graph_text n m) }
{
    let mut out = Vec::from_slice(alloc, b"graph ")?;
    push_number(&mut out, u128::from(n))?;
    push_word(&mut out, b" ")?;
    push_number(&mut out, u128::from(m))?;
    push_word(&mut out, b"\n")?;
    Ok(out)
}

/// The line `vertex V ID`: a vertex and its id in the file. Fails only if memory runs out.
/// For callers of the library: the program does not call it.
pub fn vertex_line(alloc: Global, v: u32, id: i64) -> Result<Vec<u8>, AllocError>
    ensures { IfOk result (λ text. text.items ≡ vertex_text v id) }
{
    let mut out = Vec::new(alloc);
    push_vertex_line(&mut out, v, id)?;
    Ok(out)
}

/// Appends the line `vertex V ID` to a text. Fails only if memory runs out; the text may then end in a part of the line.
pub fn push_vertex_line(out: &mut Vec<u8>, v: u32, id: i64) -> Result<(), AllocError>
    ensures { OnOk result (out.new.items ≡ out.old.items ++ vertex_text v id) }
{
    push_word(out, b"vertex ")?;
    push_number(out, u128::from(v))?;
    push_word(out, b" ")?;
    push_signed(out, id)?;
    push_word(out, b"\n")
}

/// The line `cut V`: a cut vertex. Fails only if memory runs out.
/// For callers of the library: the program does not call it.
pub fn cut_line(alloc: Global, v: u32) -> Result<Vec<u8>, AllocError>
    ensures { IfOk result (λ text. text.items ≡ cut_text v) }
{
    let mut out = Vec::new(alloc);
    push_cut_line(&mut out, v)?;
    Ok(out)
}

/// Appends the line `cut V` to a text. Fails only if memory runs out; the text may then end in a part of the line.
pub fn push_cut_line(out: &mut Vec<u8>, v: u32) -> Result<(), AllocError>
    ensures { OnOk result (out.new.items ≡ out.old.items ++ cut_text v) }
{
    push_word(out, b"cut ")?;
    push_number(out, u128::from(v))?;
    push_word(out, b"\n")
}

/// The line `block B: E E ..`: a block and its edges, in the order given. Fails only if memory runs out.
/// For callers of the library: the program does not call it.
pub fn block_line(alloc: Global, b: u32, edges: &[u32]) -> Result<Vec<u8>, AllocError>
    ensures { IfOk result (λ text. text.items ≡ block_text b edges.now) }
{
    let mut out = Vec::new(alloc);
    push_block_line(&mut out, b, edges)?;
    Ok(out)
}

/// Appends the line `block B: E E ..` to a text. Fails only if memory runs out; the text may then end in a part of the line.
pub fn push_block_line(out: &mut Vec<u8>, b: u32, edges: &[u32]) -> Result<(), AllocError>
    ensures { OnOk result (out.new.items ≡ out.old.items ++ block_text b edges.now) }
{
    push_word(out, b"block ")?;
    push_number(out, u128::from(b))?;
    push_word(out, b":")?;
    push_spaced(out, edges)?;
    push_word(out, b"\n")
}

/// The line `planar B`: the block has a plane rotation system. Fails only if memory runs out.
/// For callers of the library: the program does not call it.
pub fn planar_line(alloc: Global, b: u32) -> Result<Vec<u8>, AllocError>
    ensures { IfOk result (λ text. text.items ≡ planar_text b) }
{
    let mut out = Vec::new(alloc);
    push_planar_line(&mut out, b)?;
    Ok(out)
}

/// Appends the line `planar B` to a text. Fails only if memory runs out; the text may then end in a part of the line.
pub fn push_planar_line(out: &mut Vec<u8>, b: u32) -> Result<(), AllocError>
    ensures { OnOk result (out.new.items ≡ out.old.items ++ planar_text b) }
{
    push_word(out, b"planar ")?;
    push_number(out, u128::from(b))?;
    push_word(out, b"\n")
}
