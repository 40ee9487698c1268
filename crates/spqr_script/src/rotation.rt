// Rotations read from a text: entries with `;` between them.
ghost use Rattle.std.specs.Prelude.{◌≡◌, ◌<◌, ◌∷◌, [], length, IfOk, MatchOption, if◌then◌else◌, Some, None};
ghost use Rattle.std.specs.List.{slice_split};
ghost use Rattle.spqr_script.specs.Line.{tokens_of};
ghost use Rattle.spqr_script.specs.Script.{is_semicolon};
ghost use Rattle.spqr_script.specs.Reading.{pair_of, entry_of, entry_then, rotation_of};

use crate::numbers::{index, read_indices};
use crate::tokens::{cut, next_token};
use rotations::Lists;
use std::alloc::{AllocError, Global};

// The vertex of an entry; its edges are left in `edges`. None if the part is not an entry.
fn read_entry(part: &[u8], edges: &mut Vec<u32>) -> Result<Option<u32>, AllocError>
    ensures { IfOk result (λ vertex. pair_of vertex (Some edges.new.items)
        ≡ entry_of (tokens_of part.now)) }
{
    edges.clear();
    let Some((vertex, behind)) = next_token(part) else {
        return Ok(None);
    };
    let Some((mark, rest)) = next_token(behind) else {
        return Ok(None);
    };
    if mark != b":".as_slice() {
        return Ok(None);
    }
    if !read_indices(rest, edges)? {
        return Ok(None);
    }
    Ok(index(vertex))
}

// Appends an entry to the others. False if the part is not an entry, or its vertex is not above the last.
fn push_entry(part: &[u8], edges: &mut Vec<u32>, entries: &mut Lists) -> Result<bool, AllocError>
    ensures { IfOk result (λ taken. entry_then entries.old (entry_of (tokens_of part.now))
        (λ longer. Some longer) ≡ (if taken then Some entries.new else None)) }
{
    let Some(vertex) = read_entry(part, edges)? else {
        return Ok(false);
    };
    if !entries.is_above(vertex) {
        return Ok(false);
    }
    entries.push(vertex, edges)?;
    Ok(true)
}

// The text before the first `;`, and the text after it, where there is one.
fn first_part(text: &[u8]) -> (&[u8], Option<&[u8]>)
    ensures { MatchOption result.1
        (slice_split is_semicolon (tokens_of text.now) ≡ tokens_of result.0.now ∷ [])
        (λ after. (slice_split is_semicolon (tokens_of text.now) ≡ tokens_of result.0.now ∷ slice_split is_semicolon (tokens_of after.now)) × (length after.now < length text.now)) }
{
    match cut(text, b';') {
        Some((part, after)) => (part, Some(after)),
        None => (text, None),
    }
}

// The entries of a rotation that is the whole text, where it is one.
pub(crate) fn read_rotation(alloc: Global, text: &[u8]) -> Result<Option<Lists>, AllocError>
    ensures { IfOk result (λ entries. entries ≡ rotation_of (tokens_of text.now)) }
{
    let mut entries = Lists::new(alloc);
    if next_token(text).is_none() {
        return Ok(Some(entries));
    }
    let mut edges = Vec::new(alloc);
    let mut rest = text;
    'parts: loop {
        let (part, after) = first_part(rest);
        if !push_entry(part, &mut edges, &mut entries)? {
            return Ok(None);
        }
        match after {
            Some(text) => rest = text,
            None => return Ok(Some(entries)),
        }
    }
}
