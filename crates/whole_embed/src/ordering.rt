// Lists of the edges at a vertex as they are given from outside.

ghost use Rattle.std.specs.Prelude.{◌≡◌, ◌↔◌, true, IfOk, IsTrue, MatchOption, IsPermutation};
ghost use Rattle.permutations.specs.Members.{is_member};
ghost use Rattle.permutations.specs.Cyclic.{turned, from_least};
ghost use Rattle.multigraph.specs.Part.{Rises};

use skel_embed::place_of;
use std::alloc::{AllocError, Global};

// The cyclic order that a list is, from its least edge on; `None` where it is not an ordering of the edges at the vertex, which
// are given increasing.
pub(crate) fn cyclic_order(
    alloc: Global,
    at: &[u32],
    edges: &[u32],
) -> Result<Option<Vec<u32>>, AllocError>
    requires { Rises at.now }
    ensures { IfOk result (λ order. MatchOption order
        (¬ IsPermutation at.now edges.now)
        (λ list. IsPermutation at.now edges.now × (list.items ≡ from_least edges.now))) }
{
    if !is_ordering(alloc, at, edges)? {
        return Ok(None);
    }
    let mut list = Vec::from_slice(alloc, edges)?;
    if let Some(least) = at.first() {
        turn_to(&mut list, *least);
    }
    Ok(Some(list))
}

// Whether the list is an ordering of increasing edges: a copy is sorted and compared.
fn is_ordering(alloc: Global, at: &[u32], edges: &[u32]) -> Result<bool, AllocError>
    requires { Rises at.now }
    ensures { IfOk result (λ same. IsTrue same ↔ IsPermutation at.now edges.now) }
{
    let mut sorted = Vec::from_slice(alloc, edges)?;
    sorted.sort_unstable();
    Ok(sorted.as_slice() == at)
}

// The same cyclic order, written from an edge on.
fn turn_to(list: &mut Vec<u32>, first: u32)
    requires { is_member first list.old.items ≡ true }
    ensures { list.new.items ≡ turned list.old.items first }
{
    list.rotate_left(place_of(list, first));
}
