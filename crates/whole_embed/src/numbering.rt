// The edges at a vertex with the blocks that they are in: the ranks of the blocks, and what follows an edge in its block.

ghost use Rattle.std.specs.Prelude.{◌≡◌, ℕ, ◌<◌, ◌≤◌, ◌^◌, ◌↔◌, length, map, slice_index, Contains, IfOk, Some};
ghost use Rattle.permutations.specs.Cyclic.{successor};
ghost use Rattle.multigraph.specs.Graph.{incident_edges};
ghost use Rattle.multigraph.specs.Part.{Rises};
ghost use Rattle.skel_embed.specs.Block.{BlockState};
ghost use Rattle.whole_embed.specs.Around.{outer_at};
ghost use Rattle.whole_embed.specs.Keeping.{AreRanks, HasAround, numbers_at};

use crate::component::Frame;
use crate::members::Member;
use multigraph::Part;
use std::alloc::{AllocError, Global};

// The edges at vertex i of the part, in the numbers of the graph.
pub(crate) fn edges_at(alloc: Global, part: &Part, i: u32) -> Result<Vec<u32>, AllocError>
    requires { i < part.now.graph.vertex_count }
    ensures { IfOk result (λ edges. edges.items ≡ map (slice_index part.now.edges)
        (incident_edges part.now.graph i)) }
{
    let inner = part.graph().incident(i);
    let mut edges = Vec::with_capacity(alloc, inner.len())?;
    for edge in inner {
        edges.push(part.edge(*edge))?;
    }
    Ok(edges)
}

// The blocks of these edges.
pub(crate) fn blocks_at(alloc: Global, frame: &Frame, i: u32) -> Result<Vec<u32>, AllocError>
    requires { i < frame.now.part.graph.vertex_count }
    ensures { IfOk result (λ numbers. numbers.items ≡ numbers_at frame.now i) }
{
    let inner = frame.part().graph().incident(i);
    let mut numbers = Vec::with_capacity(alloc, inner.len())?;
    for edge in inner {
        numbers.push(frame.edge_blocks()[*edge as usize])?;
    }
    Ok(numbers)
}

// The numbers, each once, increasing.
fn each_once(alloc: Global, numbers: &[u32]) -> Result<Vec<u32>, AllocError>
    ensures rises { IfOk result (λ list. Rises list.items) }
    ensures same { IfOk result (λ list. (x : ℕ) → Contains list.items x ↔ Contains numbers.now x) }
    ensures few { IfOk result (λ list. length list.items ≤ length numbers.now) }
{
    let mut list = Vec::from_slice(alloc, numbers)?;
    list.sort_unstable();
    list.dedup();
    Ok(list)
}

// The place of a number in an increasing list that has it.
fn place_in(list: &[u32], x: u32) -> u32
    requires rises { Rises list.now }
    requires has { Contains list.now x }
    requires few { length list.now < 2 ^ 32 }
    ensures within { result < length list.now }
    ensures is { slice_index list.now result ≡ x }
{
    match list.binary_search(&x) {
        Ok(place) => place as u32,
        Err(_) => unreachable!(),
    }
}

// The ranks of the numbers: of each how many smaller ones there are, each counted once.
pub(crate) fn ranks_of(alloc: Global, numbers: &[u32]) -> Result<Vec<u32>, AllocError>
    requires { length numbers.now < 2 ^ 32 }
    ensures { IfOk result (λ ranks. AreRanks numbers.now ranks.items) }
{
    let list = each_once(alloc, numbers)?;
    let mut ranks = Vec::with_capacity(alloc, numbers.len())?;
    for number in numbers {
        ranks.push(place_in(&list, *number))?;
    }
    Ok(ranks)
}

// The edge that follows an edge in the cyclic order of its block around v.
pub(crate) fn follower_at(member: &Member, v: u32, edge: u32) -> u32
    requires { HasAround member.now v edge }
    ensures { (p : BlockState) → member.now.plane ≡ Some p
        → result ≡ successor (outer_at member.now.part p.rotation v) edge }
{
    match &member.plane {
        Some(plane) => {
            let part = &member.part;
            part.keeps_numbers();
            let rotation = plane.rotation();
            let i = part.inner_vertex(v).unwrap();
            let e = part.inner_edge(edge).unwrap();
            part.edge(rotation.succ(i, e))
        }
        None => unreachable!(),
    }
}
