// The darts around each vertex: the first of each ring, and the vertex that each dart leaves.

ghost use Rattle.std.specs.Prelude.{◌≡◌, ◌+◌, ◌*◌, ◌<◌, ◌≤◌, length, IfOk};
ghost use Rattle.multigraph.specs.Graph.{edge_count, max_darts};
ghost use Rattle.rotations.specs.Rings.{dart_at, AreTails, IsRingOf};

use multigraph::{Graph, dart_count};
use std::alloc::{AllocError, Global};

// The ring of a vertex: the dart of its least edge, and how many darts it has.
#[derive(Debug, Clone, Copy)]
pub(crate) struct Ring {
    pub(crate) first: u32,
    pub(crate) degree: u32,
}

// What never changes in a rotation system: the vertex that each dart leaves, and the ring of each vertex.
#[derive(Debug, Drop)]
pub(crate) struct Frame {
    pub(crate) tails: Vec<u32>,
    pub(crate) rings: Vec<Ring>,
}

// The dart of edge e that leaves v, one of its ends.
pub(crate) fn dart_at(tails: &[u32], v: u32, e: u32) -> u32
    requires is_edge { 2 * e + 1 < length tails.now }
    requires few { length tails.now ≤ max_darts }
    ensures { result ≡ dart_at tails.now v e }
{
    if tails[2 * e as usize] == v {
        2 * e
    } else {
        2 * e + 1
    }
}

// The vertices that the darts leave.
pub(crate) fn tails_of(alloc: Global, g: &Graph) -> Result<Vec<u32>, AllocError>
    ensures { IfOk result (λ tails. AreTails g.now tails.items) }
{
    let mut tails = Vec::with_capacity(alloc, dart_count(g) as usize)?;
    for e in 0..g.edge_count() {
        let (first, second) = g.ends(e);
        tails.push(first)?;
        tails.push(second)?;
    }
    Ok(tails)
}

// The ring of v.
pub(crate) fn ring_of(g: &Graph, tails: &[u32], v: u32) -> Ring
    requires vertex { v < g.now.vertex_count }
    requires tails { AreTails g.now tails.now }
    ensures { IsRingOf g.now tails.now v result }
{
    let edges = g.incident(v);
    match edges.first() {
        Some(e) => Ring {
            first: dart_at(tails, v, *e),
            degree: edges.len() as u32,
        },
        None => Ring {
            first: 0,
            degree: 0,
        },
    }
}
