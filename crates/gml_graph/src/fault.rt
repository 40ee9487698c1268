// Why a document has no graph.

ghost use Rattle.std.specs.Prelude.{◌≡◌};
ghost use Rattle.gml_graph.specs.declared.fault.GraphFault.TheVariants.{Memory};

use std::alloc::{AllocError, AllocFailed};

/// Why `graph_of` gives no graph: the first refusal, in the order of the variants except for those of nodes and of edges.
/// The refusals of a node are tried together for node 0, then for node 1, and so on; after the last node those of an edge,
/// together for edge 0, then for edge 1, and so on; after the last edge that of the start, for node 0, then for node 1, and so on.
/// Nodes and edges are numbered from 0, each kind by itself.
#[derive(Clone, Copy, Debug, PartialEq, Eq)]
pub enum GraphFault {
    /// No pair of the document has the key `graph` and a list.
    NoGraph,
    /// Two or more do.
    MoreGraphs,
    /// So many nodes, more than 20,000.
    TooManyVertices(usize),
    /// So many edges, more than 50,000.
    TooManyEdges(usize),
    /// This node has no `id`.
    NodeNoId(u32),
    /// The `id` of this node is no whole number of 64 bits.
    NodeBadId(u32),
    /// This node's id is that of an earlier node.
    SameId(u32),
    /// This edge has no `source` or no `target`.
    EdgeNoEnd(u32),
    /// The `source` or the `target` of this edge is no whole number of 64 bits.
    EdgeBadEnd(u32),
    /// The `source` or the `target` of this edge is no node's id.
    UnknownEnd(u32),
    /// The `source` and the `target` of this edge are the same node.
    Loop(u32),
    /// Every node has a string under its first `spqrRotation`, and that of this node is not numbers below 2^32 with whitespace
    /// between them, or they are no permutation of the edges at it.
    StartVertex(u32),
    /// Memory ran out.
    Memory,
}

impl From<AllocError> for GraphFault {
    ghost from_gives = { λ _ fault. fault ≡ Memory };

    fn from(_: AllocError) -> GraphFault {
        GraphFault::Memory
    }
}

impl<T: Drop> From<AllocFailed<T>> for GraphFault {
    ghost from_gives = { λ _ fault. fault ≡ Memory };

    fn from(_: AllocFailed<T>) -> GraphFault {
        GraphFault::Memory
    }
}
