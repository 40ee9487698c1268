// Why a list of ends is not a graph, and the search for the first fault.

ghost use Rattle.std.specs.Prelude.{◌≡◌, ◌≤◌, length, MatchResult};
ghost use Rattle.multigraph.specs.Graph.{max_vertices, max_edges, IsGraph, IsWithinLimits};
ghost use Rattle.multigraph.specs.Build.{multigraph_of, IsFirstFault};
ghost use Rattle.multigraph.specs.declared.faults.BuildFault.TheVariants.{Memory};

use std::alloc::AllocError;
use thiserror::Error;

/// Why `Graph::build` builds no graph.
#[derive(Debug, Drop, Error)]
pub enum BuildFault {
    /// The number of vertices, which is more than 20,000.
    #[error("{0} vertices are too many")]
    TooManyVertices(u32),
    /// The number of edges, which is more than 50,000.
    #[error("{0} edges are too many")]
    TooManyEdges(usize),
    /// The edge of this number has an end that is not a vertex.
    #[error("edge {0} has an end that is not a vertex")]
    EndOut(u32),
    /// The two ends of the edge of this number are the same vertex.
    #[error("edge {0} is a loop")]
    Loop(u32),
    /// Memory ran out.
    #[error("out of memory")]
    Memory,
}

impl From<AllocError> for BuildFault {
    ghost from_gives = { λ _ fault. fault ≡ Memory };

    fn from(_error: AllocError) -> BuildFault {
        BuildFault::Memory
    }
}

// Searches the edges for the least one that is faulty.
pub(crate) fn check_ends(n: u32, ends: &[(u32, u32)]) -> Result<(), BuildFault>
    requires few_vertices { n ≤ max_vertices }
    requires few_edges { length ends.now ≤ max_edges }
    ensures faults { MatchResult result (λ _. IsGraph (multigraph_of n ends.now))
        (λ fault. IsFirstFault (multigraph_of n ends.now) fault) }
    ensures limits { IsWithinLimits (multigraph_of n ends.now) }
{
    for (e, pair) in ends.iter().enumerate() {
        let (first, second) = *pair;
        if first >= n || second >= n {
            return Err(BuildFault::EndOut(e as u32));
        }
        if first == second {
            return Err(BuildFault::Loop(e as u32));
        }
    }
    Ok(())
}
