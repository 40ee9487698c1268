// The ends of the edges of a graph list.

ghost use Rattle.std.specs.Prelude.{◌≡◌, ◌≤◌, length, map};
ghost use Rattle.multigraph.specs.Graph.{max_edges};
ghost use Rattle.gml_graph.specs.Answer.{Answers, edge_ends, ends_among, ends_between};

use crate::fault::GraphFault;
use crate::ids::Ids;
use crate::integers::Reading;
use crate::lists::first_under;
use gml_text::Pairs;
use std::alloc::Global;

// The ends of edge `k`, where its source and its target are vertices, and not the same one.
fn ends_between(k: u32, source: Option<u32>, target: Option<u32>) -> Result<(u32, u32), GraphFault>
    ensures { result ≡ ends_between k source target }
{
    match (source, target) {
        (Some(first), Some(second)) => {
            if first == second {
                Err(GraphFault::Loop(k))
            } else {
                Ok((first, second))
            }
        }
        _ => Err(GraphFault::UnknownEnd(k)),
    }
}

// The ends of edge `k`, by what its list gives for its source and its target.
fn ends_among(ids: &Ids, k: u32, source: Reading, target: Reading) -> Result<(u32, u32), GraphFault>
    ensures { result ≡ ends_among ids.now k source target }
{
    match (source, target) {
        (Reading::Missing, _) | (_, Reading::Missing) => Err(GraphFault::EdgeNoEnd(k)),
        (Reading::Whole(source), Reading::Whole(target)) => {
            ends_between(k, ids.position(source), ids.position(target))
        }
        _ => Err(GraphFault::EdgeBadEnd(k)),
    }
}

/// The ends of the edges, as vertices. Fails with the first refusal.
pub(crate) fn edge_ends(
    alloc: Global,
    ids: &Ids,
    edges: &[&Pairs],
) -> Result<Vec<(u32, u32)>, GraphFault>
    requires { length edges.now ≤ max_edges }
    ensures { Answers (edge_ends ids.now (map (λ edge. edge.now) edges.now))
        (λ ends. ends.items) result }
{
    let mut ends = Vec::with_capacity(alloc, edges.len())?;
    for (k, edge) in edges.iter().enumerate() {
        let pairs = edge.as_slice();
        let source = first_under(pairs, b"source");
        let target = first_under(pairs, b"target");
        ends.push(ends_among(ids, k as u32, source, target)?)?;
    }
    Ok(ends)
}
