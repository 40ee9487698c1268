// The ids of the nodes of a graph list.

ghost use Rattle.std.specs.Prelude.{◌≡◌, ◌<◌, ◌≤◌, length, map, Ok, MatchResult};
ghost use Rattle.multigraph.specs.Graph.{max_vertices};
ghost use Rattle.gml_graph.specs.Answer.{Answers, Refuses, and_one_more, id_among, node_ids};

use crate::fault::GraphFault;
use crate::hashing::BehindAllIds;
use crate::ids::Ids;
use crate::integers::Reading;
use crate::lists::first_under;
use gml_text::Pairs;
use std::alloc::Global;

// Adds the id of node `k` to those of the earlier nodes, by what its list gives.
fn add_id(ids: &mut Ids, k: u32, reading: Reading) -> Result<(), GraphFault>
    requires { length ids.old < max_vertices }
    ensures { MatchResult result
        (λ _. and_one_more (Ok ids.old) (id_among ids.old k reading) ≡ Ok ids.new)
        (Refuses (id_among ids.old k reading)) }
{
    match reading {
        Reading::Missing => Err(GraphFault::NodeNoId(k)),
        Reading::NotWhole => Err(GraphFault::NodeBadId(k)),
        Reading::Whole(id) => match ids.add(id) {
            Ok(true) => Ok(()),
            Ok(false) => Err(GraphFault::SameId(k)),
            Err(_) => Err(GraphFault::Memory),
        },
    }
}

/// The ids of the nodes, in order. Fails with the first refusal.
pub(crate) fn node_ids(alloc: Global, nodes: &[&Pairs]) -> Result<Ids, GraphFault>
    requires { length nodes.now ≤ max_vertices }
    ensures { Answers (node_ids (map (λ node. node.now) nodes.now)) (λ ids. ids) result }
{
    let mut ids = Ids::with_room(alloc, nodes.len(), BehindAllIds::of(nodes))?;
    for (k, node) in nodes.iter().enumerate() {
        add_id(&mut ids, k as u32, first_under(node.as_slice(), b"id"))?;
    }
    Ok(ids)
}
