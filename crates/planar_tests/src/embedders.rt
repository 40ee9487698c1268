// Small triconnected graphs embedded by contraction.

ghost use Rattle.std.specs.Prelude.{IfOk, IfSome};
ghost use Rattle.planarity.specs.Embedding.{IsEmbedding};

use crate::rows::{Expected, ROWS, Row, graph_of, is_plane};
use contract_embed::ContractEmbedder;
use contractions::is_triconnected;
use kuratowski::check;
use multigraph::Graph;
use planarity::{Embedded, Embedder};
use rotations::Rotation;
use std::alloc::{AllocError, Global};
use std::test::Fail;

// What the embedder returns; nothing where the graph is not triconnected.
fn answer_for(alloc: Global, graph: &Graph) -> Result<Option<Embedded>, AllocError>
    ensures { IfOk result (λ answer. IfSome answer (IsEmbedding graph.now)) }
{
    if !is_triconnected(alloc, graph)? {
        return Ok(None);
    }
    Ok(Some(ContractEmbedder.embed(alloc, graph)?))
}

// Whether the answer for the graph is the one of the row.
fn is_answered(alloc: Global, row: &Row) -> Result<bool, Fail> {
    let graph = graph_of(alloc, row)?;
    let answer = answer_for(alloc, &graph)?;
    match (answer, &row.expected) {
        (Some(Embedded::Plane(r)), Expected::Plane(numbers)) => {
            Ok(is_plane(alloc, &graph, &r, *numbers)?)
        }
        (Some(Embedded::Not(s)), Expected::Not(pattern)) => {
            Ok(s.kind == *pattern && check(alloc, &graph, &s)?)
        }
        _ => Ok(false),
    }
}

// Whether the vertex has its edges in one of two cyclic orders.
fn has_order(r: &Rotation, v: u32, order: &[u32], mirrored: &[u32]) -> bool {
    v < r.vertex_count()
        && (r.list(v).eq(order.iter().copied()) || r.list(v).eq(mirrored.iter().copied()))
}

#[test]
fn embeds_small_graphs(rt: HostRuntime) -> Result<(), Fail> {
    let alloc = rt.alloc();
    for row in &ROWS {
        assert!(rt; is_answered(alloc, row)?);
    }
    Ok(())
}

#[test]
fn turns_the_tetrahedron_either_way(rt: HostRuntime) -> Result<(), Fail> {
    let alloc = rt.alloc();
    let graph = graph_of(alloc, &ROWS[0])?;
    let Some(Embedded::Plane(r)) = answer_for(alloc, &graph)? else {
        return Err(Fail::from("no plane rotation system"));
    };
    assert!(rt; has_order(&r, 0, &[0, 1, 2], &[0, 2, 1]));
    Ok(())
}
