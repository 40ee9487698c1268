// Triconnected graphs embedded path by path: small ones, families of larger ones, and random ones; and graphs of any kind decided.

ghost use Rattle.std.specs.Prelude.{IfOk, IfSome};
ghost use Rattle.planarity.specs.Embedding.{IsEmbedding};

use crate::mistakes::{Mistake, Mistaken};
use crate::rows::{Expected, ROWS, Row, TRAPS, graph_of, graph_with, is_plane};
use contract_embed::ContractEmbedder;
use contractions::is_triconnected;
use kuratowski::check;
use multigraph::Graph;
use path_embed::{PathEmbedder, obstacle_of};
use planarity::{Embedded, Embedder};
use quick_embed::embed_by;
use std::alloc::{AllocError, Global};
use std::test::Fail;

// What is returned for the graph; nothing where it is not triconnected.
fn answer_for(alloc: Global, graph: &Graph) -> Result<Option<Embedded>, AllocError>
    ensures { IfOk result (λ answer. IfSome answer (IsEmbedding graph.now)) }
{
    if !is_triconnected(alloc, graph)? {
        return Ok(None);
    }
    let answer = PathEmbedder.embed(alloc, graph)?;
    Ok(Some(answer))
}

// Whether the answer is as expected.
fn is_answered(alloc: Global, graph: &Graph, expected: &Expected) -> Result<bool, Fail> {
    let Some(answer) = answer_for(alloc, graph)? else {
        return Ok(false);
    };
    match (answer, expected) {
        (Embedded::Plane(r), Expected::Plane(numbers)) => {
            Ok(is_plane(alloc, graph, &r, *numbers)?)
        }
        (Embedded::Not(s), Expected::Not(pattern)) => {
            Ok(s.kind == *pattern && check(alloc, graph, &s)?)
        }
        _ => Ok(false),
    }
}

// Whether the graph has a certificate.
fn is_refuted(alloc: Global, graph: &Graph) -> Result<bool, Fail> {
    let Some(answer) = answer_for(alloc, graph)? else {
        return Ok(false);
    };
    match answer {
        Embedded::Plane(_) => Ok(false),
        Embedded::Not(s) => Ok(check(alloc, graph, &s)?),
    }
}

// Appends a ring of the vertices from one number up to another.
fn ring(ends: &mut Vec<(u32, u32)>, from: u32, to: u32) -> Result<(), AllocError> {
    for v in from..to {
        let next = v.saturating_add(1);
        ends.push((v, if next < to { next } else { from }))?;
    }
    Ok(())
}

// Appends an edge from each vertex from one number up to another to that which is so much further.
fn spokes(ends: &mut Vec<(u32, u32)>, from: u32, to: u32, step: u32) -> Result<(), AllocError> {
    for v in from..to {
        ends.push((v, v.saturating_add(step)))?;
    }
    Ok(())
}

// A wheel with this rim.
fn wheel(alloc: Global, rim: u32) -> Result<Vec<(u32, u32)>, Fail> {
    let mut ends = Vec::new(alloc);
    ring(&mut ends, 0, rim)?;
    for v in 0..rim {
        ends.push((v, rim))?;
    }
    Ok(ends)
}

// A ring of an even number of vertices, opposite ones joined.
fn twisted_ladder(alloc: Global, half: u32) -> Result<Vec<(u32, u32)>, Fail> {
    let mut ends = Vec::new(alloc);
    ring(&mut ends, 0, half.saturating_mul(2))?;
    spokes(&mut ends, 0, half, half)?;
    Ok(ends)
}

// A prism over a ring of this many vertices.
fn prism(alloc: Global, side: u32) -> Result<Vec<(u32, u32)>, Fail> {
    let mut ends = Vec::new(alloc);
    ring(&mut ends, 0, side)?;
    ring(&mut ends, side, side.saturating_mul(2))?;
    spokes(&mut ends, 0, side, side)?;
    Ok(ends)
}

// Triangles within each other, each vertex joined with that of the next one.
fn nest(alloc: Global, depth: u32) -> Result<Vec<(u32, u32)>, Fail> {
    let mut ends = Vec::new(alloc);
    for k in 0..depth {
        ring(
            &mut ends,
            k.saturating_mul(3),
            k.saturating_mul(3).saturating_add(3),
        )?;
    }
    spokes(&mut ends, 0, depth.saturating_sub(1).saturating_mul(3), 3)?;
    Ok(ends)
}

#[test]
fn embeds_rows_path_by_path(rt: HostRuntime) -> Result<(), Fail> {
    let alloc = rt.alloc();
    for row in ROWS.iter().chain(&TRAPS) {
        let graph = graph_of(alloc, row)?;
        assert!(rt; is_answered(alloc, &graph, &row.expected)?);
    }
    Ok(())
}

#[test]
fn embeds_large_graphs_path_by_path(rt: HostRuntime) -> Result<(), Fail> {
    let alloc = rt.alloc();
    let graph = Graph::build(alloc, 201, &wheel(alloc, 200)?)?;
    assert!(rt; is_answered(alloc, &graph, &Expected::Plane([201, 400, 201, 1]))?);
    let graph = Graph::build(alloc, 60, &prism(alloc, 30)?)?;
    assert!(rt; is_answered(alloc, &graph, &Expected::Plane([60, 90, 32, 1]))?);
    let graph = Graph::build(alloc, 60, &nest(alloc, 20)?)?;
    assert!(rt; is_answered(alloc, &graph, &Expected::Plane([60, 117, 59, 1]))?);
    Ok(())
}

#[test]
fn refutes_large_graphs(rt: HostRuntime) -> Result<(), Fail> {
    let alloc = rt.alloc();
    let graph = Graph::build(alloc, 80, &twisted_ladder(alloc, 40)?)?;
    assert!(rt; is_refuted(alloc, &graph)?);
    let mut ends = prism(alloc, 30)?;
    ends.push((0, 45))?;
    let graph = Graph::build(alloc, 60, &ends)?;
    assert!(rt; is_refuted(alloc, &graph)?);
    let mut ends = wheel(alloc, 40)?;
    ends.push((0, 20))?;
    ends.push((10, 30))?;
    let graph = Graph::build(alloc, 41, &ends)?;
    assert!(rt; is_refuted(alloc, &graph)?);
    let mut ends = nest(alloc, 20)?;
    ends.push((0, 58))?;
    let graph = Graph::build(alloc, 60, &ends)?;
    assert!(rt; is_refuted(alloc, &graph)?);
    Ok(())
}

// What a finder with this mistake and the embedder by paths answer for the row.
fn is_answered_after(alloc: Global, mistake: Mistake, row: &Row) -> Result<bool, Fail> {
    let graph = graph_of(alloc, row)?;
    if !is_triconnected(alloc, &graph)? {
        return Ok(false);
    }
    let answer = embed_by(alloc, &mut Mistaken { mistake }, &mut PathEmbedder, &graph)?;
    match (answer, &row.expected) {
        (Embedded::Plane(r), Expected::Plane(numbers)) => {
            Ok(is_plane(alloc, &graph, &r, *numbers)?)
        }
        (Embedded::Not(s), Expected::Not(pattern)) => {
            Ok(s.kind == *pattern && check(alloc, &graph, &s)?)
        }
        _ => Ok(false),
    }
}

#[test]
fn is_right_where_a_finder_is_wrong(rt: HostRuntime) -> Result<(), Fail> {
    let alloc = rt.alloc();
    let mistakes = [
        Mistake::Silent,
        Mistake::Turned,
        Mistake::Short,
        Mistake::Strange,
    ];
    for mistake in mistakes {
        for row in &ROWS {
            assert!(rt; is_answered_after(alloc, mistake, row)?, "{mistake:?}");
        }
    }
    Ok(())
}

// A graph of this many vertices, most pairs joined.
fn random_graph(alloc: Global, seed: &mut u64, vertices: u32) -> Result<Graph, Fail> {
    let mut ends = Vec::new(alloc);
    for b in 0..vertices {
        for a in 0..b {
            *seed = seed
                .wrapping_mul(6_364_136_223_846_793_005)
                .wrapping_add(1_442_695_040_888_963_407);
            if *seed >> 60 < 11 {
                ends.push((a, b))?;
            }
        }
    }
    Ok(Graph::build(alloc, vertices, &ends)?)
}

// Whether both embedders find that the graph is planar, or both that it is not; nothing where it is not triconnected.
fn planar_for_both(alloc: Global, graph: &Graph) -> Result<Option<(bool, bool)>, AllocError> {
    let Some(answer) = answer_for(alloc, graph)? else {
        return Ok(None);
    };
    if !is_triconnected(alloc, graph)? {
        return Ok(None);
    }
    let other = ContractEmbedder.embed(alloc, graph)?;
    Ok(Some((
        matches!(answer, Embedded::Plane(_)),
        matches!(other, Embedded::Plane(_)),
    )))
}

#[test]
fn agrees_with_the_embedder_by_contraction(rt: HostRuntime) -> Result<(), Fail> {
    let alloc = rt.alloc();
    let mut seed = 2026;
    let (mut planar, mut others) = (0u32, 0u32);
    for i in 0..400 {
        let graph = random_graph(alloc, &mut seed, 4 + i % 4)?;
        if let Some((first, second)) = planar_for_both(alloc, &graph)? {
            assert!(rt; first == second);
            planar = planar.saturating_add(u32::from(first));
            others = others.saturating_add(u32::from(!first));
        }
    }
    assert!(rt; planar > 20 && others > 20);
    Ok(())
}

// Graphs of any kind without a plane rotation system, with the vertices and edges of the skeleton that is found.
static NONPLANAR: [(u32, &[u32], [u32; 2]); 3] = [
    // K3,3 with a vertex on each edge, beside a triangle and a vertex alone
    (
        19,
        &[
            15, 16, 16, 17, 17, 15, 0, 6, 6, 3, 0, 7, 7, 4, 0, 8, 8, 5, 1, 9, 9, 3, 1, 10, 10, 4,
            1, 11, 11, 5, 2, 12, 12, 3, 2, 13, 13, 4, 2, 14, 14, 5,
        ],
        [6, 9],
    ),
    // K5 with an edge doubled, at a vertex of a tetrahedron
    (
        8,
        &[
            0, 1, 0, 2, 0, 3, 1, 2, 1, 3, 2, 3, 3, 4, 3, 5, 3, 6, 3, 7, 4, 5, 4, 6, 4, 7, 5, 6, 5,
            7, 6, 7, 7, 6,
        ],
        [5, 10],
    ),
    // a prism, with K5 without an edge in the place of a side
    (
        9,
        &[
            0, 1, 1, 2, 2, 0, 3, 4, 4, 5, 5, 3, 0, 3, 1, 4, 2, 6, 2, 7, 2, 8, 6, 7, 7, 8, 8, 6, 6,
            5, 7, 5, 8, 5,
        ],
        [5, 10],
    ),
];

// Graphs of any kind with a plane rotation system.
static PLANAR: [(u32, &[u32]); 3] = [
    // no edges
    (3, &[]),
    // a bundle, a path and a tetrahedron, at a vertex, and a vertex alone
    (
        9,
        &[
            0, 1, 1, 0, 0, 1, 0, 2, 2, 3, 0, 4, 0, 5, 0, 6, 4, 5, 4, 6, 5, 6,
        ],
    ),
    // K5 without an edge, the ends of which are joined with a tetrahedron
    (
        9,
        &[
            0, 1, 0, 2, 0, 3, 1, 2, 1, 3, 2, 3, 1, 4, 2, 4, 3, 4, 5, 6, 5, 7, 5, 8, 6, 7, 6, 8, 7,
            8,
        ],
    ),
];

// The skeleton that is found in the graph of these ends.
fn found_in(alloc: Global, vertices: u32, ends: &'static [u32]) -> Result<Option<[u32; 2]>, Fail> {
    let graph = graph_with(alloc, vertices, ends)?;
    match obstacle_of(alloc, &graph)? {
        None => Ok(None),
        Some(found) => Ok(Some([found.skeleton.vertex_count(), found.skeleton.edge_count()])),
    }
}

#[test]
fn decides_graphs_of_any_kind(rt: HostRuntime) -> Result<(), Fail> {
    let alloc = rt.alloc();
    for (vertices, ends, numbers) in &NONPLANAR {
        assert!(rt; found_in(alloc, *vertices, ends)? == Some(*numbers));
    }
    for (vertices, ends) in &PLANAR {
        assert!(rt; found_in(alloc, *vertices, ends)?.is_none());
    }
    Ok(())
}
