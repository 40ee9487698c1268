// Small triconnected graphs, plane ones and others, embedded with finders that propose right things and wrong ones.

ghost use Rattle.std.specs.Prelude.{IfOk, IfSome};
ghost use Rattle.planarity.specs.Embedding.{IsEmbedding};

use crate::mistakes::{Mistake, Mistaken};
use crate::rows::{Expected, ROWS, Row, TRAPS, graph_of, is_plane};
use contract_embed::ContractEmbedder;
use contractions::is_triconnected;
use kuratowski::check;
use multigraph::Graph;
use planarity::{Embedded, Embedder};
use quick_embed::{Finder, LeftRight, QuickEmbedder, embed_by};
use std::alloc::{AllocError, Global};
use std::test::Fail;

// An embedder that counts its calls.
#[derive(Debug, Drop)]
struct Counted {
    calls: u32,
    embedder: ContractEmbedder,
}

impl Embedder for Counted {
    fn embed(&mut self, alloc: Global, g: &Graph) -> Result<Embedded, AllocError> {
        self.calls = self.calls.saturating_add(1);
        self.embedder.embed(alloc, g)
    }
}

// What is answered with this finder, and how often the other embedder was called; nothing where the graph is not triconnected.
fn answer_by<F: Finder>(
    alloc: Global,
    finder: &mut F,
    graph: &Graph,
) -> Result<Option<(Embedded, u32)>, AllocError>
    ensures { IfOk result (λ answer. IfSome answer (λ found. IsEmbedding graph.now found.0)) }
{
    if !is_triconnected(alloc, graph)? {
        return Ok(None);
    }
    let mut fallback = Counted {
        calls: 0,
        embedder: ContractEmbedder,
    };
    let answer = embed_by(alloc, finder, &mut fallback, graph)?;
    Ok(Some((answer, fallback.calls)))
}

// Whether the answer for the graph is the one of the row, after this many calls of the other embedder.
fn is_answered<F: Finder>(
    alloc: Global,
    finder: &mut F,
    row: &Row,
    calls: u32,
) -> Result<bool, Fail> {
    let graph = graph_of(alloc, row)?;
    let Some((answer, called)) = answer_by(alloc, finder, &graph)? else {
        return Ok(false);
    };
    match (answer, &row.expected) {
        (Embedded::Plane(r), Expected::Plane(numbers)) => {
            Ok(called == calls && is_plane(alloc, &graph, &r, *numbers)?)
        }
        (Embedded::Not(s), Expected::Not(pattern)) => {
            Ok(called == calls && s.kind == *pattern && check(alloc, &graph, &s)?)
        }
        _ => Ok(false),
    }
}

#[test]
fn embeds_without_the_other_embedder(rt: HostRuntime) -> Result<(), Fail> {
    let alloc = rt.alloc();
    for row in ROWS.iter().chain(&TRAPS) {
        assert!(rt; is_answered(alloc, &mut LeftRight, row, 0)?);
    }
    Ok(())
}

#[test]
fn answers_as_the_other_embedder_where_a_finder_is_wrong(rt: HostRuntime) -> Result<(), Fail> {
    let alloc = rt.alloc();
    let mistakes = [
        Mistake::Silent,
        Mistake::Turned,
        Mistake::Short,
        Mistake::Strange,
    ];
    for mistake in mistakes {
        for row in &ROWS {
            assert!(rt;
                is_answered(alloc, &mut Mistaken { mistake }, row, 1)?,
                "{mistake:?}"
            );
        }
    }
    Ok(())
}

#[test]
fn embeds_quickly(rt: HostRuntime) -> Result<(), Fail> {
    let alloc = rt.alloc();
    let graph = graph_of(alloc, &ROWS[0])?;
    assert!(rt; is_triconnected(alloc, &graph)?);
    let mut embedder = QuickEmbedder {
        fallback: ContractEmbedder,
    };
    let answer = embedder.embed(alloc, &graph)?;
    assert!(rt; matches!(answer, Embedded::Plane(_)));
    Ok(())
}
