// The embedder: down by contractions to four vertices, and back up.

ghost use Rattle.std.specs.Prelude.{◌≡◌, IfOk};
ghost use Rattle.contractions.specs.Level.{IsLevel, contraction};
ghost use Rattle.contract_embed.specs.Chain.{IsChain};
ghost use Rattle.contract_embed.specs.Answer.{IsAnswer};
ghost use Rattle.contract_obstruct.specs.Steps.{ArePlaneSteps};

use crate::answers::{Answer, embedding, expand_runs};
use crate::descending::{Descent, descend};
use crate::tetrahedron::tetrahedron_steps;
use contract_obstruct::{lift, obstruct};
use contractions::Level;
use multigraph::Graph;
use planarity::{Embedded, Embedder};
use std::alloc::{AllocError, Global};

// The answer for the graph of a level, given the steps of a plane rotation system of its contraction h.
fn climb_plane(alloc: Global, level: &Level, h: &Graph, next: &[u32]) -> Result<Answer, AllocError>
    requires level { IsLevel level.now }
    requires contraction { h.now ≡ contraction level.now }
    requires steps { ArePlaneSteps (contraction level.now) next.now }
    ensures { IfOk result (IsAnswer level.now.graph) }
{
    let found = expand_runs(alloc, level, h, next)?;
    match found {
        Some(wide) => Ok(Answer::Plane(wide)),
        None => {
            let s = obstruct(alloc, level, h, next)?;
            Ok(Answer::Not(s))
        }
    }
}

// The answer for the graph of a level, from that for its contraction h.
fn climb(alloc: Global, level: &Level, h: &Graph, answer: Answer) -> Result<Answer, AllocError>
    requires level { IsLevel level.now }
    requires contraction { h.now ≡ contraction level.now }
    requires answer { IsAnswer (contraction level.now) answer }
    ensures { IfOk result (IsAnswer level.now.graph) }
{
    match answer {
        Answer::Plane(next) => climb_plane(alloc, level, h, &next),
        Answer::Not(s) => {
            let lifted = lift(alloc, level, &s)?;
            Ok(Answer::Not(lifted))
        }
    }
}

// The answer for the first graph, from that for the last.
fn ascend(
    alloc: Global,
    g: &Graph,
    bottom: Graph,
    mut levels: Vec<Level>,
    answer: Answer,
) -> Result<Answer, AllocError>
    requires chain { IsChain g.now levels.items bottom }
    requires answer { IsAnswer bottom answer }
    ensures { IfOk result (IsAnswer g.now) }
{
    let mut below = bottom;
    let mut known = answer;
    'up: while let Some(level) = levels.pop() {
        known = climb(alloc, &level, &below, known)?;
        let Level { graph, .. } = level;
        below = graph;
    }
    Ok(known)
}

/// An embedder of triconnected graphs by contraction.
///
/// Edges are contracted until four vertices are left; on the way back up, the answer for each graph is found from that for its
/// contraction. It is meant to be simple: its time grows roughly with the fourth power of the number of vertices.
#[derive(Debug, Drop)]
pub struct ContractEmbedder;

impl Embedder for ContractEmbedder {
    fn embed(&mut self, alloc: Global, g: &Graph) -> Result<Embedded, AllocError> {
        let Descent { levels, bottom } = descend(alloc, g)?;
        let steps = tetrahedron_steps(alloc, &bottom)?;
        let answer = ascend(alloc, g, bottom, levels, Answer::Plane(steps))?;
        embedding(alloc, g, answer)
    }
}
