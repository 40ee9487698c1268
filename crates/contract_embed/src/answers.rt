// What is known of a graph on the way up: the steps of a plane rotation system, or a subdivision.

ghost use Rattle.std.specs.Prelude.{◌≡◌, IfOk, MatchOption};
ghost use Rattle.planarity.specs.Embedding.{IsEmbedding};
ghost use Rattle.contractions.specs.Level.{IsLevel, contraction};
ghost use Rattle.contract_obstruct.specs.Steps.{ArePlaneSteps};
ghost use Rattle.contract_obstruct.specs.Obstruction.{HaveNoRuns};
ghost use Rattle.contract_embed.specs.Answer.{IsAnswer};

use crate::expanding::expand;
use crate::rounds::rotation;
use crate::runs::runs;
use contractions::Level;
use kuratowski::{Subdivision, written_form};
use multigraph::Graph;
use planarity::Embedded;
use std::alloc::{AllocError, Global};

/// The steps of a plane rotation system, or a subdivision of K5 or of K3,3.
#[derive(Drop)]
pub(crate) enum Answer {
    Plane(Vec<u32>),
    Not(Subdivision),
}

// The steps of a plane rotation system of the graph of a level, from those of one of its contraction h, if these have runs.
pub(crate) fn expand_runs(
    alloc: Global,
    level: &Level,
    h: &Graph,
    next: &[u32],
) -> Result<Option<Vec<u32>>, AllocError>
    requires level { IsLevel level.now }
    requires contraction { h.now ≡ contraction level.now }
    requires steps { ArePlaneSteps (contraction level.now) next.now }
    ensures { IfOk result (λ answer. MatchOption answer (HaveNoRuns level.now next.now)
        (λ wide. ArePlaneSteps level.now.graph wide.items)) }
{
    let found = runs(alloc, level, h, next)?;
    let Some(ends) = found else {
        return Ok(None);
    };
    let wide = expand(alloc, level, h, next, ends.0, ends.1)?;
    Ok(Some(wide))
}

// The answer as an embedder returns it.
pub(crate) fn embedding(alloc: Global, g: &Graph, answer: Answer) -> Result<Embedded, AllocError>
    requires { IsAnswer g.now answer }
    ensures { IfOk result (IsEmbedding g.now) }
{
    match answer {
        Answer::Plane(next) => {
            let r = rotation(alloc, g, &next)?;
            Ok(Embedded::Plane(r))
        }
        Answer::Not(s) => {
            let w = written_form(alloc, g, s)?;
            Ok(Embedded::Not(w))
        }
    }
}
