// The way down: contractions of a triconnected graph, one after the other, until four vertices are left.

ghost use Rattle.std.specs.Prelude.{◌≡◌, IfOk};
ghost use Rattle.graph_theory.specs.Triconnected.{IsTriconnected};
ghost use Rattle.contract_embed.specs.Chain.{IsChain};

use contractions::Level;
use multigraph::Graph;
use std::alloc::{AllocError, Global};

/// Contractions, each of the graph that the one before it leaves, and the graph that the last one leaves.
#[derive(Drop)]
pub(crate) struct Descent {
    pub levels: Vec<Level>,
    pub bottom: Graph,
}

// Contracts edges of a copy of the graph until four vertices are left.
pub(crate) fn descend(alloc: Global, g: &Graph) -> Result<Descent, AllocError>
    requires { IsTriconnected g.now }
    ensures chain { IfOk result (λ descent. IsChain g.now descent.levels.items descent.bottom) }
    ensures triconnected { IfOk result (λ descent. IsTriconnected descent.bottom) }
    ensures four { IfOk result (λ descent. descent.bottom.vertex_count ≡ 4) }
{
    let mut levels = Vec::new(alloc);
    let mut bottom = g.copy(alloc)?;
    'down: while bottom.vertex_count() > 4 {
        let level = Level::of(alloc, bottom)?;
        bottom = level.contraction(alloc)?;
        levels.push(level)?;
    }
    Ok(Descent { levels, bottom })
}
