// A subdivision of a triconnected graph without plane rotation system: down by obstacles to K5 or K3,3, and back up.

ghost use Rattle.std.specs.Prelude.{IfOk};
ghost use Rattle.graph_theory.specs.Triconnected.{IsTriconnected};
ghost use Rattle.kuratowski.specs.Subdivision.{IsWritten};
ghost use Rattle.minimal_graphs.specs.Whole.{IsPattern};
ghost use Rattle.path_embed.specs.Planar.{HasNoPlaneSystem};
ghost use Rattle.path_embed.specs.Found.{IsObstacle};
ghost use Rattle.path_embed.specs.Chain.{IsChain};

use crate::carrying::carried;
use crate::deciding::Obstacle;
use crate::edges_left::smaller_obstacle;
use block_obstruct::obstruct_block;
use kuratowski::Subdivision;
use minimal_graphs::read_off;
use multigraph::Graph;
use std::alloc::{AllocError, Global};

// A graph, and an obstacle of it.
#[derive(Drop)]
pub(crate) struct Level {
    pub(crate) outer: Graph,
    pub(crate) obstacle: Obstacle,
}

// Obstacles, each of the skeleton of the one before it, and the skeleton of the last one.
#[derive(Drop)]
struct Descent {
    levels: Vec<Level>,
    bottom: Graph,
}

// Leaves out edges of a copy of the graph, one at a time, until what is left is K5 or K3,3.
fn descend(alloc: Global, g: &Graph) -> Result<Descent, AllocError>
    requires triconnected { IsTriconnected g.now }
    requires nonplanar { HasNoPlaneSystem g.now }
    ensures chain { IfOk result (λ descent. IsChain g.now descent.levels.items descent.bottom) }
    ensures pattern { IfOk result (λ descent. IsPattern descent.bottom) }
{
    let mut levels = Vec::new(alloc);
    let mut bottom = g.copy(alloc)?;
    'down: while let Some(obstacle) = smaller_obstacle(alloc, &bottom)? {
        let skeleton = obstacle.skeleton.copy(alloc)?;
        levels.push(Level {
            outer: bottom,
            obstacle,
        })?;
        bottom = skeleton;
    }
    bottom.keeps_limits();
    Ok(Descent { levels, bottom })
}

// The subdivision in the skeleton of an obstacle, carried into the graph.
pub(crate) fn carried_from(
    alloc: Global,
    g: &Graph,
    o: &Obstacle,
    s: &Subdivision,
) -> Result<Subdivision, AllocError>
    requires obstacle { IsObstacle g.now o.now }
    requires written { IsWritten o.now.skeleton s.now.kind s.now.branch s.now.paths }
    ensures { IfOk result (λ w. IsWritten g.now w.kind w.branch w.paths) }
{
    let inner = obstruct_block(alloc, o.block.graph(), &o.tree, o.node, &o.skeleton, s)?;
    carried(alloc, g, &o.block, &inner)
}

// The subdivision in the last skeleton, carried into the graph.
fn ascend(
    alloc: Global,
    g: &Graph,
    descent: Descent,
    s: Subdivision,
) -> Result<Subdivision, AllocError>
    requires chain { IsChain g.now descent.levels.items descent.bottom }
    requires written { IsWritten descent.bottom s.kind s.branch s.paths }
    ensures { IfOk result (λ w. IsWritten g.now w.kind w.branch w.paths) }
{
    let _ = g; // for the contract alone
    let mut levels = descent.levels;
    let mut known = s;
    'up: while let Some(level) = levels.pop() {
        known = carried_from(alloc, &level.outer, &level.obstacle, &known)?;
    }
    Ok(known)
}

// A subdivision of K5 or K3,3 in a triconnected graph that has no plane rotation system.
pub(crate) fn subdivision_of(alloc: Global, g: &Graph) -> Result<Subdivision, AllocError>
    requires triconnected { IsTriconnected g.now }
    requires nonplanar { HasNoPlaneSystem g.now }
    ensures { IfOk result (λ w. IsWritten g.now w.kind w.branch w.paths) }
{
    let descent = descend(alloc, g)?;
    let s = read_off(alloc, &descent.bottom)?;
    ascend(alloc, g, descent, s)
}
