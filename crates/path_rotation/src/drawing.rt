// The drawing of a graph.

ghost use Rattle.std.specs.Prelude.{◌≡◌, ◌<◌, ℕ, List, true, false, IfOk};
ghost use Rattle.multigraph.specs.Graph.{edge_count, numbers_below};
ghost use Rattle.graph_theory.specs.Triconnected.{IsTriconnected};
ghost use Rattle.faces.specs.Euler.{IsPlaneSystem};
ghost use Rattle.path_rotation.specs.Fitting.{IsSketch, drawn_count};
ghost use Rattle.path_rotation.specs.Finish.{IsPlaneOrder};
ghost use Rattle.path_rotation.specs.Outcome.{IsDrawn};

use crate::finishing::finish;
use crate::labels::label_faces;
use crate::outcome::{Drawn, Tried};
use crate::rounds::round;
use crate::settling::settle;
use crate::tables::{Board, Fits, Search};
use multigraph::{Graph, dart_count};
use std::alloc::{AllocError, Global};

// The numbers below n.
fn numbers_below(alloc: Global, n: u32) -> Result<Vec<u32>, AllocError>
    ensures { IfOk result (λ numbers. numbers.items ≡ numbers_below n) }
{
    let mut numbers = Vec::with_capacity(alloc, n as usize)?;
    for number in 0..n {
        numbers.push(number)?;
    }
    Ok(numbers)
}

// The graph with its first edge drawn.
fn begin(alloc: Global, g: &Graph) -> Result<Board, AllocError>
    requires { 0 < edge_count g.now }
    ensures sketch { IfOk result (λ board. IsSketch g.now board.drawn.items board.on.items board.next.items board.label.items) }
    ensures begun { IfOk result (λ board. 0 < drawn_count g.now board.drawn.items) }
{
    let mut drawn = vec![in alloc; false; g.edge_count() as usize]?;
    let mut on = vec![in alloc; false; g.vertex_count() as usize]?;
    let (first, second) = g.ends(0);
    drawn[0] = true;
    on[first as usize] = true;
    on[second as usize] = true;
    let darts = dart_count(g);
    Ok(Board {
        next: numbers_below(alloc, darts)?,
        label: vec![in alloc; 0; darts as usize]?,
        drawn,
        on,
    })
}

// Draws paths, in rounds, as long as one is drawn in a round or at a last look. Returns whether a bridge fits no face.
fn draw_paths(alloc: Global, g: &Graph, board: &mut Board) -> Result<bool, AllocError>
    requires sketch { IsSketch g.now board.old.drawn.items board.old.on.items board.old.next.items board.old.label.items }
    requires begun { 0 < drawn_count g.now board.old.drawn.items }
    ensures sketch { IfOk result (λ _. IsSketch g.now board.new.drawn.items board.new.on.items board.new.next.items board.new.label.items) }
    ensures unfit { IfOk result (λ unfit. unfit ≡ true → (r : List (List ℕ)) → IsPlaneSystem g.now r → ⊥) }
    ensures whole { IfOk result (λ unfit. unfit ≡ false → IsTriconnected g.now → IsPlaneOrder g.now board.new.next.items) }
{
    g.keeps_limits();
    let mut search = Search::of(alloc, g)?;
    let mut fits = Fits::of(alloc, g)?;
    label_faces(g, &board.next, &mut board.label);
    for _ in 0..g.edge_count() {
        match round(g, board, &mut search, &mut fits)? {
            Tried::NotPlanar => return Ok(true),
            Tried::Drawn => {}
            Tried::Passed => match settle(alloc, g, board)? {
                Tried::NotPlanar => return Ok(true),
                Tried::Drawn => label_faces(g, &board.next, &mut board.label),
                Tried::Passed => return Ok(false),
            },
        }
    }
    Ok(false)
}

/// A plane rotation system of the graph, which may be any, or that it has none, found by drawing one path after another into
/// faces (Demoucron, Malgrange and Pertuiset 1964); or `Stuck`, and then the graph is not triconnected.
///
/// Each path that is drawn takes time linear in the graph. In a round each bridge at which none is drawn takes time linear in its
/// edges and in the degrees of the vertices at which it is attached, and there are at most as many rounds as edges. A round that
/// leaves an edge undrawn and draws no path is followed by a last look, which takes time linear in the graph for each edge off what is
/// drawn and for each corner that it tries at an undrawn dart. Fails only if memory runs out.
pub fn draw(alloc: Global, g: &Graph) -> Result<Drawn, AllocError>
    ensures { IfOk result (IsDrawn g.now) }
{
    if g.edge_count() == 0 {
        return finish(alloc, g, &[]);
    }
    let mut board = begin(alloc, g)?;
    if draw_paths(alloc, g, &mut board)? {
        return Ok(Drawn::NotPlanar);
    }
    finish(alloc, g, &board.next)
}
