// A round: each bridge is tried, and what is left of it after a path was drawn. The vertices at which bridges are to be tried wait in a
// stack, and those of a path that is drawn wait anew.

ghost use Rattle.std.specs.Prelude.{◌≡◌, ◌<◌, true, length, IfOk};
ghost use Rattle.multigraph.specs.Graph.{edge_count};
ghost use Rattle.multigraph.specs.Darts.{dart_count};
ghost use Rattle.path_rotation.specs.Forced.{AreTables, IsInvolution};
ghost use Rattle.path_rotation.specs.Fitting.{HaveRoom, IsBoard, IsFoot, IsMoreDrawn, IsTried};
ghost use Rattle.path_rotation.specs.declared.outcome.Tried.TheVariants.{Passed};

use crate::attempts::attempt;
use crate::labels::is_involution;
use crate::outcome::Tried;
use crate::searching::mark;
use crate::tables::{Board, Fits, Search};
use multigraph::{Graph, dart_from, head, tail};
use std::alloc::AllocError;

// Whether t is an undrawn dart whose tail is on, the first of a bridge that was not tried in this round since a path of it was drawn.
fn is_waiting(g: &Graph, board: &Board, search: &Search, t: u32) -> bool
    requires dart { t < dart_count g.now }
    requires tables { AreTables g.now board.now.drawn.items board.now.on.items board.now.next.items }
    ensures { result ≡ true → IsFoot g.now board.now.drawn.items board.now.on.items t }
{
    if board.drawn[t as usize / 2] || !board.on[tail(g, t) as usize] {
        return false;
    }
    let v = head(g, t) as usize;
    let marked = if board.on[v] {
        search.tried.get(t as usize / 2)
    } else {
        search.seen.get(v)
    };
    match marked {
        Some(is_marked) => !*is_marked,
        None => false,
    }
}

// Appends the vertices that are on.
fn enlist_on(on: &[bool], list: &mut Vec<u32>) -> Result<(), AllocError> {
    list.clear();
    for (v, is_on) in (0..u32::MAX).zip(on) {
        if *is_on {
            list.push(v)?;
        }
    }
    Ok(())
}

// Appends the vertices after u of a path from there.
fn enlist_path(g: &Graph, path: &[u32], u: u32, list: &mut Vec<u32>) -> Result<(), AllocError> {
    let mut at = u;
    for edge in path {
        if let Some(next) = g.far_end(*edge, at) {
            at = next;
            list.push(at)?;
        }
    }
    Ok(())
}

// Marks the edge if both its ends are on.
fn mark_tried(g: &Graph, on: &[bool], tried: &mut [bool], t: u32)
    requires dart { t < dart_count g.now }
    requires on_each { length on.now ≡ g.now.vertex_count }
{
    if on[head(g, t) as usize] {
        mark(tried, t / 2);
    }
}

// Tries each bridge that waits at v; the other vertices of a path that is drawn wait then. If `first` then what is drawn is an edge or a
// cycle.
fn try_bridges(
    g: &Graph,
    board: &mut Board,
    search: &mut Search,
    fits: &mut Fits,
    v: u32,
    first: bool,
) -> Result<Tried, AllocError>
    requires vertex { v < g.now.vertex_count }
    requires board { IsBoard g.now board.old.drawn.items board.old.on.items board.old.next.items board.old.label.items }
    requires room { HaveRoom g.now fits.old.notes.items fits.old.depth.items fits.old.passed.items }
    requires turns { first ≡ true → IsInvolution (edge_count g.now) board.old.next.items }
    ensures board { IfOk result (λ _. IsBoard g.now board.new.drawn.items board.new.on.items board.new.next.items board.new.label.items) }
    ensures room { IfOk result (λ _. HaveRoom g.now fits.new.notes.items fits.new.depth.items fits.new.passed.items) }
    ensures tried { IfOk result (IsTried g.now) }
    ensures more { IfOk result (IsMoreDrawn g.now board.old.drawn.items board.new.drawn.items) }
    ensures passed { IfOk result (λ outcome. outcome ≡ Passed → board.new.next.items ≡ board.old.next.items) }
{
    let mut first = first;
    let mut outcome = Tried::Passed;
    for edge in g.incident(v) {
        let t = dart_from(g, v, *edge);
        if is_waiting(g, board, search, t) {
            match attempt(g, board, search, fits, t, first)? {
                Tried::NotPlanar => return Ok(Tried::NotPlanar),
                Tried::Drawn => {
                    first = false;
                    outcome = Tried::Drawn;
                    enlist_path(g, &fits.path, v, &mut search.waiting)?;
                }
                Tried::Passed => mark_tried(g, &board.on, &mut search.tried, t),
            }
        }
    }
    Ok(outcome)
}

// Tries each bridge, and what is left of it after a path was drawn.
pub(crate) fn round(
    g: &Graph,
    board: &mut Board,
    search: &mut Search,
    fits: &mut Fits,
) -> Result<Tried, AllocError>
    requires board { IsBoard g.now board.old.drawn.items board.old.on.items board.old.next.items board.old.label.items }
    requires room { HaveRoom g.now fits.old.notes.items fits.old.depth.items fits.old.passed.items }
    ensures board { IfOk result (λ _. IsBoard g.now board.new.drawn.items board.new.on.items board.new.next.items board.new.label.items) }
    ensures room { IfOk result (λ _. HaveRoom g.now fits.new.notes.items fits.new.depth.items fits.new.passed.items) }
    ensures tried { IfOk result (IsTried g.now) }
    ensures more { IfOk result (IsMoreDrawn g.now board.old.drawn.items board.new.drawn.items) }
{
    let mut first = is_involution(g, &board.next);
    let mut outcome = Tried::Passed;
    search.seen.fill(false);
    search.tried.fill(false);
    fits.passed.fill(0);
    fits.stamp = 0;
    enlist_on(&board.on, &mut search.waiting)?;
    for _turn in 0..u64::MAX {
        let Some(v) = search.waiting.pop() else {
            break;
        };
        if v < g.vertex_count() {
            match try_bridges(g, board, search, fits, v, first)? {
                Tried::NotPlanar => return Ok(Tried::NotPlanar),
                Tried::Drawn => {
                    first = false;
                    outcome = Tried::Drawn;
                }
                Tried::Passed => {}
            }
        }
    }
    Ok(outcome)
}
