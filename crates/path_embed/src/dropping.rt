// Items left out, where the rest has no plane rotation system.

ghost use Rattle.std.specs.Prelude.{◌≡◌, ◌<◌, ℕ, length, slice_index, IfOk};
ghost use Rattle.multigraph.specs.Graph.{edge_count};
ghost use Rattle.multigraph.specs.Part.{Rises};
ghost use Rattle.path_embed.specs.Found.{IsRest};

use crate::marks::{mark, mark_all, marked_below};
use crate::rest::{Rest, find};
use multigraph::{Graph, Numbers};
use std::alloc::{AllocError, Global};

// A piece of a list: up to so many of its numbers, from a place on.
#[derive(Clone, Copy)]
pub(crate) struct Piece {
    pub(crate) from: usize,
    pub(crate) size: usize,
}

// For each item whether it is in the piece of the list.
pub(crate) fn marks_of(
    alloc: Global,
    count: usize,
    list: &[u32],
    piece: Piece,
) -> Result<Vec<bool>, AllocError> {
    let mut marks = vec![in alloc; false; count]?;
    for item in list.iter().skip(piece.from).take(piece.size) {
        mark(&mut marks, *item);
    }
    Ok(marks)
}

// Marks the edges on the routes of the items that are not left out.
fn mark_routes(marks: &mut [bool], routes: &[Numbers], left_out: &[bool])
    ensures { length marks.new ≡ length marks.old }
{
    for (route, is_out) in routes.iter().zip(left_out) {
        if !*is_out {
            mark_all(marks, route.as_slice());
        }
    }
}

// The edges of the graph on the routes of the items that are not left out, increasing.
fn edges_without(
    alloc: Global,
    g: &Graph,
    routes: &[Numbers],
    left_out: &[bool],
) -> Result<Vec<u32>, AllocError>
    ensures rising { IfOk result (λ edges. Rises edges.items) }
    ensures within { IfOk result (λ edges. (i : ℕ) → i < length edges.items
        → slice_index edges.items i < edge_count g.now) }
{
    let mut marks = vec![in alloc; false; g.edge_count() as usize]?;
    mark_routes(&mut marks, routes, left_out);
    marked_below(alloc, &marks, g.edge_count())
}

// Leaves out the items that are marked, if what is left has no plane rotation system. Returns whether it is done.
pub(crate) fn leave_out(
    alloc: Global,
    g: &Graph,
    rest: &mut Rest,
    left_out: &[bool],
) -> Result<bool, AllocError>
    requires { IsRest g.now rest.old }
    ensures { IfOk result (λ _. IsRest g.now rest.new) }
{
    let edges = edges_without(alloc, g, &rest.routes, left_out)?;
    let answer = find(alloc, g, &edges)?;
    match answer {
        Some(found) => {
            *rest = Rest::of(alloc, g, found)?;
            Ok(true)
        }
        None => Ok(false),
    }
}
