// The search through a bridge, in the order of distance (Moore 1959). Nothing is promised of it: each path that it finds is checked.

ghost use Rattle.std.specs.Prelude.{◌<◌};
ghost use Rattle.multigraph.specs.Darts.{dart_count};

use crate::tables::Search;
use multigraph::{Graph, head};
use std::alloc::AllocError;

// Takes the marks from these places.
pub(crate) fn unmark(marks: &mut [bool], places: &[u32]) {
    for place in places {
        let place = *place as usize;
        if place < marks.len() {
            marks[place] = false;
        }
    }
}

// Marks a place.
pub(crate) fn mark(marks: &mut [bool], place: u32) {
    let place = place as usize;
    if place < marks.len() {
        marks[place] = true;
    }
}

// Notes the edge and the depth of a vertex.
fn note(notes: &mut [u32], depths: &mut [u32], v: u32, edge: u32, depth: u32) {
    let v = v as usize;
    if v < notes.len() && v < depths.len() {
        notes[v] = edge;
        depths[v] = depth;
    }
}

// Appends the vertex to the list with a mark, unless it has one. Returns whether it is new.
fn enlist(marks: &mut [bool], list: &mut Vec<u32>, v: u32) -> Result<bool, AllocError> {
    let place = v as usize;
    if place >= marks.len() || marks[place] {
        return Ok(false);
    }
    marks[place] = true;
    list.push(v)?;
    Ok(true)
}

// Meets a vertex by an edge: as an attachment where it is on, else as one from which the search goes on. Returns whether it is new.
fn meet(on: &[bool], search: &mut Search, v: u32) -> Result<bool, AllocError> {
    let Some(is_on) = on.get(v as usize) else {
        return Ok(false);
    };
    if *is_on {
        enlist(&mut search.met, &mut search.attached, v)
    } else {
        enlist(&mut search.seen, &mut search.list, v)
    }
}

// Meets the neighbours of a vertex, and notes for each the edge by which it was reached and how many edges away it is.
pub(crate) fn visit(
    g: &Graph,
    on: &[bool],
    search: &mut Search,
    notes: &mut [u32],
    depths: &mut [u32],
    x: u32,
) -> Result<(), AllocError> {
    if x >= g.vertex_count() {
        return Ok(());
    }
    let depth = match depths.get(x as usize) {
        Some(depth) => depth.saturating_add(1),
        None => 0,
    };
    for edge in g.incident(x) {
        if let Some(y) = g.far_end(*edge, x) {
            if meet(on, search, y)? {
                note(notes, depths, y, *edge, depth);
            }
        }
    }
    Ok(())
}

// Begins the search through the bridge of the undrawn dart t.
pub(crate) fn begin(
    g: &Graph,
    on: &[bool],
    search: &mut Search,
    notes: &mut [u32],
    depths: &mut [u32],
    t: u32,
) -> Result<(), AllocError>
    requires { t < dart_count g.now }
{
    unmark(&mut search.met, &search.attached);
    search.list.clear();
    search.attached.clear();
    let first = head(g, t);
    if meet(on, search, first)? {
        note(notes, depths, first, t / 2, 0);
    }
    Ok(())
}
