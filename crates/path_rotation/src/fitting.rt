// The corners that fit a bridge. The corner of a drawn dart lies between this dart and the next drawn one around its vertex, in the
// face of its twin.

ghost use Rattle.std.specs.Prelude.{◌≡◌, ◌≢◌, ◌==◌, ◌<◌, ℕ, true, length, filter, slice_index, IfOk};
ghost use Rattle.permutations.specs.Members.{is_member};
ghost use Rattle.multigraph.specs.Graph.{edge_count};
ghost use Rattle.multigraph.specs.Marks.{is_marked};
ghost use Rattle.multigraph.specs.Darts.{tail, twin};
ghost use Rattle.path_rotation.specs.Forced.{AreTables};
ghost use Rattle.path_rotation.specs.Fitting.{AreDartsAt, AreFitting, AreLabels, IsFoot, HaveRoom};

use crate::searching::{begin, visit};
use crate::tables::{Board, Fits, Search};
use crate::ways::way_back;
use multigraph::{Graph, dart_from, tail, twin};
use std::alloc::AllocError;
use std::mem::swap;

// The drawn darts that leave v.
pub(crate) fn darts_at(
    g: &Graph,
    drawn: &[bool],
    v: u32,
    darts: &mut Vec<u32>,
) -> Result<(), AllocError>
    requires vertex { v < g.now.vertex_count }
    requires each { length drawn.now ≡ edge_count g.now }
    ensures { IfOk result (λ _. AreDartsAt g.now drawn.now v darts.new.items) }
{
    darts.clear();
    for edge in g.incident(v) {
        if drawn[*edge as usize] {
            darts.push(dart_from(g, v, *edge))?;
        }
    }
    Ok(())
}

// Stamps the labels of the faces in which the corners of these darts lie.
fn stamp_faces(label: &[u32], darts: &[u32], passed: &mut [u32], stamp: u32)
    requires within { (d : ℕ) → is_member d darts.now ≡ true → twin d < length label.now }
    requires labels { (d : ℕ) → d < length label.now → slice_index label.now d < length passed.old }
    ensures size { length passed.new ≡ length passed.old }
    ensures stamped { (d : ℕ) → is_member d darts.now ≡ true
        → slice_index passed.new (slice_index label.now (twin d)) ≡ stamp }
{
    for d in darts {
        let face = label[twin(*d) as usize];
        passed[face as usize] = stamp;
    }
}

// Those of the darts whose corners lie in a face with a stamp.
fn keep_passing(
    label: &[u32],
    passed: &[u32],
    stamp: u32,
    darts: &[u32],
    kept: &mut Vec<u32>,
) -> Result<(), AllocError>
    requires within { (d : ℕ) → is_member d darts.now ≡ true → twin d < length label.now }
    requires labels { (d : ℕ) → d < length label.now → slice_index label.now d < length passed.now }
    ensures { IfOk result (λ _. kept.new.items
        ≡ filter (λ d. slice_index passed.now (slice_index label.now (twin d)) == stamp) darts.now) }
{
    kept.clear();
    for d in darts {
        let face = label[twin(*d) as usize];
        if passed[face as usize] == stamp {
            kept.push(*d)?;
        }
    }
    Ok(())
}

// Those of the darts whose corners lie in this face.
pub(crate) fn keep_in_face(
    label: &[u32],
    face: u32,
    darts: &[u32],
    kept: &mut Vec<u32>,
) -> Result<(), AllocError>
    requires within { (d : ℕ) → is_member d darts.now ≡ true → twin d < length label.now }
    ensures { IfOk result (λ _. kept.new.items
        ≡ filter (λ d. slice_index label.now (twin d) == face) darts.now) }
{
    kept.clear();
    for d in darts {
        if label[twin(*d) as usize] == face {
            kept.push(*d)?;
        }
    }
    Ok(())
}

// Whether z is on and not u.
pub(crate) fn is_attachment(on: &[bool], u: u32, z: u32) -> bool
    ensures on { result ≡ true → is_marked on.now z ≡ true }
    ensures within { result ≡ true → z < length on.now }
    ensures apart { result ≡ true → z ≢ u }
{
    match on.get(z as usize) {
        Some(is_on) => *is_on && z != u,
        None => false,
    }
}

// Takes those corners out whose faces do not pass z, if a path leads there.
fn exclude(g: &Graph, board: &Board, fits: &mut Fits, t: u32, z: u32) -> Result<(), AllocError>
    requires tables { AreTables g.now board.now.drawn.items board.now.on.items board.now.next.items }
    requires labels { AreLabels g.now board.now.label.items }
    requires foot { IsFoot g.now board.now.drawn.items board.now.on.items t }
    requires room { HaveRoom g.now fits.old.notes.items fits.old.depth.items fits.old.passed.items }
    requires fitting { AreFitting g.now board.now.drawn.items board.now.on.items board.now.label.items t fits.old.corners.items }
    ensures room { IfOk result (λ _. HaveRoom g.now fits.new.notes.items fits.new.depth.items fits.new.passed.items) }
    ensures fitting { IfOk result (λ _. AreFitting g.now board.now.drawn.items board.now.on.items board.now.label.items t fits.new.corners.items) }
{
    if !is_attachment(&board.on, tail(g, t), z) {
        return Ok(());
    }
    darts_at(g, &board.drawn, z, &mut fits.there)?;
    fits.stamp = fits.stamp.saturating_add(1);
    stamp_faces(&board.label, &fits.there, &mut fits.passed, fits.stamp);
    keep_passing(
        &board.label,
        &fits.passed,
        fits.stamp,
        &fits.corners,
        &mut fits.kept,
    )?;
    if fits.kept.len() == fits.corners.len() {
        return Ok(());
    }
    if !way_back(g, &board.on, &fits.notes, &fits.depth, t, z, &mut fits.path)? {
        return Ok(());
    }
    swap(&mut fits.corners, &mut fits.kept);
    Ok(())
}

// Takes those corners out whose faces do not pass the attachments after the first `known`, as long as several are left.
fn exclude_more(
    g: &Graph,
    board: &Board,
    attached: &[u32],
    known: usize,
    fits: &mut Fits,
    t: u32,
) -> Result<(), AllocError>
    requires tables { AreTables g.now board.now.drawn.items board.now.on.items board.now.next.items }
    requires labels { AreLabels g.now board.now.label.items }
    requires foot { IsFoot g.now board.now.drawn.items board.now.on.items t }
    requires room { HaveRoom g.now fits.old.notes.items fits.old.depth.items fits.old.passed.items }
    requires fitting { AreFitting g.now board.now.drawn.items board.now.on.items board.now.label.items t fits.old.corners.items }
    ensures room { IfOk result (λ _. HaveRoom g.now fits.new.notes.items fits.new.depth.items fits.new.passed.items) }
    ensures fitting { IfOk result (λ _. AreFitting g.now board.now.drawn.items board.now.on.items board.now.label.items t fits.new.corners.items) }
{
    for z in attached.iter().skip(known) {
        if fits.corners.len() <= 1 {
            break;
        }
        exclude(g, board, fits, t, *z)?;
    }
    Ok(())
}

// Whether one of these vertices, which differ, is not u.
fn has_other(attached: &[u32], u: u32) -> bool {
    match attached.last() {
        Some(z) => attached.len() > 1 || *z != u,
        None => false,
    }
}

// Searches the bridge that begins with the undrawn dart t, and takes those corners out whose faces do not pass an attachment, until
// none is left, or until an attachment is met and one corner is left or there is `no_choice`.
pub(crate) fn narrow(
    g: &Graph,
    board: &Board,
    search: &mut Search,
    fits: &mut Fits,
    t: u32,
    no_choice: bool,
) -> Result<(), AllocError>
    requires tables { AreTables g.now board.now.drawn.items board.now.on.items board.now.next.items }
    requires labels { AreLabels g.now board.now.label.items }
    requires foot { IsFoot g.now board.now.drawn.items board.now.on.items t }
    requires room { HaveRoom g.now fits.old.notes.items fits.old.depth.items fits.old.passed.items }
    requires fitting { AreFitting g.now board.now.drawn.items board.now.on.items board.now.label.items t fits.old.corners.items }
    ensures room { IfOk result (λ _. HaveRoom g.now fits.new.notes.items fits.new.depth.items fits.new.passed.items) }
    ensures fitting { IfOk result (λ _. AreFitting g.now board.now.drawn.items board.now.on.items board.now.label.items t fits.new.corners.items) }
{
    g.keeps_limits();
    begin(g, &board.on, search, &mut fits.notes, &mut fits.depth, t)?;
    let u = tail(g, t);
    let mut known: usize = 0;
    for q in 0..g.vertex_count() {
        exclude_more(g, board, &search.attached, known, fits, t)?;
        known = search.attached.len();
        if fits.corners.is_empty() {
            break;
        }
        if (no_choice || fits.corners.len() == 1) && has_other(&search.attached, u) {
            break;
        }
        let Some(x) = search.list.get(q as usize) else {
            break;
        };
        let x = *x;
        visit(g, &board.on, search, &mut fits.notes, &mut fits.depth, x)?;
    }
    Ok(())
}
