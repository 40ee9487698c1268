// One bridge tried: it fits no face, or a path of it is drawn where there is no choice.

ghost use Rattle.std.specs.Prelude.{◌≡◌, ◌<◌, ◌⊎◌, ◌∷◌, [], ℕ, Option, Some, true, length, slice_index, IfOk, IfSome};
ghost use Rattle.permutations.specs.Members.{is_member};
ghost use Rattle.multigraph.specs.Graph.{edge_count};
ghost use Rattle.multigraph.specs.Darts.{dart_count, tail};
ghost use Rattle.path_rotation.specs.Forced.{AreTables, IsInvolution};
ghost use Rattle.path_rotation.specs.Fitting.{AreLabels, HaveRoom, IsBoard, IsChoice, IsFoot, IsMoreDrawn, IsTried, IsWayTo};
ghost use Rattle.path_rotation.specs.declared.outcome.Tried.TheVariants.{Passed};

use crate::fitting::{darts_at, is_attachment, keep_in_face, narrow};
use crate::inserting::draw_path;
use crate::labels::{in_shorter_face, is_on_face, label_face};
use crate::outcome::Tried;
use crate::searching::unmark;
use crate::tables::{Board, Fits, Search};
use crate::ways::way_back;
use multigraph::{Graph, tail, twin};
use std::alloc::AllocError;

// Where a path of a bridge is to be drawn.
#[derive(Drop)]
pub(crate) enum Choice {
    // Nowhere: the bridge fits no face.
    Nowhere,
    // Between the corners of these two darts.
    Between(u32, u32),
    // Several corners are left, or no path was found.
    Open,
}

// The only dart at z whose corner is in the face of the corner of c, if a path was found that begins with t and leads to z.
fn way_to(
    g: &Graph,
    board: &Board,
    fits: &mut Fits,
    t: u32,
    c: u32,
    z: u32,
) -> Result<Option<u32>, AllocError>
    requires tables { AreTables g.now board.now.drawn.items board.now.on.items board.now.next.items }
    requires labels { AreLabels g.now board.now.label.items }
    requires foot { IsFoot g.now board.now.drawn.items board.now.on.items t }
    requires room { HaveRoom g.now fits.old.notes.items fits.old.depth.items fits.old.passed.items }
    requires corner { c < dart_count g.now }
    ensures room { IfOk result (λ _. HaveRoom g.now fits.new.notes.items fits.new.depth.items fits.new.passed.items) }
    ensures way { IfOk result (λ answer. IfSome answer (IsWayTo g.now board.now.drawn.items board.now.on.items board.now.label.items t c fits.new.path.items)) }
{
    if !is_attachment(&board.on, tail(g, t), z) {
        return Ok(None);
    }
    darts_at(g, &board.drawn, z, &mut fits.there)?;
    let face = board.label[twin(c) as usize];
    keep_in_face(&board.label, face, &fits.there, &mut fits.kept)?;
    if fits.kept.len() != 1 {
        return Ok(None);
    }
    if way_back(g, &board.on, &fits.notes, &fits.depth, t, z, &mut fits.path)? {
        return Ok(Some(fits.kept[0]));
    }
    Ok(None)
}

// The only dart in the face of the corner of c at the attachment met last to which there is such a path.
fn find_way(
    g: &Graph,
    board: &Board,
    attached: &[u32],
    fits: &mut Fits,
    t: u32,
    c: u32,
) -> Result<Option<u32>, AllocError>
    requires tables { AreTables g.now board.now.drawn.items board.now.on.items board.now.next.items }
    requires labels { AreLabels g.now board.now.label.items }
    requires foot { IsFoot g.now board.now.drawn.items board.now.on.items t }
    requires room { HaveRoom g.now fits.old.notes.items fits.old.depth.items fits.old.passed.items }
    requires corner { c < dart_count g.now }
    ensures room { IfOk result (λ _. HaveRoom g.now fits.new.notes.items fits.new.depth.items fits.new.passed.items) }
    ensures way { IfOk result (λ answer. IfSome answer (IsWayTo g.now board.now.drawn.items board.now.on.items board.now.label.items t c fits.new.path.items)) }
{
    for z in attached.iter().rev() {
        if let Some(k) = way_to(g, board, fits, t, c, *z)? {
            return Ok(Some(k));
        }
    }
    Ok(None)
}

// One of two darts of which the second is the next one after it, if these are all, and if one is wanted.
fn one_of_two(next: &[u32], darts: &[u32], wanted: bool) -> Option<u32>
    requires { (d : ℕ) → is_member d darts.now ≡ true → d < length next.now }
    ensures wanted { IfSome result (λ _. wanted ≡ true) }
    ensures member { IfSome result (λ c. is_member c darts.now ≡ true) }
    ensures two { IfSome result (λ c. (d : ℕ) → is_member d darts.now ≡ true
        → (d ≡ c) ⊎ (d ≡ slice_index next.now c)) }
{
    if wanted && darts.len() == 2 {
        let c = darts[0];
        if next[c as usize] == darts[1] {
            return Some(c);
        }
    }
    None
}

// The corner that is the only one, or else the other choice.
fn only_or(corners: &[u32], other: Option<u32>) -> Option<u32>
    ensures { IfSome result (λ c. (corners.now ≡ c ∷ []) ⊎ (other ≡ Some c)) }
{
    if corners.len() == 1 {
        return Some(corners[0]);
    }
    other
}

// Where a path of the bridge that begins with the undrawn dart t is to be drawn; the path is left in its table. If `first` then
// what is drawn is an edge or a cycle.
fn choose(
    g: &Graph,
    board: &Board,
    search: &mut Search,
    fits: &mut Fits,
    t: u32,
    first: bool,
) -> Result<Choice, AllocError>
    requires board { IsBoard g.now board.now.drawn.items board.now.on.items board.now.next.items board.now.label.items }
    requires foot { IsFoot g.now board.now.drawn.items board.now.on.items t }
    requires room { HaveRoom g.now fits.old.notes.items fits.old.depth.items fits.old.passed.items }
    requires turns { first ≡ true → IsInvolution (edge_count g.now) board.now.next.items }
    ensures room { IfOk result (λ _. HaveRoom g.now fits.new.notes.items fits.new.depth.items fits.new.passed.items) }
    ensures choice { IfOk result (IsChoice g.now board.now.drawn.items board.now.on.items board.now.next.items board.now.label.items t fits.new.path.items) }
{
    g.keeps_limits();
    darts_at(g, &board.drawn, tail(g, t), &mut fits.corners)?;
    let other = one_of_two(&board.next, &fits.corners, first);
    narrow(g, board, search, fits, t, other.is_some())?;
    if fits.corners.is_empty() {
        return Ok(Choice::Nowhere);
    }
    let Some(c) = only_or(&fits.corners, other) else {
        return Ok(Choice::Open);
    };
    let Some(k) = find_way(g, board, &search.attached, fits, t, c)? else {
        return Ok(Choice::Open);
    };
    if is_on_face(g, &board.next, twin(c), twin(k)) {
        return Ok(Choice::Between(c, k));
    }
    Ok(Choice::Open)
}

// Tries the bridge that begins with the undrawn dart t, whose tail is on. If `first` then what is drawn is an edge or a cycle. A path
// that is drawn cuts its face in two, and the shorter one is labelled anew; what is left of the bridge may be tried again.
pub(crate) fn attempt(
    g: &Graph,
    board: &mut Board,
    search: &mut Search,
    fits: &mut Fits,
    t: u32,
    first: bool,
) -> Result<Tried, AllocError>
    requires board { IsBoard g.now board.old.drawn.items board.old.on.items board.old.next.items board.old.label.items }
    requires foot { IsFoot g.now board.old.drawn.items board.old.on.items t }
    requires room { HaveRoom g.now fits.old.notes.items fits.old.depth.items fits.old.passed.items }
    requires turns { first ≡ true → IsInvolution (edge_count g.now) board.old.next.items }
    ensures board { IfOk result (λ _. IsBoard g.now board.new.drawn.items board.new.on.items board.new.next.items board.new.label.items) }
    ensures room { IfOk result (λ _. HaveRoom g.now fits.new.notes.items fits.new.depth.items fits.new.passed.items) }
    ensures tried { IfOk result (IsTried g.now) }
    ensures more { IfOk result (IsMoreDrawn g.now board.old.drawn.items board.new.drawn.items) }
    ensures passed { IfOk result (λ outcome. outcome ≡ Passed → board.new.next.items ≡ board.old.next.items) }
{
    g.keeps_limits();
    match choose(g, board, search, fits, t, first)? {
        Choice::Nowhere => Ok(Tried::NotPlanar),
        Choice::Between(c, k) => {
            draw_path(g, board, c, t, &fits.path, k);
            let d = in_shorter_face(g, &board.next, t);
            label_face(g, &board.next, &mut board.label, d);
            unmark(&mut search.seen, &search.list);
            Ok(Tried::Drawn)
        }
        Choice::Open => Ok(Tried::Passed),
    }
}
