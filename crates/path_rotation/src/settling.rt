// A last look at each foot, after a round in which nothing was drawn: all its attachments are found, and whether it fits two corners.
// A foot is an undrawn dart whose tail is on. A look takes time linear in the graph for each corner that it tries.

ghost use Rattle.std.specs.Prelude.{◌≡◌, ◌≢◌, ◌<◌, ◌⊎◌, ℕ, Option, None, true, false, length, filter, IfOk, IfSome};
ghost use Rattle.permutations.specs.Members.{is_member};
ghost use Rattle.multigraph.specs.Graph.{edge_count, numbers_below};
ghost use Rattle.multigraph.specs.Marks.{is_marked};
ghost use Rattle.multigraph.specs.Darts.{dart_count, tail};
ghost use Rattle.path_separation.specs.Feet.{IsAttached};
ghost use Rattle.path_rotation.specs.Forced.{AreExact, AreTables, IsAdmissible, IsCorner, IsInvolution};
ghost use Rattle.path_rotation.specs.Fitting.{AreDartsAt, AreLabels, IsBoard, IsChoice, IsFoot, IsMoreDrawn, IsSketch, IsTried};
ghost use Rattle.path_rotation.specs.Search.{IsWayFound};
ghost use Rattle.path_rotation.specs.Settling.{AreAllAttached, AreFreeLabels, AreOpen, IsOpen, IsStep, IsTouched, is_off_edge, is_way_edge};
ghost use Rattle.path_rotation.specs.declared.attempts.Choice.TheVariants.{Open};
ghost use Rattle.path_rotation.specs.declared.outcome.Tried.TheVariants.{Passed};

use crate::attempts::Choice;
use crate::fitting::{darts_at, keep_in_face};
use crate::inserting::draw_path;
use crate::labels::{is_involution, label_faces};
use crate::outcome::Tried;
use crate::tables::Board;
use graph_paths::path_along;
use graph_theory::labels::{merge, own_labels};
use multigraph::{Graph, dart_count, head, tail, twin};
use std::alloc::{AllocError, Global};

// Whether both ends of the edge are off.
fn is_off_edge(g: &Graph, on: &[bool], e: u32) -> bool
    requires on_each { length on.now ≡ g.now.vertex_count }
    requires edge { e < edge_count g.now }
    ensures { result ≡ is_off_edge g.now on.now e }
{
    let (a, b) = g.ends(e);
    !on[a as usize] && !on[b as usize]
}

// Labels of the vertices, equal just where edges between vertices that are off join them.
fn free_labels(alloc: Global, g: &Graph, on: &[bool]) -> Result<Vec<u32>, AllocError>
    requires { length on.now ≡ g.now.vertex_count }
    ensures { IfOk result (λ labels. AreFreeLabels g.now on.now labels.items) }
{
    let mut labels = own_labels(alloc, g.vertex_count())?;
    for e in 0..g.edge_count() {
        if is_off_edge(g, on, e) {
            let (a, b) = g.ends(e);
            merge(&mut labels, &[], a, b);
        }
    }
    Ok(labels)
}

// Whether z is on and not u, and an edge leads there from a vertex that is off and has this label.
fn is_touched(g: &Graph, on: &[bool], labels: &[u32], root: u32, u: u32, z: u32) -> bool
    requires on_each { length on.now ≡ g.now.vertex_count }
    requires labels_each { length labels.now ≡ g.now.vertex_count }
    requires vertex { z < g.now.vertex_count }
    ensures on { result ≡ true → is_marked on.now z ≡ true }
    ensures apart { result ≡ true → z ≢ u }
    ensures touched { result ≡ true → (e : ℕ) × IsTouched g.now on.now labels.now root z e }
    ensures none { result ≡ false → is_marked on.now z ≡ true → z ≢ u
        → (e : ℕ) → IsTouched g.now on.now labels.now root z e → ⊥ }
{
    if !on[z as usize] || z == u {
        return false;
    }
    for edge in g.incident(z) {
        let y = g.other_end(*edge, z) as usize;
        if !on[y] && labels[y] == root {
            return true;
        }
    }
    false
}

// The attachments of the foot t.
fn attachments(
    g: &Graph,
    board: &Board,
    labels: &[u32],
    t: u32,
    attached: &mut Vec<u32>,
) -> Result<(), AllocError>
    requires tables { AreTables g.now board.now.drawn.items board.now.on.items board.now.next.items }
    requires labels { AreFreeLabels g.now board.now.on.items labels.now }
    requires foot { IsFoot g.now board.now.drawn.items board.now.on.items t }
    ensures { IfOk result (λ _. AreAllAttached g.now board.now.drawn.items t attached.new.items) }
{
    g.keeps_limits();
    attached.clear();
    let first = head(g, t);
    if board.on[first as usize] {
        attached.push(first)?;
        return Ok(());
    }
    let root = labels[first as usize];
    for z in 0..g.vertex_count() {
        if is_touched(g, &board.on, labels, root, tail(g, t), z) {
            attached.push(z)?;
        }
    }
    Ok(())
}

// Lists that are used at one vertex after the other: its drawn darts, and those of them in a face.
#[derive(Drop)]
struct Spare {
    there: Vec<u32>,
    near: Vec<u32>,
}

// Whether the face passes each of the vertices.
fn passes_all(
    g: &Graph,
    board: &Board,
    attached: &[u32],
    face: u32,
    spare: &mut Spare,
) -> Result<bool, AllocError>
    requires tables { AreTables g.now board.now.drawn.items board.now.on.items board.now.next.items }
    requires labels { AreLabels g.now board.now.label.items }
    requires attached { (z : ℕ) → is_member z attached.now ≡ true → z < g.now.vertex_count }
    ensures passed { IfOk result (λ all. all ≡ true → (z : ℕ) → is_member z attached.now ≡ true
        → (k : ℕ) × IsCorner g.now board.now.drawn.items board.now.label.items z face k) }
    ensures missed { IfOk result (λ all. all ≡ false → (z : ℕ) × (is_member z attached.now ≡ true)
        × ((k : ℕ) → IsCorner g.now board.now.drawn.items board.now.label.items z face k → ⊥)) }
{
    for z in attached {
        darts_at(g, &board.drawn, *z, &mut spare.there)?;
        keep_in_face(&board.label, face, &spare.there, &mut spare.near)?;
        if spare.near.is_empty() {
            return Ok(false);
        }
    }
    Ok(true)
}

// One of the corners, other than `skip`, whose face passes all attachments of the foot t.
fn find_fit(
    g: &Graph,
    board: &Board,
    attached: &[u32],
    corners: &[u32],
    spare: &mut Spare,
    t: u32,
    skip: u32,
) -> Result<Option<u32>, AllocError>
    requires tables { AreTables g.now board.now.drawn.items board.now.on.items board.now.next.items }
    requires labels { AreLabels g.now board.now.label.items }
    requires attached { (z : ℕ) → is_member z attached.now ≡ true → z < g.now.vertex_count }
    requires corners { AreDartsAt g.now board.now.drawn.items (tail g.now t) corners.now }
    ensures apart { IfOk result (λ found. IfSome found (λ c. c ≢ skip)) }
    ensures found { IfOk result (λ found. IfSome found
        (IsAdmissible g.now board.now.drawn.items board.now.label.items attached.now t)) }
    ensures none { IfOk result (λ found. found ≡ None → (c : ℕ) → c ≢ skip
        → IsAdmissible g.now board.now.drawn.items board.now.label.items attached.now t c → ⊥) }
{
    for c in corners {
        if *c != skip {
            let face = board.label[twin(*c) as usize];
            if passes_all(g, board, attached, face, spare)? {
                return Ok(Some(*c));
            }
        }
    }
    Ok(None)
}

// Whether both ends of the edge are off or z.
fn is_way_edge(g: &Graph, on: &[bool], z: u32, e: u32) -> bool
    requires on_each { length on.now ≡ g.now.vertex_count }
    requires edge { e < edge_count g.now }
    ensures { result ≡ is_way_edge g.now on.now z e }
{
    let (a, b) = g.ends(e);
    (!on[a as usize] || z == a) && (!on[b as usize] || z == b)
}

// The edges both ends of which are off or z.
fn way_edges(g: &Graph, on: &[bool], z: u32, edges: &mut Vec<u32>) -> Result<(), AllocError>
    requires { length on.now ≡ g.now.vertex_count }
    ensures { IfOk result (λ _. edges.new.items ≡ filter (is_way_edge g.now on.now z) (numbers_below (edge_count g.now))) }
{
    edges.clear();
    for e in 0..g.edge_count() {
        if is_way_edge(g, on, z, e) {
            edges.push(e)?;
        }
    }
    Ok(())
}

// A path that begins with the foot t and leads off what is drawn to its attachment z.
fn way(
    alloc: Global,
    g: &Graph,
    board: &Board,
    t: u32,
    z: u32,
    path: &mut Vec<u32>,
) -> Result<(), AllocError>
    requires tables { AreTables g.now board.now.drawn.items board.now.on.items board.now.next.items }
    requires foot { IsFoot g.now board.now.drawn.items board.now.on.items t }
    requires attached { IsAttached g.now (is_marked board.now.drawn.items) t z }
    ensures { IfOk result (λ _. IsWayFound g.now board.now.on.items t path.new.items z) }
{
    g.keeps_limits();
    path.clear();
    path.push(t / 2)?;
    let first = head(g, t);
    if first == z {
        return Ok(());
    }
    let mut edges = Vec::new(alloc);
    way_edges(g, &board.on, z, &mut edges)?;
    let along = path_along(alloc, g, &edges, first, z)?;
    path.extend_from_slice(along.as_slice())?;
    Ok(())
}

// Lists that are used at one foot after the other: its attachments, the drawn darts at its tail, and the path.
#[derive(Drop)]
struct Looks {
    attached: Vec<u32>,
    corners: Vec<u32>,
    path: Vec<u32>,
}

// Whether the foot t fits a corner other than c, unless `first`.
fn has_choice(
    g: &Graph,
    board: &Board,
    looks: &Looks,
    spare: &mut Spare,
    t: u32,
    c: u32,
    first: bool,
) -> Result<bool, AllocError>
    requires tables { AreTables g.now board.now.drawn.items board.now.on.items board.now.next.items }
    requires labels { AreLabels g.now board.now.label.items }
    requires attached { (z : ℕ) → is_member z looks.now.attached.items ≡ true → z < g.now.vertex_count }
    requires corners { AreDartsAt g.now board.now.drawn.items (tail g.now t) looks.now.corners.items }
    ensures choice { IfOk result (λ has. has ≡ true → (first ≡ false) × ((d : ℕ) × (d ≢ c)
        × IsAdmissible g.now board.now.drawn.items board.now.label.items looks.now.attached.items t d)) }
    ensures none { IfOk result (λ has. has ≡ false → (first ≡ true) ⊎ ((d : ℕ) → d ≢ c
        → IsAdmissible g.now board.now.drawn.items board.now.label.items looks.now.attached.items t d → ⊥)) }
{
    if first {
        return Ok(false);
    }
    match find_fit(g, board, &looks.attached, &looks.corners, spare, t, c)? {
        Some(_other) => Ok(true),
        None => Ok(false),
    }
}

// Where a path that begins with the foot t is to be drawn; the path is left in its list. If `first` then what is drawn is an edge or
// a cycle.
fn examine(
    alloc: Global,
    g: &Graph,
    board: &Board,
    labels: &[u32],
    looks: &mut Looks,
    t: u32,
    first: bool,
) -> Result<Choice, AllocError>
    requires board { IsBoard g.now board.now.drawn.items board.now.on.items board.now.next.items board.now.label.items }
    requires exact { AreExact (edge_count g.now) board.now.next.items board.now.label.items }
    requires labels { AreFreeLabels g.now board.now.on.items labels.now }
    requires foot { IsFoot g.now board.now.drawn.items board.now.on.items t }
    requires turns { first ≡ true → IsInvolution (edge_count g.now) board.now.next.items }
    requires moves { first ≡ false → IsInvolution (edge_count g.now) board.now.next.items → ⊥ }
    ensures choice { IfOk result (IsChoice g.now board.now.drawn.items board.now.on.items board.now.next.items board.now.label.items t looks.new.path.items) }
    ensures open { IfOk result (λ choice. choice ≡ Open → IsOpen g.now board.now.drawn.items board.now.next.items t) }
{
    g.keeps_limits();
    let mut spare = Spare {
        there: Vec::new(alloc),
        near: Vec::new(alloc),
    };
    attachments(g, board, labels, t, &mut looks.attached)?;
    if looks.attached.is_empty() {
        return Ok(Choice::Open);
    }
    let z = looks.attached[0];
    darts_at(g, &board.drawn, tail(g, t), &mut looks.corners)?;
    let Some(c) = find_fit(
        g,
        board,
        &looks.attached,
        &looks.corners,
        &mut spare,
        t,
        u32::MAX,
    )?
    else {
        return Ok(Choice::Nowhere);
    };
    if has_choice(g, board, looks, &mut spare, t, c, first)? {
        return Ok(Choice::Open);
    }
    let face = board.label[twin(c) as usize];
    darts_at(g, &board.drawn, z, &mut spare.there)?;
    keep_in_face(&board.label, face, &spare.there, &mut spare.near)?;
    way(alloc, g, board, t, z, &mut looks.path)?;
    Ok(Choice::Between(c, spare.near[0]))
}

// What is to be done next.
#[derive(Drop)]
pub(crate) enum Step {
    // Nothing: some foot fits no corner.
    Never,
    // A path that begins with the first of these darts is to be drawn between the corners of the two others.
    Path(u32, u32, u32),
    // Nothing: each foot has no attachment or a choice.
    Rest,
}

// The first foot where there is no choice.
fn next_step(alloc: Global, g: &Graph, board: &Board, looks: &mut Looks) -> Result<Step, AllocError>
    requires board { IsBoard g.now board.now.drawn.items board.now.on.items board.now.next.items board.now.label.items }
    requires exact { AreExact (edge_count g.now) board.now.next.items board.now.label.items }
    ensures { IfOk result (IsStep g.now board.now.drawn.items board.now.on.items board.now.next.items board.now.label.items looks.new.path.items) }
{
    let labels = free_labels(alloc, g, &board.on)?;
    let first = is_involution(g, &board.next);
    for t in 0..dart_count(g) {
        if !board.drawn[t as usize / 2] && board.on[tail(g, t) as usize] {
            match examine(alloc, g, board, &labels, looks, t, first)? {
                Choice::Nowhere => return Ok(Step::Never),
                Choice::Between(c, k) => return Ok(Step::Path(t, c, k)),
                Choice::Open => {}
            }
        }
    }
    Ok(Step::Rest)
}

// Whether each edge is drawn.
fn is_complete(drawn: &[bool]) -> bool
    ensures { result ≡ true → (e : ℕ) → e < length drawn.now → is_marked drawn.now e ≡ true }
{
    for is_drawn in drawn {
        if !*is_drawn {
            return false;
        }
    }
    true
}

// Looks at each foot once more: draws a path at the first one where there is no choice. Where nothing is drawn, each foot has no
// attachment or a choice. Returns at once where all edges are drawn.
pub(crate) fn settle(alloc: Global, g: &Graph, board: &mut Board) -> Result<Tried, AllocError>
    requires { IsSketch g.now board.old.drawn.items board.old.on.items board.old.next.items board.old.label.items }
    ensures sketch { IfOk result (λ _. IsSketch g.now board.new.drawn.items board.new.on.items board.new.next.items board.new.label.items) }
    ensures tried { IfOk result (IsTried g.now) }
    ensures more { IfOk result (IsMoreDrawn g.now board.old.drawn.items board.new.drawn.items) }
    ensures rest { IfOk result (λ tried. tried ≡ Passed → AreOpen g.now board.new.drawn.items board.new.on.items board.new.next.items) }
{
    if is_complete(&board.drawn) {
        return Ok(Tried::Passed);
    }
    g.keeps_limits();
    label_faces(g, &board.next, &mut board.label);
    let mut looks = Looks {
        attached: Vec::new(alloc),
        corners: Vec::new(alloc),
        path: Vec::new(alloc),
    };
    match next_step(alloc, g, board, &mut looks)? {
        Step::Never => Ok(Tried::NotPlanar),
        Step::Path(t, c, k) => {
            draw_path(g, board, c, t, &looks.path, k);
            Ok(Tried::Drawn)
        }
        Step::Rest => Ok(Tried::Passed),
    }
}
