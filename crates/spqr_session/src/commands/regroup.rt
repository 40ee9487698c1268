// `regroup V EDGES`: another arrangement at a cut vertex.
ghost use Rattle.std.specs.Prelude.{◌≡◌, ◌↔◌, ◌<◌, true, false, [], length, map, slice_index_or, IfOk, OnErr, MatchOption, IsTrue, IsPermutation};
ghost use Rattle.permutations.specs.Members.{is_member, place_of};
ghost use Rattle.multigraph.specs.Graph.{incident_edges};
ghost use Rattle.multigraph.specs.Part.{Rises};
ghost use Rattle.spqr_session.specs.Setting.{IsSetting};
ghost use Rattle.spqr_session.specs.State.{State, is_planar_component};
ghost use Rattle.spqr_session.specs.Embedded.{view_entry};
ghost use Rattle.spqr_session.specs.Scene.{setting_on};
ghost use Rattle.spqr_session.specs.Board.{state_on, IsCarried, BelongTogether};
ghost use Rattle.whole_embed.specs.Component.{IsComponentInPlane};
ghost use Rattle.whole_embed.specs.Cuts.{blocks_in, HavePlanes};
ghost use Rattle.spqr_session.specs.Wholes.{AreEntries, IsRegroupedIn, IsElsewhere, IsRegrouping, IsRegrouped};
ghost use Rattle.spqr_session.specs.Commands.Regroup.{component_number, RegroupStep};

use crate::board::Board;
use crate::code::Code;
use crate::embedded::EmbeddedBlock;
use crate::scene::Scene;
use crate::wholes::{first_component, is_planar_component};
use multigraph::{Graph, Numbers};
use spqr_script::ok_line;
use std::alloc::{AllocError, Global};
use whole_embed::{Cuts, Member, RegroupFault, regroup};

/// What `regroup` is to do: nothing is changed yet.
#[derive(Debug, Drop)]
pub enum Regrouping {
    /// It is refused.
    Refused(Code),
    /// The vertex is to have the edges in this order.
    Arranged(Numbers),
}

// Whether the list is an ordering of increasing edges: a copy is sorted and compared.
fn is_ordering(alloc: Global, at: &[u32], edges: &[u32]) -> Result<bool, AllocError>
    requires { Rises at.now }
    ensures { IfOk result (λ same. IsTrue same ↔ IsPermutation at.now edges.now) }
{
    let mut sorted = Vec::from_slice(alloc, edges)?;
    sorted.sort_unstable();
    Ok(sorted.as_slice() == at)
}

// The code that applies to a list for a vertex that is no cut vertex, of a component whose blocks are planar: 6 or 15.
fn code_elsewhere(alloc: Global, graph: &Graph, v: u32, edges: &[u32]) -> Result<Code, AllocError>
    requires { v < graph.now.vertex_count }
    ensures { IfOk result (IsElsewhere graph.now v edges.now) }
{
    let same = is_ordering(alloc, graph.incident(v), edges)?;
    if same {
        return Ok(Code::NoCut);
    }
    Ok(Code::BadRotation(v))
}

// Whether the vertex is a cut vertex.
fn is_cut(scene: &Scene, v: u32) -> bool
    requires { Rises scene.now.blocks.cut_vertices }
    ensures { result ≡ is_member v scene.now.blocks.cut_vertices }
{
    match scene.blocks.cut_vertices().binary_search(&v) {
        Ok(_) => true,
        Err(_) => false,
    }
}

// The place of a cut vertex; none where it is not one of the component.
fn find_cut(cuts: &Cuts, v: u32) -> Option<usize>
    ensures { MatchOption result (is_member v cuts.now.component.cuts ≡ false)
        (λ i. (is_member v cuts.now.component.cuts ≡ true) × (i ≡ place_of cuts.now.component.cuts v)) }
{
    match cuts.frame().cuts().binary_search(&v) {
        Ok(i) => Some(i),
        Err(_) => None,
    }
}

// The place of cut vertex v.
fn place_in(cuts: &Cuts, v: u32) -> usize
    requires { is_member v cuts.now.component.cuts ≡ true }
    ensures is { result ≡ place_of cuts.now.component.cuts v }
    ensures within { result < length cuts.now.component.cuts }
{
    find_cut(cuts, v).unwrap()
}

// The list at cut vertex v.
fn list_in(alloc: Global, cuts: &Cuts, v: u32) -> Result<Numbers, AllocError>
    requires { is_member v cuts.now.component.cuts ≡ true }
    ensures { IfOk result (λ list. list
        ≡ slice_index_or cuts.now.lists (place_of cuts.now.component.cuts v) []) }
{
    let i = place_in(cuts, v);
    let list = Vec::from_slice(alloc, cuts.list(i))?;
    Ok(Numbers::of(list))
}

// The list that a component gets at cut vertex v, or why it is none.
fn arranged_at(
    alloc: Global,
    cuts: &mut Cuts,
    all: &[Member],
    v: u32,
    edges: &[u32],
) -> Result<Regrouping, AllocError>
    requires vertex { is_member v cuts.old.component.cuts ≡ true }
    requires component { IsComponentInPlane cuts.old.component (blocks_in all.now) }
    requires planes { HavePlanes cuts.old.component all.now }
    ensures { IfOk result (IsRegroupedIn cuts.old.component (blocks_in all.now) v edges.now) }
{
    cuts.keeps();
    match regroup(alloc, cuts, all, v, edges) {
        Ok(()) => {
            let list = list_in(alloc, cuts, v)?;
            Ok(Regrouping::Arranged(list))
        }
        Err(fault) => match fault {
            RegroupFault::BadRotation(w) => Ok(Regrouping::Refused(Code::BadRotation(w))),
            RegroupFault::BlockOrder(b) => Ok(Regrouping::Refused(Code::BlockOrder(b))),
            RegroupFault::Cross(b, d) => Ok(Regrouping::Refused(Code::Cross(b, d))),
            RegroupFault::Memory => Err(AllocError),
        },
    }
}

// What is to be done with a list for a cut vertex of component c, whose blocks are planar.
fn plan_at(
    alloc: Global,
    scene: &Scene,
    blocks: &[EmbeddedBlock],
    c: u32,
    v: u32,
    edges: &[u32],
) -> Result<Regrouping, AllocError>
    requires setting { IsSetting (setting_on scene.now blocks.now) }
    requires entries { AreEntries (setting_on scene.now blocks.now) (map view_entry blocks.now) }
    requires cut { is_member v scene.now.blocks.cut_vertices ≡ true }
    requires component { c ≡ component_number (setting_on scene.now blocks.now) v }
    requires planar { is_planar_component (setting_on scene.now blocks.now) c ≡ true }
    ensures { (s : State) → s.present.entries ≡ map view_entry blocks.now
        → IfOk result (IsRegrouping (setting_on scene.now blocks.now) v edges.now s) }
{
    let mut found = first_component(alloc, scene, blocks, c)?;
    arranged_at(alloc, &mut found.0, &found.1, v, edges)
}

// What is to be done with a list for a vertex.
fn plan_regroup(
    alloc: Global,
    scene: &Scene,
    blocks: &[EmbeddedBlock],
    v: u32,
    edges: &[u32],
) -> Result<Regrouping, AllocError>
    requires setting { IsSetting (setting_on scene.now blocks.now) }
    requires entries { AreEntries (setting_on scene.now blocks.now) (map view_entry blocks.now) }
    ensures { (s : State) → s.present.entries ≡ map view_entry blocks.now
        → IfOk result (IsRegrouping (setting_on scene.now blocks.now) v edges.now s) }
{
    let graph = scene.named.graph();
    if v >= graph.vertex_count() {
        return Ok(Regrouping::Refused(Code::NoCut));
    }
    let c = scene.blocks.component_of(v);
    if !is_planar_component(scene, blocks, c) {
        return Ok(Regrouping::Refused(Code::NonPlanar));
    }
    if is_cut(scene, v) {
        return plan_at(alloc, scene, blocks, c, v, edges);
    }
    let code = code_elsewhere(alloc, graph, v, edges)?;
    Ok(Regrouping::Refused(code))
}

// Carries out what is to be done.
fn settle(
    alloc: Global,
    board: &mut Board,
    v: u32,
    planned: Regrouping,
) -> Result<Vec<u8>, AllocError>
    ensures done { IfOk result (λ text. IsRegrouped v planned board.old text.items board.new) }
    ensures setting { IsCarried board.old.views board.new.views }
    ensures memory { OnErr result (board.new ≡ board.old) }
{
    match planned {
        Regrouping::Refused(code) => code.line(alloc),
        Regrouping::Arranged(list) => {
            let text = ok_line(alloc)?;
            board.arrange(alloc, v, list)?;
            Ok(text)
        }
    }
}

/// Carries out `regroup`: vertex `v` gets the edges in this cyclic order, or code 5, 6, 15, 16 or 17. If memory runs out, the board stays
/// as it was.
pub(crate) fn carry_regroup(
    alloc: Global,
    scene: &Scene,
    board: &mut Board,
    v: u32,
    edges: &[u32],
) -> Result<Vec<u8>, AllocError>
    requires { BelongTogether scene.now board.old }
    ensures step { IfOk result (λ text. RegroupStep (setting_on scene.now board.old.views) v edges.now
        (state_on scene.now board.old.views board.old) text.items
        (state_on scene.now board.old.views board.new)) }
    ensures setting { IsCarried board.old.views board.new.views }
    ensures memory { OnErr result (board.new ≡ board.old) }
{
    board.keeps_places();
    let planned = plan_regroup(alloc, scene, board.blocks(), v, edges)?;
    settle(alloc, board, v, planned)
}
