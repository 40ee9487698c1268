// Components of the graph with the blocks and the lists on the board.
ghost use Rattle.std.specs.Prelude.{◌≡◌, ◌<◌, ◌&&◌, true, not, length, map, slice_index, slice_index_or, None, IfOk};
ghost use Rattle.multigraph.specs.Graph.{edge_count};
ghost use Rattle.multigraph.specs.Part.{Rises};
ghost use Rattle.blocks.specs.Blocks.{IsBlockStructure, block_at};
ghost use Rattle.whole_embed.specs.Component.{has_edge};
ghost use Rattle.spqr_session.specs.Setting.{IsSetting};
ghost use Rattle.spqr_session.specs.State.{lacks_certificate, is_planar_component, IsFamily};
ghost use Rattle.spqr_session.specs.Kept.{family_of};
ghost use Rattle.spqr_session.specs.Embedded.{view_entry};
ghost use Rattle.spqr_session.specs.Scene.{setting_on};
ghost use Rattle.spqr_session.specs.Board.{kept_now};
ghost use Rattle.spqr_session.specs.Components.{component_ladder};
ghost use Rattle.spqr_session.specs.Planned.{IsVerdict};
ghost use Rattle.spqr_session.specs.Wholes.{IsMemberOf, AreMembersOf, AreEntries, IsFirstComponent, IsPresentComponent, AreOrdersKept, set_if, AreSetTo};

use crate::board::Board;
use crate::code::Code;
use crate::embedded::EmbeddedBlock;
use crate::scene::Scene;
use skel_embed::Outcome;
use std::alloc::{AllocError, Global};
use whole_embed::{Cuts, Member, set};

// ---- which blocks are planar

// Whether a block is planar.
fn is_planar(block: &EmbeddedBlock) -> bool
    ensures { result ≡ lacks_certificate block.now.certificate }
{
    match block.outcome() {
        Outcome::Plane(_) => true,
        Outcome::Not(_) => false,
    }
}

// Whether an edge is in component c: its first end is.
fn is_edge_of(scene: &Scene, edge: u32, c: u32) -> bool
    requires edge { edge < edge_count scene.now.named.graph }
    requires structure { IsBlockStructure scene.now.named.graph scene.now.blocks }
    ensures { result ≡ has_edge scene.now.named.graph scene.now.blocks c edge }
{
    let (first, _) = scene.named.graph().ends(edge);
    scene.blocks.component_of(first) == c
}

// Whether block b is in component c: its least edge is.
fn is_block_of(scene: &Scene, b: u32, c: u32) -> bool
    requires structure { IsBlockStructure scene.now.named.graph scene.now.blocks }
    requires block { b < length scene.now.blocks.blocks }
    ensures { result ≡ has_edge scene.now.named.graph scene.now.blocks c
        (slice_index (block_at scene.now.blocks.blocks b) 0) }
{
    is_edge_of(scene, scene.blocks.edges(b)[0], c)
}

// Whether block b, which is this one, is in component c and not planar.
fn hinders(scene: &Scene, block: &EmbeddedBlock, b: u32, c: u32) -> bool
    requires structure { IsBlockStructure scene.now.named.graph scene.now.blocks }
    requires block { b < length scene.now.blocks.blocks }
    ensures { result ≡ (has_edge scene.now.named.graph scene.now.blocks c
        (slice_index (block_at scene.now.blocks.blocks b) 0) && not (lacks_certificate block.now.certificate)) }
{
    is_block_of(scene, b, c) && !is_planar(block)
}

/// Whether all blocks of component `c` are planar.
pub(crate) fn is_planar_component(scene: &Scene, blocks: &[EmbeddedBlock], c: u32) -> bool
    requires { IsSetting (setting_on scene.now blocks.now) }
    ensures { result ≡ is_planar_component (setting_on scene.now blocks.now) c }
{
    for b in 0..scene.blocks.block_count() {
        if hinders(scene, &blocks[b as usize], b, c) {
            return false;
        }
    }
    true
}

/// The code that applies to a command on component `c`: 5 or 14.
pub(crate) fn component_code(scene: &Scene, blocks: &[EmbeddedBlock], c: u32) -> Option<Code>
    requires { IsSetting (setting_on scene.now blocks.now) }
    ensures { IsVerdict (component_ladder (setting_on scene.now blocks.now) c) result }
{
    if c >= scene.blocks.component_count() {
        return Some(Code::NoComponent);
    }
    if is_planar_component(scene, blocks, c) {
        return None;
    }
    Some(Code::NonPlanar)
}

// ---- the blocks and the lists

// A block as calls on components have it: a copy.
fn member_of(alloc: Global, block: &EmbeddedBlock) -> Result<Member, AllocError>
    ensures { IfOk result (IsMemberOf block.now) }
{
    let part = block.part().copy(alloc)?;
    match block.outcome() {
        Outcome::Plane(plane) => {
            let own = plane.copy(alloc)?;
            Ok(Member {
                part,
                plane: Some(own),
            })
        }
        Outcome::Not(_) => Ok(Member { part, plane: None }),
    }
}

/// The blocks of the graph as calls on components have them: copies.
pub(crate) fn members(alloc: Global, blocks: &[EmbeddedBlock]) -> Result<Vec<Member>, AllocError>
    ensures { IfOk result (λ all. AreMembersOf blocks.now (length blocks.now) all.items) }
{
    let mut all = Vec::with_capacity(alloc, blocks.len())?;
    for i in 0..blocks.len() {
        all.push(member_of(alloc, &blocks[i])?)?;
    }
    Ok(all)
}

// Component c, whose blocks are planar, with the first arrangement at each cut vertex.
fn first_cuts(
    alloc: Global,
    scene: &Scene,
    blocks: &[EmbeddedBlock],
    all: &[Member],
    c: u32,
) -> Result<Cuts, AllocError>
    requires setting { IsSetting (setting_on scene.now blocks.now) }
    requires entries { AreEntries (setting_on scene.now blocks.now) (map view_entry blocks.now) }
    requires members { AreMembersOf blocks.now (length blocks.now) all.now }
    requires component { c < scene.now.blocks.component_count }
    requires planar { is_planar_component (setting_on scene.now blocks.now) c ≡ true }
    ensures { IfOk result (λ cuts. IsFirstComponent (setting_on scene.now blocks.now)
        (map view_entry blocks.now) c cuts all.now) }
{
    let cuts = Cuts::first(alloc, scene.named.graph(), &scene.blocks, c, all)?;
    cuts.keeps();
    Ok(cuts)
}

/// Component `c`, whose blocks are planar, with the first arrangement at each cut vertex for the blocks as they are, and copies of all
/// blocks.
pub(crate) fn first_component(
    alloc: Global,
    scene: &Scene,
    blocks: &[EmbeddedBlock],
    c: u32,
) -> Result<(Cuts, Vec<Member>), AllocError>
    requires setting { IsSetting (setting_on scene.now blocks.now) }
    requires entries { AreEntries (setting_on scene.now blocks.now) (map view_entry blocks.now) }
    requires component { c < scene.now.blocks.component_count }
    requires planar { is_planar_component (setting_on scene.now blocks.now) c ≡ true }
    ensures { IfOk result (λ found. IsFirstComponent (setting_on scene.now blocks.now)
        (map view_entry blocks.now) c found.0 found.1.items) }
{
    let all = members(alloc, blocks)?;
    let cuts = first_cuts(alloc, scene, blocks, &all, c)?;
    Ok((cuts, all))
}

// Sets the list that is kept on the board at the cut vertex at place i, if there is one.
fn set_kept_at(cuts: &mut Cuts, board: &Board, i: usize)
    requires within { i < length cuts.old.component.cuts }
    requires orders { AreOrdersKept cuts.old.component board.now.lists }
    ensures { cuts.new ≡ set_if cuts.old (slice_index cuts.old.component.cuts i)
        (slice_index_or board.now.lists (slice_index cuts.old.component.cuts i) None) }
{
    let v = cuts.frame().cuts()[i];
    match board.list_at(v) {
        Some(list) => set(cuts, v, list),
        None => {}
    }
}

// Sets the lists that are kept on the board at the cut vertices of a component.
fn set_kept(cuts: &mut Cuts, board: &Board)
    requires orders { AreOrdersKept cuts.old.component board.now.lists }
    requires increasing { Rises cuts.old.component.cuts }
    ensures set { AreSetTo (length cuts.old.component.cuts) board.now.lists cuts.old cuts.new }
    ensures each { length cuts.old.lists ≡ length cuts.old.component.cuts }
{
    cuts.keeps();
    for i in 0..cuts.count() {
        set_kept_at(cuts, board, i);
    }
}

/// Component `c`, whose blocks are planar, with its present arrangements, and copies of all blocks.
pub(crate) fn present_component(
    alloc: Global,
    scene: &Scene,
    board: &Board,
    c: u32,
) -> Result<(Cuts, Vec<Member>), AllocError>
    requires setting { IsSetting (setting_on scene.now board.now.views) }
    requires family { IsFamily (setting_on scene.now board.now.views)
        (family_of (setting_on scene.now board.now.views) (kept_now board.now)) }
    requires component { c < scene.now.blocks.component_count }
    requires planar { is_planar_component (setting_on scene.now board.now.views) c ≡ true }
    ensures { IfOk result (λ found. IsPresentComponent (setting_on scene.now board.now.views)
        (kept_now board.now) c found.0 found.1.items) }
{
    let mut found = first_component(alloc, scene, board.blocks(), c)?;
    set_kept(&mut found.0, board);
    Ok(found)
}
