// The blocks of a session with the history of their changes.
ghost use Rattle.std.specs.Prelude.{◌≡◌, ◌<◌, ◌+◌, ℕ, List, Option, false, not, [], length, map, replicate, slice_index_or, None, Some, IfOk, OnErr, MatchOption, All};
ghost use Rattle.rotations.specs.Runs.{mirror_image};
ghost use Rattle.skeletons.specs.Moves.{moves_between};
ghost use Rattle.skel_embed.specs.Values.{as_moves};
ghost use Rattle.undo_log.specs.History.{IsStepAt};
ghost use Rattle.undo_log.specs.declared.step.Step.{Step};
ghost use Rattle.spqr_session.specs.State.{Embedding};
ghost use Rattle.spqr_session.specs.Kept.{Kept};
ghost use Rattle.spqr_session.specs.Embedded.{BlockView, view_tree, view_entry, view_at, IsInPlane};
ghost use Rattle.spqr_session.specs.AtOnce.{IsMadeOf, IsMadeForth, IsMadeBack};
ghost use Rattle.spqr_session.specs.Moved.{all_moved};
ghost use Rattle.spqr_session.specs.History.{as_pairs, IsMoveOf, IsStepOf, pairs_moved, block_mirrored, node_locked, entries_redone, entries_undone, lists_before, lists_after};
ghost use Rattle.spqr_session.specs.Commands.History.{is_none};
ghost use Rattle.spqr_session.specs.Commands.Lock.{with_lock};
ghost use Rattle.spqr_session.specs.Board.{HavePlaces, StandsAt, CanReplace, CanMake, AreMade, IsMirroredAt, IsChangedTo, GoesTo, LeadsTo, IsCarried, Clears, kept_with_entry, kept_changed, IsUndone, IsRedone};
ghost use Rattle.spqr_session.specs.Wholes.{kept_arranged};

use crate::at_once::{MadeBlock, made_back, made_forth};
use crate::embedded::EmbeddedBlock;
use crate::kept::{KeptLists, lists_after, lists_before};
use crate::marks::MarkedVertices;
use embed_convert::moves;
use multigraph::Numbers;
use skel_embed::{MoveList, Outcome, PlaneBlock};
use std::alloc::{AllocError, Global};
use std::marker::Model;
use undo_log::{Arrangement, BlockMove, BlockMoves, CutChanges, Step, UndoLog};

/// The blocks of a session with the lists at its cut vertices, and the changes made since its start. Contracts see the blocks, the lists, and
/// what was kept before and after the present, of each the nearest first. A change drops what is after it; running out of memory leaves
/// everything as it was.
#[derive(Drop)]
pub struct Board {
    blocks: Vec<EmbeddedBlock>,
    lists: KeptLists,
    // Marks at the vertices at which a list may be kept.
    marked: MarkedVertices,
    log: UndoLog,
}

impl Model for Board {
    ghost use Rattle.spqr_session.specs.Board.{BoardView, board_view};
    ghost use Rattle.spqr_session.specs.Marked.{IsMarkedBoard};

    ghost Value = { BoardView };

    ghost view = { λ b. board_view b.blocks.items b.lists b.log };

    ghost invariant = { λ b. IsMarkedBoard b.blocks.items b.lists b.log b.marked };
}

impl Board {
    /// The blocks of a graph with `n` vertices, each cut vertex with its first arrangement, and no change before or after.
    pub fn of(alloc: Global, n: u32, blocks: Vec<EmbeddedBlock>) -> Result<Board, AllocError>
        requires { HavePlaces (map view_tree blocks.items) n }
        ensures { IfOk result (λ board. board ≡ record { views = blocks.items; lists = replicate n None; earlier = []; later = [] }) }
    {
        let lists = KeptLists::none(alloc, n)?;
        let marked = MarkedVertices::none(alloc);
        let log = UndoLog::new(alloc);
        Ok(Board {
            blocks,
            lists,
            marked,
            log,
        })
    }

    /// The blocks.
    pub fn blocks(&self) -> &[EmbeddedBlock]
        ensures { result.now ≡ self.now.views }
    {
        &self.blocks
    }

    /// A list may be kept at each vertex of a block. For proofs alone: does nothing.
    pub fn keeps_places(&self)
        ensures { HavePlaces (map view_tree self.now.views) (length self.now.lists) }
    {
        let _ = self.blocks.len();
    }

    /// The list that is kept at vertex `v`.
    pub fn list_at(&self, v: u32) -> Option<&[u32]>
        ensures { MatchOption result (slice_index_or self.now.lists v None ≡ None)
            (λ list. slice_index_or self.now.lists v None ≡ Some list.now) }
    {
        self.lists.at(v)
    }

    /// The lists that are kept.
    pub fn kept(&self) -> &KeptLists
        ensures { result.now ≡ self.now.lists }
    {
        &self.lists
    }

    // The changes that remove the lists at the vertices of block b.
    fn cleared(&self, alloc: Global, b: u32) -> Result<CutChanges, AllocError>
        requires { b < length self.now.views }
        ensures { IfOk result (Clears (view_at self.now.views b).tree.part.vertices self.now.lists) }
    {
        self.lists.cleared(alloc, self.marked.in_block(b))
    }

    /// Whether something is earlier.
    pub fn can_undo(&self) -> bool
        ensures { result ≡ not (is_none self.now.earlier) }
    {
        self.log.can_undo()
    }

    /// Whether something is later.
    pub fn can_redo(&self) -> bool
        ensures { result ≡ not (is_none self.now.later) }
    {
        self.log.can_redo()
    }

    /// Makes the changes of a step, and notes it. If memory runs out, everything is as before.
    pub fn carry(&mut self, alloc: Global, step: Step) -> Result<(), AllocError>
        requires { (kept : Kept) × LeadsTo self.old.views self.old.lists kept step }
        ensures done { (kept : Kept) → LeadsTo self.old.views self.old.lists kept step
            → IfOk result (λ _. GoesTo self.old kept self.new) }
        ensures memory { OnErr result (self.new ≡ self.old) }
    {
        let made = made_forth(alloc, &self.blocks, &step)?;
        let lists = lists_after(alloc, &step)?;
        self.log.reserve()?;
        self.marked
            .prepare(alloc, &self.blocks, &self.lists, &lists)?;
        carry_forth(&mut self.blocks, &step, made);
        self.lists.set(lists);
        self.log.note(step);
        Ok(())
    }

    /// Puts a block in the place of block `b`: it has the same graph, tree and locks, and another rotation system, or the same.
    /// Its cut vertices get their first arrangements. If memory runs out it is dropped, and everything is as before.
    pub fn put(&mut self, alloc: Global, b: u32, plane: PlaneBlock) -> Result<(), AllocError>
        requires { (e : Embedding) × CanReplace self.old.views b e plane }
        ensures done { IfOk result (λ _. IsChangedTo self.old b
            (record { rotation = plane.rotation; locks = plane.locks }) self.new) }
        ensures memory { OnErr result (self.new ≡ self.old) }
    {
        plane.belongs();
        let cuts = self.cleared(alloc, b)?;
        let step = step_to(alloc, &self.blocks, b, &plane, cuts)?;
        let lists = lists_after(alloc, &step)?;
        self.log.reserve()?;
        self.marked
            .prepare(alloc, &self.blocks, &self.lists, &lists)?;
        self.log.note(step);
        self.lists.set(lists);
        self.blocks[b as usize].replace(plane);
        Ok(())
    }

    /// Makes moves of block `b`, one after the other, no two of one node. Its cut vertices get their first arrangements. If memory runs out,
    /// everything is as before.
    pub fn make(&mut self, alloc: Global, b: u32, forth: MoveList) -> Result<(), AllocError>
        requires { CanMake self.old.views b (as_moves forth) }
        ensures done { IfOk result (λ _. AreMade self.old b (as_moves forth) self.new) }
        ensures memory { OnErr result (self.new ≡ self.old) }
    {
        let cuts = self.cleared(alloc, b)?;
        let step = step_of(alloc, &self.blocks, b, forth, cuts)?;
        self.carry(alloc, step)
    }

    /// Reverses every rotation of block `b`. Its cut vertices get their first arrangements. If memory runs out, everything is as before.
    pub fn mirror(&mut self, alloc: Global, b: u32) -> Result<(), AllocError>
        requires { (e : Embedding) × StandsAt self.old.views b e }
        ensures done { IfOk result (λ _. IsMirroredAt self.old b self.new) }
        ensures memory { OnErr result (self.new ≡ self.old) }
    {
        let cuts = self.cleared(alloc, b)?;
        let step = mirror_step(&self.blocks, b, cuts);
        self.carry(alloc, step)
    }

    /// Locks node `k` of block `b`, or takes its lock away, also where it was so already. If memory runs out, everything is as before.
    pub fn set_lock(&mut self, alloc: Global, b: u32, k: u32, on: bool) -> Result<(), AllocError>
        requires stands { (e : Embedding) × StandsAt self.old.views b e }
        requires node { k < length (view_at self.old.views b).tree.nodes }
        ensures done { (e : Embedding) → StandsAt self.old.views b e → IfOk result
            (λ _. GoesTo self.old (kept_with_entry self.old.views self.old.lists b (with_lock k on e)) self.new) }
        ensures memory { OnErr result (self.new ≡ self.old) }
    {
        let step = lock_step(&self.blocks, b, k, on);
        self.carry(alloc, step)
    }

    /// Keeps a list at vertex `v`. If memory runs out, everything is as before.
    pub fn arrange(&mut self, alloc: Global, v: u32, list: Numbers) -> Result<(), AllocError>
        ensures done { IfOk result (λ _. GoesTo self.old
            (kept_arranged self.old.views self.old.lists v list) self.new) }
        ensures memory { OnErr result (self.new ≡ self.old) }
    {
        let step = arranging(alloc, &self.lists, v, list)?;
        self.carry(alloc, step)
    }

    /// Goes back to what was nearest earlier. If memory runs out, everything is as before.
    pub fn undo(&mut self, alloc: Global) -> Result<(), AllocError>
        requires { is_none self.old.earlier ≡ false }
        ensures undone { IfOk result (λ _. IsUndone self.old self.new) }
        ensures carried { IsCarried self.old.views self.new.views }
        ensures memory { OnErr result (self.new ≡ self.old) }
    {
        let made = earlier_made(alloc, &self.blocks, &self.log)?;
        let lists = earlier_lists(alloc, &self.log)?;
        self.marked
            .prepare(alloc, &self.blocks, &self.lists, &lists)?;
        if let Ok(step) = self.log.undo() {
            carry_back(&mut self.blocks, step, made);
            self.lists.set(lists);
        }
        Ok(())
    }

    /// Goes to what was nearest later. If memory runs out, everything is as before.
    pub fn redo(&mut self, alloc: Global) -> Result<(), AllocError>
        requires { is_none self.old.later ≡ false }
        ensures redone { IfOk result (λ _. IsRedone self.old self.new) }
        ensures carried { IsCarried self.old.views self.new.views }
        ensures memory { OnErr result (self.new ≡ self.old) }
    {
        let made = later_made(alloc, &self.blocks, &self.log)?;
        let lists = later_lists(alloc, &self.log)?;
        self.marked
            .prepare(alloc, &self.blocks, &self.lists, &lists)?;
        if let Ok(step) = self.log.redo() {
            carry_forth(&mut self.blocks, step, made);
            self.lists.set(lists);
        }
        Ok(())
    }
}

// ---- steps

// Moves of block b; each is moved, and not copied.
fn in_block(alloc: Global, b: u32, moves: MoveList) -> Result<BlockMoves, AllocError>
    ensures { IfOk result (λ pairs. as_pairs pairs ≡ map (λ move. (b, move)) (as_moves moves)) }
{
    let moves = moves.into_vec();
    let mut pairs = Vec::with_capacity(alloc, moves.len())?;
    for one in moves {
        pairs.push(BlockMove { block: b, one })?;
    }
    Ok(BlockMoves::of(pairs))
}

// The moves from block b in the plane to another of the same graph and tree.
fn moves_to(alloc: Global, b: u32, p: &PlaneBlock, q: &PlaneBlock) -> Result<BlockMoves, AllocError>
    requires graph { q.now.graph ≡ p.now.graph }
    requires tree { q.now.tree ≡ p.now.tree }
    ensures { IfOk result (λ pairs. as_pairs pairs
        ≡ map (λ move. (b, move)) (moves_between p.now.tree p.now.rotation q.now.rotation)) }
{
    in_block(alloc, b, MoveList::of(moves(alloc, p, q)?))
}

// The step from block b to a block that takes its place, with these changes at its cut vertices.
fn step_to(
    alloc: Global,
    blocks: &[EmbeddedBlock],
    b: u32,
    plane: &PlaneBlock,
    cuts: CutChanges,
) -> Result<Step, AllocError>
    requires { (e : Embedding) × CanReplace blocks.now b e plane.now }
    ensures { (lists : List (Option (List ℕ)))
        → Clears (view_at blocks.now b).tree.part.vertices lists cuts
        → IfOk result (LeadsTo blocks.now lists (kept_changed blocks.now lists b (record {
          rotation = plane.now.rotation;
          locks = plane.now.locks;
        }))) }
{
    plane.belongs();
    let block = &blocks[b as usize];
    match block.outcome() {
        Outcome::Plane(present) => Ok(Step::Moves {
            forth: moves_to(alloc, b, present, plane)?,
            back: moves_to(alloc, b, plane, present)?,
            cuts,
        }),
        Outcome::Not(_) => unreachable!(),
    }
}

// The step that makes moves of block b, with these changes at its cut vertices.
fn step_of(
    alloc: Global,
    blocks: &[EmbeddedBlock],
    b: u32,
    forth: MoveList,
    cuts: CutChanges,
) -> Result<Step, AllocError>
    requires { CanMake blocks.now b (as_moves forth) }
    ensures leads { (e : Embedding) (lists : List (Option (List ℕ))) → StandsAt blocks.now b e
        → Clears (view_at blocks.now b).tree.part.vertices lists cuts
        → IfOk result (LeadsTo blocks.now lists (kept_changed blocks.now lists b (record {
          rotation = all_moved (view_at blocks.now b).tree.nodes (as_moves forth) e.rotation;
          locks = e.locks;
        }))) }
    ensures plane { IsInPlane (view_at blocks.now b) }
{
    let block = &blocks[b as usize];
    block.belongs();
    let back = block.back(alloc, &forth)?;
    Ok(Step::Moves {
        forth: in_block(alloc, b, forth)?,
        back: in_block(alloc, b, back)?,
        cuts,
    })
}

// The step that reverses every rotation of block b, with these changes at its cut vertices.
fn mirror_step(blocks: &[EmbeddedBlock], b: u32, cuts: CutChanges) -> Step
    requires { (e : Embedding) × StandsAt blocks.now b e }
    ensures leads { (e : Embedding) (lists : List (Option (List ℕ))) → StandsAt blocks.now b e
        → Clears (view_at blocks.now b).tree.part.vertices lists cuts
        → LeadsTo blocks.now lists (kept_changed blocks.now lists b (record {
          rotation = mirror_image e.rotation;
          locks = e.locks;
        })) result }
    ensures plane { IsInPlane (view_at blocks.now b) }
{
    blocks[b as usize].belongs();
    Step::Mirror { block: b, cuts }
}

// The step that locks node k of block b, or takes its lock away.
fn lock_step(blocks: &[EmbeddedBlock], b: u32, k: u32, on: bool) -> Step
    requires block { b < length blocks.now }
    requires node { k < length (view_at blocks.now b).tree.nodes }
    ensures { (e : Embedding) (lists : List (Option (List ℕ))) → StandsAt blocks.now b e
        → LeadsTo blocks.now lists (kept_with_entry blocks.now lists b (with_lock k on e)) result }
{
    Step::Lock {
        block: b,
        node: k,
        before: blocks[b as usize].locked(k),
        after: on,
    }
}

// No moves.
fn no_moves(alloc: Global) -> BlockMoves
    ensures { result ≡ [] }
{
    BlockMoves::of(Vec::new(alloc))
}

// The step that keeps a list at vertex v.
fn arranging(alloc: Global, lists: &KeptLists, v: u32, list: Numbers) -> Result<Step, AllocError>
    ensures { (views : List BlockView) → IfOk result
        (LeadsTo views lists.now (kept_arranged views lists.now v list)) }
{
    let cuts = lists.changed(alloc, v, list)?;
    let forth = no_moves(alloc);
    let back = no_moves(alloc);
    Ok(Step::Moves { forth, back, cuts })
}

// ---- steps carried out

// The lists that the step before the cursor sets when it is taken back.
fn earlier_lists(alloc: Global, log: &UndoLog) -> Result<Vec<(u32, Arrangement)>, AllocError>
    ensures { (i : ℕ) (s : Step) → i + 1 ≡ log.now.cursor → IsStepAt log.now.steps i s
        → IfOk result (λ lists. lists.items ≡ lists_before s) }
{
    match log.step_before() {
        Some(step) => lists_before(alloc, step),
        None => Ok(Vec::new(alloc)),
    }
}

// The lists that the step after the cursor sets.
fn later_lists(alloc: Global, log: &UndoLog) -> Result<Vec<(u32, Arrangement)>, AllocError>
    ensures { (s : Step) → IsStepAt log.now.steps log.now.cursor s
        → IfOk result (λ lists. lists.items ≡ lists_after s) }
{
    match log.step_after() {
        Some(step) => lists_after(alloc, step),
        None => Ok(Vec::new(alloc)),
    }
}

// What the step before the cursor makes of a block when it is taken back, where its moves are made in one pass.
fn earlier_made(
    alloc: Global,
    blocks: &[EmbeddedBlock],
    log: &UndoLog,
) -> Result<Option<MadeBlock>, AllocError>
    requires { All (IsStepOf (map view_tree blocks.now)) log.now.steps }
    ensures { (i : ℕ) (s : Step) → i + 1 ≡ log.now.cursor → IsStepAt log.now.steps i s
        → IfOk result (IsMadeBack blocks.now s) }
{
    match log.step_before() {
        Some(step) => made_back(alloc, blocks, step),
        None => Ok(None),
    }
}

// What the step after the cursor makes of a block, where its moves are made in one pass.
fn later_made(
    alloc: Global,
    blocks: &[EmbeddedBlock],
    log: &UndoLog,
) -> Result<Option<MadeBlock>, AllocError>
    requires { All (IsStepOf (map view_tree blocks.now)) log.now.steps }
    ensures { (s : Step) → IsStepAt log.now.steps log.now.cursor s
        → IfOk result (IsMadeForth blocks.now s) }
{
    match log.step_after() {
        Some(step) => made_forth(alloc, blocks, step),
        None => Ok(None),
    }
}

// Makes moves of blocks, one after the other.
fn move_blocks(blocks: &mut Vec<EmbeddedBlock>, moves: &BlockMoves)
    requires { All (IsMoveOf (map view_tree blocks.old.items)) (as_pairs moves.now) }
    ensures carried { IsCarried blocks.old.items blocks.new.items }
    ensures entries { map view_entry blocks.new.items ≡ pairs_moved (map view_tree blocks.old.items)
        (as_pairs moves.now) (map view_entry blocks.old.items) }
{
    for pair in moves.as_slice() {
        blocks[pair.block as usize].carry(&pair.one);
    }
}

// Makes moves of blocks: puts the block in its place that was made of them, or makes one after the other.
fn make_moves(blocks: &mut Vec<EmbeddedBlock>, moves: &BlockMoves, made: Option<MadeBlock>)
    requires moves { All (IsMoveOf (map view_tree blocks.old.items)) (as_pairs moves.now) }
    requires made { IsMadeOf blocks.old.items (as_pairs moves.now) made }
    ensures carried { IsCarried blocks.old.items blocks.new.items }
    ensures entries { map view_entry blocks.new.items ≡ pairs_moved (map view_tree blocks.old.items)
        (as_pairs moves.now) (map view_entry blocks.old.items) }
{
    match made {
        Some(one) => blocks[one.block as usize].replace(one.plane),
        None => move_blocks(blocks, moves),
    }
}

// Reverses every rotation of block b.
fn mirror_block(blocks: &mut Vec<EmbeddedBlock>, b: u32)
    requires { b < length blocks.old.items }
    ensures carried { IsCarried blocks.old.items blocks.new.items }
    ensures entries { map view_entry blocks.new.items ≡ block_mirrored b
        (map view_entry blocks.old.items) }
{
    blocks[b as usize].mirror();
}

// Locks node k of block b, or takes its lock away.
fn lock_block(blocks: &mut Vec<EmbeddedBlock>, b: u32, k: u32, on: bool)
    requires block { b < length blocks.old.items }
    requires node { k < length (view_at blocks.old.items b).tree.nodes }
    ensures carried { IsCarried blocks.old.items blocks.new.items }
    ensures entries { map view_entry blocks.new.items ≡ node_locked b k on
        (map view_entry blocks.old.items) }
{
    blocks[b as usize].set_lock(k, on);
}

// Takes a step of the blocks back.
fn carry_back(blocks: &mut Vec<EmbeddedBlock>, step: &Step, made: Option<MadeBlock>)
    requires step { IsStepOf (map view_tree blocks.old.items) step.now }
    requires made { IsMadeBack blocks.old.items step.now made }
    ensures carried { IsCarried blocks.old.items blocks.new.items }
    ensures entries { map view_entry blocks.new.items ≡ entries_undone
        (map view_tree blocks.old.items) step.now (map view_entry blocks.old.items) }
{
    match step {
        Step::Moves { back, .. } => make_moves(blocks, back, made),
        Step::Mirror { block, .. } => mirror_block(blocks, *block),
        Step::Lock {
            block,
            node,
            before,
            after: _,
        } => lock_block(blocks, *block, *node, *before),
    }
}

// Makes the changes of a step to the blocks.
fn carry_forth(blocks: &mut Vec<EmbeddedBlock>, step: &Step, made: Option<MadeBlock>)
    requires step { IsStepOf (map view_tree blocks.old.items) step.now }
    requires made { IsMadeForth blocks.old.items step.now made }
    ensures carried { IsCarried blocks.old.items blocks.new.items }
    ensures entries { map view_entry blocks.new.items ≡ entries_redone
        (map view_tree blocks.old.items) step.now (map view_entry blocks.old.items) }
{
    match step {
        Step::Moves { forth, .. } => make_moves(blocks, forth, made),
        Step::Mirror { block, .. } => mirror_block(blocks, *block),
        Step::Lock {
            block,
            node,
            before: _,
            after,
        } => lock_block(blocks, *block, *node, *after),
    }
}
