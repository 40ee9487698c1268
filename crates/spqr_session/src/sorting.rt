// The lists of a start, for each block those of its vertices.
//
// One pass over the vertices: the edges of a vertex's list are first given to their blocks, where they wait until the list ends, and
// then moved to the lists of these blocks, as an entry of the vertex. So the time is linear in the lists, however many blocks meet at
// a vertex.
ghost use Rattle.std.specs.Prelude.{◌≡◌, ◌<◌, ◌∷◌, ◌++◌, [], ℕ, List, true, length, replicate, slice_index_or, slice_set, Some, IfOk, OnOk, All};
ghost use Rattle.multigraph.specs.Graph.{edge_count};
ghost use Rattle.rotations.specs.Entries.{IsAbove};
ghost use Rattle.blocks.specs.Blocks.{IsBlockStructure};
ghost use Rattle.spqr_session.specs.Starting.{AreStartLists};
ghost use Rattle.spqr_session.specs.Sorting.{AreEntered, AreWaiting, HasBlocks, IsBlockNoted, IsKnown, entry_of, has_some};

use blocks::Blocks;
use gml_graph::Named;
use multigraph::{Graph, Numbers};
use rotations::Lists;
use std::alloc::{AllocError, Global};
use std::mem;

// Notes the block of these edges.
fn note_block(table: &mut [u32], edges: &[u32], b: u32)
    requires { All (λ e. e < length table.old) edges.now }
    ensures { IsBlockNoted edges.now b table.old table.new }
{
    for e in edges {
        table[*e as usize] = b;
    }
}

// The block of each edge.
fn blocks_of_edges(alloc: Global, graph: &Graph, blocks: &Blocks) -> Result<Vec<u32>, AllocError>
    requires { IsBlockStructure graph.now blocks.now }
    ensures { IfOk result (λ table. HasBlocks (edge_count graph.now) blocks.now.blocks
        (length blocks.now.blocks) table.items) }
{
    let mut table = vec![in alloc; 0; graph.edge_count() as usize]?;
    for b in 0..blocks.block_count() {
        note_block(&mut table, blocks.edges(b), b);
    }
    Ok(table)
}

// `count` lists of edges, each without edges.
fn none_waiting(alloc: Global, count: usize) -> Result<Vec<Numbers>, AllocError>
    ensures { IfOk result (λ waiting. waiting.items ≡ replicate count []) }
{
    let mut waiting = Vec::with_capacity(alloc, count)?;
    for _ in 0..count {
        waiting.push(Numbers::empty(alloc))?;
    }
    Ok(waiting)
}

// `count` lists of entries, each without entries.
fn no_entries(alloc: Global, count: usize) -> Result<Vec<Lists>, AllocError>
    ensures { IfOk result (λ lists. lists.items ≡ replicate count []) }
{
    let mut lists = Vec::with_capacity(alloc, count)?;
    for _ in 0..count {
        lists.push(Lists::new(alloc))?;
    }
    Ok(lists)
}

// Appends an edge to those that wait for block `b`.
fn add_edge(waiting: &mut Vec<Numbers>, b: usize, e: u32) -> Result<(), AllocError>
    requires { b < length waiting.old.items }
    ensures { OnOk result (waiting.new.items
        ≡ slice_set waiting.old.items b (slice_index_or waiting.old.items b [] ++ e ∷ [])) }
{
    let edges = &mut waiting[b];
    edges.push(e)
}

// Gives each edge of a list to its block, where it waits.
fn wait(of_edge: &[u32], list: &[u32], waiting: &mut Vec<Numbers>) -> Result<(), AllocError>
    requires known { All (IsKnown of_edge.now (length waiting.old.items)) list.now }
    requires none { AreWaiting of_edge.now [] (length waiting.old.items) waiting.old.items }
    ensures { OnOk result (AreWaiting of_edge.now list.now (length waiting.old.items) waiting.new.items) }
{
    for e in list {
        add_edge(waiting, of_edge[*e as usize] as usize, *e)?;
    }
    Ok(())
}

// Takes the edges that wait for block `b`.
fn take_waiting(alloc: Global, waiting: &mut Vec<Numbers>, b: usize) -> Numbers
    requires { b < length waiting.old.items }
    ensures taken { result ≡ slice_index_or waiting.old.items b [] }
    ensures none { waiting.new.items ≡ slice_set waiting.old.items b [] }
{
    mem::replace(&mut waiting[b], Numbers::empty(alloc))
}

// Appends an entry of `v` and the edges to the lists of block `b`, if there are edges.
fn add_entry(lists: &mut Vec<Lists>, b: usize, v: u32, edges: &[u32]) -> Result<(), AllocError>
    requires block { b < length lists.old.items }
    requires above { has_some edges.now ≡ true → IsAbove (slice_index_or lists.old.items b []) v }
    ensures { OnOk result (lists.new.items
        ≡ slice_set lists.old.items b (slice_index_or lists.old.items b [] ++ entry_of v edges.now)) }
{
    if edges.is_empty() {
        return Ok(());
    }
    let entries = &mut lists[b];
    entries.push(v, edges)
}

// Moves the edges of a list of `v` from where they wait to the lists of their blocks.
fn move_waiting(
    alloc: Global,
    of_edge: &[u32],
    v: u32,
    list: &[u32],
    waiting: &mut Vec<Numbers>,
    lists: &mut Vec<Lists>,
) -> Result<(), AllocError>
    requires each { length waiting.old.items ≡ length lists.old.items }
    requires known { All (IsKnown of_edge.now (length lists.old.items)) list.now }
    requires waits { AreWaiting of_edge.now list.now (length lists.old.items) waiting.old.items }
    requires above { (b : ℕ) → b < length lists.old.items
        → IsAbove (slice_index_or lists.old.items b []) v }
    ensures none { OnOk result (AreWaiting of_edge.now [] (length lists.old.items) waiting.new.items) }
    ensures entered { OnOk result (AreEntered of_edge.now list.now v (length lists.old.items)
        lists.old.items lists.new.items) }
{
    for e in list {
        let b = of_edge[*e as usize] as usize;
        let edges = take_waiting(alloc, waiting, b);
        add_entry(lists, b, v, edges.as_slice())?;
    }
    Ok(())
}

/// The lists of a start, for each block of the graph: its vertices in increasing order, each with the edges of the block in its list,
/// in the order of the list. Where there is no start, these have no entries. Fails only if memory runs out.
pub(crate) fn start_lists(
    alloc: Global,
    named: &Named,
    blocks: &Blocks,
) -> Result<Vec<Lists>, AllocError>
    requires { IsBlockStructure named.now.graph blocks.now }
    ensures { (starts : List (List ℕ)) → named.now.start ≡ Some starts
        → IfOk result (λ lists. AreStartLists named.now.graph blocks.now.blocks starts (length blocks.now.blocks) lists.items) }
{
    let of_edge = blocks_of_edges(alloc, named.graph(), blocks)?;
    let count = blocks.block_count() as usize;
    let mut waiting = none_waiting(alloc, count)?;
    let mut lists = no_entries(alloc, count)?;
    for v in 0..named.graph().vertex_count() {
        if let Some(list) = named.start(v) {
            wait(&of_edge, list, &mut waiting)?;
            move_waiting(alloc, &of_edge, v, list, &mut waiting, &mut lists)?;
        }
    }
    Ok(lists)
}
