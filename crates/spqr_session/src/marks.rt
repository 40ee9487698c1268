// The vertices at which lists may be kept.
ghost use Rattle.std.specs.Prelude.{◌≡◌, ◌++◌, ◌∷◌, true, [], map, filter, replicate, length, slice_index_or, if◌then◌else◌, IfOk};
ghost use Rattle.std.specs.List.{list_all};
ghost use Rattle.multigraph.specs.Marks.{is_marked};
ghost use Rattle.spqr_session.specs.Embedded.{BlockView, view_tree};
ghost use Rattle.spqr_session.specs.History.{lists_set};
ghost use Rattle.spqr_session.specs.Marked.{may_set, marked_in, AreKeptAt, IsMarked};

use crate::embedded::EmbeddedBlock;
use crate::kept::KeptLists;
use multigraph::{Numbers, Part};
use std::alloc::{AllocError, Global};
use undo_log::Arrangement;

/// Marks at the vertices of a graph, and of each block the marked vertices: no vertex is marked until a list is set, then those
/// that are in two blocks. Lists are kept at marked vertices alone, so a change of a block need not look at the others.
#[derive(Drop)]
pub struct MarkedVertices {
    pub(crate) marks: Vec<bool>,
    // By block; without lists where no vertex is marked.
    pub(crate) places: Vec<Numbers>,
}

impl MarkedVertices {
    /// Without marks. Takes no memory.
    pub(crate) fn none(alloc: Global) -> MarkedVertices
        ensures marks { result.marks.items ≡ [] }
        ensures places { result.places.items ≡ [] }
    {
        MarkedVertices {
            marks: Vec::new(alloc),
            places: Vec::new(alloc),
        }
    }

    // These marks, with the marked vertices of each block.
    fn of(
        alloc: Global,
        marks: Vec<bool>,
        blocks: &[EmbeddedBlock],
    ) -> Result<MarkedVertices, AllocError>
        ensures marks { IfOk result (λ marked. marked.marks ≡ marks) }
        ensures places { IfOk result (λ marked. marked.places.items
            ≡ map (λ (v : BlockView). marked_in marks.items v.tree) blocks.now) }
    {
        let mut places = Vec::with_capacity(alloc, blocks.len())?;
        for block in blocks {
            places.push(marked_vertices(alloc, &marks, block.part())?)?;
        }
        Ok(MarkedVertices { marks, places })
    }

    /// The marked vertices of block `b`, in increasing order.
    pub(crate) fn in_block(&self, b: u32) -> &[u32]
        ensures { result.now ≡ slice_index_or self.now.places.items b [] }
    {
        match self.places.get(b as usize) {
            Some(list) => list.as_slice(),
            None => &[],
        }
    }

    /// Marks what is needed for these lists to be set at their vertices. Fails only if memory runs out.
    pub(crate) fn prepare(
        &mut self,
        alloc: Global,
        blocks: &[EmbeddedBlock],
        kept: &KeptLists,
        lists: &[(u32, Arrangement)],
    ) -> Result<(), AllocError>
        requires { IsMarked (map view_tree blocks.now) kept.now self.old }
        ensures before { IsMarked (map view_tree blocks.now) kept.now self.new }
        ensures after { IfOk result (λ _. IsMarked (map view_tree blocks.now)
            (lists_set lists.now kept.now) self.new) }
    {
        if !may_set_all(&self.marks, lists) {
            *self = self.prepared(alloc, blocks, kept, lists)?;
        }
        Ok(())
    }

    // Marks that suffice before and after lists are set. Lists are set at cut vertices alone, so that marks at the vertices in two
    // blocks always do; marks at all vertices are for the proof.
    fn prepared(
        &self,
        alloc: Global,
        blocks: &[EmbeddedBlock],
        kept: &KeptLists,
        lists: &[(u32, Arrangement)],
    ) -> Result<MarkedVertices, AllocError>
        requires { IsMarked (map view_tree blocks.now) kept.now self.now }
        ensures before { IfOk result (IsMarked (map view_tree blocks.now) kept.now) }
        ensures after { IfOk result (IsMarked (map view_tree blocks.now)
            (lists_set lists.now kept.now)) }
    {
        let n = kept.count();
        let shared = in_two_blocks(alloc, n, blocks)?;
        if self.marks.is_empty() && may_set_all(&shared, lists) {
            return MarkedVertices::of(alloc, shared, blocks);
        }
        MarkedVertices::of(alloc, vec![in alloc; true; n]?, blocks)
    }
}

// Whether the vertex is marked.
fn has_mark(marks: &[bool], v: u32) -> bool
    ensures { result ≡ is_marked marks.now v }
{
    match marks.get(v as usize) {
        Some(mark) => *mark,
        None => false,
    }
}

// Whether this may be set at a vertex.
fn may_set(marks: &[bool], pair: &(u32, Arrangement)) -> bool
    ensures { result ≡ may_set marks.now pair.now }
{
    match &pair.1 {
        Some(_) => has_mark(marks, pair.0),
        None => true,
    }
}

// Whether all of these lists may be set at their vertices.
fn may_set_all(marks: &[bool], lists: &[(u32, Arrangement)]) -> bool
    ensures { result ≡ list_all (may_set marks.now) lists.now }
{
    for pair in lists {
        if !may_set(marks, pair) {
            return false;
        }
    }
    true
}

// Appends the vertex if it is marked.
fn note(list: &mut Vec<u32>, v: u32, marked: bool) -> Result<(), AllocError>
    ensures { IfOk result (λ _. list.new.items
        ≡ (if marked then list.old.items ++ v ∷ [] else list.old.items)) }
{
    if marked {
        list.push(v)?;
    }
    Ok(())
}

// The marked vertices of a part, in increasing order.
fn marked_vertices(alloc: Global, marks: &[bool], part: &Part) -> Result<Numbers, AllocError>
    ensures { IfOk result (λ list. list ≡ filter (is_marked marks.now) part.now.vertices) }
{
    part.keeps_numbers();
    let mut list = Vec::new(alloc);
    for i in 0..part.graph().vertex_count() {
        let v = part.vertex(i);
        note(&mut list, v, has_mark(marks, v))?;
    }
    Ok(Numbers::of(list))
}

// Marks the vertex as met; where it was already, as met twice.
fn meet(met: &mut [bool], twice: &mut [bool], v: usize) {
    if v < met.len() && v < twice.len() {
        twice[v] = twice[v] || met[v];
        met[v] = true;
    }
}

// Meets each vertex of a part.
fn meet_all(met: &mut [bool], twice: &mut [bool], part: &Part) {
    for i in 0..part.graph().vertex_count() {
        meet(met, twice, part.vertex(i) as usize);
    }
}

// Marks at those of `n` vertices that are in two blocks or more; nothing is promised of these.
fn in_two_blocks(
    alloc: Global,
    n: usize,
    blocks: &[EmbeddedBlock],
) -> Result<Vec<bool>, AllocError> {
    let mut met = vec![in alloc; false; n]?;
    let mut twice = vec![in alloc; false; n]?;
    for block in blocks {
        meet_all(&mut met, &mut twice, block.part());
    }
    Ok(twice)
}
