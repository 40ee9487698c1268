// The lists that are kept at cut vertices.
ghost use Rattle.std.specs.Prelude.{◌≡◌, ◌∷◌, ◌++◌, [], length, map, replicate, slice_index_or, slice_set, None, Some, IfOk, MatchOption};
ghost use Rattle.spqr_session.specs.History.{list_after, list_before, lists_after, lists_before, lists_set};
ghost use Rattle.spqr_session.specs.Board.{clearing, Clears};

use multigraph::Numbers;
use std::alloc::{AllocError, Global};
use std::marker::Model;
use undo_log::{Arrangement, CutChange, CutChanges, SharedNumbers, Step};

/// For each vertex the edges around it in the order that was set there: none where it is no cut vertex, or where it has the first
/// arrangement for the present blocks. Contracts see these lists.
#[derive(Debug, Drop)]
pub struct KeptLists {
    lists: Vec<Arrangement>,
}

impl Model for KeptLists {
    ghost use Rattle.std.specs.Prelude.{ℕ, List, Option};

    ghost Value = { List (Option (List ℕ)) };

    ghost view = { λ kept. kept.lists.items };
}

impl KeptLists {
    /// No list at any of `n` vertices.
    pub fn none(alloc: Global, n: u32) -> Result<KeptLists, AllocError>
        ensures { IfOk result (λ kept. kept ≡ replicate n None) }
    {
        let mut lists = Vec::with_capacity(alloc, n as usize)?;
        for _ in 0..n {
            lists.push(None)?;
        }
        Ok(KeptLists { lists })
    }

    /// The number of vertices.
    pub fn count(&self) -> usize
        ensures { result ≡ length self.now }
    {
        self.lists.len()
    }

    /// The list at vertex `v`.
    pub fn at(&self, v: u32) -> Option<&[u32]>
        ensures { MatchOption result (slice_index_or self.now v None ≡ None)
            (λ list. slice_index_or self.now v None ≡ Some list.now) }
    {
        match self.lists.get(v as usize) {
            Some(Some(list)) => Some(list.as_slice()),
            _ => None,
        }
    }

    /// The changes that remove the lists at these vertices.
    pub fn cleared(&self, alloc: Global, vertices: &[u32]) -> Result<CutChanges, AllocError>
        ensures { IfOk result (Clears vertices.now self.now) }
    {
        let mut cuts = Vec::new(alloc);
        for v in vertices {
            self.clear(&mut cuts, *v)?;
        }
        Ok(CutChanges::of(cuts))
    }

    /// The change that keeps a list at vertex `v`.
    pub fn changed(&self, alloc: Global, v: u32, list: Numbers) -> Result<CutChanges, AllocError>
        ensures { IfOk result (λ cuts. cuts ≡ record {
          vertex = v;
          before = slice_index_or self.now v None;
          after = Some list;
        } ∷ []) }
    {
        let before = self.shared(v)?;
        let after = Some(SharedNumbers::of(alloc, list)?);
        let cuts = vec![in alloc;
            CutChange {
                vertex: v,
                before,
                after,
            },
        ]?;
        Ok(CutChanges::of(cuts))
    }

    /// Sets lists at vertices, one after the other. Takes no memory.
    pub fn set(&mut self, lists: Vec<(u32, Arrangement)>)
        ensures { self.new ≡ lists_set lists.items self.old }
    {
        for pair in lists {
            self.set_one(pair.0, pair.1);
        }
    }

    // Adds the change that removes the list at vertex v, if there is one.
    fn clear(&self, cuts: &mut Vec<CutChange>, v: u32) -> Result<(), AllocError>
        ensures { IfOk result (λ _. cuts.new.items ≡ cuts.old.items ++ clearing self.now v) }
    {
        let before = self.shared(v)?;
        if before.is_some() {
            cuts.push(CutChange {
                vertex: v,
                before,
                after: None,
            })?;
        }
        Ok(())
    }

    /// The list at vertex `v` for one more owner.
    pub fn shared(&self, v: u32) -> Result<Arrangement, AllocError>
        ensures { IfOk result (λ list. list ≡ slice_index_or self.now v None) }
    {
        match self.lists.get(v as usize) {
            Some(list) => share(list),
            None => Ok(None),
        }
    }

    // Sets the list at vertex v, if there is one.
    fn set_one(&mut self, v: u32, list: Arrangement)
        ensures { self.new ≡ slice_set self.old v list }
    {
        if (v as usize) < self.lists.len() {
            self.lists[v as usize] = list;
        }
    }
}

// A list for one more owner.
fn share(list: &Arrangement) -> Result<Arrangement, AllocError>
    ensures { IfOk result (λ shared. shared ≡ list.now) }
{
    match list {
        Some(numbers) => Ok(Some(numbers.share()?)),
        None => Ok(None),
    }
}

// The lists that changes leave at their vertices.
fn afters(alloc: Global, cuts: &CutChanges) -> Result<Vec<(u32, Arrangement)>, AllocError>
    ensures { IfOk result (λ lists. lists.items ≡ map list_after cuts.now) }
{
    let mut lists = Vec::new(alloc);
    for change in cuts.as_slice() {
        lists.push((change.vertex, share(&change.after)?))?;
    }
    Ok(lists)
}

// The lists that were there before changes.
fn befores(alloc: Global, cuts: &CutChanges) -> Result<Vec<(u32, Arrangement)>, AllocError>
    ensures { IfOk result (λ lists. lists.items ≡ map list_before cuts.now) }
{
    let mut lists = Vec::new(alloc);
    for change in cuts.as_slice() {
        lists.push((change.vertex, share(&change.before)?))?;
    }
    Ok(lists)
}

/// The lists that a step sets at vertices.
pub(crate) fn lists_after(alloc: Global, step: &Step) -> Result<Vec<(u32, Arrangement)>, AllocError>
    ensures { IfOk result (λ lists. lists.items ≡ lists_after step.now) }
{
    match step {
        Step::Moves { cuts, .. } | Step::Mirror { cuts, .. } => afters(alloc, cuts),
        Step::Lock { .. } => Ok(Vec::new(alloc)),
    }
}

/// The lists that it sets when it is taken back.
pub(crate) fn lists_before(
    alloc: Global,
    step: &Step,
) -> Result<Vec<(u32, Arrangement)>, AllocError>
    ensures { IfOk result (λ lists. lists.items ≡ lists_before step.now) }
{
    match step {
        Step::Moves { cuts, .. } | Step::Mirror { cuts, .. } => befores(alloc, cuts),
        Step::Lock { .. } => Ok(Vec::new(alloc)),
    }
}
