// Pushing entries: an edge, or a virtual edge, is put on the stack, and joined with a frond parallel to it.

ghost use Rattle.std.specs.Prelude.{◌≡◌, ◌+◌, ◌*◌, ◌<◌, ◌≤◌, true, length, IfOk, slice_index};
ghost use Rattle.split_comp.specs.Pass.{weight, CanJoin, IsParallel, IsJoined, IsFrondAdded, IsTreeAdded, IsApart};
ghost use Rattle.split_comp.specs.Pass.{number_apart, pushed, new_frond, new_tree};

use crate::items::StackEntry;
use crate::pass::Pass;
use crate::tree::NumberedPalmTree;
use multigraph::Graph;
use std::alloc::{AllocError, Global};
use std::sync::ledger::Ledger;
use step_count::Steps;

impl Pass {
    // Makes the last two entries, which are parallel, a component.
    fn join<L: Ledger>(
        &mut self,
        alloc: Global,
        g: &Graph,
        tree: &NumberedPalmTree,
        steps: &mut Steps<L>,
    ) -> Result<(), AllocError>
        requires parallel { IsParallel self.old }
        requires can { CanJoin g.now tree.now.vertex self.old }
        requires first { length self.old.first ≡ length tree.now.vertex }
        ensures joined { IfOk result (λ _. IsJoined g.now tree.now.vertex self.old self.new true) }
        ensures cost { IfOk result (λ _. steps.new + weight self.new
            ≤ steps.old + weight self.old) }
        ensures at_most { steps.new ≤ steps.old + 2 }
        ensures rises { steps.old ≤ steps.new }
    {
        let height = self.height();
        let top = self.item_at(height - 1);
        let name = self.split_off(alloc, g, tree, height - 2, None, top.up, top.low, steps)?;
        let start = if top.tree { top.start } else { height - 2 };
        self.push(StackEntry {
            name,
            up: top.up,
            low: top.low,
            tree: top.tree,
            start,
        })
    }

    // Where the last entry is parallel to a frond right below it, and four entries are left, these two make a component.
    fn join_parallel<L: Ledger>(
        &mut self,
        alloc: Global,
        g: &Graph,
        tree: &NumberedPalmTree,
        steps: &mut Steps<L>,
    ) -> Result<bool, AllocError>
        requires can { CanJoin g.now tree.now.vertex self.old }
        requires first { length self.old.first ≡ length tree.now.vertex }
        ensures joined { IfOk result
            (λ joined. IsJoined g.now tree.now.vertex self.old self.new joined) }
        ensures cost { IfOk result (λ _. steps.new + weight self.new
            ≤ steps.old + weight self.old) }
        ensures at_most { steps.new ≤ steps.old + 2 }
        ensures rises { steps.old ≤ steps.new }
    {
        if !self.is_parallel() {
            return Ok(false);
        }
        self.join(alloc, g, tree, steps)?;
        Ok(true)
    }

    // Pushes a frond from `v` to `up`.
    pub(crate) fn add_frond<L: Ledger>(
        &mut self,
        alloc: Global,
        g: &Graph,
        tree: &NumberedPalmTree,
        name: u32,
        v: u32,
        up: u32,
        steps: &mut Steps<L>,
    ) -> Result<(), AllocError>
        requires can { CanJoin g.now tree.now.vertex (pushed self.old
            (new_frond name v up self.old)) }
        requires first { length self.old.first ≡ length tree.now.vertex }
        requires up { up < length self.old.first }
        requires low { v < length self.old.first }
        requires start { v < length self.old.start }
        requires base { v < length self.old.base }
        requires within { slice_index self.old.base v ≤ length self.old.cuts }
        ensures added { IfOk result
            (λ _. IsFrondAdded g.now tree.now.vertex name v up self.old self.new) }
        ensures cost { IfOk result (λ _. steps.new + weight self.new
            ≤ steps.old + weight self.old + 10) }
        ensures at_most { steps.new ≤ steps.old + length self.old.cuts + 2 }
        ensures rises { steps.old ≤ steps.new }
    {
        let start = self.height();
        self.push(StackEntry {
            name,
            up,
            low: v,
            tree: false,
            start,
        })?;
        if !self.join_parallel(alloc, g, tree, steps)? {
            self.note_dart(v, start, up, steps)?;
        }
        Ok(())
    }

    // Pushes a tree edge from `v` to `low`, to which the entries from place `start` on belong.
    pub(crate) fn add_tree_edge<L: Ledger>(
        &mut self,
        alloc: Global,
        g: &Graph,
        tree: &NumberedPalmTree,
        name: u32,
        v: u32,
        low: u32,
        start: usize,
        steps: &mut Steps<L>,
    ) -> Result<(), AllocError>
        requires can { CanJoin g.now tree.now.vertex (pushed self.old (new_tree name v low start)) }
        requires first { length self.old.first ≡ length tree.now.vertex }
        requires up { v < length self.old.first }
        requires low { low < length self.old.first }
        ensures added { IfOk result
            (λ _. IsTreeAdded g.now tree.now.vertex name v low start self.old self.new) }
        ensures cost { IfOk result (λ _. steps.new + weight self.new
            ≤ steps.old + weight self.old + 8) }
        ensures at_most { steps.new ≤ steps.old + 2 }
        ensures rises { steps.old ≤ steps.new }
    {
        self.push(StackEntry {
            name,
            up: v,
            low,
            tree: true,
            start,
        })?;
        self.join_parallel(alloc, g, tree, steps)?;
        Ok(())
    }

    // Pushes a frond from `low` to `up` that stays apart, if there is one.
    pub(crate) fn push_apart(
        &mut self,
        frond: Option<u32>,
        up: u32,
        low: u32,
        start: usize,
    ) -> Result<(), AllocError>
        requires up { up < length self.old.first }
        requires low { low < length self.old.first }
        ensures apart { IfOk result (λ _. IsApart frond up low start self.old self.new) }
        ensures weight { IfOk result (λ _. weight self.new ≡ weight self.old
            + 8 * number_apart frond) }
    {
        match frond {
            Some(name) => self.push(StackEntry {
                name,
                up,
                low,
                tree: false,
                start,
            }),
            None => Ok(()),
        }
    }
}
