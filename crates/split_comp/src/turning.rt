// The turns of the pass: along a dart, or back from a vertex, when components are split off.

ghost use Rattle.std.specs.Prelude.{◌≡◌, ◌≢◌, ◌+◌, ◌-◌, ◌*◌, ◌<◌, ◌≤◌, ℕ, true, false, if◌then◌else◌, length, IfOk, slice_index};
ghost use Rattle.multigraph.specs.Graph.{edge_count};
ghost use Rattle.split_comp.specs.Cuts.{cut};
ghost use Rattle.split_comp.specs.Palm.{tree_degree};
ghost use Rattle.split_comp.specs.Pass.{IsNumbered, IsPass, IsBack, IsPassed, IsGoing, IsReduced, IsReducedOnce, IsAsFar};
ghost use Rattle.split_comp.specs.Pass.{IsTriangle, IsStale, IsCutTo, IsWhole, HasTurns, IsTurned, IsOverTest, last_dart};
ghost use Rattle.split_comp.specs.Pass.{weight};

use crate::items::StackCut;
use crate::pass::Pass;
use crate::tree::NumberedPalmTree;
use multigraph::Graph;
use std::alloc::{AllocError, Global};
use std::sync::ledger::Ledger;
use step_count::Steps;

impl Pass {
    // The entries after the last cut, which is taken off, make a component with the vertex where the search is and the lower
    // vertex of the cut. A frond between the two stays apart.
    fn split_pair<L: Ledger>(
        &mut self,
        alloc: Global,
        g: &Graph,
        tree: &NumberedPalmTree,
        last: StackCut,
        steps: &mut Steps<L>,
    ) -> Result<(), AllocError>
        requires numbered { IsNumbered g.now tree.now }
        requires back { IsBack g.now tree.now self.old.done self.old }
        requires fresh { IsStale self.old.at (slice_index self.old.base self.old.done) self.old
            → ⊥ }
        requires no_triangle { IsTriangle self.old → ⊥ }
        requires cut { IsCutTo self.old.at (slice_index self.old.base self.old.done) self.old }
        requires last { last ≡ cut self.old.cuts (length self.old.cuts - 1) }
        ensures reduced { IfOk result (λ _. IsReducedOnce g.now tree.now self.old self.new true) }
        ensures cost { IfOk result (λ _. steps.new + weight self.new + 1
            ≤ steps.old + weight self.old) }
        ensures counted { IfOk result (λ _. length self.old.cuts ≤ length self.new.cuts + 1) }
        ensures at_most { steps.new ≤ steps.old + weight self.old }
        ensures rises { steps.old ≤ steps.new }
    {
        let v = self.here();
        let start = self.start_of(self.child());
        self.drop_cut();
        let frond = self.frond_from(last.start, v, last.low, steps);
        let name = self.split_off(
            alloc,
            g,
            tree,
            last.start,
            Some((v, last.low)),
            v,
            last.low,
            steps,
        )?;
        self.push_apart(frond, v, last.low, last.start)?;
        self.add_tree_edge(alloc, g, tree, name, v, last.low, start, steps)
    }

    // The last two entries, which make a triangle, are a component.
    fn split_triangle<L: Ledger>(
        &mut self,
        alloc: Global,
        g: &Graph,
        tree: &NumberedPalmTree,
        steps: &mut Steps<L>,
    ) -> Result<(), AllocError>
        requires numbered { IsNumbered g.now tree.now }
        requires back { IsBack g.now tree.now self.old.done self.old }
        requires fresh { IsStale self.old.at (slice_index self.old.base self.old.done) self.old
            → ⊥ }
        requires triangle { IsTriangle self.old }
        ensures reduced { IfOk result (λ _. IsReducedOnce g.now tree.now self.old self.new true) }
        ensures cost { IfOk result (λ _. steps.new + weight self.new + 1
            ≤ steps.old + weight self.old) }
        ensures counted { IfOk result (λ _. length self.old.cuts ≤ length self.new.cuts) }
        ensures at_most { steps.new ≤ steps.old + weight self.old }
        ensures rises { steps.old ≤ steps.new }
    {
        let v = self.here();
        let place = self.height() - 2;
        let below = self.item_at(place);
        let name = self.split_off(alloc, g, tree, place, None, v, below.low, steps)?;
        self.add_tree_edge(alloc, g, tree, name, v, below.low, below.start, steps)
    }

    // Splits off one component with the vertex where the search is and one below its child, or drops a cut no longer of use;
    // returns whether there was one.
    fn reduce<L: Ledger>(
        &mut self,
        alloc: Global,
        g: &Graph,
        tree: &NumberedPalmTree,
        steps: &mut Steps<L>,
    ) -> Result<bool, AllocError>
        requires numbered { IsNumbered g.now tree.now }
        requires back { IsBack g.now tree.now self.old.done self.old }
        ensures reduced { IfOk result
            (λ more. IsReducedOnce g.now tree.now self.old self.new more) }
        ensures cost { IfOk result (λ more. steps.new + weight self.new + (if more then 1 else 0)
            ≤ steps.old + weight self.old) }
        ensures counted { IfOk result (λ more. steps.old + length self.old.cuts
            ≤ steps.new + length self.new.cuts + (if more then 1 else 0)) }
        ensures at_most { steps.new ≤ steps.old + weight self.old }
        ensures rises { steps.old ≤ steps.new }
    {
        let v = self.here();
        let base = self.base_of(self.child());
        if self.drop_stale(v, base) {
            return Ok(true);
        }
        if self.is_triangle() {
            self.split_triangle(alloc, g, tree, steps)?;
            return Ok(true);
        }
        match self.cut_to(v, base) {
            Some(last) => {
                self.split_pair(alloc, g, tree, last, steps)?;
                Ok(true)
            }
            None => Ok(false),
        }
    }

    // Splits off all components with the vertex where the search is and one below its child.
    fn reduce_all<L: Ledger>(
        &mut self,
        alloc: Global,
        g: &Graph,
        tree: &NumberedPalmTree,
        steps: &mut Steps<L>,
    ) -> Result<(), AllocError>
        requires numbered { IsNumbered g.now tree.now }
        requires back { IsBack g.now tree.now self.old.done self.old }
        ensures reduced { IfOk result (λ _. IsReduced g.now tree.now self.new
            × IsAsFar self.old self.new) }
        ensures cost { IfOk result (λ _. steps.new + weight self.new
            ≤ steps.old + weight self.old) }
        ensures counted { IfOk result (λ _. steps.old + length self.old.cuts
            ≤ steps.new + length self.new.cuts) }
        ensures at_most { steps.new ≤ steps.old + weight self.old }
        ensures rises { steps.old ≤ steps.new }
    {
        while self.reduce(alloc, g, tree, steps)? {
            steps.tick();
        }
        Ok(())
    }

    // All below the child makes a component, and a frond takes its place.
    fn split_child<L: Ledger>(
        &mut self,
        alloc: Global,
        g: &Graph,
        tree: &NumberedPalmTree,
        reach: u32,
        steps: &mut Steps<L>,
    ) -> Result<(), AllocError>
        requires numbered { IsNumbered g.now tree.now }
        requires reduced { IsReduced g.now tree.now self.old }
        requires whole { IsWhole (last_dart g.now tree.now self.old).class
            (slice_index self.old.start self.old.done) self.old }
        requires reach { reach ≡ (last_dart g.now tree.now self.old).reach }
        ensures left { IfOk result (λ _. IsPass g.now tree.now self.new
            × IsAsFar self.old self.new) }
        ensures cost { IfOk result (λ _. steps.new + weight self.new
            ≤ steps.old + weight self.old + 10) }
        ensures at_most { steps.new ≤ steps.old + weight self.old + 2 }
        ensures rises { steps.old ≤ steps.new }
    {
        let v = self.here();
        let start = self.start_of(self.child());
        self.drop_cuts(self.base_of(self.child()));
        let name = self.split_off(alloc, g, tree, start, None, reach, v, steps)?;
        self.add_frond(alloc, g, tree, name, v, reach, steps)
    }

    // The dart to the child is finished: all below the child is split off, or the dart is noted, or as the first one it takes
    // over the cuts of the child.
    fn leave_child<L: Ledger>(
        &mut self,
        alloc: Global,
        g: &Graph,
        tree: &NumberedPalmTree,
        steps: &mut Steps<L>,
    ) -> Result<(), AllocError>
        requires numbered { IsNumbered g.now tree.now }
        requires reduced { IsReduced g.now tree.now self.old }
        ensures left { IfOk result (λ _. IsPass g.now tree.now self.new
            × IsAsFar self.old self.new) }
        ensures cost { IfOk result (λ _. steps.new + weight self.new
            ≤ steps.old + weight self.old + 10) }
        ensures at_most { steps.new ≤ steps.old + weight self.old + 2 }
        ensures rises { steps.old ≤ steps.new }
    {
        let v = self.here();
        let start = self.start_of(self.child());
        let base = self.base_of(self.child());
        let dart = tree.dart(g, v, self.gone_of(v) - 1);
        if self.is_whole(dart.class, start) {
            return self.split_child(alloc, g, tree, dart.reach, steps);
        }
        if start > self.start_of(v) {
            self.drop_cuts(base);
            return self.note_dart(v, start, dart.reach, steps);
        }
        self.drop_met(v, base, steps);
        Ok(())
    }

    // Comes back to the parent, when all darts have been traversed.
    fn go_back<L: Ledger>(
        &mut self,
        alloc: Global,
        g: &Graph,
        tree: &NumberedPalmTree,
        steps: &mut Steps<L>,
    ) -> Result<(), AllocError>
        requires numbered { IsNumbered g.now tree.now }
        requires pass { IsPass g.now tree.now self.old }
        requires all { slice_index self.old.gone self.old.at
            ≡ tree_degree tree.now.palm tree.now.vertex self.old.at }
        requires not_root { self.old.at ≢ 0 }
        ensures going { IfOk result (λ _. IsGoing g.now tree.now self.new
            × IsTurned g.now tree.now self.old self.new) }
        ensures cost { IfOk result (λ _. steps.new + weight self.new
            ≤ steps.old + weight self.old + 18) }
        ensures at_most { steps.new ≤ steps.old + weight self.old + 18 }
        ensures rises { steps.old ≤ steps.new }
    {
        let v = tree.parent(g, self.here());
        if v == 0 {
            return self.come_home(g, tree, v);
        }
        self.come_back(alloc, g, tree, v, steps)?;
        self.reduce_all(alloc, g, tree, steps)?;
        self.leave_child(alloc, g, tree, steps)
    }

    // One turn: along the next dart, or back.
    fn turn<L: Ledger>(
        &mut self,
        alloc: Global,
        g: &Graph,
        tree: &NumberedPalmTree,
        steps: &mut Steps<L>,
    ) -> Result<(), AllocError>
        requires numbered { IsNumbered g.now tree.now }
        requires pass { IsPass g.now tree.now self.old }
        ensures going { IfOk result (λ _. IsGoing g.now tree.now self.new
            × IsTurned g.now tree.now self.old self.new) }
        ensures cost { IfOk result (λ _. steps.new + weight self.new
            ≤ steps.old + weight self.old + 18) }
        ensures at_most { steps.new ≤ steps.old + weight self.old + 18 }
        ensures rises { steps.old ≤ steps.new }
    {
        let v = self.here();
        if self.gone_of(v) < tree.degree(g, v) {
            return self.go_along(alloc, g, tree, steps);
        }
        self.go_back(alloc, g, tree, steps)
    }

    // Whether the pass is over.
    fn is_over(&self, g: &Graph, tree: &NumberedPalmTree) -> bool
        requires numbered { IsNumbered g.now tree.now }
        requires going { IsGoing g.now tree.now self.now }
        ensures { IsOverTest g.now tree.now self.now result }
    {
        if self.here() != 0 {
            return false;
        }
        self.gone_of(0) >= tree.degree(g, 0)
    }

    /// Splits a block of three edges or more. There is one turn for each edge and for each vertex but the root, and one more finds
    /// that the pass is over. Fails only if memory runs out.
    pub(crate) fn run<L: Ledger>(
        &mut self,
        alloc: Global,
        g: &Graph,
        tree: &NumberedPalmTree,
        steps: &mut Steps<L>,
    ) -> Result<(), AllocError>
        requires numbered { IsNumbered g.now tree.now }
        requires pass { IsPass g.now tree.now self.old }
        requires turns { (k : ℕ) → k + 1 ≡ g.now.vertex_count + edge_count g.now
            → HasTurns g.now tree.now self.old k }
        ensures passed { IfOk result (λ _. IsPassed g.now tree.now self.new) }
        ensures at_least { IfOk result
            (λ _. steps.old + g.now.vertex_count + edge_count g.now ≤ steps.new) }
        ensures at_most { steps.new ≤ steps.old + weight self.old
            + 19 * (g.now.vertex_count + edge_count g.now) }
        ensures rises { steps.old ≤ steps.new }
    {
        for _ in 0..g.vertex_count() + g.edge_count() {
            steps.tick();
            if self.is_over(g, tree) {
                return Ok(());
            }
            self.turn(alloc, g, tree, steps)?;
        }
        Ok(())
    }
}
