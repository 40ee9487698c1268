// The pass along the palm tree, with the stack of entries, its cuts, and the components that are finished.

ghost use Rattle.std.specs.Prelude.{◌≡◌, ◌≢◌, ◌+◌, ◌-◌, ◌<◌, ◌≤◌, ◌^◌, true, false, length, drop, IfOk, slice_index};
ghost use Rattle.multigraph.specs.Graph.{edge_count};
ghost use Rattle.split_comp.specs.Stack.{item};
ghost use Rattle.split_comp.specs.Palm.{tree_degree, tree_parent};
ghost use Rattle.pair_split.specs.Bridges.{family_of};
ghost use Rattle.split_comp.specs.Pass.{IsNumbered, IsPass, IsBack, IsPassed, weight, PassState, CanSplitOff, IsSplitOff};
ghost use Rattle.split_comp.specs.Pass.{IsTriangleTest, IsStaleDropped, top_item, IsDartNoted};
ghost use Rattle.split_comp.specs.Pass.{IsParallelTest, IsFrondFound, IsCutFound};
ghost use Rattle.split_comp.specs.Pass.{IsMetDropped, IsWholeTest, IsCome, IsTurned, drawn_items, first_state};
ghost use Rattle.split_comp.specs.Pass.{pushed, gone_along, gone_down, gone_back, cuts_dropped, lowered, next_name, goes};

use crate::cuts::{drop_later, last_cut, note};
use crate::edges::{edges_of, frond_to};
use crate::items::{Dart, StackCut, StackEntry};
use crate::tree::NumberedPalmTree;
use multigraph::Graph;
use pair_split::{EdgeList, Finished, NamedEdge, kind_of};
use std::alloc::{AllocError, Global};
use std::marker::Model;
use std::sync::ledger::Ledger;
use step_count::Steps;

// The place of the stack for a vertex that no entry touches.
const NO_PLACE: usize = u32::MAX as usize;

/// Where the pass is. Vertices go by their numbers: the one where the search is, and the last one that is finished; the stack
/// of entries; its cuts; for each vertex the first place of the stack that touches it, the places of the stack and of the cuts
/// when it was entered, and how many of its darts have been traversed and retracted; how many entries the current family has;
/// and the finished components.
#[derive(Drop)]
pub(crate) struct Pass {
    at: u32,
    done: u32,
    items: Vec<StackEntry>,
    cuts: Vec<StackCut>,
    first: Vec<usize>,
    start: Vec<usize>,
    base: Vec<usize>,
    gone: Vec<usize>,
    total: usize,
    finished: Vec<Finished>,
}

impl Model for Pass {
    ghost use Rattle.split_comp.specs.Pass.{weight, PassState};

    ghost Value = { PassState };

    ghost view = { λ s. record {
      at = s.at;
      done = s.done;
      items = s.items.items;
      cuts = s.cuts.items;
      first = s.first.items;
      start = s.start.items;
      base = s.base.items;
      gone = s.gone.items;
      total = s.total;
      parts = s.finished.items;
    } };
}

impl Pass {
    /// The start, in a graph of n vertices and m edges.
    pub(crate) fn new(alloc: Global, n: u32, m: u32) -> Result<Pass, AllocError>
        ensures { IfOk result (λ s. s ≡ first_state n m) }
    {
        let vertices = n as usize;
        Ok(Pass {
            at: 0,
            done: n,
            items: Vec::new(alloc),
            cuts: Vec::new(alloc),
            first: vec![in alloc; NO_PLACE; vertices]?,
            start: vec![in alloc; 0; vertices]?,
            base: vec![in alloc; 0; vertices]?,
            gone: vec![in alloc; 0; vertices]?,
            total: m as usize,
            finished: Vec::new(alloc),
        })
    }

    // The place is one that touches the vertex.
    fn note_first(&mut self, x: u32, place: usize)
        requires { x < length self.old.first }
        ensures { self.new ≡ record self.old { first = lowered self.old.first x place } }
    {
        if place < self.first[x as usize] {
            self.first[x as usize] = place;
        }
    }

    // Pushes an entry.
    pub(crate) fn push(&mut self, x: StackEntry) -> Result<(), AllocError>
        requires up { x.up < length self.old.first }
        requires low { x.low < length self.old.first }
        ensures now { IfOk result (λ _. self.new ≡ pushed self.old x) }
        ensures weight { IfOk result (λ _. weight self.new ≡ weight self.old + 8) }
    {
        let place = self.items.len();
        self.note_first(x.up, place);
        self.note_first(x.low, place);
        self.items.push(x)?;
        Ok(())
    }

    // Removes the last cut.
    pub(crate) fn drop_cut(&mut self)
        requires { 1 ≤ length self.old.cuts }
        ensures { self.new ≡ cuts_dropped self.old (length self.old.cuts - 1) }
    {
        let _ = self.cuts.pop();
    }

    // Removes the cuts from place `k` on.
    pub(crate) fn drop_cuts(&mut self, k: usize)
        ensures { self.new ≡ cuts_dropped self.old k }
    {
        self.cuts.truncate(k);
    }

    // One more dart of `v` has been traversed and retracted.
    fn note_gone(&mut self, v: u32)
        requires within { v < length self.old.gone }
        requires fits { slice_index self.old.gone v + 1 < 2 ^ 64 }
        ensures { self.new ≡ gone_along self.old v }
    {
        self.gone[v as usize] += 1;
    }

    // Goes down to the child `w`.
    fn go_down(&mut self, w: u32)
        requires start { w < length self.old.start }
        requires base { w < length self.old.base }
        ensures { self.new ≡ gone_down self.old w }
    {
        self.start[w as usize] = self.items.len();
        self.base[w as usize] = self.cuts.len();
        self.at = w;
    }

    // Goes back to the parent `v` of `w`, which is finished.
    fn go_up(&mut self, v: u32, w: u32)
        ensures { self.new ≡ gone_back self.old v w }
    {
        self.at = v;
        self.done = w;
    }

    // Makes the entries from place `k` on a finished component, with a virtual edge between `up` and `low`: all of them but the
    // fronds that stay apart, from the second to the first of two vertices. Returns the name of the virtual edge.
    pub(crate) fn split_off<L: Ledger>(
        &mut self,
        alloc: Global,
        g: &Graph,
        tree: &NumberedPalmTree,
        k: usize,
        apart: Option<(u32, u32)>,
        up: u32,
        low: u32,
        steps: &mut Steps<L>,
    ) -> Result<u32, AllocError>
        requires can { CanSplitOff g.now tree.now.vertex (goes apart) k up low self.old }
        ensures split_off { IfOk result
            (λ _. IsSplitOff g.now tree.now.vertex (goes apart) k up low self.old self.new) }
        ensures name { IfOk result (λ name. name ≡ next_name g.now self.old) }
        ensures at_most { steps.new + k ≤ steps.old + length self.old.items }
        ensures rises { steps.old ≤ steps.new }
    {
        let name = g.edge_count() + self.finished.len() as u32;
        let own = NamedEdge {
            name,
            first: tree.vertex_at(up),
            second: tree.vertex_at(low),
        };
        let edges = edges_of(alloc, g, tree, &self.items[k..], apart, steps)?;
        let kind = kind_of(own, &edges);
        self.total = self.total + 1 - edges.len();
        self.items.truncate(k);
        self.finished.push(Finished {
            kind,
            own,
            edges: EdgeList::of(edges),
        })?;
        Ok(name)
    }

    // The entry at place `i`.
    pub(crate) fn item_at(&self, i: usize) -> StackEntry
        requires { i < length self.now.items }
        ensures { result ≡ item self.now.items i }
    {
        self.items[i]
    }

    // How many entries the stack has.
    pub(crate) fn height(&self) -> usize
        ensures { result ≡ length self.now.items }
    {
        self.items.len()
    }

    // The vertex where the search is.
    pub(crate) fn here(&self) -> u32
        ensures { result ≡ self.now.at }
    {
        self.at
    }

    // The last vertex that is finished: the child from which the search has come back.
    pub(crate) fn child(&self) -> u32
        ensures { result ≡ self.now.done }
    {
        self.done
    }

    // How many entries the stack had when the vertex was entered.
    pub(crate) fn start_of(&self, v: u32) -> usize
        requires { v < length self.now.start }
        ensures { result ≡ slice_index self.now.start v }
    {
        self.start[v as usize]
    }

    // How many cuts there were when the vertex was entered.
    pub(crate) fn base_of(&self, v: u32) -> usize
        requires { v < length self.now.base }
        ensures { result ≡ slice_index self.now.base v }
    {
        self.base[v as usize]
    }

    // How many darts of the vertex have been traversed and retracted.
    pub(crate) fn gone_of(&self, v: u32) -> usize
        requires { v < length self.now.gone }
        ensures { result ≡ slice_index self.now.gone v }
    {
        self.gone[v as usize]
    }

    // Whether the last entry is parallel to a frond right below it, and four entries are left.
    pub(crate) fn is_parallel(&self) -> bool
        ensures { IsParallelTest self.now result }
    {
        let height = self.height();
        if height < 2 || self.total < 4 {
            return false;
        }
        let top = self.item_at(height - 1);
        let below = self.item_at(height - 2);
        if below.tree {
            return false;
        }
        below.up == top.up && below.low == top.low
    }

    // A dart of `v` is on the stack, from place `s` on, with the least upper end `up`: where it is not the first one, the stack
    // may be cut there.
    pub(crate) fn note_dart<L: Ledger>(
        &mut self,
        v: u32,
        s: usize,
        up: u32,
        steps: &mut Steps<L>,
    ) -> Result<(), AllocError>
        requires start { v < length self.old.start }
        requires base { v < length self.old.base }
        requires within { slice_index self.old.base v ≤ length self.old.cuts }
        ensures noted { IfOk result (λ _. IsDartNoted v s up self.old self.new) }
        ensures cost { IfOk result (λ _. steps.new + weight self.new
            ≤ steps.old + weight self.old + 2) }
        ensures at_most { steps.new ≤ steps.old + length self.old.cuts }
        ensures rises { steps.old ≤ steps.new }
    {
        if s > self.start[v as usize] {
            let base = self.base[v as usize];
            let new = StackCut {
                start: s,
                up,
                low: v,
            };
            return note(&mut self.cuts, base, new, steps);
        }
        Ok(())
    }

    // Whether the last two entries are tree edges that no other entry touches between them.
    pub(crate) fn is_triangle(&self) -> bool
        requires two { 2 ≤ length self.now.items }
        requires low { (top_item self.now).low < length self.now.first }
        ensures { IsTriangleTest self.now result }
    {
        let height = self.height();
        let below = self.item_at(height - 2);
        if !below.tree {
            return false;
        }
        self.first[self.item_at(height - 1).low as usize] == height - 2
    }

    // Drops the last cut, where it is one of `v` and the lower vertex of the last entry.
    pub(crate) fn drop_stale(&mut self, v: u32, base: usize) -> bool
        requires { 1 ≤ length self.old.items }
        ensures { IsStaleDropped v base self.old self.new result }
    {
        let low = self.item_at(self.height() - 1).low;
        let is_stale = last_cut(&self.cuts, base).is_some_and(|cut| cut.up == v && cut.low == low);
        if is_stale {
            self.drop_cut();
        }
        is_stale
    }

    // The last cut from place `base` on, where it has the upper end `v`.
    pub(crate) fn cut_to(&self, v: u32, base: usize) -> Option<StackCut>
        ensures { IsCutFound v base self.now result }
    {
        last_cut(&self.cuts, base).filter(|cut| cut.up == v)
    }

    // The name of a frond from `low` to `up` from place `k` on, if there is one.
    pub(crate) fn frond_from<L: Ledger>(
        &self,
        k: usize,
        up: u32,
        low: u32,
        steps: &mut Steps<L>,
    ) -> Option<u32>
        requires { k ≤ length self.now.items }
        ensures found { IsFrondFound up low (drop k self.now.items) result }
        ensures at_most { steps.new + k ≤ steps.old + length self.now.items }
        ensures rises { steps.old ≤ steps.new }
    {
        frond_to(&self.items[k..], up, low, steps)
    }

    // Whether a dart of this class has all from place `start` on as a side, and two entries are left beside it.
    pub(crate) fn is_whole(&self, class: u32, start: usize) -> bool
        requires { start ≤ length self.now.items }
        ensures { IsWholeTest class start self.now result }
    {
        class == 2 && self.total >= self.items.len() - start + 2
    }

    // Drops the cuts from place `base` on before which an entry touches `v`.
    pub(crate) fn drop_met<L: Ledger>(&mut self, v: u32, base: usize, steps: &mut Steps<L>)
        requires first { v < length self.old.first }
        requires base { base ≤ length self.old.cuts }
        ensures dropped { IsMetDropped v base self.old self.new }
        ensures cost { steps.new + weight self.new ≤ steps.old + weight self.old }
        ensures rises { steps.old ≤ steps.new }
    {
        let first = self.first[v as usize];
        drop_later(&mut self.cuts, base, first, steps);
    }

    // Goes along the next dart of the vertex where the search is: a frond is pushed, or the search goes down.
    pub(crate) fn go_along<L: Ledger>(
        &mut self,
        alloc: Global,
        g: &Graph,
        tree: &NumberedPalmTree,
        steps: &mut Steps<L>,
    ) -> Result<(), AllocError>
        requires numbered { IsNumbered g.now tree.now }
        requires pass { IsPass g.now tree.now self.old }
        requires more { slice_index self.old.gone self.old.at
            < tree_degree tree.now.palm tree.now.vertex self.old.at }
        requires fits { slice_index self.old.gone self.old.at + 1 < 2 ^ 64 }
        ensures gone { IfOk result (λ _. IsPass g.now tree.now self.new) }
        ensures turned { IfOk result (λ _. IsTurned g.now tree.now self.old self.new) }
        ensures cost { IfOk result (λ _. steps.new + weight self.new
            ≤ steps.old + weight self.old + 10) }
        ensures at_most { steps.new ≤ steps.old + weight self.old + 2 }
        ensures rises { steps.old ≤ steps.new }
    {
        let v = self.at;
        let dart = tree.dart(g, v, self.gone[v as usize]);
        if dart.tree {
            self.go_down(dart.far);
            return Ok(());
        }
        self.note_gone(v);
        self.add_frond(alloc, g, tree, dart.edge, v, dart.far, steps)
    }

    // Comes back to the parent `v`, which is not the root, when all darts have been traversed.
    pub(crate) fn come_back<L: Ledger>(
        &mut self,
        alloc: Global,
        g: &Graph,
        tree: &NumberedPalmTree,
        v: u32,
        steps: &mut Steps<L>,
    ) -> Result<(), AllocError>
        requires numbered { IsNumbered g.now tree.now }
        requires pass { IsPass g.now tree.now self.old }
        requires all { slice_index self.old.gone self.old.at
            ≡ tree_degree tree.now.palm tree.now.vertex self.old.at }
        requires not_root { self.old.at ≢ 0 }
        requires parent { v ≡ tree_parent tree.now.palm tree.now.vertex self.old.at }
        requires inner { tree_parent tree.now.palm tree.now.vertex self.old.at ≢ 0 }
        requires within { v < g.now.vertex_count }
        requires dart_left { slice_index self.old.gone v
            < tree_degree tree.now.palm tree.now.vertex v }
        requires fits { slice_index self.old.gone v + 1 < 2 ^ 64 }
        ensures back { IfOk result (λ _. IsBack g.now tree.now self.old.at self.new) }
        ensures come { IfOk result (λ _. IsCome v self.old self.new) }
        ensures cost { IfOk result (λ _. steps.new + weight self.new
            ≤ steps.old + weight self.old + 8) }
        ensures at_most { steps.new ≤ steps.old + 2 }
        ensures rises { steps.old ≤ steps.new }
    {
        let w = self.at;
        let dart = tree.dart(g, v, self.gone[v as usize]);
        let start = self.start[w as usize];
        self.note_gone(v);
        self.go_up(v, w);
        self.add_tree_edge(alloc, g, tree, dart.edge, v, w, start, steps)
    }

    // Comes back to the root, when all darts have been traversed: the pass is over.
    pub(crate) fn come_home(
        &mut self,
        g: &Graph,
        tree: &NumberedPalmTree,
        v: u32,
    ) -> Result<(), AllocError>
        requires numbered { IsNumbered g.now tree.now }
        requires pass { IsPass g.now tree.now self.old }
        requires all { slice_index self.old.gone self.old.at
            ≡ tree_degree tree.now.palm tree.now.vertex self.old.at }
        requires not_root { self.old.at ≢ 0 }
        requires parent { v ≡ tree_parent tree.now.palm tree.now.vertex self.old.at }
        requires outer { tree_parent tree.now.palm tree.now.vertex self.old.at ≡ 0 }
        requires within { v < g.now.vertex_count }
        requires dart_left { slice_index self.old.gone v
            < tree_degree tree.now.palm tree.now.vertex v }
        requires fits { slice_index self.old.gone v + 1 < 2 ^ 64 }
        ensures home { IfOk result (λ _. IsPassed g.now tree.now self.new) }
        ensures come { IfOk result (λ _. IsCome v self.old self.new) }
        ensures cost { IfOk result (λ _. weight self.new ≤ weight self.old + 8) }
    {
        let w = self.at;
        let dart = tree.dart(g, v, self.gone[v as usize]);
        let start = self.start[w as usize];
        self.note_gone(v);
        self.go_up(v, w);
        self.push(StackEntry {
            name: dart.edge,
            up: v,
            low: w,
            tree: true,
            start,
        })
    }

    /// The edges that are left when the pass is over.
    pub(crate) fn edges<L: Ledger>(
        &self,
        alloc: Global,
        g: &Graph,
        tree: &NumberedPalmTree,
        steps: &mut Steps<L>,
    ) -> Result<Vec<NamedEdge>, AllocError>
        requires numbered { IsNumbered g.now tree.now }
        requires passed { IsPassed g.now tree.now self.now }
        ensures edges { IfOk result (λ edges. family_of edges.items
            ≡ drawn_items g.now tree.now.vertex self.now.items) }
        ensures at_most { steps.new ≤ steps.old + length self.now.items }
        ensures rises { steps.old ≤ steps.new }
    {
        edges_of(alloc, g, tree, &self.items, None, steps)
    }

    /// The finished components.
    pub(crate) fn finished(&self) -> &[Finished]
        ensures { result.now ≡ self.now.parts }
    {
        &self.finished
    }
}
