// The contour in arrays, while vertices are removed.

ghost use Rattle.std.specs.Prelude.{◌≡◌, ◌<◌, ℕ, not, ◌&&◌, ◌||◌, ◌==◌, false, true, IfOk, IfSome, length, slice_index, slice_set};
ghost use Rattle.permutations.specs.Count.{some};
ghost use Rattle.permutations.specs.Members.{is_distinct, is_member};
ghost use Rattle.multigraph.specs.Darts.{dart_count, tail};
ghost use Rattle.multigraph.specs.Marks.{is_marked};
ghost use Rattle.canonical_orders.specs.State.{AreEntered, IsMet, IsReady, IsTakenOff, IsTriangulatedMap, can_leave, heads_of, third_darts};

use crate::removal::Removal;
use crate::rings::{arms, around, count_down, count_up, heads};
use std::alloc::{AllocError, Global};
use triangulations::DartMap;

// For each vertex its dart to the left neighbour on the contour, whether it is on the contour, and how many of its neighbours are.
#[derive(Debug, Drop)]
pub(crate) struct Contour {
    pub(crate) left: Vec<u32>,
    pub(crate) on: Vec<bool>,
    pub(crate) met: Vec<u32>,
    // The darts around the vertex that was passed last.
    pub(crate) ring: Vec<u32>,
}

impl Contour {
    // Whether the vertex can be removed next.
    fn is_free(&self, map: &DartMap, vertex: u32) -> bool
        requires triangulated { IsTriangulatedMap map.now }
        requires met { IsMet map.now.graph self.now.on.items self.now.met.items }
        ensures { result ≡ can_leave map.now.graph self.now.on.items self.now.met.items vertex }
    {
        vertex < map.vertex_count()
            && self.on[vertex as usize]
            && vertex != map.tail(0)
            && vertex != map.head(0)
            && self.met[vertex as usize] == 2
    }

    // The last of the waiting vertices that can be removed; those after it are dropped.
    fn waiting_free(&self, map: &DartMap, waiting: &mut Vec<u32>) -> Option<u32>
        requires triangulated { IsTriangulatedMap map.now }
        requires met { IsMet map.now.graph self.now.on.items self.now.met.items }
        ensures { IfSome result (λ v. can_leave map.now.graph self.now.on.items self.now.met.items v ≡ true) }
    {
        while let Some(vertex) = waiting.pop() {
            if self.is_free(map, vertex) {
                return Some(vertex);
            }
        }
        None
    }

    // The first vertex that can be removed, where there is one.
    fn some_free(&self, map: &DartMap) -> u32
        requires triangulated { IsTriangulatedMap map.now }
        requires met { IsMet map.now.graph self.now.on.items self.now.met.items }
        requires some_free { some map.now.graph.vertex_count
            (can_leave map.now.graph self.now.on.items self.now.met.items) ≡ true }
        ensures { can_leave map.now.graph self.now.on.items self.now.met.items result ≡ true }
    {
        for vertex in 0..map.vertex_count() {
            if self.is_free(map, vertex) {
                return vertex;
            }
        }
        unreachable!()
    }

    // A vertex that can be removed, where there is one: one that waits, else the first. A vertex can come to be one only when a neighbour
    // is removed or when it comes onto the contour, and waits since then; so the first is not looked for. No proof rests on this, and
    // it is all that linear time rests on.
    pub(crate) fn next_free(&self, map: &DartMap, waiting: &mut Vec<u32>) -> u32
        requires triangulated { IsTriangulatedMap map.now }
        requires met { IsMet map.now.graph self.now.on.items self.now.met.items }
        requires some_free { some map.now.graph.vertex_count
            (can_leave map.now.graph self.now.on.items self.now.met.items) ≡ true }
        ensures { can_leave map.now.graph self.now.on.items self.now.met.items result ≡ true }
    {
        match self.waiting_free(map, waiting) {
            Some(vertex) => vertex,
            None => self.some_free(map),
        }
    }

    // Puts the vertex that `dart` leaves on the contour.
    fn mark(&mut self, map: &DartMap, dart: u32) -> Result<(), AllocError>
        requires triangulated { IsTriangulatedMap map.now }
        requires dart_in { dart < dart_count map.now.graph }
        requires met { IsMet map.now.graph self.old.on.items self.old.met.items }
        requires unmarked { is_marked self.old.on.items (tail map.now.graph dart) ≡ false }
        ensures left { IfOk result (λ _. self.new.left.items ≡ self.old.left.items) }
        ensures marked { IfOk result (λ _. (v : ℕ) → is_marked self.new.on.items v
            ≡ (is_marked self.old.on.items v || (v == tail map.now.graph dart))) }
        ensures met { IfOk result (λ _. IsMet map.now.graph self.new.on.items self.new.met.items) }
    {
        self.on[map.tail(dart) as usize] = true;
        around(map, dart, &mut self.ring)?;
        count_up(map, &self.ring, &mut self.met);
        Ok(())
    }

    // Takes the vertex that `dart` leaves off the contour.
    fn unmark(&mut self, map: &DartMap, dart: u32) -> Result<(), AllocError>
        requires triangulated { IsTriangulatedMap map.now }
        requires dart_in { dart < dart_count map.now.graph }
        requires met { IsMet map.now.graph self.old.on.items self.old.met.items }
        requires marked { is_marked self.old.on.items (tail map.now.graph dart) ≡ true }
        ensures left { IfOk result (λ _. self.new.left.items ≡ self.old.left.items) }
        ensures marked { IfOk result (λ _. (v : ℕ) → is_marked self.new.on.items v
            ≡ (is_marked self.old.on.items v && not (v == tail map.now.graph dart))) }
        ensures met { IfOk result (λ _. IsMet map.now.graph self.new.on.items self.new.met.items) }
    {
        self.on[map.tail(dart) as usize] = false;
        around(map, dart, &mut self.ring)?;
        count_down(map, &self.ring, &mut self.met);
        Ok(())
    }

    // Makes `dart` the contour's dart of the vertex that it leaves.
    pub(crate) fn enter(&mut self, map: &DartMap, dart: u32) -> Result<(), AllocError>
        requires triangulated { IsTriangulatedMap map.now }
        requires dart_in { dart < dart_count map.now.graph }
        requires left_each { length self.old.left.items ≡ map.now.graph.vertex_count }
        requires met { IsMet map.now.graph self.old.on.items self.old.met.items }
        ensures left { IfOk result (λ _. self.new.left.items
            ≡ slice_set self.old.left.items (tail map.now.graph dart) dart) }
        ensures marked { IfOk result (λ _. (v : ℕ) → is_marked self.new.on.items v
            ≡ (is_marked self.old.on.items v || (v == tail map.now.graph dart))) }
        ensures met { IfOk result (λ _. IsMet map.now.graph self.new.on.items self.new.met.items) }
    {
        let vertex = map.tail(dart);
        self.left[vertex as usize] = dart;
        if !self.on[vertex as usize] {
            self.mark(map, dart)?;
        }
        Ok(())
    }

    // Makes the third darts of the triangles of the arms darts of the contour.
    fn enter_all(&mut self, map: &DartMap, arms: &[u32]) -> Result<(), AllocError>
        requires triangulated { IsTriangulatedMap map.now }
        requires arms_in { (k : ℕ) → k < length arms.now → slice_index arms.now k < dart_count map.now.graph }
        requires differ { is_distinct (heads_of map.now.graph arms.now) ≡ true }
        requires left_each { length self.old.left.items ≡ map.now.graph.vertex_count }
        requires met { IsMet map.now.graph self.old.on.items self.old.met.items }
        ensures left { IfOk result (λ _. AreEntered map.now.graph
            (third_darts map.now arms.now) self.old.left.items self.new.left.items) }
        ensures marked { IfOk result (λ _. (v : ℕ) → is_marked self.new.on.items v
            ≡ (is_marked self.old.on.items v || is_member v (heads_of map.now.graph arms.now))) }
        ensures met { IfOk result (λ _. IsMet map.now.graph self.new.on.items self.new.met.items) }
    {
        for arm in arms {
            self.enter(map, map.face(*arm))?;
        }
        Ok(())
    }

    // Removes a free vertex from the contour.
    pub(crate) fn remove(
        &mut self,
        alloc: Global,
        map: &DartMap,
        vertex: u32,
    ) -> Result<Removal, AllocError>
        requires triangulated { IsTriangulatedMap map.now }
        requires ready { IsReady map.now self.old.left.items self.old.on.items self.old.met.items vertex }
        ensures { IfOk result (λ removal.
            (p : IsReady map.now self.old.left.items self.old.on.items self.old.met.items vertex)
            → IsTakenOff map.now p.contour self.new.left.items self.new.on.items self.new.met.items vertex removal) }
    {
        let first = self.left[vertex as usize];
        let arms = arms(alloc, map, &self.on, first)?;
        let heads = heads(alloc, map, first, &arms)?;
        self.unmark(map, first)?;
        self.enter_all(map, &arms)?;
        Ok(Removal::of(vertex, heads))
    }
}
