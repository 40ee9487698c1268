// The numbers that are kept of each vertex while the vertices are placed.

ghost use Rattle.std.specs.Prelude.{◌≡◌, ◌+◌, ◌*◌, ◌<◌, ◌≤◌, ◌^◌, ℕ, true, length, IfOk, slice_index};
ghost use Rattle.permutations.specs.Members.{is_member};
ghost use Rattle.shift_method.specs.Shapes.{ShapeState, IsShapeOf, fresh, total, widened, covered, with_widened, with_covered, raised, with_gap, placed, all_placed, CanStack};
ghost use Rattle.shift_method.specs.Peeled.{IsPeeled};

use canonical_orders::Removal;
use std::alloc::{AllocError, Global};
use std::marker::Model;

// One more before the first and one more before the last of these vertices.
fn widen(gap: &mut [u32], vertices: &[u32])
    requires some { 0 < length vertices.now }
    requires within { (v : ℕ) → is_member v vertices.now ≡ true → v < length gap.old }
    requires fits { (v : ℕ) → is_member v vertices.now ≡ true → slice_index gap.old v + 2 < 2 ^ 32 }
    ensures { gap.new ≡ widened gap.old vertices.now }
{
    gap[vertices[0] as usize] += 1;
    gap[vertices[vertices.len() - 1] as usize] += 1;
}

// Notes for each of these vertices the sum of the gaps up to it; returns the sum of all.
fn cover(offset: &mut [u32], gap: &[u32], vertices: &[u32]) -> u32
    requires gap_within { (v : ℕ) → is_member v vertices.now ≡ true → v < length gap.now }
    requires offset_within { (v : ℕ) → is_member v vertices.now ≡ true → v < length offset.old }
    requires fits { total (slice_index gap.now) vertices.now < 2 ^ 32 }
    ensures sum { result ≡ total (slice_index gap.now) vertices.now }
    ensures offset { offset.new ≡ covered (slice_index gap.now) 0 vertices.now offset.old }
{
    let mut sum = 0;
    for v in vertices {
        sum += gap[*v as usize];
        offset[*v as usize] = sum;
    }
    sum
}

// Of each vertex: how far it lies to the right of its left neighbour on the contour (`gap`), its height, how far it lay to the
// right of its first head when it was placed (`half`), and how far to the right of the first head of the vertex that covers it
// (`offset`).
#[derive(Drop)]
pub(crate) struct Shape {
    gap: Vec<u32>,
    height: Vec<u32>,
    half: Vec<u32>,
    offset: Vec<u32>,
}

impl Model for Shape {
    ghost use Rattle.shift_method.specs.Shapes.{ShapeState};

    ghost Value = { ShapeState };

    ghost view = { λ s. record {
      gap = s.gap.items;
      height = s.height.items;
      half = s.half.items;
      offset = s.offset.items;
    } };
}

impl Shape {
    // The numbers before any vertex was placed on the base.
    pub(crate) fn new(alloc: Global, vertices: u32) -> Result<Shape, AllocError>
        ensures fresh { IfOk result (λ s. s ≡ fresh vertices) }
    {
        let n = vertices as usize;
        Ok(Shape {
            gap: vec![in alloc; 0; n]?,
            height: vec![in alloc; 0; n]?,
            half: vec![in alloc; 0; n]?,
            offset: vec![in alloc; 0; n]?,
        })
    }

    // The gap before the vertex.
    pub(crate) fn gap(&self, vertex: u32) -> u32
        requires { vertex < length self.now.gap }
        ensures { result ≡ slice_index self.now.gap vertex }
    {
        self.gap[vertex as usize]
    }

    // The height of the vertex.
    pub(crate) fn height(&self, vertex: u32) -> u32
        requires { vertex < length self.now.height }
        ensures { result ≡ slice_index self.now.height vertex }
    {
        self.height[vertex as usize]
    }

    // How far the vertex lay to the right of its first head.
    pub(crate) fn half(&self, vertex: u32) -> u32
        requires { vertex < length self.now.half }
        ensures { result ≡ slice_index self.now.half vertex }
    {
        self.half[vertex as usize]
    }

    // How far the vertex lies to the right of the first head of the vertex that covers it.
    pub(crate) fn offset(&self, vertex: u32) -> u32
        requires { vertex < length self.now.offset }
        ensures { result ≡ slice_index self.now.offset vertex }
    {
        self.offset[vertex as usize]
    }

    // One more before the first and one more before the last of these vertices.
    fn widen(&mut self, vertices: &[u32])
        requires some { 0 < length vertices.now }
        requires within { (v : ℕ) → is_member v vertices.now ≡ true → v < length self.old.gap }
        requires fits { (v : ℕ) → is_member v vertices.now ≡ true
            → slice_index self.old.gap v + 2 < 2 ^ 32 }
        ensures { self.new ≡ with_widened self.old vertices.now }
    {
        widen(&mut self.gap, vertices);
    }

    // Notes for each of these vertices the sum of the gaps up to it; returns the sum of all.
    fn cover(&mut self, vertices: &[u32]) -> u32
        requires gap_within { (v : ℕ) → is_member v vertices.now ≡ true → v < length self.old.gap }
        requires offset_within { (v : ℕ) → is_member v vertices.now ≡ true → v < length self.old.offset }
        requires fits { total (slice_index self.old.gap) vertices.now < 2 ^ 32 }
        ensures sum { result ≡ total (slice_index self.old.gap) vertices.now }
        ensures offset { self.new ≡ with_covered self.old vertices.now }
    {
        cover(&mut self.offset, &self.gap, vertices)
    }

    // The vertex has this height, and lies `half` to the right of its left neighbour.
    fn raise(&mut self, vertex: u32, half: u32, height: u32)
        requires gap_within { vertex < length self.old.gap }
        requires height_within { vertex < length self.old.height }
        requires half_within { vertex < length self.old.half }
        ensures { self.new ≡ raised self.old vertex half height }
    {
        self.gap[vertex as usize] = half;
        self.height[vertex as usize] = height;
        self.half[vertex as usize] = half;
    }

    // The vertex lies `gap` to the right of its left neighbour.
    fn set_gap(&mut self, vertex: u32, gap: u32)
        requires { vertex < length self.old.gap }
        ensures { self.new ≡ with_gap self.old vertex gap }
    {
        self.gap[vertex as usize] = gap;
    }

    // Places one vertex over its heads, so that the edges to the first and to the last one have slopes 1 and -1.
    fn place(&mut self, vertex: u32, heads: &[u32])
        requires stack { (n : ℕ) × IsShapeOf n self.old × (2 * n ≤ 2 ^ 32)
            × CanStack n (slice_index self.old.gap) (slice_index self.old.height) vertex heads.now }
        ensures { self.new ≡ placed self.old vertex heads.now }
    {
        let rest = &heads[1..];
        let last = rest[rest.len() - 1];
        let left = self.height(heads[0]);
        let right = self.height(last);
        self.widen(rest);
        let width = self.cover(rest);
        let half = (width + right - left) / 2;
        self.raise(vertex, half, left + half);
        self.set_gap(last, width - half);
    }

    // Places the vertices, the last one first.
    pub(crate) fn place_all(&mut self, removals: &[Removal])
        requires peeled { (left right : ℕ) × IsPeeled (length self.old.gap) left right removals.now }
        requires small { 2 * length self.old.gap ≤ 2 ^ 32 }
        requires fresh { self.old ≡ fresh (length self.old.gap) }
        ensures { self.new ≡ all_placed self.old removals.now }
    {
        let mut k = removals.len();
        while k > 0 {
            k -= 1;
            self.place(removals[k].vertex(), removals[k].heads());
        }
    }
}
