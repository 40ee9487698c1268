// Walks around the vertices of a triangulated map.

ghost use Rattle.std.specs.Prelude.{◌≡◌, ◌+◌, ◌<◌, ◌^◌, ℕ, IfOk, ◌∷◌, cond, true, length, slice_index};
ghost use Rattle.permutations.specs.Count.{some};
ghost use Rattle.permutations.specs.Members.{is_distinct, is_member};
ghost use Rattle.multigraph.specs.Darts.{dart_count};
ghost use Rattle.canonical_orders.specs.State.{IsTriangulatedMap, arms_after, heads_of, leads_on, ring_of};

use std::alloc::{AllocError, Global};
use triangulations::DartMap;

// Puts the darts around the vertex that `first` leaves into `darts`, from `first` on.
pub(crate) fn around(map: &DartMap, first: u32, darts: &mut Vec<u32>) -> Result<(), AllocError>
    requires triangulated { IsTriangulatedMap map.now }
    requires first_in { first < dart_count map.now.graph }
    ensures { IfOk result (λ _. darts.new.items ≡ ring_of map.now first) }
{
    darts.clear();
    darts.push(first)?;
    let mut dart = map.next(first);
    while dart != first {
        darts.push(dart)?;
        dart = map.next(dart);
    }
    Ok(())
}

// The darts that follow `first` around its vertex, up to the first one that leads to a vertex that is on.
pub(crate) fn arms(
    alloc: Global,
    map: &DartMap,
    on: &[bool],
    first: u32,
) -> Result<Vec<u32>, AllocError>
    requires triangulated { IsTriangulatedMap map.now }
    requires first_in { first < dart_count map.now.graph }
    requires on_each { length on.now ≡ map.now.graph.vertex_count }
    requires some_on { some (dart_count map.now.graph) (leads_on map.now on.now first) ≡ true }
    ensures { IfOk result (λ darts. darts.items ≡ arms_after map.now on.now first) }
{
    let mut darts = Vec::new(alloc);
    let mut dart = map.next(first);
    while !on[map.head(dart) as usize] {
        darts.push(dart)?;
        dart = map.next(dart);
    }
    darts.push(dart)?;
    Ok(darts)
}

// The vertices where `first` and the arms lead.
pub(crate) fn heads(
    alloc: Global,
    map: &DartMap,
    first: u32,
    arms: &[u32],
) -> Result<Vec<u32>, AllocError>
    requires first_in { first < dart_count map.now.graph }
    requires arms_in { (k : ℕ) → k < length arms.now → slice_index arms.now k < dart_count map.now.graph }
    ensures { IfOk result (λ heads. heads.items ≡ heads_of map.now.graph (first ∷ arms.now)) }
{
    let mut heads = Vec::new(alloc);
    heads.push(map.head(first))?;
    for arm in arms {
        heads.push(map.head(*arm))?;
    }
    Ok(heads)
}

// One more at each vertex where a dart leads.
pub(crate) fn count_up(map: &DartMap, darts: &[u32], met: &mut [u32])
    requires triangulated { IsTriangulatedMap map.now }
    requires darts_in { (k : ℕ) → k < length darts.now → slice_index darts.now k < dart_count map.now.graph }
    requires differ { is_distinct (heads_of map.now.graph darts.now) ≡ true }
    requires met_each { length met.old ≡ map.now.graph.vertex_count }
    requires small { (v : ℕ) → slice_index met.old v + 1 < 2 ^ 32 }
    ensures met_each { length met.new ≡ map.now.graph.vertex_count }
    ensures counted { (v : ℕ) → slice_index met.new v
        ≡ slice_index met.old v + cond (is_member v (heads_of map.now.graph darts.now)) 1 0 }
{
    for dart in darts {
        met[map.head(*dart) as usize] += 1;
    }
}

// One less at each vertex where a dart leads.
pub(crate) fn count_down(map: &DartMap, darts: &[u32], met: &mut [u32])
    requires triangulated { IsTriangulatedMap map.now }
    requires darts_in { (k : ℕ) → k < length darts.now → slice_index darts.now k < dart_count map.now.graph }
    requires differ { is_distinct (heads_of map.now.graph darts.now) ≡ true }
    requires met_each { length met.old ≡ map.now.graph.vertex_count }
    requires positive { (v : ℕ) → is_member v (heads_of map.now.graph darts.now) ≡ true
        → 0 < slice_index met.old v }
    ensures met_each { length met.new ≡ map.now.graph.vertex_count }
    ensures counted { (v : ℕ) → slice_index met.old v
        ≡ slice_index met.new v + cond (is_member v (heads_of map.now.graph darts.now)) 1 0 }
{
    for dart in darts {
        met[map.head(*dart) as usize] -= 1;
    }
}
