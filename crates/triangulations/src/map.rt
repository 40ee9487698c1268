// A graph with a map of its darts.

ghost use Rattle.std.specs.Prelude.{◌≡◌, ◌≢◌, ◌+◌, ◌^◌, ◌<◌, slice_index, IfOk};
ghost use Rattle.multigraph.specs.Darts.{dart_count, tail, twin};
ghost use Rattle.dart_maps.specs.Map.{face};
ghost use Rattle.triangulations.specs.Listed.{IsCut, IsListed, IsMapOf, listed};

use multigraph::twin;
use std::alloc::AllocError;
use std::marker::Model;

/// A graph with a map of its darts: for each dart the one that follows it around the vertex that it leaves, and the one that it
/// follows. Edge e has the darts 2e, from its first end, and 2e + 1, from its second. The number of darts is below 2^32.
#[derive(Debug, Drop)]
pub struct DartMap {
    vertices: u32,
    ends: Vec<(u32, u32)>,
    next: Vec<u32>,
    prev: Vec<u32>,
}

impl Model for DartMap {
    ghost use Rattle.triangulations.specs.Listed.{ListedMap, IsListed, listed};

    ghost Value = { ListedMap };

    ghost view = { λ map. listed map.vertices map.ends.items map.next.items map.prev.items };

    ghost invariant = { λ map.
        IsListed (listed map.vertices map.ends.items map.next.items map.prev.items) };
}

impl DartMap {
    /// The number of vertices.
    pub fn vertex_count(&self) -> u32
        ensures { result ≡ self.now.graph.vertex_count }
    {
        self.vertices
    }

    /// The number of darts, two for each edge.
    pub fn dart_count(&self) -> u32
        ensures value { result ≡ dart_count self.now.graph }
        ensures listed { IsListed self.now }
    {
        self.next.len() as u32
    }

    /// The vertex that the dart leaves.
    pub fn tail(&self, dart: u32) -> u32
        requires { dart < dart_count self.now.graph }
        ensures { result ≡ tail self.now.graph dart }
    {
        let (first, second) = self.ends[dart as usize / 2];
        if dart % 2 == 0 { first } else { second }
    }

    /// The vertex where the dart arrives.
    pub fn head(&self, dart: u32) -> u32
        requires { dart < dart_count self.now.graph }
        ensures { result ≡ tail self.now.graph (twin dart) }
    {
        self.tail(twin(dart))
    }

    /// The dart that follows around the vertex that the dart leaves.
    pub fn next(&self, dart: u32) -> u32
        requires { dart < dart_count self.now.graph }
        ensures { result ≡ slice_index self.now.next dart }
    {
        self.next[dart as usize]
    }

    /// The dart that it follows around this vertex.
    pub fn prev(&self, dart: u32) -> u32
        requires { dart < dart_count self.now.graph }
        ensures { result ≡ slice_index self.now.previous dart }
    {
        self.prev[dart as usize]
    }

    /// The next dart along the face: it leaves the vertex where the dart arrives.
    pub fn face(&self, dart: u32) -> u32
        requires { dart < dart_count self.now.graph }
        ensures { result ≡ face (slice_index self.now.next) dart }
    {
        self.next(twin(dart))
    }

    // The map kept in these lists.
    pub(crate) fn of(
        vertices: u32,
        ends: Vec<(u32, u32)>,
        next: Vec<u32>,
        prev: Vec<u32>,
    ) -> DartMap
        requires { IsListed (listed vertices ends.items next.items prev.items) }
        ensures { result ≡ listed vertices ends.items next.items prev.items }
    {
        DartMap {
            vertices,
            ends,
            next,
            prev,
        }
    }

    // Adds an edge that cuts off the triangle of the dart and the next one along the face, and returns the first dart of the edge,
    // which leaves the vertex of the dart.
    pub(crate) fn cut(&mut self, dart: u32) -> Result<u32, AllocError>
        requires dart { dart < dart_count self.old.graph }
        requires map { IsMapOf self.old }
        requires corners { slice_index self.old.previous dart
            ≢ twin (face (slice_index self.old.next) dart) }
        requires few { dart_count self.old.graph + 2 < 2 ^ 32 }
        ensures cut { IfOk result (λ _. IsCut self.old dart self.new) }
        ensures first { IfOk result (λ first. first ≡ dart_count self.old.graph) }
    {
        let first = self.dart_count();
        let before = self.prev(dart);
        let last = twin(self.face(dart));
        let after = self.next(last);
        let link = (self.tail(dart), self.tail(last));
        self.ends.reserve(1)?;
        self.next.reserve(2)?;
        self.prev.reserve(2)?;
        self.ends.push_reserved(link);
        self.next.push_reserved(dart);
        self.next.push_reserved(after);
        self.prev.push_reserved(before);
        self.prev.push_reserved(last);
        self.next[before as usize] = first;
        self.next[last as usize] = first + 1;
        self.prev[dart as usize] = first;
        self.prev[after as usize] = first + 1;
        Ok(first)
    }
}
