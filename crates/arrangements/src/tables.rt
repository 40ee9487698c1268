// The tables of a vertex.

ghost use Rattle.std.specs.Prelude.{◌≡◌, ◌<◌, ◌≤◌, true, false, length, MatchOption, slice_index, slice_set};
ghost use Rattle.permutations.specs.Members.{is_member, place_of};
ghost use Rattle.arrangements.specs.Tables.{VertexTables, IsTables};

use std::marker::Model;

// The edges at a vertex, increasing; by the place of each edge, the rank of its block and the edge that follows it in the cyclic
// order of its block.
#[derive(Debug, Drop)]
pub(crate) struct Tables {
    edges: Vec<u32>,
    ranks: Vec<u32>,
    followers: Vec<u32>,
}

impl Model for Tables {
    ghost use Rattle.arrangements.specs.Tables.{VertexTables, IsTables};

    ghost Value = { VertexTables };

    ghost view = { λ t. record {
      edges = t.edges.items;
      ranks = t.ranks.items;
      followers = t.followers.items;
    } };

    ghost invariant = { λ t. IsTables (record {
      edges = t.edges.items;
      ranks = t.ranks.items;
      followers = t.followers.items;
    }) };
}

impl Tables {
    // These tables.
    pub(crate) fn of(edges: Vec<u32>, ranks: Vec<u32>, followers: Vec<u32>) -> Tables
        requires { IsTables (record {
          edges = edges.items;
          ranks = ranks.items;
          followers = followers.items;
        }) }
        ensures { result ≡ record {
          edges = edges.items;
          ranks = ranks.items;
          followers = followers.items;
        } }
    {
        Tables {
            edges,
            ranks,
            followers,
        }
    }

    // These are tables. For proofs alone: does nothing.
    pub(crate) fn keeps(&self)
        ensures { IsTables self.now }
    {
        let _ = &self.edges;
    }

    // How many edges there are.
    pub(crate) fn len(&self) -> usize
        ensures { result ≡ length self.now.edges }
    {
        self.edges.len()
    }

    // The edge at a place.
    pub(crate) fn edge(&self, place: usize) -> u32
        requires { place < length self.now.edges }
        ensures { result ≡ slice_index self.now.edges place }
    {
        self.edges[place]
    }

    // The rank of the block of the edge at a place.
    pub(crate) fn rank(&self, place: usize) -> usize
        requires { place < length self.now.edges }
        ensures is { result ≡ slice_index self.now.ranks place }
        ensures below { result < length self.now.edges }
    {
        self.ranks[place] as usize
    }

    // The edge that follows the one at a place in its block.
    pub(crate) fn follower(&self, place: usize) -> u32
        requires { place < length self.now.edges }
        ensures is { result ≡ slice_index self.now.followers place }
        ensures within { is_member result self.now.edges ≡ true }
    {
        self.followers[place]
    }

    // The place of an edge; `None` exactly where it is not at the vertex.
    pub(crate) fn find(&self, edge: u32) -> Option<usize>
        ensures { MatchOption result (is_member edge self.now.edges ≡ false)
            (λ p. (is_member edge self.now.edges ≡ true) × (p ≡ place_of self.now.edges edge)) }
    {
        match self.edges.binary_search(&edge) {
            Ok(place) => Some(place),
            Err(_) => None,
        }
    }

    // The place of an edge at the vertex.
    pub(crate) fn place(&self, edge: u32) -> usize
        requires { is_member edge self.now.edges ≡ true }
        ensures is { result ≡ place_of self.now.edges edge }
        ensures below { result < length self.now.edges }
        ensures holds { slice_index self.now.edges result ≡ edge }
    {
        self.find(edge).unwrap()
    }

    // Whether an edge is less than the one at a place, if there is one.
    pub(crate) fn is_less(&self, edge: u32, place: usize) -> bool
        ensures less { result ≡ true → place < length self.now.edges → edge
            < slice_index self.now.edges place }
        ensures not_less { result ≡ false → (place < length self.now.edges)
            × (slice_index self.now.edges place ≤ edge) }
    {
        place >= self.len() || edge < self.edge(place)
    }

    // Sets the edge that follows an edge in its block.
    pub(crate) fn set_follower(&mut self, edge: u32, follower: u32)
        requires edge { is_member edge self.old.edges ≡ true }
        requires follower { is_member follower self.old.edges ≡ true }
        ensures { self.new ≡ record self.old {
          followers = slice_set self.old.followers
              (place_of self.old.edges edge) follower;
        } }
    {
        let place = self.place(edge);
        self.followers[place] = follower;
    }
}
