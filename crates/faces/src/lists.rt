// The lists of faces, viewed as lists by contracts.
ghost use Rattle.std.specs.Prelude.{[], ◌<◌, ◌≤◌, ◌≡◌, length, slice_index_or, ℕ};
ghost use Rattle.multigraph.specs.Graph.{max_darts};

use multigraph::FlatLists;
use std::marker::Model;

/// The faces of a rotation system, numbered from 0: at most 100,000.
#[derive(Debug, Drop)]
pub struct Faces {
    faces: FlatLists<(u32, u32)>,
}

impl Model for Faces {
    ghost use Rattle.std.specs.Prelude.{List, length, ℕ, ◌≤◌};
    ghost use Rattle.multigraph.specs.Graph.{max_darts};

    ghost Value = { List (List (ℕ × ℕ)) };

    ghost view = { λ list. list.faces };

    ghost invariant = { λ list. length list.faces ≤ max_darts };
}

impl Faces {
    // These faces: of each the pairs of a vertex and an edge along it, where it leaves the vertex by the edge.
    pub(crate) fn of(faces: FlatLists<(u32, u32)>) -> Faces
        requires { length faces ≤ max_darts }
        ensures { result ≡ faces }
    {
        Faces { faces }
    }

    /// The number of faces.
    pub fn count(&self) -> u32
        ensures { result ≡ length self.now }
    {
        self.faces.len() as u32
    }

    /// The pairs of a vertex and an edge along face `i`.
    pub fn face(&self, i: u32) -> &[(u32, u32)]
        requires { i < length self.now }
        ensures { result.now ≡ slice_index_or self.now i [] }
    {
        self.faces.at(i as usize)
    }
}
