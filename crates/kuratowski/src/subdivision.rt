// Patterns and subdivisions, as data.

ghost use Rattle.std.specs.Prelude.{◌≡◌};
ghost use Rattle.kuratowski.specs.Subdivision.{branch_count, pattern_edges};

use multigraph::{NumberLists, Numbers};

/// The pattern that is subdivided.
#[derive(Clone, Copy, Debug, Drop, PartialEq, Eq)]
pub enum Pattern {
    /// Five vertices, each two joined.
    K5,
    /// Three vertices and three others, each of the first joined with each of the others.
    K33,
}

/// A subdivision of a pattern in a graph: its branch vertices, and a path for each edge of the pattern, as a list of edges.
#[derive(Debug, Drop)]
pub struct Subdivision {
    /// The pattern.
    pub kind: Pattern,
    /// The branch vertices: five, or three of the one side and three of the other.
    pub branch: Numbers,
    /// The paths, in the order of the pattern's edges: first with second, first with third, and so on; for K3,3 the first of
    /// the one side with each of the other, then the second, then the third.
    pub paths: NumberLists,
}

// The edges of K5.
const K5_EDGES: [(usize, usize); 10] = [
    (0, 1),
    (0, 2),
    (0, 3),
    (0, 4),
    (1, 2),
    (1, 3),
    (1, 4),
    (2, 3),
    (2, 4),
    (3, 4),
];

// The edges of K3,3.
const K33_EDGES: [(usize, usize); 9] = [
    (0, 3),
    (0, 4),
    (0, 5),
    (1, 3),
    (1, 4),
    (1, 5),
    (2, 3),
    (2, 4),
    (2, 5),
];

impl Pattern {
    /// How many vertices the pattern has: five, or six.
    pub fn branch_count(self) -> usize
        ensures { result ≡ branch_count self }
    {
        match self {
            Pattern::K5 => 5,
            Pattern::K33 => 6,
        }
    }

    /// The edges of the pattern, as pairs of its vertices, in the order of the paths of a `Subdivision`: of K5 each two of the
    /// five, and of K3,3 each of the first three with each of the last three.
    pub fn edges(self) -> &'static [(usize, usize)]
        ensures { result.now ≡ pattern_edges self }
    {
        match self {
            Pattern::K5 => &K5_EDGES,
            Pattern::K33 => &K33_EDGES,
        }
    }
}
