// What is returned where a graph, or one path of it, is drawn.

use rotations::Rotation;

/// What is known of a graph after paths were drawn into faces.
#[derive(Debug, Drop)]
pub enum Drawn {
    /// A plane rotation system.
    Plane(Rotation),
    /// It has no plane rotation system.
    NotPlanar,
    /// Neither was found: each path that is left fits several faces. The graph is not triconnected.
    Stuck,
}

// What came of one bridge, or of a round of bridges.
#[derive(Drop)]
pub(crate) enum Tried {
    // It fits no face, so the graph has no plane rotation system.
    NotPlanar,
    // A path of it was drawn.
    Drawn,
    // Nothing was drawn.
    Passed,
}
