// The numbers of Euler's sum.

/// The numbers of Euler's sum of a graph with a rotation system: its vertices, edges, faces (an isolated vertex counts
/// one) and components, and whether the rotation system is plane, that is `v + f` is `e + 2 * c`.
#[derive(Debug, Clone, Copy, PartialEq, Eq)]
pub struct Euler {
    /// The number of vertices.
    pub v: u32,
    /// The number of edges.
    pub e: u32,
    /// The number of faces.
    pub f: u32,
    /// The number of components.
    pub c: u32,
    /// Whether the rotation system is plane.
    pub plane: bool,
}
