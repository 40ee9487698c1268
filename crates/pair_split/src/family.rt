// Edges under names: the entries of the families that are split.

/// An edge under a name, with its two ends.
#[derive(Clone, Copy, Debug, Drop, PartialEq, Eq)]
pub struct NamedEdge {
    /// The name.
    pub name: u32,
    /// One end.
    pub first: u32,
    /// The other end.
    pub second: u32,
}
