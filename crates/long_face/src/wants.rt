// What is wanted of the nodes.

/// What is wanted of a node of a block's tree: that the face of `dart` of its skeleton be a part of a long face. The skeleton of a
/// triconnected node is `turned` for it or not; in a bond item `second` follows item `first` around the lesser pole. Other fields have
/// no meaning for nodes of other kinds.
#[derive(Clone, Copy, Debug, Drop, PartialEq, Eq)]
pub struct Want {
    /// A dart of the face.
    pub dart: u32,
    /// Whether the node is turned.
    pub turned: bool,
    /// An item of the bond.
    pub first: u32,
    /// The item that follows it.
    pub second: u32,
}
