// What distinguishes a node of the tree from the others.
ghost use Rattle.spqr_tree.specs.Laws.{VerticesTellComponents};

/// The law that in split components of a block of which no two bonds and no two polygons are linked, as in its tree, no two
/// have the same vertices. So the sorted lists of vertices number the nodes.
pub fn vertices_tell_components()
    ensures { VerticesTellComponents }
{}
