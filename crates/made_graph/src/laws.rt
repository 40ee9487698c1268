// The laws of made graphs: each is a function without a body, whose contract is the theorem.
ghost use Rattle.made_graph.specs.Laws.{DoublingKeeps, MadeHasFork, MadeIsOfSize, MadeIsPlanarBlock, PathKeeps, SubdividingKeeps, TetrahedronKeeps};

/// The law that a planar block stays one where an edge is subdivided, doubled, gets a path beside it, or has a complete graph
/// on four vertices glued on: a new edge is on a cycle with an old one, and can be drawn beside it.
pub fn operations_keep_planar_blocks()
    ensures subdivided { SubdividingKeeps }
    ensures doubled { DoublingKeeps }
    ensures path { PathKeeps }
    ensures tetrahedron { TetrahedronKeeps }
{}

/// The law that each graph made from a number is one block with a plane rotation system and some vertex of three edges, so no
/// polygon; and that it has as many edges as were asked for or up to four more.
pub fn made_graphs_are_planar_blocks()
    ensures planar { MadeIsPlanarBlock }
    ensures fork { MadeHasFork }
    ensures size { MadeIsOfSize }
{}
