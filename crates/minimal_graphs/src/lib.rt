// Triconnected graphs that have a plane rotation system only when an edge is left out, any edge: they are K5 and K3,3.
//
// A triconnected graph without plane rotation system has a subdivision of K5 or K3,3 (Kuratowski 1930). If the part that all
// edges but e make has a plane rotation system, it has no such subdivision, so each subdivision of the graph has edge e. Where
// this is so of each edge, a subdivision has all edges. Then no vertex is inside a path of it: each vertex of a triconnected
// graph has at least three edges, and at most two of a path have a vertex inside it as an end, which is on no other path. So each
// path is one edge, and each vertex a branch vertex, and the graph is the pattern itself.
//
// The part without e has the vertices of the graph, under the same numbers, as each has three edges. It is one block, so that it
// can be decided by its tree: without e and any vertex v the other vertices stay connected. For they are in the graph without v
// and an end of e; and the end of e that was removed has an edge to a third vertex.
//
// In the written form of the subdivision, which is the whole graph, the vertices that no edge joins with the vertex 0 are the side
// of the first branch vertex: one of K5, three of K3,3. So `read_off` finds the branch vertices without a search, and an edge for
// each path.
//
// The lemmas that are used most (preceded by their module of proofs/):
//   Renamed  renamed-path, renamed-subdivision: walks, paths and subdivisions along edges that have other numbers in another graph
//   OneLess  stays, one_less-block: what stays connected without an edge and a vertex
//   Without  without-block, needed-edge: the part of all edges but one
//   Covered  path-one, vertex-branch: a subdivision that has all edges
//   Sides    sides-branch, pair-joined, edges-written: the branch vertices by sides, and an edge for each path
//   ReadOff  read-branch, read-written: what is read off
#![tactic(auto)]

mod reading;

ghost use Rattle.minimal_graphs.specs.Laws.{MinimalIsPattern, OneEdgeLessIsBlock, SidesAreBranches};

pub use reading::read_off;

/// The law that the part of a triconnected graph that all edges but one make is one block.
pub fn one_edge_less_is_a_block()
    ensures { OneEdgeLessIsBlock }
{}

/// The law that a triconnected graph that has no plane rotation system, but has one when any edge is left out, is K5 or K3,3
/// (Kuratowski 1930).
pub fn minimal_graphs_are_patterns()
    ensures { MinimalIsPattern }
{}

/// The law that in a graph that is K5 or K3,3 the vertices that no edge joins with the vertex 0, and then the others, are the
/// branch vertices in their written order; and that an edge joins each two that a path joins.
pub fn sides_are_branches()
    ensures { SidesAreBranches }
{}
