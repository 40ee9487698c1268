// Walks, paths, cycles, connection and blocks of multigraphs: theory, and labels of what stays connected without vertices.
//
// A walk is a list of edges from a vertex on; a path is a walk that visits no vertex twice; a cycle is a walk of at least two
// different edges that returns to where it began and otherwise visits no vertex twice, so that two parallel edges are a cycle. A
// block is a class of edges under "equal or on a common cycle" (Whitney 1932). The main theorem is that this is an
// equivalence: of two cycles with a common edge, an ear of the one over the other and an arc of the other make a third.
// Each law below is a function without a body, whose contract is the theorem. The module `labels` alone has code that runs.
//
// The lemmas that are used most (each after its module of proofs/):
//   Ends        other-other, other-differs, end-cases: the two ends of an edge
//   Walks       end-append, starts-append, vertices-append, walk-append, walk-left, walk-right: walks joined and cut
//   Walks       edge-met, edge-entered, met-cases: what lies on a walk
//   Walks       first_passing: a walk cut at the first vertex that passes a test
//   Reversal    end-reverse, walk-reverse, vertices-reverse: walks in the other direction
//   Paths       walk_to_path: a walk shortened to a path, along some of its edges; path-reverse
//   Cycles      cycle-turn, cycle_from, cycle_of_paths: a cycle begun elsewhere, and made of two paths
//   Arcs        cycle_arc: between two vertices of a cycle there is an arc with a given edge of it
//   Exchange    ear_of_cycle, cycle_of_ear, block-transitive: in the same block is an equivalence
//   Labelling   labelling-merge, labelling-value: labels of what links connect without removed numbers
//   Counting    two-count, two-of, third-of: counts of two
//   Crossings   cycle-two_common, block-one_side: a cycle with edges on both sides of a division has two common vertices
//   Connection  connected-path, path-connected: connection by links and by paths is the same
//   Connected   block-connected, connected-without_none: connected graphs, and that one block is connected
//   AtVertex    at_vertex-cycle, at_vertex-block: edges at a vertex whose other ends are connected without it
//   Joined      joined-least-typed, joined-closed, joined-more, joined-path, path-joined: connection by edges that pass a test
//   Removed     step-without, least-without, closed-without, kept-without, path-without: connection when vertices are removed
//   Chains      chain-depth, below-transitive, below-between: ancestors in a search forest
//   TreePaths   frond-cycle: an edge to an ancestor closes a cycle over the parent edges on the way
//   SameLabel   same_label-block: edges whose lower ends have one label by low points are in one block
//   BlockLabel  block-same_label: edges in one block have lower ends with one label
#![tactic(auto)]

pub mod labels;

ghost use Rattle.graph_theory.specs.Laws.{BlocksReflexive, BlocksSymmetric, BlocksTransitive, BlocksUndivided, ConnectedByPath, PathConnects, JoinedByPath, PathJoins, ConnectedByPathWithout, PathConnectsWithout, LabelsTellBlocks};

/// The law that "equal or on a common cycle" is an equivalence of the edges of a graph without loops.
pub fn same_block_is_equivalence()
    ensures reflexive { BlocksReflexive }
    ensures symmetric { BlocksSymmetric }
    ensures transitive { BlocksTransitive }
{}

/// The law that a division of the edges whose sides have at most one vertex in common divides no block.
pub fn blocks_are_undivided()
    ensures undivided { BlocksUndivided }
{}

/// The law that two vertices are connected by the ends of edges exactly where a path joins them.
pub fn connection_is_by_paths()
    ensures by_path { ConnectedByPath }
    ensures by_links { PathConnects }
{}

/// The law that edges which pass a test connect two vertices exactly where a path along such edges joins them.
pub fn connection_by_some_edges_is_by_paths()
    ensures by_path { JoinedByPath }
    ensures by_links { PathJoins }
{}

/// The law that a vertex which is not removed and another one stay connected, when vertices are removed, exactly where a path
/// joins them that visits none of these.
pub fn connection_without_vertices_is_by_paths()
    ensures by_path { ConnectedByPathWithout }
    ensures by_links { PathConnectsWithout }
{}

/// The law that low points determine the blocks (Hopcroft and Tarjan 1973): in a search forest two edges are in the same block
/// exactly where their lower ends have the same label.
pub fn low_points_tell_blocks()
    ensures told { LabelsTellBlocks }
{}
