// In a plane rotation system of a block the groups of each node of its tree are in runs: theory without code that runs.
//
// For a node of the tree the edges of the block are in groups, one for each of its items: an edge that it has itself, or all
// edges on the far side of a link. The main theorem is that around each of the node's vertices a plane rotation system has the
// edges of each group side by side. Of two linked nodes one is a polygon or triconnected. Viewed from it, the group of the link
// is connected without the vertex, through the link's other end; and so are the other edges at the vertex, without that other
// end, along paths that represent the skeleton's edges. The two meet at the vertex alone. So in the plane map of these edges,
// with the vertex opened, they are apart; but two connections that alternate around a vertex of a plane map would meet (a form
// of the Jordan curve theorem). Also: a skeleton as a graph of its own is a graph, its edges represent paths of the block
// (Tutte 1966; Di Battista and Tamassia 1996), and that of a triconnected node is a triconnected graph.
//
// The lemmas that are used most, by their modules in proofs/:
//   Reach          reach, reach-both, reach-path: edges of a block that meet the others in two vertices alone
//   EdgesInOrder   edges-in_order: edges visited in this order around a vertex, as darts of a restriction
//   Opened         around-joined, around-apart: connection in a restriction with a vertex opened
//   Cut            inside-both: at a vertex of a plane rotation system two such sets of edges don't cross
//   Items          item-at, item-meet, item-reach, item-joined, item-path: the group of an item of a component
//   Sturdy         sturdy-simple, sturdy-linked: polygons and triconnected skeletons beside an edge
//   NodeFits       vertex-skeleton, vertex-fits, item-first, item-second, key-fits: what a node has, in the graph
//   Contiguous     uncrossed, in-runs: the main theorem at a vertex of a node
//   SkeletonGraph  skeleton-graph, graph-ends, place-at, place-once: skeletons as graphs
//   ItemPaths      path-through: an edge of a skeleton represents a path
#![tactic(auto)]

ghost use Rattle.skeletons.specs.Laws.{PlaneIsContiguous, SkeletonIsTriconnected};
ghost use Rattle.skeleton_runs.specs.Laws.{SkeletonIsGraph, ItemIsPath};

/// The law that in every plane rotation system of a block, at each vertex of each node of its tree, the edges of each group
/// are in one run.
pub fn plane_groups_stand_in_runs()
    ensures contiguous { PlaneIsContiguous }
{}

/// The law that the skeleton of each node, as a graph of its own, is a graph, and that of a triconnected node a triconnected
/// graph.
pub fn skeletons_are_graphs()
    ensures graph { SkeletonIsGraph }
    ensures triconnected { SkeletonIsTriconnected }
{}

/// The law that through the group of each item of a node there is a path from the one end of the item to the other that reaches
/// no other vertex of the node.
pub fn items_stand_for_paths()
    ensures path { ItemIsPath }
{}
