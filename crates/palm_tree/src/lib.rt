// Palm trees of a connected multigraph.
//
// A depth-first search of a connected graph grows a tree from one vertex such that each further edge, a frond, joins a vertex
// to one of its ancestors (Tarjan 1972). The low points of a vertex are the two least numbers that lead past it: the least and
// the second least of its own number and those that its descendants' fronds lead to (Hopcroft and Tarjan 1973). Edges in the
// order of what they reach, with the classes of Gutwenger and Mutzel (2001), are what the splitting of a block into its
// triconnected components goes along. This crate grows a palm tree by the search and the low vertices of search_forest, and
// adds its numbers, low points and darts in order, in time n log n. It promises each point of the definition for every
// connected graph, and in a block that later children have smaller numbers. `grow_counted` counts the turns of all loops, and
// promises that they are at most 100 for each vertex and edge.
#![tactic(auto)]

mod lists;
mod numbering;
mod sizes;
mod sorting;
mod structure;

pub use structure::PalmTree;
