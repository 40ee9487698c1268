// Depth-first search forests of a multigraph, with the two low vertices of each vertex.
//
// A depth-first search grows a forest in which each further edge, a frond, joins a vertex to one of its ancestors (Tarjan
// 1972). The low vertices of a vertex are the two least deep of itself and the vertices that the fronds of its descendants lead
// to (Hopcroft and Tarjan 1973). Blocks and palm trees are read off from them. The search has a stack of its own, takes linear
// time, and begins at each vertex that was not visited (`Forest::of`), or at vertex 0 of a connected graph
// (`Forest::of_connected`). It promises what holds of the finished forest, and how many steps were taken: exactly one for each
// end of an edge and one for each vertex, and in the search of all trees one for each vertex as a possible root.
//
// The lemmas that are used most (module of proofs/ in front):
//   Over      over-seen, over-forest: every edge was seen, and the forest is a search forest
//   Grown     parent-in, parent-depth, lower-in, upper-in, upper-below, tree-is, tree-upper, order-member, order-from
//   Lows      first-in, second-in, first-own: what holds of low vertices at each stage
//   Orders    order-each: each vertex has one place in the order
//   Writes    number-same, number-other, marked-in: lists of numbers and marks after a write
#![tactic(auto)]

mod low_points;
mod search;

pub use low_points::Low;
pub use search::Forest;
