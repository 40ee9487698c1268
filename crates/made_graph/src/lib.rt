// Graphs made from a number.
//
// A graph is grown from the complete graph on four vertices. In each turn two numbers are drawn, by a linear congruential
// generator (Lehmer 1951); the first picks an edge, the second one of four operations: the edge is subdivided, doubled, gets a
// path beside it, or has a complete graph on four vertices glued on. Turns are made until there are edges enough. So the same
// number gives the same graph everywhere.
//
// Each operation keeps the graph one block with a plane rotation system. One block: each new edge is on a cycle of at most four
// edges with the picked one, and a cycle through a subdivided edge goes through both halves. Plane: beside an edge the corner
// after it at the one end and the corner before it at the other are on one face, so that new edges can be inserted there one
// after the other, which keeps Euler's sum; and a subdivided edge contracts to the old one.
//
// The lemmas that are used most (each after its module of proofs/):
//   Subdivided    subdivide; Grown double-drawn, path-drawn, tetrahedron-drawn: what the operations make of a drawn graph
//   Rounds        two-cycle, three-cycle, four-cycle, kept-cycle; Added added-block, half-block: one block stays one
//   Growth        made-planar, made-size, made-turn, within-over: turn by turn
#![tactic(auto)]

mod drawing;
mod growing;
pub mod laws;
mod making;

pub use making::make_graph;
