// A rotation system that may be plane, found by the left-right method (de Fraysseix and Rosenstiehl 1982; Brandes 2009).
//
// A depth-first search orients the edges: tree edges away from the root, back edges towards it. In a plane drawing each back
// edge closes a cycle with the tree, and lies on its left or its right side. Two back edges that return below a fork of the tree
// from different branches are on the same side or on different sides, which is determined by the heights to which they return; the
// graph is planar if and only if the back edges can be partitioned so that all these constraints are satisfied. One pass along the
// way of the search, with a stack of pairs of intervals of back edges, finds a partition or that it does not exist; the sides then
// determine how the edges at each vertex are nested.
//
// This is a finder: nothing is promised of what it returns, and its callers check it. That it is safe and ends on every input is
// proved; each read is defined at every place, and each loop has a bound that is known before it starts. It takes linear time,
// with stacks of its own; a test that is made many times, of one list after the other, keeps its memory.
#![tactic(auto)]

pub mod access;
mod brackets;
mod complete;
mod conflicts;
mod edges;
mod left_right;
mod orders;
mod palm;
mod signs;
mod sorting;

pub use edges::{EdgeEnds, numbers_below};
pub use left_right::{LeftRightTest, PartTest, propose_rotation};
pub use sorting::{Bins, bins_by_key};
