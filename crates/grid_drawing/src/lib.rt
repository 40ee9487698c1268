// Straight-line drawings of a graph with a rotation system: a drawing on the grid, and the exact check of one.
//
// A drawing has a point with whole coordinates for each vertex, and each edge is the segment between the points of its ends. It is
// right where different vertices have different points, edges meet in common ends only, no edge goes through a third vertex, and
// the edges around each vertex are met counterclockwise in the order of the rotation system. `is_drawing` is true exactly there.
// All tests are exact: twice the area of a triangle is compared as two sums of products, and nothing is divided (plane_points has
// the theory).
//
// `draw` makes such a drawing of a connected graph with a plane rotation system, on the grid of width 2n - 4 and height n - 2 for n
// vertices (de Fraysseix, Pach and Pollack 1990): the graph is triangulated, the vertices of the triangulation are put into a
// canonical order, and stacked in this order by the shift method. The edges that were added are left out again: a part of a drawing
// is a drawing, and a part of a list that goes counterclockwise does so too. Which drawing it is, no contract says. Parallel edges are
// not drawn: `first_parallel` returns the least pair, and `draw` refuses it.
//
// The lemmas (module of proofs/ in front):
//   Pairs     clear-told: two segments meet at most in common ends exactly where the test by their ends says so
//   SameEnds  met-one, met-none: a later edge with the same ends, found among the edges at one of them
//   SameEnds  pair-first: the least edge that has one, and the least such one, are the least pair
//   OfMaps    drawn_is_drawing: from a drawing of a triangulation under its contour to one of the graph; grid-drawn: on the grid
//   TwoVertices  two-drawn: two vertices; none-parallel: no two edges have the same ends
//   Shifted   peeled, shifted: what the shift method asks for and returns
#![tactic(auto)]

mod checking;
mod drawing;
mod laws;
mod parallel;
mod points;
mod turning;

pub use checking::is_drawing;
pub use drawing::{DrawFault, draw};
pub use laws::triangulations_draw_graphs;
pub use parallel::first_parallel;
pub use points::Points;
