// Canonical orders of triangulations (de Fraysseix, Pach and Pollack 1990).
//
// In a plane map whose faces are all triangles, the face of dart 0, from v1 to v2, is the outer one. Vertices are removed one after the
// other; the outer face of those that stay is a cycle, the contour, from v1 at the left to v2 at the right, and all other faces stay
// triangles. The contour is the list of the darts from each vertex on it to its left neighbour. A vertex may be removed where it is on
// the contour, is not v1 or v2, and has no other neighbours on the contour than the two next to it: its other neighbours then come onto
// the contour in its place, in the order in which they are around it. There is such a vertex as long as a third vertex stays: chords
// of the contour do not cross, and a vertex next to the end of a shortest chord, on its inner side, has none. Read backwards, each
// vertex is stacked on the contour of those before it, from above, and has two neighbours or more there, next to one another: what a
// drawing on a grid by shifts is made from.
//
// `peel` returns such an order of a triangulated map, with the neighbours of each removed vertex from left to right. In linear time:
// around each vertex its darts are passed twice, when it comes onto the contour and when it is removed. A count of the neighbours on
// the contour is kept for each vertex; those that can be removed wait on a stack. Only running out of memory has no cause in a clause.
// The map is never changed: what stays is a test on vertices, and what follows a dart then is the restriction of the permutation.
//
// The lemmas that are used most (module of proofs/ in front):
//   Lists        ends-with, last-cut, image-once, turn-forward, turn-backward: the last member, images, members in turn
//   Walks        restricted-fewer, -over, -after, -two: the four ways in which a walk changes; passing-first, passing-last: what is left
//                of a ring, and where it ends; passing-is
//   Triangles    third, third-vertex: the triangle of the dart after a dart; stays-both, stays-tail, stays-head
//   ContourParts contour-dart, same-dart, goes-to, leads-to, leads-once, around: the darts of a contour and what follows them
//   FreeVertex   free-vertex, free-at: a contour has a free vertex; ChordThree contour-three; Chords chords-apart
//   Arms         own-arms, is-arm, is-head: the arms are the darts of the removed vertex that stay
//   Removing     removal-keeps: a contour is left; Stacking removal-stacked; Starting triangle-contour, last-contour
//   Taking       some-on, found-all: what the code finds at a free vertex is a removal
//   PartOrders   part-free, part-ready, part-step, part-end: an order so far, with one removal more, and at its end
#![tactic(auto)]

mod contour;
mod laws;
mod peeling;
mod removal;
mod rings;

pub use laws::{
    contours_begin_and_end, contours_go_around, removals_keep_contours, removals_stack,
};
pub use peeling::peel;
pub use removal::Removal;
