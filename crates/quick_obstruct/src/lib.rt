// What may be a subdivision of K5 or K3,3 in a graph, found by dropping edges as long as the rest is not planar.
//
// Whether the rest is planar is decided by the left-right method. First few edges are found that are not planar (quick_minors).
//
// Then the paths between vertices of degree three or more are dropped, as long as the rest is not planar; the tests see each as one
// edge. By Kuratowski (1930) what is left are the paths of a subdivision of K5 or K3,3. It is made shorter: of K5 each path is
// replaced by a shortest one that avoids all others; of K3,3 a path is also replaced by one between other places, so that it is
// a subdivision again. Last, few edges are looked for again, among its edges, those of a breadth-first tree from one of its
// branch vertices, and the first ones off this tree.
//
// K5 and K3,3 themselves are recognized without a test, and in a small graph all begins with the paths.
//
// This is a finder: nothing is promised of what it returns, and its callers check it. That it is safe and ends on every input is
// proved. The tests share their memory.
#![tactic(auto)]

mod chart;
mod itself;
mod obstruct;
mod reading;
mod segments;
mod shortening;
mod sliding;
mod tetrahedron;

pub use obstruct::propose_subdivision;
