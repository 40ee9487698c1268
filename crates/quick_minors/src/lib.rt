// Few edges that are not planar, in a graph that is not planar.
//
// Whether edges are planar is decided by the left-right method. First the edges off a breadth-first tree: the least prefix of them
// is found that is not planar with the paths of the tree up from their ends, and of its edges those are kept without which the rest
// would be planar, each found by bisection. Few are left, mostly four to seven.
//
// Where the least prefix has many edges and more than a quarter of all, or where the edges off the tree are needed one by one,
// minors are looked for: edges are contracted or dropped as long as the rest is not planar, down to some ten edges. First all edges
// of a forest are contracted that are not in one of some windows; in a long and narrow graph this leaves a small one. Then pieces of
// the rest are tried. What was contracted is held together by paths.
//
// This is a part of a finder (quick_obstruct): nothing is promised of what it returns. That it is safe and ends on every input is
// proved. The tests share their memory.
#![tactic(auto)]

mod along;
mod forest;
mod minors;
mod needed;
mod prefixes;
mod shrinking;
mod thin;

pub use forest::{SearchTree, breadth_first, path_up};
pub use needed::{few_edges, few_edges_near};
pub use shrinking::shrunk_edges;
