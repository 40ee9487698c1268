// Paths in graphs, found by a search in the order of distance (Moore 1959).
//
// `path_along` returns a path between two vertices along some edges, where there is one. The search notes for each vertex an edge
// that leads a step nearer to the one at which it begins; the path back along these edges meets no vertex twice, as each step leads
// to a vertex that was found earlier. `add_once` keeps the list of what was found, as searches of other crates do too.
//
// The lemmas that are used most (module of proofs/ in front):
//   Listed       listed-more, grows-more: numbers that are appended to a list once, each with a note
//   SearchSteps  search-begin, search-next, search-done: the search
//   SearchSteps  way-begin, way-next, way-done, way-short: the way back
//   PartPaths    part-joined, outer-path: a path in a part of a graph is one in the graph
#![tactic(auto)]

mod listing;
mod search;

pub use listing::add_once;
pub use search::path_along;
