// Multigraphs without loops.
//
// A multigraph has vertices 0..n-1 and edges 0..m-1. Each edge has a first and a second end, two different vertices, and
// several edges may have the same ends. A `Graph` is such a multigraph with the list of the edges at each vertex, increasing, so
// that the edges at a vertex are read without reading the others. Contracts view a graph as its number of vertices and the
// ends of its edges; that the ends are vertices, that no edge is a loop and that the graph is within the limits holds of every
// `Graph`.
//
// `Sequence` is a vector that contracts view as a list: `Numbers` and `NumberLists` are two of this kind. `FlatLists` keeps lists one after
// the other in two vectors.
#![tactic(auto)]

mod buckets;
mod darts;
mod faults;
mod flat_lists;
mod incidence;
pub mod laws;
mod lists;
mod parts;
mod structure;

pub use buckets::places_of;
pub use darts::{dart_count, dart_from, head, tail, twin};
pub use faults::BuildFault;
pub use flat_lists::FlatLists;
pub use lists::{NumberLists, Numbers, Sequence};
pub use parts::Part;
pub use structure::{Graph, MAX_EDGES, MAX_VERTICES};
