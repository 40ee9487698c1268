// Rotation systems of multigraphs.
//
// A rotation system gives each vertex of a multigraph a cyclic order of the edges at it. It represents a drawing of the graph
// on an oriented surface, where it says in which order the edges leave each vertex (Heffter 1891, Edmonds 1960).
// Contracts view a rotation system as the list, for each vertex, of its edges in cyclic order from the least one on, so that
// two rotation systems are the same exactly where they are equal. `Lists` are lists of edges as they are given from outside,
// for some vertices, in order of the vertices; `Rotation::from_lists` takes those that permute the edges of each vertex, and
// names the least vertex at which they do not.
#![tactic(auto)]

mod arrangement;
mod entries;
mod faults;
pub mod laws;
mod linking;
mod outer;
mod rings;
mod round;
mod system;

pub use entries::Lists;
pub use faults::RotFault;
pub use round::RotIter;
pub use system::Rotation;
