// Blocks, cut vertices and components of a multigraph.
//
// Two edges are in the same block where they are equal or lie on a common cycle, and this is an equivalence (Whitney 1932). A
// depth-first search makes a forest in which each edge joins a vertex to an ancestor; the low point of a vertex is the least
// depth that its descendants' edges lead to, and where nothing leads past the parent of a vertex, the edge to the parent
// begins a block (Tarjan 1972; Hopcroft and Tarjan 1973). This crate finds the blocks in linear time, by the forest and the
// low vertices of search_forest. It promises that they are exactly the classes of that equivalence, each once, in order of
// their least edges, that the cut vertices are those with edges of two blocks, and that the components are the classes that
// edges connect. `is_one_block` tests whether a graph is one block.
#![tactic(auto)]

mod cuts;
mod finding;
pub mod laws;
mod numbering;
mod one_block;
mod spread;
mod structure;

pub use one_block::is_one_block;
pub use structure::{Blocks, split};
