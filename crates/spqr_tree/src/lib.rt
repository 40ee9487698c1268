// The SPQR tree of a block: its split components, bonds merged with bonds and polygons with polygons, in a fixed numbering.
//
// Along its 2-separations a block falls into bonds, polygons and triconnected graphs. Where the bonds, and the polygons, that a
// virtual edge joins are merged, the result no longer depends on how the block was split (Tutte 1966; Hopcroft and Tarjan 1973).
// With these components as nodes and the virtual edges, which are in two nodes each, as links it is a tree, the SPQR tree: its
// nodes are polygons (S), bonds (P) and triconnected graphs (R); a block of one edge or two is one node of kind B (Di Battista
// and Tamassia 1996; Gutwenger and Mutzel 2001 make it in linear time).
//
// `Tree::assemble` makes it from split components, of whichever splitter, and promises `IsTutte`: the nodes are split components
// of the block, no link joins two polygons or two bonds, the nodes are in lexicographic order of their vertices, and the items
// of a node in increasing order of their keys, where the key of an edge is its number and that of a link the least edge on its
// far side. A block has only one such tree; that is a law of the crate tree_unique. It takes time n log n for n pieces, for
// sorting. `Tree::group`, the item that an edge belongs to for a node, takes time log n.
//
// The components are put into groups by a search along links of one kind (merging), the groups sorted by their vertices
// (ranking) and their links renamed (naming, arranging). From the node that has edge 0 the least edge of each subtree is found,
// which gives the keys (keys). A walk around the tree then gives each edge a place, such that what is beyond a link has places
// between two bounds: a group is found by binary search (tour).
#![tactic(auto)]

mod arranging;
mod assembly;
mod bounds;
mod keys;
pub mod laws;
mod merging;
mod naming;
mod nodes;
mod ranking;
mod skeleton;
mod tour;
mod tree;

pub use pair_split::{Item, Kind, What};
pub use tree::Tree;

// The number for what does not exist: for a component in no group, for no parent, and for an edge without a place.
const ABSENT: u32 = u32::MAX;
