// Rotation systems of a block, composed of rotation systems of its skeletons.
//
// Around a vertex of a node of the tree the edges of each group are in one run, and the runs are in the order of the items in
// the node's skeleton (Di Battista and Tamassia 1996). So the edge that follows edge e around v is found by a walk in the tree:
// the skeleton that has e says which item comes after e at v. Where that is a link, what comes after is the first edge of a run
// beyond it. The run of the link back, in the order of the node beyond, ends where that run begins, so there the item after the
// link back is the next to be looked at. The walk goes straight to the node of the edge that it finds.
//
// `compose` gives the one rotation system that follows a family, of which a table has what follows each item around its ends
// (specs/Followers), and fails only if memory runs out. `next_edges`, `bond_row` and `polygon_row` make the lists of such a table. No
// skeleton is made as a graph of its own, nothing is spliced, and nothing recurses. All walks together pass each link at most twice at each
// of its ends, and each step takes a binary search in a node.
//
// The lemmas, by their modules in proofs/:
//   Back     back-key: the key of the link back is the first key of the node, but that of the link itself
//   Walk     LeadsOn, IsNear: where the walk is; starts, arrives, goes-on, near-start, near-next
//   Tables   place-within: the places of an item in the table
//   RowLists row-made: the list of a node from a rotation system of its skeleton
//   EndSums, PolygonRows  polygon-sum, first-other: of the two items at a vertex of a polygon each follows the other
//   BondRows turns-more, bond-made: the list of a bond, from the order of its items
//   Rounds   images-list: a cyclic order is the list of the successors of its first member; the lists of all vertices
#![tactic(auto)]

mod composing;
mod homes;
mod rows;
mod searching;
mod sums;
mod table;
mod walking;

pub use composing::compose;
pub use homes::{homes_of, put_homes};
pub use rows::{bond_row, next_edges, polygon_row};
pub use searching::item_with_key;
pub use sums::end_sums;
pub use table::item_place;
