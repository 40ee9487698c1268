// Rotation systems of the skeletons of a block, read off one of the block: the inverse of `skel_compose::compose`.
//
// Where the groups of each node of the tree are in runs, as in every plane rotation system, the runs around a vertex of a node
// are the items of its skeleton there, in their cyclic order (Di Battista and Tamassia 1996). So where edge f follows edge e
// around v, and a node has them in the groups of two items, the one item follows the other there. The nodes that have them in two
// groups are those on the way in the tree between the node that has e and the one that has f. From both, climbs lead up the tree, which hangs
// from the node with edge 0, to the node where they meet, always from the one that is later in an order with each node after its parent. They
// write into a table what follows, for each edge at each of its ends. At a node on the way up from one edge, the other edge is beyond
// the first item, which is the link to the parent. So nothing is searched. Every item of every node is written once at each of its ends:
// there the last edge of its run is followed by one of another group, or the item is an edge that is alone at the vertex.
//
// `order_of` gives the nodes in such an order, `order_from` and `rooted_at` from another root. `decompose` gives the one family that a rotation
// system follows. Where its members need not be made, `followers` gives the table (`followers_by_steps`, where the order and the face steps
// of the rotation system are known), `member_of` one member, and `face_steps` the face steps of one member after the other. All fail only
// if memory runs out. All climbs together take as many steps as the skeletons have items, twice. Nothing recurses. The lists of all nodes
// are kept as one (`FlatLists`).
//
// The lemmas, by their modules in proofs/:
//   Ways       climbing-more, listed-more: ways up, and lists in which each node is after its parent
//   Hanging    ordered: such a list is an order of the tree; FirstParents are-parents: the parents by the first items
//   Rerooting  rooted-climbed: the order from another root, the way up from which comes first and is turned
//   UpLists    ups-put, ranks-done: the links to the nodes from their parents, and ranks
//   Around     follows-here: the item that has the next edge follows; Below below-chained, below-along: the nodes below a node
//   Entries    entry-has, entry-keeps: what a table has after an entry is written
//   Joins      up-climbs, there-climbs, met-last: what climbs from two edges write; Climbs: as they are carried out
//   Followed   all-followed: a table with what follows the last edge of each run has what follows each item
//   Stepped    follower-dart: what follows an item gives the face step; steps-push: the steps of one node more
//   Gathered   items-start, item-next: items gone around in the table; member-made, members-all: the members made of them
#![tactic(auto)]

mod climbing;
mod decomposing;
mod filling;
mod lists;
mod members;
mod ordering;
mod steps;
mod survey;
mod table;
mod ups;

pub use decomposing::decompose;
pub use filling::{followers, followers_by_steps};
pub use lists::{FlatLists, renew};
pub use members::member_of;
pub use ordering::{ABSENT, Order, order_from, order_of, rooted_at};
pub use steps::face_steps;
