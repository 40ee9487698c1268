// Rings of numbered nodes, linked by raw pointers.
//
// The nodes 0 to n - 1 are in one block of memory, and each holds the places of the node after it and of the node before it:
// circular doubly linked lists (Knuth, The Art of Computer Programming 1, 2.2.4, 2.2.5). Contracts view them as two lists of
// numbers, the node after each node and the node before it. Each of them is a permutation of the nodes, and each is the inverse of the
// other, after every call; a ring is an orbit.
// One step changes the rings: the nodes after two nodes are exchanged. It joins two rings into one or splits one into two, in
// constant time; taking a node out and putting one in are such steps. A ring is reversed in as many steps as it has nodes. All
// rings are reversed in one step, which turns a mark: while it is set, each node is read backwards.
// `Rings::new` and `Rings::copy` take one block of memory each, which is freed when the rings are dropped, and `Rings::list_next`
// that of its list; no other call takes memory.
#![tactic(auto)]

mod arena;
mod places;
mod rings;

pub use rings::Rings;
