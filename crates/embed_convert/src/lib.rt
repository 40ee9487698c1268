// The moves from one plane rotation system of a block to another.
//
// A plane rotation system of a block is determined by the choices of the bonds and the triconnected nodes of its tree, and a move
// changes one choice: a triconnected node is flipped, a bond permuted (Di Battista and Tamassia 1996). So one move for each
// node at which the choices differ leads from any plane rotation system to any other, through plane ones alone. `moves` gives
// them in order of the nodes; a bond is permuted to its choice in the target. It compares the two choices of each node once,
// and fails only if memory runs out.
//
// The lemmas (module of proofs/ in front):
//   Between  no-move, some-move: the move of a node; moves-more: one node more; keep-locks: no move of a locked node
#![tactic(auto)]

mod converting;
mod laws;

pub use converting::moves;
pub use laws::moves_keep_locks;
