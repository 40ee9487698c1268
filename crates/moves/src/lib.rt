// Moves of a block in the plane, as values.
//
// Two kinds of move lead from each plane rotation system of a block to every other (Di Battista and Tamassia 1996): a
// triconnected node of its SPQR tree is flipped, so that its skeleton is embedded as the mirror image, or the edges of a bond are
// permuted. A move names its node by number; a permutation gives the cyclic order of the bond's groups by their keys. What a
// move does to an embedding is no part of this crate: a history and the text of a report need the values alone.
#![tactic(auto)]

mod values;

pub use values::{Keys, Move, MoveList};
