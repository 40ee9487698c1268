// The moves of a block in the plane, made if allowed.
//
// A triconnected node is flipped, a bond is permuted to given keys, and the whole block is mirrored (Di Battista and Tamassia 1996;
// Mac Lane 1937). Each leads from a plane rotation system to a plane one. A locked node is not moved. A call that
// fails says why, and leaves the block as it was. Nothing but `back` takes memory.
//
// Where a move leads is determined by the choices: it keeps all but that of its node, and a plane rotation system is determined by its choices. So
// the permute to the present choice of a bond leads back to it from whichever order its groups are brought into.
#![tactic(auto)]

mod carrying;
mod flipping;
mod mirroring;
mod permuting;

pub use carrying::{back, carry_out};
pub use flipping::{FlipFault, flip};
pub use mirroring::{Locked, least_held, mirror};
pub use permuting::{PermuteFault, permute};
