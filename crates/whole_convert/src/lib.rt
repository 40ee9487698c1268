// Moves from one plane rotation system of a component to another.
//
// A plane rotation system of a component is determined by its parts in the blocks and its arrangements around the cut vertices. So
// moves of each block lead the block to its part in the target, one for each node at which the choices differ (Di Battista and
// Tamassia 1996), and then each cut vertex around which the target has another arrangement gets it. A move of a block changes which
// orders around its cut vertices are arrangements: they get their first ones. Each rotation system on the way is plane, since the parts
// in the blocks are and no two blocks cross.
//
// `whole_moves` first makes a rotation system of the lists that are given, and counts V - E + F. A plane one leaves a plane
// rotation system on each block, so a block can refuse its part only if a locked node has another choice there. All is tried on
// copies; `lead_whole` returns them with the moves.
//
// The lemmas (module of proofs/ in front):
//   Connected    component-connected: a component is connected, so that plane is V - E + F = 2
//   PartOf       parts-plane: a plane rotation system leaves plane ones on the blocks, which their lists give
//   Takes        no-bad, no-genus, taken-led: what taking these lists makes of a block; lead-refusal: why it is refused
//   Pieces       pieces-of: the edges of a block around all vertices, cut up into its lists
//   DealtBlocks  dealt-ready, dealt-refusal: what a block is given to take, and why it refuses
//   LedAll       led-blocks, led-member: copies of all blocks with their parts
//   StepLists    moves-more, arrangements-more: the steps, one block and one cut vertex more
//   FrameTables  read-test, cut-there: what the code reads; then-first, then-stays: the lists, one cut vertex more
//   Stages       the blocks on the way; arrangements-same, first-same: what is apart from a block does not change
//   BlockStages  all-blocks_lead: the moves of the blocks lead; CutStages: the arrangements lead, and whole-leads: all steps
//   Converted    moved-to: steps that are found so are the moves to the target
//   TargetLists  the lists of the copies are those of the target
#![tactic(auto)]

mod converting;
mod cut_lists;
mod dealing;
mod faults;
mod laws;
mod leading;
mod moving;
mod orders;
mod steps;
mod target;

pub use converting::{Led, lead_whole, whole_moves};
pub use faults::WholeFault;
pub use laws::{whole_moves_lead, whole_to_parts};
pub use steps::WholeMove;
