// Components of a graph in the plane: rotation systems over all their blocks.
//
// All plane rotation systems of a component whose part in each block is in the block's list make a list of their own: the first
// block with different parts decides which comes first, and where there is none, the first cut vertex with different orders. A
// rotation system is determined by its parts in the blocks and its orders around the cut vertices, since around each other vertex
// there is one block alone; and these are possible exactly where each part is in its list and each order is an arrangement for
// the parts. So the list has for each vector of members of the blocks' lists, in lexicographic order, each vector of arrangements at
// the cut vertices, in lexicographic order; and it is walked as a number is counted up. `next_whole` advances the last cut
// vertex that can advance, else the last block, and all later ones return to their first members; it takes no memory.
// `list_after` keeps the members that follow.
//
// A rotation system is plane exactly where it is so on each block and no two blocks cross, so arrangements at the cut vertices make
// plane rotation systems of plane blocks (`laws`). The tables of a cut vertex, for its arrangements, depend on the component
// alone, but for what follows each edge in its block: that is renewed from the blocks before they are used, which takes no memory.
//
// The lemmas on a component (module of proofs/ in front):
//   Components      the component is a part of its graph; SubgraphBlocks, ComponentBlocks: its blocks are those of the graph in it
//   Outer           orders in the numbers of the graph and of a part; Arranging: arrangements at a cut vertex
//   WholeParts, Assembling   whole_is_plane, whole_is_given: the rotation system that parts and arrangements make
//   Searching, BlockTables, FrameFacts   tables by number, and what a component that is kept tells
//   Orderings       lists of edges from outside; Ranks: the ranks of blocks
//   CutTables, Renewing      the tables of a cut vertex, and that they are those of the present blocks
//   Reasons         why a list is not an arrangement, in the numbers of the graph
//   CutLists, WholeLists     tables and lists of all cut vertices; the lists of the component
//
// The lemmas on the list (module of proofs/ in front):
//   Followers       succeeds-rank, end-rank: the member that follows, and the last, without places, and their places
//   Odometer        next-in_block, next-around, end-of_all: the last place that can advance does so, and later ones begin again
//   BlockSteps      place-follows, place-first, place-last: the same of a block's list; ListSteps: of increasing lists
//   Moved           list-moved, component-moved: blocks that moved in their lists
//   Told            parts-tell: what determines a rotation system; member-arranged: its orders are arrangements
//   Steps           next-lists, next-blocks, last-of_all: the steps of the walk
//   OfParts         orders-arranged, made-of_parts: a member is made of its parts
//   Vectors         vectors-rise, vector-has: all vectors in order; ListExists: the list
#![tactic(auto)]

mod advancing;
mod component;
mod copying;
mod cuts;
mod faults;
pub mod laws;
mod list_laws;
mod listing;
mod members;
mod numbering;
mod ordering;
mod regrouping;
mod tables;
mod walking;
mod wholes;

pub use component::Frame;
pub use cuts::{Cuts, set};
pub use faults::RegroupFault;
pub use list_laws::one_list;
pub use listing::list_after;
pub use members::Member;
pub use regrouping::regroup;
pub use walking::next_whole;
pub use wholes::whole;
