// Blocks in the plane: an embedding of a block from those of its skeletons, and its choices.
//
// A plane rotation system of a block is determined by the choices of the bonds and the triconnected nodes of its tree, and each
// selection of possible choices is that of one plane rotation system (Di Battista and Tamassia 1996). So the first of them, in the order by the first
// node at which the choices differ, has the least choice at each node: a bond has its items in order at its lesser pole, and a
// triconnected skeleton has that one of its two plane rotation systems, mirror images of each other (Whitney 1932), whose
// second item at its least vertex comes before the last. `embed_by_skeletons` composes these from what follows each item in them, which
// for polygons and bonds is known without a rotation system, or returns a skeleton and a subdivision of K5 or K3,3 in it. `plane_block`
// carries that one into the block.
//
// A `PlaneBlock` is a block with its tree, a plane rotation system, the present choice of each node, and locks on nodes; that
// these belong together is its invariant. Calls fail only if memory runs out, except that `take` may reject lists.
//
// A triconnected node is flipped, and two groups of a bond are exchanged, or all brought into another order, by moving the runs in
// which the groups lie around the vertices of the node: a run is found by walking along it, and moved without looking at it. One group,
// that beyond which the tree has most, stays where it is, and is not walked along if an edge of it is found nearby (sizes). So no memory
// is taken, and the inside of a group is never touched. `take` accepts lists where V - E + F is 2 (Euler 1758,
// Heffter 1891).
//
// The lemmas (module of proofs/ in front):
//   Lexicographic  rising-least, mirrored-later: which list comes first
//   First          fan-first, rigid-first: the least possible choice by kind; first-followed: what follows them is first
//   RunSteps       ends-last, begins-first, put-groups: where runs end and begin, and what becomes of one that is moved
//   TurnSteps      turning-on, turned-more: groups brought into the reverse order, at one vertex and at all of a node
//   ExchangeSteps  cut-groups, put-both: two groups exchanged
//   ArrangeSteps   arranging-more, arranging-last: each run after the one before it; keys-turned: written from another key on
//   BondMoves      least-groups, exchange-leads, both-arranged: the groups at both poles in the order of the choice, or of keys
//   KeptLists      turned-round, exchanged-least: choices changed in place
//   Flat           flat-view, piece-of, lent-put: choices kept as one list
//   KeptKeys       first-kept, other-state: the kept choices of the first rotation system, and of another one
//   RunKeys        choice-from, choice-long: a choice read off a cyclic order, and its length
//   Fans           fan-is: the rotation system with the edges in order at vertex 0, and in reverse order at the others
//   FirstRows      first-polygon, first-bond, first-rigid: what follows each item in a first member, and its choice
//   RowTables      have-more, chosen-more, table-of: the lists of all nodes are a table
//   Selected       rigid-mirrored, bond-changed: members with other choices; all-chosen: the one system that has them
//   States         state-moved, state-mirrored: the invariant after a move
#![tactic(auto)]

mod arranging;
mod blocks_in_plane;
mod choices;
mod choosing;
mod drafts;
mod exchanging;
mod kept;
mod members;
mod nonplanar;
mod planes;
mod runs;
mod selecting;
mod sizes;
mod state;
mod systems;
mod taking;
mod turning;

pub use blocks_in_plane::{BySkeletons, embed_by_skeletons};
pub use drafts::Draft;
pub use kept::place_of;
pub use moves::{Keys, Move, MoveList};
pub use nonplanar::NonplanarBlock;
pub use planes::{Outcome, plane_block};
pub use state::PlaneBlock;
pub use taking::TakeFault;
