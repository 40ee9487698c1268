// Choices of plane rotation systems of a block: theory without code that runs.
//
// In a plane rotation system of a block the groups of every node of its tree are in runs, and what each node has of it is a
// plane rotation system of its skeleton. A bond has (k - 1)! of these, determined by the cyclic order at the one pole; a
// triconnected skeleton has two, mirror images (Whitney 1933); polygons and nodes of one or two edges have one. So the choices
// determine a plane rotation system of the block, every selection of possible choices is that of one, and moves, each of which
// changes one choice, lead from any to any other (Di Battista and Tamassia 1996).
//
// The lemmas that are used most, by their modules in proofs/:
//   Rounds    skeleton_round, same-rounds, mirror-keys, round-reversed: the keys around a vertex of a skeleton
//   Plane     parts, same-round, bond-is_plane, plane-bond, plane-kept: by the skeletons
//   Told      tell, two-choices, possible, selection: choices and plane rotation systems
//   Reached   lead, kept, list-kept: what moves lead to
//   Listed    options, kept-list: the list with locked nodes
#![tactic(auto)]

mod laws;

pub use laws::{
    choices_tell_plane_systems, lists_of_plane_systems, moves_keep_plane, moves_reach_all,
};
