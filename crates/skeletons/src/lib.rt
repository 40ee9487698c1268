// Skeletons of a block: how its rotation systems and those of the skeletons of its tree belong together: theory without code
// that runs.
//
// Viewed from a node of the tree, each edge of the block is in the group of one item: it is the item, or lies on the side of
// the link that the item is. Around a vertex of the node the edges of each group may be in one run; in a plane rotation
// system they always do. The choice of a triconnected node or a bond is the cyclic order of its items around its least vertex,
// by their keys. Moves change it: a triconnected node is flipped, a bond permuted; inside each group and at all other
// vertices everything stays.
//
// One fact on trees carries all: of two nodes each edge is in the group of the first towards the second, or in that of the
// second towards the first. So what another node puts in order is, for a node, a stretch of one group, and whether
// groups are in runs depends on the list of keys alone: moves of one node change nothing for the others, and orders for all
// nodes can be put in one after the other, from a node outwards. And three edges at a vertex are in three groups at some
// node, so orders for all nodes determine the cyclic order at the vertex. Neither needs that anything is plane.
//
// The lemmas that are used most, by their modules in proofs/:
//   NodeItems    group-is, edge-item, edge-end, group-at, key-edge, outside-edge: the items of a node and their groups
//   Towards      toward, group-either, shared-end, beyond-falls, tells-apart: two nodes, and the item towards the other
//   KeyRuns      runs-same, order-exchanged, met-runs, met-order, order-successor: runs through their keys
//   Rearranged   others-keep, reversed-once, regrouped-once, gathered-runs, told: groups in another order
//   Systems      same-turns, made, made-order, made-system: rotation systems as lists
//   Unique       one-order, one-system: orders at all nodes determine the rotation system
//   Composing    composed: orders at all nodes are those of a rotation system
//   Places       place-holds, place-at, skel-end, items-turn: families as lists of rotation systems
//   Vertices     least-has, bond-vertex, bond-keys: the vertices of a node
//   Moved        moved-other, moved-contiguous, moved-choice, runs-keys: what a move changes
//   Before       below-from, below-to, not-both, rising-told: the order by choices
//   Leading      moves-lead, reached-kept, reached-list: lists of moves, from what single moves do
#![tactic(auto)]

mod laws;

pub use laws::{
    keys_met_are_keys_of_runs, lists_are_told_by_members, moves_change_one_choice,
    moves_name_different_choices, rotation_systems_follow_families,
};
