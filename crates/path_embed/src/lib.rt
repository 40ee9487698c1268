// Embedding triconnected graphs by paths, and certificates of those that are not planar.
//
// A triconnected graph is drawn path by path (path_rotation; Demoucron, Malgrange and Pertuiset 1964).
// If it has no plane rotation system, it has a subdivision of K5 or K3,3 (Kuratowski 1930), which is found by leaving out edges as
// long as the rest has none. The rest need not be triconnected: `obstacle_of` decides any graph by its blocks, their trees and the
// triconnected skeletons of these, each of which is drawn; for a block has a plane rotation system exactly where its triconnected
// skeletons have (Mac Lane 1937). A skeleton without one stands for its part of the graph, with a path of the graph for each item:
// so what is left out next are items of the skeleton, and large pieces of the graph go at a time. The part of a triconnected graph
// that all edges but one make is one block, and is decided by its tree. If none of these parts has an obstacle, the graph is K5 or
// K3,3 (minimal_graphs), and its certificate is read off; it is carried into the graph along the paths.
//
// `PathEmbedder` is an `Embedder`. Which items are left out first is not proved, as any order is right: by turns pieces of the fronds
// of a palm tree and of the edges off a breadth-first tree, large ones first, and last each item alone.
//
// The lemmas that are used most (preceded by their module of proofs/):
//   Decisions   part-planar, obstacle-excludes: what has an obstacle has no plane rotation system
//   PartRoutes  part-routes: the edges of a part are routes of it
//   OneEdge     without-answer, without-fewer: an obstacle of the part without one edge has fewer edges
//   Chain       chain-push, chain-level, chain-before: obstacles, each of the skeleton of the one before it
#![tactic(auto)]

mod carrying;
mod deciding;
mod descending;
mod dropping;
mod edges_left;
mod embedder;
mod marks;
mod orders;
mod rest;
mod shortening;

pub use deciding::{Obstacle, obstacle_of};
pub use embedder::PathEmbedder;
