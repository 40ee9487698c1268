// Embedding triconnected graphs quickly: unproved finders, proved checkers.
//
// What is cheap to check needs no proof of how it was found. A finder proposes a rotation system by the left-right method (de
// Fraysseix and Rosenstiehl 1982; Brandes 2009): on the way of a depth-first search the back edges are partitioned into left and
// right ones. `faces::euler` decides whether the proposal is plane. If it is not, or if the method finds no such partition, a
// finder proposes a subdivision of K5 or K3,3: the edges off a spanning tree, and then the paths, are dropped as long as the rest
// is not planar by this method. `kuratowski::is_subdivision` decides whether the proposal is one. If neither is accepted, another
// embedder is called.
//
// `QuickEmbedder` implements `Embedder` over every embedder, and `embed_by` does for every finder as well. Of the finders it is
// proved that they are safe and end, and nothing else: a mistake in one costs a call of the other embedder. Not promised: that
// the other embedder is not called; which of the two rotation systems, and which subdivision, is found; time.
#![tactic(auto)]

mod embedder;
mod finders;

pub use embedder::{QuickEmbedder, accepted_proposal, embed_by};
pub use finders::{Finder, LeftRight};
