// The summary of a made graph.
//
// A made graph is one block with a plane rotation system, so its tree and the list of its plane rotation systems are summed up in a
// few numbers: vertices and edges, nodes of each kind, members of the list, and one node with its choice at the first member
// and at the last. The last member is the mirror image of the first, so that a choice there is the first one
// reversed. Some node has choices: a tree of polygons alone is a single polygon, and a made graph has a vertex of three edges.
//
// The lemmas (each after its module of proofs/):
//   SomeChoices    no-fork: where no node has choices no vertex has three edges
//   OneSummary     one-summary: a graph has one summary at most
//   FirstAndLast   first-there, last-choice, all-members: the list of a block whose current member is the first
#![tactic(auto)]

mod kinds;
pub mod laws;
mod summing;
mod text;

pub use summing::summary;
