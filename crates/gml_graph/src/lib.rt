// The graph of a GML document.
//
// GML (Himsolt's graph modelling language) writes a graph as a list under the key `graph` with a list under `node` for each
// vertex and one under `edge` for each edge. A node has its `id`, an edge the ids of its `source` and its `target`, all whole
// numbers of 64 bits; everything else is free and is ignored. Vertices and edges are numbered from 0 in the order of the
// file.
//
// A file may also say at which rotation system it starts: where every node has a string under its first `spqrRotation`, it gives the
// edges at the vertex, in order.
//
// `graph_of` gives the one graph of a document with the ids of its vertices and its start, or the first refusal in one fixed order
// of all; it looks at each pair of the graph list twice, at those of a node three times (once to hash its id, once for its start)
// and at those of an edge twice, and copies nothing but the numbers. `Named` shows the graph, the ids and the start, and finds the
// vertex of an id. `write_marked` writes a document with given texts in its nodes, from which the graph starts where these are the
// numbers of its edges (`laws::marked_documents`); it makes no copy of the document. Definitions are in specs: `Number` (whole
// numbers), `Lists` (what is under a key), `Start` (the start or its refusal), `Answer` (the graph or the refusal), `Named` (graphs
// with ids), `Marked` (documents with texts in their nodes).
#![tactic(auto)]

mod edges;
mod fault;
mod hashing;
mod ids;
mod integers;
pub mod laws;
mod lists;
mod marking;
mod named;
mod nodes;
mod start;

pub use fault::GraphFault;
pub use marking::write_marked;
pub use named::{Named, graph_of};
