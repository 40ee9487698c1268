// Embedding triconnected graphs by contraction (Thomassen 1980).
//
// Edges that may be contracted are contracted, one after the other, until the complete graph on four vertices is left. Of that
// one a plane rotation system is known. On the way back up, the answer for each graph is found from that for its contraction:
// where the darts around the merged vertex have two runs, those of the one end and those of the other, the vertex is split
// between them, the contracted edge is inserted, and so are the edges to common neighbours. Where they do not, and where the
// contraction has a subdivision, `contract_obstruct` makes one of the graph.
//
// `ContractEmbedder` implements `Embedder`: the answer is a plane rotation system of the graph, or a subdivision of K5 or K3,3 in
// it in its written form. Not promised: which of the two rotation systems, and which subdivision, is found; time.
#![tactic(auto)]

mod answers;
mod darts;
mod descending;
mod embedder;
mod expanding;
mod rounds;
mod runs;
mod steps;
mod tetrahedron;

pub use embedder::ContractEmbedder;
