// Split components: a block falls into bonds, polygons and triconnected graphs (Tutte 1966; Hopcroft and Tarjan 1973).
//
// A family is a list of edges under names. A side is a test on names; a 2-separation is a side with at least two entries whose
// other side has at least two, where just two vertices have entries of both (Cunningham and Edmonds 1980). A family is tight
// where each side that is not empty, and whose other side is not, has two vertices in common with it: so is the family of a
// block. The one idea is that a side of a 2-separation inside which there is no smaller one, with one entry between the two
// common vertices in place of the other side, is prime: it has no 2-separation. A prime family is triconnected, or has three
// entries and is a bond or a triangle. So a splitter keeps one family, cuts off a minimal side as a finished component, puts
// one virtual edge in its place, and stops when the family is prime; nothing is split twice, and the components form a tree.
//
// `Splitter` is the trait of what does so, and `IsSplit` its contract: the components are of their kinds, each edge is in
// one of them, each link in both that it joins, the links form a tree, and the two sides of a link have just its two ends in
// common. `PairSplitter` tries all pairs of vertices and takes a side with the fewest entries.
//
// The lemmas on families, by their modules in proofs/ (those on the state of splitting and on links are listed at the laws):
//   Sides           common-from, common-inside, common-outside: common vertices by entries; exactly_two, separation-from: in a
//                   tight family a side with no common vertices but p and q, and two entries on it and off it, is a 2-separation
//   Replaced        replaced-common, replaced-tight: a side replaced by one entry: common vertices stay, tight stays
//   Minimal         lifted-separation, minimal-prime: 2-separations are lifted; a minimal side is prime
//   Degrees         tight-degree: each end of an entry is one of another entry
//   PrimeSimple     parallel-separation, prime-simple: parallel entries are a side; a prime family has none
//   PrimeRigid      prime-four, prime-stays_connected, prime-rigid: a prime family of four or more entries is triconnected
//   ThreeEntries    three-bond, three-polygon: a tight family of three entries
//   GraphFamily     graph-is_family, one_block-tight: the family of a graph
//   SameEntries     same-tight, same-separation: the order of the entries does not matter
//   BridgeSides     bridge-from, bridge-end, bridge-common: what a family falls into when two vertices are removed
//   Candidates      bridge-separation, bridge-inside: which bridges are sides; each side contains one
#![tactic(auto)]

mod bridges;
mod components;
mod family;
mod labels;
pub mod laws;
mod lists;
mod plain;
mod search;
mod splitter;
mod splitting;
mod writing;

pub use components::{Comp, Comps, Item, Kind, Piece, What};
pub use family::NamedEdge;
pub use lists::{CompList, EdgeList, PieceList};
pub use plain::PairSplitter;
pub use splitter::Splitter;
pub use splitting::{Finished, graph_edges, kind_of, kind_of_all};
pub use writing::write_components;
