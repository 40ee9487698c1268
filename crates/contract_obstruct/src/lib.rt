// Subdivisions of K5 and K3,3 from contractions of triconnected graphs (Thomassen 1980).
//
// Let a triconnected graph have an edge between x and y that may be contracted. A subdivision in the contraction is lifted to
// one in the graph: each path is led over the edge where it needs to be, and where two of the four paths at a branch vertex of
// K5 begin at x and two at y, K5 becomes K3,3. A plane rotation system of the contraction expands to one of the graph where
// the darts around the merged vertex have two runs, those of x and those of y. Where they do not, the faces around the merged
// vertex make up a circle through its neighbours, and x and y either have three common neighbours on it, which gives a K5, or
// have neighbours that alternate, which gives a K3,3.
//
// Each certificate is made of edges of the graph and is proved to be a subdivision of the graph; that there always is one,
// where the darts do not have runs, is proved as well. Rotation systems are given as steps: a list that gives for each dart
// the one that follows it. Not promised: which certificate is found, and time.
//
// The lemmas that crates above use (preceded by their module of proofs/):
//   BelowNext  below-next: what holds below k and of k holds below k + 1
//   Orders     turns-order: the cyclic order of a vertex, read from steps; steps-in: steps lead to darts
//   OneSystem  one-system: steps are those of one rotation system
#![tactic(auto)]

mod arcs;
mod crossing;
mod lifting;
mod obstructing;
mod paths;
mod rounds;
mod sectors;
mod triple;

pub use lifting::lift;
pub use obstructing::obstruct;
pub use rounds::round;
