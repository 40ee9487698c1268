// Contracting an edge of a triconnected graph: the theory, and one contraction as it is made.
//
// A triconnected graph has an edge that may be contracted: with its two ends and any third vertex removed, the others
// stay connected. If the graph has at least five vertices, what is left when such an edge is contracted, of parallel edges one
// kept, is triconnected (Thomassen 1980). So each triconnected graph leads by contractions to the complete graph on four
// vertices. Each law below is a function without a body, whose contract is the theorem.
//
// A `Level` is a triconnected graph of five vertices or more with an edge that may be contracted and the edges that stay; it is
// found by trying each edge with each third vertex, and its contraction is made. `is_triconnected` reports whether a graph is
// triconnected.
//
// The lemmas that are used most (preceded by their module of proofs/):
//   Neighbours  neighbour, three_neighbours, incident-three: a third neighbour of each vertex of a triconnected graph
//   Neighbours  attach: a vertex has a neighbour in each component that is left without it and two others
//   Tests       connected_without-true, connected_without-from, contractible-true, contractible-from: the tests are exact
//   Growth      grown: a component that gets greater, of an edge and a third vertex that part the graph
//   PrivateNeighbours orient, oriented: an edge named such that its second end has a private neighbour
//   Joined      joined-edge, joined-from, simple-same: vertices that an edge joins; kept-from, dropped-joined, private-parts
//   Contracted  end-forth, other-forth: the ends of an edge of a contraction, from those that it had
//   ContractedTriconnected  connected-contracted: what is connected stays so in a contraction
//   LevelFacts  level-contraction, level-graph, level-triconnected, level-edges, level-few, level-kept: the contraction of a level
#![tactic(auto)]

mod contractible;
mod labels;
mod level;
mod numbers;
mod triconnected;

ghost use Rattle.contractions.specs.Laws.{ContractibleEdgeExists, ContractibleEitherWay, ContractibleIsTested, ContractionIsGraph, ContractionIsMade, ContractionIsTriconnected, DegreeThree, OneEndHasPrivate};

pub use level::{Level, contracted_vertex, neighbour_marks};
pub use numbers::numbers_below;
pub use triconnected::is_triconnected;

/// The law that each vertex of a triconnected graph has at least three edges.
pub fn triconnected_degrees()
    ensures three { DegreeThree }
{}

/// The law that a triconnected graph has an edge that may be contracted (Thomassen 1980), and that a test finds it.
pub fn edges_may_be_contracted()
    ensures some { ContractibleEdgeExists }
    ensures tested { ContractibleIsTested }
    ensures either_way { ContractibleEitherWay }
{}

/// The law that a contraction of a simple graph is a graph, and that of a triconnected one along an edge that may be
/// contracted is triconnected; and that each edge has a contraction.
pub fn contractions_are_triconnected()
    ensures graph { ContractionIsGraph }
    ensures triconnected { ContractionIsTriconnected }
    ensures made { ContractionIsMade }
{}

/// The law that one end of an edge of a triconnected graph has a private neighbour, where the two have at most two common
/// ones.
pub fn ends_have_private_neighbours()
    ensures one { OneEndHasPrivate }
{}
