// Triangulations: edges are added to a connected simple graph with a plane rotation system until each face is a triangle.
//
// The graph and its rotation system are a map of darts that draws the graph (drawn_maps). As long as some face has more than three
// darts, an edge is added within it, from the vertex that a dart d leaves to the one where two steps along the face lead: these steps
// and the edge are a triangle then, and the rest of the face has one dart less. The edge may be added where the two vertices differ
// and no edge joins them; so the graph stays simple. A connected simple graph of three vertices or more has no face of one or two
// darts. Of any three consecutive darts of a face that is no triangle the edge may be added at one: else there would be two triangles
// on one edge that come in the same order, after the edge, at both of its ends, and in the plane these orders are opposite. So the
// loop that fills a face takes at most two steps along it before it adds an edge, and ends, since a simple graph of n vertices has at
// most n * n darts.
//
// `triangulate` returns such a map: its darts are those of the graph, in the order of the rotation system around each vertex, and the
// new ones. Triangulating first, by any edges, is how de Fraysseix, Pach and Pollack (1990) come to a straight-line drawing of each
// plane graph: a triangulation has a canonical order, and the new edges are left out of its drawing. Only running out of memory has
// no cause in a clause.
//
// The lemmas that are used most (module of proofs/ in front):
//   SimpleMaps   one-tail, one-vertex, tail-face, no-loop, only-dart: darts and their ends; face-moves, face-returns: no short faces
//   Turns        turn-after, turn-before: the order of three darts at a vertex, two of which follow one another
//   TwoTriangles two-triangles: those on one edge come in opposite orders at its ends
//   Progress     third-cut: at one of three consecutive darts an edge can be added
//   Bounded      darts-bounded: at most n * n darts
//   Cut          cut-map, cut-extends, triangle-kept, face-kept: the map with an edge added; restriction-same: restrictions of it
//   Filled       filling-cut, onward-less, cut-less: what the loops keep, and what decreases
#![tactic(auto)]

mod filling;
mod map;
mod pairs;
mod starting;

pub use filling::triangulate;
pub use map::DartMap;
