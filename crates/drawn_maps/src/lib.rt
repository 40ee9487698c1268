// Maps of darts that draw a graph in the plane: theory without code that runs.
//
// A map of darts draws a graph where it is plane and its vertices are those of the graph: two darts are in one orbit exactly
// where they leave the same vertex. The map of a plane rotation system draws its graph. A map that draws a graph is extended by
// one edge at a time, whose two darts are put in after others: an edge to a new vertex at any corner, or an edge between two
// corners of one face. Each keeps Euler's sum. So the maps grow beside their graphs, without a rotation system as lists.
// Each law below is a function without a body, whose contract is the theorem.
//
// The lemmas that are used most (module of proofs/ in front):
//   Extended     extended-told, put-told: a map with one more edge, and a dart put in, by labels of the darts
//   Drawn        hang, cross: a graph drawn with an edge to a new vertex, and with one between corners of a face
//   Drawn        hung-corner, hung-new, hung-old, joined-corner, joined-first, joined-old: what follows each dart then
//   Systems      to-drawn: the map of a plane rotation system
#![tactic(auto)]

ghost use Rattle.drawn_maps.specs.Laws.{PlaneSystemDraws, EdgeToNewVertex, EdgeInFace};

/// The law that the map of a plane rotation system draws its graph.
pub fn plane_systems_draw()
    ensures { PlaneSystemDraws }
{}

/// The law that a map which draws a graph is extended by an edge to a new vertex, and by one within a face.
pub fn edges_are_drawn()
    ensures to_new_vertex { EdgeToNewVertex }
    ensures in_face { EdgeInFace }
{}
