// Drawings on the grid exist: theory without code that runs.
//
// A connected graph without parallel edges has a straight-line drawing on the grid of width 2n - 4 and height n - 2 in the order of each
// of its plane rotation systems (de Fraysseix, Pach and Pollack 1990). The proof follows the program that draws: edges are added until
// each face is a triangle, the vertices are removed one after the other from the contour, and each is stacked back where the shift method
// puts it. The lemmas are those by which the steps of the program are proved; what is added here is that there is always a next step.
//
// The lemmas (module of proofs/ in front):
//   Triangulated triangulated: a triangulation, by filling the faces one after the other
//   Ordered      ordered: a canonical order, by removing free vertices
//   Positioned   positioned: points of a graph with both
#![tactic(auto)]

ghost use Rattle.drawing_exists.specs.Laws.{DrawingExists};

/// The law that a connected graph without parallel edges has a drawing on the grid in the order of each plane rotation system, if it has
/// two vertices or more, and fewer than 2^32.
pub fn drawings_exist()
    ensures { DrawingExists }
{}
