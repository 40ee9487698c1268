// Plane rotation systems by paths that are drawn into faces, one after the other (Demoucron, Malgrange and Pertuiset 1964).
//
// A part of the graph, at first one edge, is drawn: a map of darts. What is not drawn hangs together in bridges, each attached at
// vertices of the part. A path through a bridge from one attachment to another is drawn into a face that passes all of its
// attachments. If a bridge fits no face, the graph has no plane rotation system; if it fits one face alone, each plane rotation
// system that is this map on the drawn darts has the path in this face. So what is drawn is forced: if the graph has a plane
// rotation system, it has one that is this map on the drawn darts. A cycle has two faces, which a mirror image exchanges; there a
// path is drawn into either.
//
// `draw` returns a plane rotation system, or that the graph has none, or that it is stuck; then the graph is not triconnected. What
// is drawn is always a drawing: a plane map, which no vertex cuts (path_separation). Darts of one face have one label, and a path is
// drawn only between two corners that are found to be of one face. Each path draws an edge or more, and the lists at the end are those
// of the map: where all edges are drawn, they are a plane rotation system. In a round the search for attachments is not promised to be
// right: each path back to an attachment is checked edge by edge. The search through a bridge ends where one corner is left, and the
// path to the attachment met last is drawn there: mostly the one that left no choice, so that the search is hardly longer than the path.
// The vertices at which bridges are to be tried wait in a stack, and those of a new path wait anew; a bridge is tried once in a round,
// and what is left of it again after a path of it was drawn. A bridge at which no path is drawn takes time linear in its edges and in
// the degrees of the attachments. Of the two faces that a path makes the shorter one has a new label; all faces are labelled at first
// and after a last look alone. Each round but the last draws a path.
//
// Where a round draws nothing and some edge is not drawn, each foot is looked at once more (a foot is an undrawn dart whose tail is
// in the part): all its attachments and all corners that it fits are found. At the first foot that fits one corner alone, or none,
// this is the next step. Else each foot fits two corners, and then the graph is not triconnected: in a triconnected graph some foot
// fits at most one, as soon as three edges are drawn at a vertex, and before that the mirror image decides. A look takes time linear
// in the graph for each corner that is tried. All tables of the rounds are reserved before the first one, and nothing recurses.
//
// The lemmas that are used most (module of proofs/ in front):
//   PathDrawn    one-face, still-follows: the path of a plane rotation system, drawn into a face
//   ForcedSteps  no-plane, sole-forced, mirror-forced: what is forced where a bridge fits no face, or one, or two that a mirror exchanges
//   PathTables   path-tables, path-closed: the tables and labels after a path is drawn
//   DrawingKept  edge-drawn, path-drawn, drawn-order: what is drawn is a drawing
//   FaceLabels   label-orbit, labels-tell: the labels of the faces
//   Finished     around, none-bad, same-system: the lists of a map
//   Attached     attached-leads, admissible-fits, fits-admissible: attachments, and the corners that a foot fits
//   FreeLabels   free-labelled, touched-attached, attached-touched: attachments found by labels of what is not drawn
//   LastLook     none-fit, one-fits, two-fit, look-way: what follows from the corners that a foot fits
//   Settled      all-settled, settled-order: where each foot of a triconnected graph fits two corners, all edges are drawn
#![tactic(auto)]

mod attempts;
mod drawing;
mod finishing;
mod fitting;
mod inserting;
mod labels;
mod outcome;
mod rounds;
mod searching;
mod settling;
mod tables;
mod ways;

pub use drawing::draw;
pub use outcome::Drawn;
