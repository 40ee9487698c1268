// The shift method of straight-line drawing on a grid (de Fraysseix, Pach and Pollack 1990), in linear time (Chrobak and Payne 1995).
//
// The vertices of a triangulation are placed in a canonical order, the reverse of the order in which they are removed. Those that were
// placed are drawn under their contour, whose edges have slopes 1 and -1. The heads of the next vertex w are its neighbours on the
// contour. All to the right of the first head moves one to the right, and all from the last head on one more; then w is put where the
// line of slope 1 through the first head and that of slope -1 through the last head meet. The inner heads are covered by w, and from now
// on move with it.
//
// So no vertex is moved: of a vertex on the contour the distance to its left neighbour is kept (its gap), and of one that is covered
// the distance to the first head of the vertex that covers it (its offset). In the end positions are given from the first removed
// vertex on to those that it covers.
//
// Why nothing crosses: at each stage the vertices are drawn under the contour at *all* positions where neighbours on the contour are as
// far apart as their gaps or farther, and those that are covered keep their offsets. Such positions after a step are such positions
// before it, so this carries over, once w overlooks its heads. It does: for an inner head u the height of u differs from that of the
// first head by less than the offset of u, and from that of the last head by less than the width that is left, as the first and the last
// gap are one more than the slopes need. That w may then be stacked is the law of stacked_maps.
//
// The promise: the points are such a drawing under the first contour, for each triangulation of which the order is one, on a grid of
// 2n - 4 by n - 2 for n vertices. The order, and that there is one, is a condition (canonical_orders makes it).
//
// The lemmas that are used most (module of proofs/ in front):
//   Stretches   ends-reach, climbs, descends: heights along a stretch; pull-back: positions before a step
//   Overlooked  overlooks: the new vertex overlooks its heads
//   Rows        removal-stretched: what a removal does to the vertices of the contour; Orders: covered-off, stays-last, one-gone
//   Steps       placing: what one step does to the numbers; Placed next-placed, can-stack; Spread extends-on, draws-on
//   Stages      placed-at, all-drawn, positions: the numbers of each stage, the drawing and the positions at the end
//   Reached, Writes, Fitting, Drawings: the same as the loops have it
#![tactic(auto)]

mod placing;
mod shape;
mod spreading;

pub use placing::place_vertices;
